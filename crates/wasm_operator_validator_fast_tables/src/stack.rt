//! The operands of all open frames.

ghost use Rattle.std.specs.Prelude.{◌≡◌, ◌<◌, ◌≤◌, ◌∷◌, [], true, false, ℕ, List, IfSome, length};
ghost use Rattle.wasm_operator_validator_fast_tables.specs.Stacks.{Values, lying, with_all};
ghost use Rattle.wasm_operator_validator_fast_tables.specs.Values.{IsLowered};

use crate::order::Order;
use crate::pile::Pile;
use std::alloc::Global;
use std::marker::Model;

// More operands than so many are put on and taken off at once.
const FEW: usize = 8;

// Whether these are the same codes. It goes to the end if they are not, so that several are compared at a time.
#[inline(never)]
fn are_same(one: &[u32], other: &[u32]) -> bool
    ensures { result ≡ true → one.now ≡ other.now }
{
    if one.len() != other.len() {
        return false;
    }
    let mut same = true;
    for i in 0..one.len() {
        if one[i] != other[i] {
            same = false;
        }
    }
    same
}

/// All operands, and how many of them lie under the innermost frame. A contract sees that frame's, and those under them.
#[derive(Drop)]
pub struct Stack {
    items: Pile<u32>,
    base: usize,
}

impl Model for Stack {
    ghost use Rattle.std.specs.Prelude.{◌≤◌, length};
    ghost use Rattle.wasm_operator_validator_fast_tables.specs.Stacks.{Values, lying};

    ghost Value = { Values };

    ghost view = { λ r. lying r.base r.items };

    ghost invariant = { λ r. r.base ≤ length r.items };
}

impl Stack {
    /// One without operands and without places.
    pub fn new(alloc: Global) -> Stack
        ensures { result.0 ≡ [] }
    {
        Stack {
            items: Pile::new(alloc),
            base: 0,
        }
    }

    /// No operands from now on, and places for so many.
    pub fn begin(&mut self, places: usize) -> bool
        ensures { result ≡ true → self.new.0 ≡ [] }
    {
        self.base = 0;
        self.items.begin(places, 0)
    }

    /// Puts an operand on, where there is a place for it.
    #[inline(always)]
    pub fn put(&mut self, ty: u32) -> bool
        ensures { result ≡ true → self.new ≡ (ty ∷ self.old.0, self.old.1) }
    {
        self.items.put(ty)
    }

    /// Takes an operand of this type off.
    #[inline(always)]
    pub fn take(&mut self, ty: u32) -> bool
        ensures { result ≡ true → self.old ≡ (ty ∷ self.new.0, self.new.1) }
    {
        if self.items.len() <= self.base || self.items.under(0) != ty {
            return false;
        }
        self.items.shorten();
        true
    }

    /// Whether an operand of this type lies on top.
    #[inline(always)]
    pub fn has(&self, ty: u32) -> bool
        ensures { result ≡ true → (rest : List ℕ) × (self.now ≡ (ty ∷ rest, self.now.1)) }
    {
        if self.items.len() <= self.base || self.items.under(0) != ty {
            return false;
        }
        true
    }

    /// Takes an operand off.
    #[inline(always)]
    pub fn forget(&mut self) -> bool
        ensures { result ≡ true → (t : ℕ) × (self.old ≡ (t ∷ self.new.0, self.new.1)) }
    {
        if self.items.len() <= self.base {
            return false;
        }
        let top = self.items.under(0);
        self.take(top)
    }

    /// Puts an operand in the place of another.
    #[inline(always)]
    pub fn change(&mut self, takes: u32, gives: u32) -> bool
        ensures { result ≡ true → (rest : List ℕ) × (self.old ≡ (takes ∷ rest, self.old.1))
            × (self.new ≡ (gives ∷ rest, self.old.1)) }
    {
        if self.items.len() <= self.base || self.items.under(0) != takes {
            return false;
        }
        self.items.replace(gives);
        true
    }

    /// Puts an operand in the place of two of one type.
    #[inline(always)]
    pub fn combine(&mut self, takes: u32, gives: u32) -> bool
        ensures { result ≡ true → (rest : List ℕ) × (self.old ≡ (takes ∷ takes ∷ rest, self.old.1))
            × (self.new ≡ (gives ∷ rest, self.old.1)) }
    {
        self.take(takes) && self.change(takes, gives)
    }

    /// Takes a condition off, and one of two operands of one type under it.
    #[inline(always)]
    pub fn choose(&mut self) -> bool
        ensures { result ≡ true → (t : ℕ) × (t < 8) × (self.old ≡ (0 ∷ t ∷ self.new.0, self.new.1))
            × ((rest : List ℕ) × (self.new ≡ (t ∷ rest, self.new.1))) }
    {
        if !self.take(0) || self.items.len() <= self.base {
            return false;
        }
        let top = self.items.under(0);
        top < 8 && self.take(top) && self.has(top)
    }

    /// The type of the operand on top.
    #[inline(always)]
    pub fn top(&self) -> Option<u32>
        ensures { IfSome result (λ t. (rest : List ℕ) × (self.now ≡ (t ∷ rest, self.now.1))) }
    {
        if self.items.len() <= self.base {
            return None;
        }
        Some(self.items.under(0))
    }

    /// Takes an operand off that may be taken for one of this type.
    #[inline(always)]
    pub fn take_below(&mut self, order: &Order, ty: u32) -> bool
        ensures { result ≡ true → IsLowered order.now self.old (ty ∷ self.new.0, self.new.1) }
    {
        if self.items.len() <= self.base {
            return false;
        }
        let top = self.items.under(0);
        if !order.may_be_taken(top, ty) {
            return false;
        }
        self.take(top)
    }

    /// Puts an operand of this type in the place of one that may be taken for it.
    #[inline(always)]
    pub fn change_below(&mut self, order: &Order, ty: u32) -> bool
        ensures { result ≡ true → (rest : List ℕ) × (self.new ≡ (ty ∷ rest, self.new.1))
            × IsLowered order.now self.old self.new }
    {
        if self.items.len() <= self.base {
            return false;
        }
        let top = self.items.under(0);
        if !order.may_be_taken(top, ty) {
            return false;
        }
        self.change(top, ty)
    }

    /// Takes operands off that may be taken for those of these types, the last on top.
    #[inline(always)]
    pub fn take_all(&mut self, order: &Order, types: &[u32]) -> bool
        ensures { result ≡ true → IsLowered order.now self.old (with_all types.now self.new) }
    {
        if self.take_same(types) {
            return true;
        }
        self.take_each(order, types)
    }

    // The same, if there are many and the operands are just of these types.
    #[inline(always)]
    fn take_same(&mut self, types: &[u32]) -> bool
        ensures taken { result ≡ true → self.old ≡ with_all types.now self.new }
        ensures stays { result ≡ false → self.new ≡ self.old }
    {
        let count = types.len();
        let held = self.items.len();
        if count <= FEW || count > held - self.base || !are_same(self.items.last(count), types) {
            return false;
        }
        self.items.keep(held - count);
        true
    }

    // The same one by one.
    #[inline(always)]
    fn take_each(&mut self, order: &Order, types: &[u32]) -> bool
        ensures { result ≡ true → IsLowered order.now self.old (with_all types.now self.new) }
    {
        let mut left = types.len();
        while left > 0 {
            left -= 1;
            if !self.take_below(order, types[left]) {
                return false;
            }
        }
        true
    }

    /// Puts operands of these types on, the last on top.
    #[inline(always)]
    pub fn put_all(&mut self, types: &[u32]) -> bool
        ensures { result ≡ true → self.new ≡ with_all types.now self.old }
    {
        if types.len() > FEW {
            return self.items.put_slice(types);
        }
        for ty in types {
            if !self.put(*ty) {
                return false;
            }
        }
        true
    }

    /// Operands of the innermost frame are dropped until there are no more than so many. How many there are then.
    #[inline(always)]
    pub fn keep(&mut self, most: usize) -> usize
        ensures few { result ≤ most }
        ensures under { self.new.1 ≡ self.old.1 }
    {
        let held = self.items.len() - self.base;
        if held <= most {
            return held;
        }
        self.items.keep(self.base + most);
        most
    }

    /// A frame begins on these operands. How many lay under the one around it.
    #[inline(always)]
    pub fn enter(&mut self) -> usize
        ensures under { lying result self.new.1 ≡ self.old }
        ensures own { self.new.0 ≡ [] }
    {
        let base = self.base;
        self.base = self.items.len();
        base
    }

    /// The innermost frame ends, and has no operands.
    #[inline(always)]
    pub fn leave(&mut self, base: usize) -> bool
        ensures { result ≡ true → (self.old.0 ≡ []) × (self.new ≡ lying base self.old.1) }
    {
        if self.items.len() != self.base || base > self.base {
            return false;
        }
        self.base = base;
        true
    }

    /// Whether the innermost frame has no operands.
    #[inline(always)]
    pub fn is_empty(&self) -> bool
        ensures { result ≡ true → self.now.0 ≡ [] }
    {
        self.items.len() == self.base
    }

    /// All operands of the innermost frame are dropped.
    #[inline(always)]
    pub fn cut(&mut self)
        ensures { self.new ≡ ([], self.old.1) }
    {
        self.items.keep(self.base);
    }
}
