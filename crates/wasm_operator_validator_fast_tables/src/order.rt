//! What is below what, by a table of steps up.

ghost use Rattle.std.specs.Prelude.{◌≡◌, ◌∷◌, [], ◌%◌, ◌==◌, ℕ, List, true};
ghost use Rattle.wasm_types.specs.trees.Trees.{TypeTree};
ghost use Rattle.wasm_types.specs.trees.Below.{HeapBelow};
ghost use Rattle.wasm_operator_validator_fast_tables.specs.Values.{heap_of, IsStep, AreSteps, AreBelow};

use std::marker::Model;

/// The heap type above another by one step, which may be that one itself; the bottom type below it; one that is above it by any number of steps;
/// and how many steps lead to the top. The depth is a hint, by which a search takes few steps.
#[derive(Clone, Copy)]
pub struct Step {
    pub above: u32,
    pub bottom: u32,
    pub far: u32,
    pub depth: u32,
}

// Declared supertypes are no more than 63 above one another, and abstract types no more than 4.
const LONGEST: u32 = 70;

// Whether a heap type is below another.
fn is_heap_below(steps: &[Step], heap: u32, other: u32) -> bool
    ensures { result ≡ true → (ids : List TypeTree) → AreSteps ids steps.now
        → HeapBelow (heap_of ids heap) (heap_of ids other) }
{
    if heap == other {
        return true;
    }
    let over = other as usize;
    if over < steps.len() && steps[over].bottom == heap {
        return true;
    }
    is_reached(steps, heap, other)
}

// A step further up, by a far step if that leads no higher than a type of this depth.
fn next_up(steps: &[Step], step: Step, depth: u32) -> u32
    ensures { (ids : List TypeTree) (n : ℕ) → IsStep ids n step → HeapBelow (heap_of ids n) (heap_of ids result) }
{
    let far = step.far as usize;
    if far < steps.len() && steps[far].depth >= depth {
        return step.far;
    }
    step.above
}

// Whether steps up from a heap type reach another.
fn is_reached(steps: &[Step], heap: u32, other: u32) -> bool
    ensures { result ≡ true → (ids : List TypeTree) → AreSteps ids steps.now
        → HeapBelow (heap_of ids heap) (heap_of ids other) }
{
    let goal = other as usize;
    if goal >= steps.len() {
        return false;
    }
    let depth = steps[goal].depth;
    let mut at = heap;
    for _ in 0..LONGEST {
        let place = at as usize;
        if place >= steps.len() || steps[place].depth <= depth {
            return false;
        }
        let next = next_up(steps, steps[place], depth);
        if next == other {
            return true;
        }
        at = next;
    }
    false
}

// Whether a reference of this code may be null.
fn may_be_null(code: u32) -> bool
    ensures { result ≡ (code % 2 == 0) }
{
    code % 2 == 0
}

// Whether a type is below another, which is not the same.
fn is_below(steps: &[Step], code: u32, other: u32) -> bool
    ensures { result ≡ true → AreBelow steps.now (code ∷ []) (other ∷ []) }
{
    if code < 8 || other < 8 {
        return false;
    }
    if may_be_null(other) {
        return is_heap_below(steps, (code - 8) / 2, (other - 8) / 2);
    }
    if may_be_null(code) {
        return false;
    }
    is_heap_below(steps, (code - 8) / 2, (other - 8) / 2)
}

/// What is below what. A contract sees the steps up.
#[derive(Drop)]
pub struct Order {
    steps: Vec<Step>,
}

impl Model for Order {
    ghost use Rattle.std.specs.Prelude.{List};
    ghost use Rattle.wasm_operator_validator_fast_tables.specs.declared.order.Step.{Step};

    ghost Value = { List Step };

    ghost view = { λ r. r.steps.items };
}

impl Order {
    /// The one that these steps tell.
    pub fn new(steps: Vec<Step>) -> Order
        ensures { result ≡ steps.items }
    {
        Order { steps }
    }

    // Whether a type is below another, which is not the same. Out of line: the loop asks whether they are the same.
    #[inline(never)]
    fn is_below(&self, code: u32, other: u32) -> bool
        ensures { result ≡ true → AreBelow self.now (code ∷ []) (other ∷ []) }
    {
        is_below(self.steps.as_slice(), code, other)
    }

    /// Whether an operand of a type may be taken for one of another.
    #[inline(always)]
    pub fn may_be_taken(&self, code: u32, other: u32) -> bool
        ensures { result ≡ true → AreBelow self.now (code ∷ []) (other ∷ []) }
    {
        if code == other {
            return true;
        }
        self.is_below(code, other)
    }
}
