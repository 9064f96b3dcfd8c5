//! The labels of `br_table`.

ghost use Rattle.std.specs.Prelude.{◌≡◌, ◌==◌, List, ℕ, length, ⊤};
ghost use Rattle.std.proofs.Common.{rules};
ghost use Rattle.std.specs.Cmp.Rules.{comparing};
ghost use Rattle.std.specs.Cmp.Lexicographic.{pointwise};
ghost use Rattle.std.specs.Iterator.{YieldsFirst, item_count};
ghost use Rattle.wasm_operators_immediates.specs.Tables.{same_labels};
ghost use Rattle.wasm_operators_immediates.specs.TableLaws.{same_labels_equal};

use std::alloc::AllocError;
use std::marker::Model;
use wasm_types::BinaryReader;

/// The labels of `br_table` (WebAssembly 3.0, structure, control instructions): targets and a default. It keeps the
/// bytes that the targets were read from. A contract sees the targets as a list of numbers.
#[derive(Debug, Drop)]
pub struct BrTable<'a> {
    targets: &'a [u8],
    count: u32,
    default: u32,
}

impl<'a> Model for BrTable<'a> {
    ghost use Rattle.std.specs.Prelude.{IsTrue};
    ghost use Rattle.wasm_operators_immediates.specs.Tables.{Labels};
    ghost use Rattle.wasm_operators_immediates.specs.Numbers.{numbers_in, values, is_whole};

    ghost Value = { Labels };

    ghost view = { λ t. record { targets = values (numbers_in t.count t.targets.now); default = t.default } };

    ghost invariant = { λ t. IsTrue (is_whole (numbers_in t.count t.targets.now)) };
}

impl<'a> BrTable<'a> {
    ghost use Rattle.std.specs.Prelude.{IsTrue};
    ghost use Rattle.wasm_operators_immediates.specs.Numbers.{numbers_in, values, is_whole};

    /// The labels of which the targets are `count` numbers in these bytes.
    pub(crate) fn of_bytes(targets: &'a [u8], count: u32, default: u32) -> BrTable<'a>
        requires { IsTrue (is_whole (numbers_in count targets.now)) }
        ensures targets { result.targets ≡ values (numbers_in count targets.now) }
        ensures default { result.default ≡ default }
    {
        BrTable {
            targets,
            count,
            default,
        }
    }

    /// How many targets there are, the default apart.
    #[inline]
    #[tactic(auto, using(crate::proofs::Reading::length_is))]
    pub fn len(&self) -> u32
        ensures { result ≡ length self.now.targets }
    {
        self.count
    }

    /// Whether there is no target but the default.
    #[inline]
    #[tactic(auto, using(crate::proofs::Reading::length_is))]
    pub fn is_empty(&self) -> bool
        ensures { result ≡ (length self.now.targets == 0) }
    {
        self.len() == 0
    }

    /// The label that is taken where the operand names no target.
    #[inline]
    pub fn default(&self) -> u32
        ensures { result ≡ self.now.default }
    {
        self.default
    }

    /// The targets in order, as labels that count frames outwards.
    #[inline]
    pub fn targets(&self) -> BrTableTargets<'a>
        ensures { result ≡ self.now.targets }
    {
        let targets = self.targets;
        BrTableTargets {
            reader: BinaryReader::new(targets, 0),
            remaining: self.count,
        }
    }

    /// A second table over the same bytes.
    #[inline]
    pub fn clone(&self) -> BrTable<'a>
        ensures { result ≡ self.now }
    {
        BrTable {
            targets: self.targets,
            count: self.count,
            default: self.default,
        }
    }
}

impl<'a> Clone for BrTable<'a> {
    ghost is_clone = { λ t u. u ≡ t };

    ghost is_infallible = { λ _. ⊤ };

    fn clone(&self) -> Result<BrTable<'a>, AllocError> {
        Ok(self.clone())
    }
}

impl<'a> PartialEq for BrTable<'a> {
    ghost eq = { same_labels };

    ghost laws = { same_labels_equal.0 };

    fn eq(&self, other: &BrTable<'a>) -> bool {
        other.default == self.default && are_same(self.targets(), other.targets())
    }
}

impl<'a> Eq for BrTable<'a> {
    ghost laws = { same_labels_equal.1 };
}

// Whether the same targets are left in both.
fn are_same(mut targets: BrTableTargets, mut others: BrTableTargets) -> bool
    ensures { result ≡ pointwise ◌==◌ targets.entry others.entry }
{
    while let Some(target) = targets.next() {
        let Some(other) = others.next() else {
            return false;
        };
        if target != other {
            return false;
        }
    }
    others.next().is_none()
}

/// The targets of a `br_table` that are left, one by one. A contract sees them as a list.
#[derive(Debug, Drop)]
pub struct BrTableTargets<'a> {
    reader: BinaryReader<'a>,
    remaining: u32,
}

impl<'a> Model for BrTableTargets<'a> {
    ghost use Rattle.std.specs.Prelude.{ℕ, List, IsTrue};
    ghost use Rattle.wasm_operators_immediates.specs.Numbers.{numbers_at, values, is_whole};

    ghost Value = { List ℕ };

    ghost view = { λ t. values (numbers_at t.remaining t.reader) };

    ghost invariant = { λ t. IsTrue (is_whole (numbers_at t.remaining t.reader)) };
}

impl<'a> Iterator for BrTableTargets<'a> {
    type Item = u32;

    ghost use Rattle.std.specs.Prelude.{Some, IfSome};
    ghost use Rattle.std.specs.Iterator.{UpTo};
    ghost use Rattle.std.specs.Iterator.SizeHint.{IsWithinCount};

    ghost next_gives = { YieldsFirst (λ rest. rest) };

    ghost remaining = { item_count (λ rest. rest) };

    fn next(&mut self) -> Option<u32> {
        if self.remaining == 0 {
            return None;
        }
        let Ok(target) = self.reader.read_var_u32() else {
            unreachable!()
        };
        self.remaining -= 1;
        Some(target)
    }

    fn size_hint(&self) -> (usize, Option<usize>)
        ensures exact { result ≡ (length self.now, Some (length self.now)) }
        ensures lower { IsWithinCount result.0 (item_count (λ rest. rest) self.now) }
        ensures upper { IfSome result.1 (UpTo (item_count (λ rest. rest) self.now)) }
    {
        let len = self.len();
        (len, Some(len))
    }
}

impl<'a> ExactSizeIterator for BrTableTargets<'a> {
    #[tactic(auto, using(crate::proofs::Reading::length_is))]
    fn len(&self) -> usize {
        self.remaining as usize
    }
}
