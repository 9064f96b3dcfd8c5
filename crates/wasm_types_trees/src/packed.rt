//! An index in 22 bits.
use crate::{CoreTypeId, UnpackedIndex};
use std::cmp::Ordering;
use std::fmt::{self, Display};
use std::hash::{Hash, Hasher};
use std::marker::Model;

// Where the kind begins, above the number: a module's 0, a group's 1, an identity's 2.
const REC_GROUP: u32 = 1 << 20;

const ID: u32 = 2 << 20;

/// An index of a type in 22 bits: its number in the low 20, and its kind above them.
#[derive(Clone, Copy, Debug)]
pub struct PackedIndex {
    bits: u32,
}

impl Model for PackedIndex {
    ghost use Rattle.std.specs.Prelude.{◌<◌, ◌*◌, ◌^◌, ℕ};
    ghost use Rattle.std.proofs.Common.{ap};
    ghost use Rattle.wasm_types_trees.specs.declared.index.UnpackedIndex.{UnpackedIndex};
    ghost use Rattle.wasm_types_trees.specs.Bits.{unpacked, packed, packed-unpacked};

    ghost Value = { UnpackedIndex };

    ghost view = { λ p. unpacked p.bits };

    ghost invariant = { λ p. p.bits < 3 * 2 ^ 20 };

    ghost inverse = { λ i. record { bits = packed i } };

    ghost inverse_ok = { λ p h. ap (λ (bits : ℕ). record { bits = bits }) (packed-unpacked p.bits) };
}

impl PackedIndex {
    ghost use Rattle.std.specs.Prelude.{◌≡◌, ◌<◌, ◌*◌, ◌^◌, ◌↔◌, IsSome, IfSome};
    ghost use Rattle.wasm_types_trees.specs.Bits.{unpacked, packed};
    ghost use Rattle.wasm_types_trees.specs.Indices.{number_of, is_canonical_index, module_index_of, rec_group_index_of, type_id_of};

    /// The index in a module, where it is below 2^20.
    pub const fn from_module_index(index: u32) -> Option<Self>
        ensures fits { IsSome result ↔ (index < 2 ^ 20) }
        ensures value { IfSome result (λ p. p ≡ UnpackedIndex.Module index) }
    {
        if index < REC_GROUP {
            Some(PackedIndex { bits: index })
        } else {
            None
        }
    }

    /// The index in a group, where it is below 2^20.
    pub const fn from_rec_group_index(index: u32) -> Option<Self>
        ensures fits { IsSome result ↔ (index < 2 ^ 20) }
        ensures value { IfSome result (λ p. p ≡ UnpackedIndex.RecGroup index) }
    {
        if index < REC_GROUP {
            Some(PackedIndex {
                bits: REC_GROUP + index,
            })
        } else {
            None
        }
    }

    /// The identity, where its number is below 2^20.
    pub const fn from_id(id: CoreTypeId) -> Option<Self>
        ensures fits { IsSome result ↔ (id.0 < 2 ^ 20) }
        ensures value { IfSome result (λ p. p ≡ UnpackedIndex.Id id) }
    {
        let number = id.number();
        if number < REC_GROUP {
            Some(PackedIndex { bits: ID + number })
        } else {
            None
        }
    }

    /// The index that it holds. Its number is below 2^20.
    pub const fn unpack(&self) -> UnpackedIndex
        ensures value { result ≡ self.now }
        ensures fits { number_of result < 2 ^ 20 }
    {
        let bits = self.bits;
        if bits < REC_GROUP {
            UnpackedIndex::Module(bits)
        } else if bits < ID {
            UnpackedIndex::RecGroup(bits - REC_GROUP)
        } else {
            UnpackedIndex::Id(CoreTypeId::new(bits - ID))
        }
    }

    /// Its 22 bits, for a type that packs an index beside others.
    pub const fn bits(&self) -> u32
        ensures { result ≡ packed self.now }
    {
        self.bits
    }

    /// The index of 22 bits that an index gave.
    pub const fn from_bits(bits: u32) -> Self
        requires { bits < 3 * 2 ^ 20 }
        ensures { result ≡ unpacked bits }
    {
        PackedIndex { bits }
    }

    /// Whether it is an identity or an index in a group, and so means the same in every module.
    pub const fn is_canonical(&self) -> bool
        ensures { result ≡ is_canonical_index self.now }
    {
        self.bits >= REC_GROUP
    }

    /// The index in the module, if it is one.
    pub const fn as_module_index(&self) -> Option<u32>
        ensures { result ≡ module_index_of self.now }
    {
        self.unpack().as_module_index()
    }

    /// The index in the group, if it is one.
    pub const fn as_rec_group_index(&self) -> Option<u32>
        ensures { result ≡ rec_group_index_of self.now }
    {
        self.unpack().as_rec_group_index()
    }

    /// The identity, if it is one.
    pub const fn as_core_type_id(&self) -> Option<CoreTypeId>
        ensures { result ≡ type_id_of self.now }
    {
        self.unpack().as_core_type_id()
    }
}

impl Display for PackedIndex {
    ghost use Rattle.std.specs.Prelude.{Some};
    ghost use Rattle.wasm_types_trees.specs.Text.{index_text};

    ghost output = { λ i. Some (index_text i) };

    fn fmt<W: fmt::Write>(&self, f: &mut fmt::Formatter<W>) -> fmt::Result {
        self.unpack().fmt(f)
    }
}

impl PartialEq for PackedIndex {
    ghost use Rattle.std.proofs.Common.{rules};
    ghost use Rattle.std.specs.Cmp.Rules.{comparing};
    ghost use Rattle.wasm_types_trees.specs.Indices.{index_eq};

    ghost eq = { index_eq };

    ghost laws = { Prim.search (comparing, rules) };

    fn eq(&self, other: &PackedIndex) -> bool {
        self.bits == other.bits
    }
}

impl Eq for PackedIndex {
    ghost use Rattle.std.proofs.Common.{rules};
    ghost use Rattle.std.specs.Cmp.Rules.{comparing};

    ghost laws = { Prim.search (comparing, rules) };
}

impl PartialOrd for PackedIndex {
    ghost use Rattle.std.proofs.Common.{rules};
    ghost use Rattle.std.specs.Cmp.{partial_order_from_own_ties};
    ghost use Rattle.std.specs.Cmp.Rules.{comparing};
    ghost use Rattle.std.specs.Ordering.{as_partial_cmp};
    ghost use Rattle.wasm_types_trees.specs.Indices.{index_cmp};

    ghost partial_cmp = { as_partial_cmp index_cmp };

    ghost laws = { partial_order_from_own_ties (Prim.search (comparing, rules)) (Prim.search (comparing, rules)) };

    fn partial_cmp(&self, other: &PackedIndex) -> Option<Ordering> {
        Some(self.cmp(other))
    }
}

impl Ord for PackedIndex {
    ghost use Rattle.std.proofs.Common.{rules};
    ghost use Rattle.std.specs.Cmp.Rules.{comparing};
    ghost use Rattle.wasm_types_trees.specs.Indices.{index_cmp};

    ghost cmp = { index_cmp };

    ghost total = { Prim.search (comparing, rules) };

    ghost matches_partial_cmp = { Prim.search (comparing, rules) };

    ghost matches_eq = { Prim.search (comparing, rules) };

    fn cmp(&self, other: &PackedIndex) -> Ordering {
        self.bits.cmp(&other.bits)
    }
}

impl Hash for PackedIndex {
    ghost use Rattle.std.proofs.Common.{rules};
    ghost use Rattle.std.specs.Cmp.Rules.{hashing};
    ghost use Rattle.std.specs.Hash as fed;
    ghost use Rattle.wasm_types_trees.specs.Bits.{packed};

    ghost hash_input = { λ i. fed.u32 (packed i) };

    ghost respects_eq = { Prim.search (hashing, rules) };

    fn hash<H: Hasher>(&self, state: &mut H) {
        self.bits.hash(state);
    }
}
