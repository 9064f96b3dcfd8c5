//! The three ways to name a type, as plain data.
ghost use Rattle.std.specs.Prelude.{◌≡◌, ◌<◌, ◌^◌, ◌↔◌, IsSome, IfSome};
ghost use Rattle.wasm_types_trees.specs.Indices.{number_of, is_canonical_index, module_index_of, rec_group_index_of, type_id_of};

use crate::PackedIndex;
use std::fmt::{self, Display};

/// The identity of a type among all the types that one validator knows. Equal numbers are equal types.
#[derive(Clone, Copy, Debug, PartialEq, Eq, PartialOrd, Ord, Hash)]
pub struct CoreTypeId(u32);

impl CoreTypeId {
    /// The identity of this number.
    pub const fn new(number: u32) -> Self
        ensures { result.0 ≡ number }
    {
        CoreTypeId(number)
    }

    /// Its number.
    pub const fn number(&self) -> u32
        ensures { result ≡ self.now.0 }
    {
        self.0
    }
}

/// How a type is named. The order is that of the variants, and then that of the numbers.
#[derive(Clone, Copy, Debug, PartialEq, Eq, PartialOrd, Ord, Hash)]
pub enum UnpackedIndex {
    /// By its index in its module's index space of types.
    Module(u32),
    /// By its index in the recursion group that it stands in.
    RecGroup(u32),
    /// By its identity.
    Id(CoreTypeId),
}

impl UnpackedIndex {
    /// The same index in 22 bits. There is none from number 2^20 on.
    pub const fn pack(&self) -> Option<PackedIndex>
        ensures fits { IsSome result ↔ (number_of self.now < 2 ^ 20) }
        ensures value { IfSome result (λ p. p ≡ self.now) }
    {
        match self {
            UnpackedIndex::Module(index) => PackedIndex::from_module_index(*index),
            UnpackedIndex::RecGroup(index) => PackedIndex::from_rec_group_index(*index),
            UnpackedIndex::Id(id) => PackedIndex::from_id(*id),
        }
    }

    /// Whether it is an identity or an index in a group, and so means the same in every module.
    pub const fn is_canonical(&self) -> bool
        ensures { result ≡ is_canonical_index self.now }
    {
        match self {
            UnpackedIndex::Module(_) => false,
            UnpackedIndex::RecGroup(_) => true,
            UnpackedIndex::Id(_) => true,
        }
    }

    /// The index in the module, if it is one.
    pub const fn as_module_index(&self) -> Option<u32>
        ensures { result ≡ module_index_of self.now }
    {
        match self {
            UnpackedIndex::Module(index) => Some(*index),
            UnpackedIndex::RecGroup(_) => None,
            UnpackedIndex::Id(_) => None,
        }
    }

    /// The index in the group, if it is one.
    pub const fn as_rec_group_index(&self) -> Option<u32>
        ensures { result ≡ rec_group_index_of self.now }
    {
        match self {
            UnpackedIndex::Module(_) => None,
            UnpackedIndex::RecGroup(index) => Some(*index),
            UnpackedIndex::Id(_) => None,
        }
    }

    /// The identity, if it is one.
    pub const fn as_core_type_id(&self) -> Option<CoreTypeId>
        ensures { result ≡ type_id_of self.now }
    {
        match self {
            UnpackedIndex::Module(_) => None,
            UnpackedIndex::RecGroup(_) => None,
            UnpackedIndex::Id(id) => Some(*id),
        }
    }
}

impl Display for UnpackedIndex {
    ghost use Rattle.std.specs.Prelude.{Some};
    ghost use Rattle.wasm_types_trees.specs.Text.{index_text};

    ghost output = { λ i. Some (index_text i) };

    fn fmt<W: fmt::Write>(&self, f: &mut fmt::Formatter<W>) -> fmt::Result {
        match self {
            UnpackedIndex::Module(index) => write!(f, "(module {index})"),
            UnpackedIndex::RecGroup(index) => write!(f, "(recgroup {index})"),
            UnpackedIndex::Id(id) => {
                let number = id.number();
                write!(f, "(id {number})")
            }
        }
    }
}
