//! Laws of indices and worked rows, each the contract of a function that does nothing, or of one that calls what it is about.
ghost use Rattle.std.specs.Prelude.{◌≡◌};
ghost use Rattle.wasm_types_trees.specs.IndicesLaws.{PackedEqualityIsIdentity, UnpackedEqualityIsIdentity, OrdersAgree};
ghost use Rattle.wasm_types_trees.specs.IndicesWorked.{BitsWorked, KindsWorked, OrderWorked, TextsWorked, ends_of_packing};

use crate::{CoreTypeId, PackedIndex};

/// `==` of packed and of unpacked indices holds of an index and itself alone.
pub const fn equality_is_identity()
    ensures packed { PackedEqualityIsIdentity }
    ensures unpacked { UnpackedEqualityIsIdentity }
{}

/// Packed indices have the order of the indices that they hold.
pub const fn orders_agree()
    ensures { OrdersAgree }
{}

/// Indices as 22 bits, by their kinds, in order and in words.
pub const fn indices_worked()
    ensures bits { BitsWorked }
    ensures kinds { KindsWorked }
    ensures order { OrderWorked }
    ensures texts { TextsWorked }
{}

/// An index exists in 22 bits exactly where its number is below 2^20.
pub const fn ends_of_packing_worked() -> [Option<PackedIndex>; 6]
    ensures { result ≡ ends_of_packing }
{
    [
        PackedIndex::from_module_index(0xf_ffff),
        PackedIndex::from_module_index(0x10_0000),
        PackedIndex::from_rec_group_index(0xf_ffff),
        PackedIndex::from_rec_group_index(0x10_0000),
        PackedIndex::from_id(CoreTypeId::new(0xf_ffff)),
        PackedIndex::from_id(CoreTypeId::new(0x10_0000)),
    ]
}
