//! Laws of operators, each the contract of a function that does nothing.

ghost use Rattle.wasm_operators_enums.specs.Laws.{ClonesHaveTheTree, RowsFollowFromCodes, KindsFollowFromCodes, CodesTellOperatorsApart};
ghost use Rattle.wasm_operators_enums.specs.RoleRows.{FitsAsWorked, EffectsAsWorked};
ghost use Rattle.wasm_operators_enums.specs.EqualityLaws.{EqualOperatorsHaveEqualTrees, ControlEqualityIsIdentity, ParametricEqualityIsOfTrees};
ghost use Rattle.wasm_operators_enums.specs.EqualityLaws.{ExceptionEqualityIsOfTrees, MemoryEqualityIsIdentity, ConstEqualityIsIdentity};
ghost use Rattle.wasm_operators_enums.specs.EqualityLaws.{NumericEqualityIsIdentity, BulkEqualityIsIdentity, GcEqualityIsIdentity};
ghost use Rattle.wasm_operators_enums.specs.EqualityLaws.{DescriptorEqualityIsIdentity, SimdEqualityIsIdentity, SimdNumericEqualityIsIdentity};
ghost use Rattle.wasm_operators_enums.specs.EqualityLaws.{AtomicEqualityIsIdentity, SharedEqualityIsIdentity, ContinuationEqualityIsOfTrees};

use crate::equality_is_identity;

/// A clone of an operator has the operator's tree.
pub const fn clones_have_the_tree()
    ensures { ClonesHaveTheTree }
{}

/// Prefix and code tell all that is told of an operator, and the kinds of its immediates, in the order of the bytes
/// (WebAssembly 3.0, binary format, instructions).
pub const fn rows_follow_from_codes()
    ensures rows { RowsFollowFromCodes }
    ensures kinds { KindsFollowFromCodes }
{}

/// Operators with the same prefix, code and immediates are equal, if they are canonical. Only `select` with types has two
/// forms with one code: `TypedSelect` is canonical for one type, `TypedSelectMulti` for any other number.
pub const fn codes_tell_operators_apart()
    ensures { CodesTellOperatorsApart }
{}

/// `==` of operators answers true exactly if the trees are equal: the same variant, and equal in what it carries. Two
/// `br_table` are equal where their targets and defaults are, whatever bytes they were read from. So too `==` of each
/// group.
pub const fn equal_operators_have_equal_trees()
    ensures operators { EqualOperatorsHaveEqualTrees }
    ensures control { ControlEqualityIsIdentity }
    ensures parametric { ParametricEqualityIsOfTrees }
    ensures exception { ExceptionEqualityIsOfTrees }
    ensures memory { MemoryEqualityIsIdentity }
    ensures constant { ConstEqualityIsIdentity }
    ensures numeric { NumericEqualityIsIdentity }
    ensures bulk { BulkEqualityIsIdentity }
    ensures gc { GcEqualityIsIdentity }
    ensures descriptor { DescriptorEqualityIsIdentity }
    ensures simd { SimdEqualityIsIdentity }
    ensures simd_numeric { SimdNumericEqualityIsIdentity }
    ensures atomic { AtomicEqualityIsIdentity }
    ensures shared { SharedEqualityIsIdentity }
    ensures continuation { ContinuationEqualityIsOfTrees }
{
    equality_is_identity();
}

/// Which operators may stand in which frame, and what they make of it, worked.
pub const fn roles_as_worked()
    ensures fits { FitsAsWorked }
    ensures effects { EffectsAsWorked }
{}
