//! Laws of immediates, each the contract of a function that does nothing.

ghost use Rattle.wasm_operators_immediates.specs.Laws.{LabelEqualityIsIdentity, NumbersAreKept, BytesAreKept};
ghost use Rattle.wasm_operators_immediates.specs.Laws.{ArgumentEqualityIsIdentity, OrderingEqualityIsIdentity, BlockEqualityIsIdentity};
ghost use Rattle.wasm_operators_immediates.specs.Laws.{VectorEqualityIsIdentity, CatchEqualityIsIdentity, HandleEqualityIsIdentity};
ghost use Rattle.wasm_operators_immediates.specs.Laws.{TryTableEqualityIsOfTrees, ResumeTableEqualityIsOfTrees};

use wasm_types::equality_is_identity;

/// `==` of tables of labels holds of those with equal targets and default, and of no others.
pub const fn equality_is_of_labels()
    ensures { LabelEqualityIsIdentity }
{}

/// The conversions between vectors and numbers of 128 bits are inverse to each other.
pub const fn conversions_are_inverse()
    ensures numbers { NumbersAreKept }
    ensures bytes { BytesAreKept }
{}

/// `==` of each other immediate answers true exactly if the trees are equal.
pub const fn equality_is_of_trees()
    ensures argument { ArgumentEqualityIsIdentity }
    ensures ordering { OrderingEqualityIsIdentity }
    ensures block { BlockEqualityIsIdentity }
    ensures vector { VectorEqualityIsIdentity }
    ensures catch { CatchEqualityIsIdentity }
    ensures handle { HandleEqualityIsIdentity }
    ensures try_table { TryTableEqualityIsOfTrees }
    ensures resume_table { ResumeTableEqualityIsOfTrees }
{
    equality_is_identity();
}
