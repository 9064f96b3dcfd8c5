//! Laws of types, each the contract of a function that does nothing, or of one that makes a type again of its parts.
ghost use Rattle.std.specs.Prelude.{◌≡◌, Some, true, false};
ghost use Rattle.wasm_types_values.specs.Constants.{references};
ghost use Rattle.wasm_types_values.specs.Laws.{AbstractTypesAreOrderedAsDeclared, ReferenceEqualityIsIdentity, ValueEqualityIsIdentity};
ghost use Rattle.wasm_types_values.specs.Laws.{StorageEqualityIsIdentity, HeapEqualityIsIdentity, AbstractEqualityIsIdentity};
ghost use Rattle.wasm_types_trees.specs.laws.Statements.{AbstractIsReflexive, AbstractIsTransitive, AbstractIsAntisymmetric};
ghost use Rattle.wasm_types_values.specs.WorkedTypeLaws.{AbstractBytesAreRead, IndicesAreRead, ReferencesAreRead, ValuesAreRead, KindsAreTold, TextsAreWritten};

use crate::reference::RefType;

/// The matching of abstract heap types is a partial order.
pub const fn abstract_order_is_partial()
    ensures reflexive { AbstractIsReflexive }
    ensures transitive { AbstractIsTransitive }
    ensures antisymmetric { AbstractIsAntisymmetric }
{}

/// Abstract heap types are ordered as they are declared: `Func` first, `NoCont` last.
pub const fn abstract_types_are_ordered_as_declared()
    ensures { AbstractTypesAreOrderedAsDeclared }
{}

/// `==` of each type holds of a type and itself alone.
pub const fn equality_is_identity()
    ensures abstract_heap { AbstractEqualityIsIdentity }
    ensures heap { HeapEqualityIsIdentity }
    ensures reference { ReferenceEqualityIsIdentity }
    ensures value { ValueEqualityIsIdentity }
    ensures storage { StorageEqualityIsIdentity }
{}

/// A reference type is determined by what it means.
pub const fn made_again(ty: RefType) -> Option<RefType>
    ensures { result ≡ Some ty }
{
    RefType::new(ty.is_nullable(), ty.heap_type())
}

/// The nullable references to the abstract types that are not shared.
pub const fn nullable_constants() -> [RefType; 14]
    ensures { result ≡ references true }
{
    [
        RefType::FUNCREF,
        RefType::EXTERNREF,
        RefType::ANYREF,
        RefType::EQREF,
        RefType::STRUCTREF,
        RefType::ARRAYREF,
        RefType::I31REF,
        RefType::EXNREF,
        RefType::CONTREF,
        RefType::NULLREF,
        RefType::NULLFUNCREF,
        RefType::NULLEXTERNREF,
        RefType::NULLEXNREF,
        RefType::NULLCONTREF,
    ]
}

/// The references to the abstract types that are neither null nor shared.
pub const fn non_null_constants() -> [RefType; 14]
    ensures { result ≡ references false }
{
    [
        RefType::FUNC,
        RefType::EXTERN,
        RefType::ANY,
        RefType::EQ,
        RefType::STRUCT,
        RefType::ARRAY,
        RefType::I31,
        RefType::EXN,
        RefType::CONT,
        RefType::NONE,
        RefType::NOFUNC,
        RefType::NOEXTERN,
        RefType::NOEXN,
        RefType::NOCONT,
    ]
}

/// Worked types: what their bytes are read as, what the functions answer of them, and how they are written.
pub const fn types_are_worked()
    ensures abstract_types { AbstractBytesAreRead }
    ensures indices { IndicesAreRead }
    ensures references { ReferencesAreRead }
    ensures values { ValuesAreRead }
    ensures kinds { KindsAreTold }
    ensures texts { TextsAreWritten }
{}
