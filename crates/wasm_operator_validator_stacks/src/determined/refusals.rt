//! Refusals for the errors of what a module is asked.

ghost use Rattle.std.specs.Prelude.{◌≡◌};
ghost use Rattle.wasm_operator_validator_state.specs.Refusals.{kind_of};
ghost use Rattle.wasm_operator_validator_stacks.specs.determined.Operators.{refusal_kind};

use crate::{Refusal, Space};
use wasm_types::{Error, ErrorKind, HeapType, UnpackedIndex, ValType};

/// The refusal for an error of the check of a written type.
#[cold]
pub fn refusal_of(error: &Error, written: &ValType) -> Refusal
    ensures { kind_of result ≡ refusal_kind error.now.kind }
{
    match error.kind() {
        ErrorKind::MissingFeature(feature) => Refusal::TypeNotEnabled {
            feature,
            ty: *written,
        },
        ErrorKind::OutOfMemory => Refusal::OutOfMemory,
        ErrorKind::Failed => Refusal::AfterRefusal,
        ErrorKind::EndOfData { needed_hint: _ } => unknown_type(written),
        ErrorKind::Other => unknown_type(written),
    }
}

// The refusal of a type that names another by an index.
fn unknown_type(written: &ValType) -> Refusal
    ensures { kind_of result ≡ refusal_kind ErrorKind.Other }
{
    Refusal::Unknown {
        space: Space::NamedType,
        index: index_in(written),
    }
}

// The index that a type names, if it names one of its module's.
fn index_in(written: &ValType) -> u32 {
    let reference = match written.as_reference_type() {
        Some(reference) => reference,
        None => return 0,
    };
    match reference.heap_type() {
        HeapType::Concrete(UnpackedIndex::Module(index)) => index,
        HeapType::Exact(UnpackedIndex::Module(index)) => index,
        HeapType::Concrete(_) => 0,
        HeapType::Exact(_) => 0,
        HeapType::Abstract { shared: _, ty: _ } => 0,
    }
}
