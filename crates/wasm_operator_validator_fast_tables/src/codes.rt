//! Types as codes: 0 to 3 for numbers, 4 for vectors, and from 8 on two for each heap type, the first of references that may be null.

ghost use Rattle.std.specs.Prelude.{◌≡◌, ◌<◌, ◌==◌, true, IfSome};
ghost use Rattle.wasm_types.specs.values.Trees.{abstract_of as tree_of};
ghost use Rattle.wasm_operator_validator_state.specs.resources.Meaning.{Meaning, type_in, reference_in};
ghost use Rattle.wasm_operator_validator_fast_tables.specs.Values.{abstract_of, type_of};
ghost use Rattle.wasm_operator_validator_fast_tables.specs.Tables.{no_code, HasDefault};

use crate::tables::NO_CODE;
use wasm_types::{AbstractHeapType, HeapType, RefType, UnpackedIndex, ValType};

/// Vectors of 128 bits.
pub const VECTOR: u32 = 4;

/// Where the codes of defined types begin.
pub const DEFINED: u32 = 40;

/// References to any function, to what the host owns, to any value of the module's own, to what can be compared, to arrays, to small numbers, and
/// to exceptions, all of which may be null.
pub const FUNC: u32 = 8;

pub const EXTERN: u32 = 10;

pub const ANY: u32 = 12;

pub const EQ: u32 = 20;

pub const ARRAY: u32 = 24;

pub const I31: u32 = 26;

pub const EXN: u32 = 28;

// Ids from here on have no codes.
pub(crate) const MANY: u32 = 0x3fff_ffff;

// The number of an abstract heap type.
fn number_of(ty: AbstractHeapType) -> Option<u32>
    ensures { IfSome result (λ n. (n < 12) × (tree_of ty ≡ abstract_of n)) }
{
    match ty {
        AbstractHeapType::Func => Some(0),
        AbstractHeapType::Extern => Some(1),
        AbstractHeapType::Any => Some(2),
        AbstractHeapType::None => Some(3),
        AbstractHeapType::NoExtern => Some(4),
        AbstractHeapType::NoFunc => Some(5),
        AbstractHeapType::Eq => Some(6),
        AbstractHeapType::Struct => Some(7),
        AbstractHeapType::Array => Some(8),
        AbstractHeapType::I31 => Some(9),
        AbstractHeapType::Exn => Some(10),
        AbstractHeapType::NoExn => Some(11),
        _ => None,
    }
}

// The last bit of the code of a reference.
fn last_bit(nullable: bool) -> u32
    ensures few { result < 2 }
    ensures null { (result == 0) ≡ nullable }
{
    if nullable { 0 } else { 1 }
}

/// The code of a reference type, if one stands for it.
pub fn code_of_reference(ty: RefType) -> u32
    ensures { result < no_code → (m : Meaning) → reference_in m ty ≡ type_of m.ids result }
{
    let last = last_bit(ty.is_nullable());
    match ty.heap_type() {
        HeapType::Abstract { shared, ty } => {
            if shared {
                return NO_CODE;
            }
            match number_of(ty) {
                Some(number) => 8 + 2 * number + last,
                None => NO_CODE,
            }
        }
        HeapType::Concrete(UnpackedIndex::Id(id)) => {
            if id.number() >= MANY {
                return NO_CODE;
            }
            DEFINED + 2 * id.number() + last
        }
        _ => NO_CODE,
    }
}

/// The code of a type, if one stands for it.
pub fn code_of(ty: &ValType) -> u32
    ensures { result < no_code → (m : Meaning) → type_in m ty.now ≡ type_of m.ids result }
{
    match ty {
        ValType::I32 => 0,
        ValType::I64 => 1,
        ValType::F32 => 2,
        ValType::F64 => 3,
        ValType::V128 => VECTOR,
        ValType::Ref(ty) => code_of_reference(*ty),
    }
}

/// Whether values of the type that a code stands for have a default.
pub fn has_default(code: u32) -> bool
    ensures { result ≡ true → HasDefault code }
{
    if code < 8 {
        return true;
    }
    code % 2 == 0
}
