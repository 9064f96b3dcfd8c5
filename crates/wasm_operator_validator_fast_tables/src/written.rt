//! Types that the bytes of a body spell, as codes, and where these codes stand among the others.

ghost use Rattle.std.specs.Prelude.{◌≡◌, ◌<◌, length, get_or, true, IfSome};
ghost use Rattle.wasm_types.specs.values.Decode.{begins_index};
ghost use Rattle.wasm_operator_validator_fast_tables.specs.Written.{IsHeapAt, IsPlacedHeapAt, IsAbstractByte, IsTopOf, IsValueAt};

use crate::codes::{ANY, DEFINED, EXN, EXTERN, FUNC, VECTOR};
use crate::tables::{Defined, NO_CODE, Tables};
use wasm_types_decoding::short_s33_at;

/// Whether a number that is not negative begins with this byte.
#[inline(always)]
pub fn begins_index(byte: u8) -> bool
    ensures { result ≡ begins_index byte }
{
    byte < 0x40 || 0x7f < byte
}

// An abstract heap type by its byte: the code of references to it that may be null, and of such references to the top of its hierarchy.
#[inline(always)]
fn abstract_of(byte: u8) -> Option<(u32, u32)>
    ensures { IfSome result (λ r. IsAbstractByte byte r.0 r.1) }
{
    match byte {
        0x70 => Some((FUNC, FUNC)),
        0x6f => Some((EXTERN, EXTERN)),
        0x6e => Some((ANY, ANY)),
        0x71 => Some((14, ANY)),
        0x72 => Some((16, EXTERN)),
        0x73 => Some((18, FUNC)),
        0x6d => Some((20, ANY)),
        0x6b => Some((22, ANY)),
        0x6a => Some((24, ANY)),
        0x6c => Some((26, ANY)),
        0x69 => Some((EXN, EXN)),
        0x74 => Some((30, EXN)),
        _ => None,
    }
}

// The code of references, which may be null, to the top of the hierarchy of what is defined so.
#[inline(always)]
fn top_of(defined: Defined) -> Option<u32>
    ensures { IfSome result (λ top. IsTopOf defined top) }
{
    match defined {
        Defined::Other => None,
        Defined::Function => Some(FUNC),
        Defined::Struct(_from, _count) => Some(ANY),
        Defined::Array(_element) => Some(ANY),
    }
}

// A heap type by the index of its type: the code of references to it that may be null, that of such references to the top of its
// hierarchy, the place of the first code, and the offset behind it.
#[inline(always)]
fn defined_at(tables: &Tables, bytes: &[u8], at: usize) -> Option<(u32, u32, u32, usize)>
    requires inside { at < length bytes.now }
    requires begins { begins_index (get_or bytes.now at 0) ≡ true }
    requires references { tables.now.references ≡ true }
    ensures { IfSome result (λ r. IsPlacedHeapAt bytes.now tables.now at r.0 r.1 r.2 r.3) }
{
    let Some((index, end)) = short_s33_at(bytes, at) else {
        return None;
    };
    // the index of a type is below 2^20
    if index < 0 || index >= 0x10_0000 {
        return None;
    }
    let index = index as u32;
    let named = tables.known.named.as_slice();
    if index as usize >= named.len() {
        return None;
    }
    let named = named[index as usize];
    if named.code >= NO_CODE {
        return None;
    }
    let Some(top) = top_of(named.defined) else {
        return None;
    };
    Some((named.code, top, DEFINED + 2 * index, end))
}

// A heap type: the code of references to it that may be null, that of such references to the top of its hierarchy, the place of the first
// code, and the offset behind it.
fn placed_heap_at(tables: &Tables, bytes: &[u8], at: usize) -> Option<(u32, u32, u32, usize)>
    ensures { IfSome result (λ r. IsPlacedHeapAt bytes.now tables.now at r.0 r.1 r.2 r.3) }
{
    if !tables.references || at >= bytes.len() {
        return None;
    }
    if begins_index(bytes[at]) {
        return defined_at(tables, bytes, at);
    }
    let Some((code, top)) = abstract_of(bytes[at]) else {
        return None;
    };
    Some((code, top, code, at + 1))
}

/// A heap type: the code of references to it that may be null, the code of such references to the top of its hierarchy, and the offset
/// behind it.
pub fn heap_at(tables: &Tables, bytes: &[u8], at: usize) -> Option<(u32, u32, usize)>
    ensures { IfSome result (λ r. IsHeapAt bytes.now tables.now at r.0 r.1 r.2) }
{
    let Some((code, top, _place, end)) = placed_heap_at(tables, bytes, at) else {
        return None;
    };
    Some((code, top, end))
}

// A reference type: its code, the place of its code, and the offset behind it.
fn reference_at(tables: &Tables, bytes: &[u8], at: usize) -> Option<(u32, u32, usize)>
    requires { at < length bytes.now }
    ensures { IfSome result (λ r. IsValueAt bytes.now tables.now at r.0 r.1 r.2) }
{
    if !tables.references {
        return None;
    }
    let byte = bytes[at];
    if byte == 0x63 {
        let Some((code, _top, place, end)) = placed_heap_at(tables, bytes, at + 1) else {
            return None;
        };
        return Some((code, place, end));
    }
    if byte == 0x64 {
        let Some((code, _top, place, end)) = placed_heap_at(tables, bytes, at + 1) else {
            return None;
        };
        return Some((code + 1, place + 1, end));
    }
    let Some((code, _top)) = abstract_of(byte) else {
        return None;
    };
    Some((code, code, at + 1))
}

// A type of vectors or of references: its code, the place of its code, and the offset behind it.
#[inline(never)]
fn other_at(tables: &Tables, bytes: &[u8], at: usize) -> Option<(u32, u32, usize)>
    requires { at < length bytes.now }
    ensures { IfSome result (λ r. IsValueAt bytes.now tables.now at r.0 r.1 r.2) }
{
    if bytes[at] != 0x7b {
        return reference_at(tables, bytes, at);
    }
    if !tables.vectors {
        return None;
    }
    Some((VECTOR, VECTOR, at + 1))
}

/// A value type: its code, the place of its code, and the offset behind it.
#[inline(always)]
pub fn value_at(tables: &Tables, bytes: &[u8], at: usize) -> Option<(u32, u32, usize)>
    ensures { IfSome result (λ r. IsValueAt bytes.now tables.now at r.0 r.1 r.2) }
{
    if at >= bytes.len() {
        return None;
    }
    match bytes[at] {
        0x7f => Some((0, 0, at + 1)),
        0x7e => Some((1, 1, at + 1)),
        0x7d => Some((2, 2, at + 1)),
        0x7c => Some((3, 3, at + 1)),
        _ => other_at(tables, bytes, at),
    }
}
