//! Immediates in their frequent forms, at an offset in the bytes.

ghost use Rattle.std.specs.Prelude.{◌≡◌, ℕ, Bool, ◌≤◌, ◌<◌, length, None, IfSome};
ghost use Rattle.wasm_types.specs.settings.Features.{has, Memory64};
ghost use Rattle.wasm_types.specs.decoding.Text.{word};
ghost use Rattle.wasm_types.specs.values.Decode.{begins_index};
ghost use Rattle.wasm_types.specs.decoding.Numbers.{GivesAt};
ghost use Rattle.wasm_operators_immediates.specs.Blocks.{block_type};
ghost use Rattle.wasm_operators_immediates.specs.Kinds.{Plain};
ghost use Rattle.wasm_operators_encoding.specs.immediates.Bytes.{index_or_zero};
ghost use Rattle.wasm_operators_encoding.specs.immediates.MemoryArguments.{argument, memory_argument, offset as offset_decoder};

use wasm_operators_encoding::immediates::{BlockType, MemArg, MemArgTarget};
use wasm_types::{Ieee32, Ieee64, ValType, WasmFeatures};
use wasm_types_decoding::{short_s33_at, short_u32_at, short_u64_at};

/// A zero, where an index or a zero stands.
#[inline(always)]
#[tactic(auto, using(crate::proofs::Carried::zero_there))]
pub fn zero_at(bytes: &[u8], at: usize) -> Option<(u32, usize)>
    ensures { IfSome result (λ r. (r.0 ≡ 0) × ((allowed : Bool)
        → GivesAt (index_or_zero allowed) bytes.now at r.0 r.1)) }
{
    if at < bytes.len() && bytes[at] == 0 {
        return Some((0, at + 1));
    }
    None
}

// Whether a number that is not negative begins with this byte.
#[inline(always)]
fn begins_index(byte: u8) -> bool
    ensures { result ≡ begins_index byte }
{
    byte < 0x40 || 0x7f < byte
}

/// The function type at an index, where the first byte begins a number that is not negative.
#[inline(always)]
fn block_index_at(bytes: &[u8], at: usize) -> Option<(BlockType, usize)>
    requires { at < length bytes.now }
    ensures { IfSome result (λ r. GivesAt block_type bytes.now at r.0 r.1) }
{
    if !begins_index(bytes[at]) {
        return None;
    }
    let Some((index, end)) = short_s33_at(bytes, at) else {
        return None;
    };
    if index < 0 || index >= 0x1_0000_0000 {
        return None;
    }
    Some((BlockType::FuncType(index as u32), end))
}

/// The empty block type, a number type as the result, or a function type by its index.
#[inline(always)]
#[tactic(auto, using(crate::proofs::Carried::empty_there, crate::proofs::Carried::i32_there, crate::proofs::Carried::i64_there, crate::proofs::Carried::f32_there, crate::proofs::Carried::f64_there))]
pub fn block_type_at(bytes: &[u8], at: usize) -> Option<(BlockType, usize)>
    ensures { IfSome result (λ r. GivesAt block_type bytes.now at r.0 r.1) }
{
    if at >= bytes.len() {
        return None;
    }
    match bytes[at] {
        0x40 => Some((BlockType::Empty, at + 1)),
        0x7f => Some((BlockType::Val(ValType::I32), at + 1)),
        0x7e => Some((BlockType::Val(ValType::I64), at + 1)),
        0x7d => Some((BlockType::Val(ValType::F32), at + 1)),
        0x7c => Some((BlockType::Val(ValType::F64), at + 1)),
        _ => block_index_at(bytes, at),
    }
}

/// An offset of 64 bits where memories of 64 bits are allowed, else of 32.
#[inline(always)]
#[tactic(auto, unfolding(wasm_operators_encoding::specs::immediates::MemoryArguments::offset))]
fn offset_at(bytes: &[u8], at: usize, wide: bool) -> Option<(u64, usize)>
    requires { at ≤ length bytes.now }
    ensures { IfSome result (λ r. GivesAt (offset_decoder wide) bytes.now at r.0 r.1) }
{
    if wide {
        return short_u64_at(bytes, at);
    }
    let Some((offset, end)) = short_u32_at(bytes, at) else {
        return None;
    };
    Some((offset as u64, end))
}

/// The alignment and the offset of a plain access to memory 0, and the offset behind them. They stand there whatever the natural
/// alignment of the access is, so that one reading serves all accesses.
#[inline(always)]
#[tactic(auto, using(crate::proofs::Carried::access_there))]
pub fn access_at(bytes: &[u8], at: usize, features: WasmFeatures) -> Option<((u8, u64), usize)>
    requires { at ≤ length bytes.now }
    ensures { IfSome result (λ r. (natural : ℕ) → GivesAt (memory_argument features.0 Plain natural) bytes.now at
        (argument r.0.0 natural 0 None r.0.1) r.1) }
{
    if at >= bytes.len() || bytes[at] >= 0x10 {
        return None;
    }
    let align = bytes[at];
    let Some((offset, end)) = offset_at(bytes, at + 1, features.memory64()) else {
        return None;
    };
    Some(((align, offset), end))
}

/// The argument of a plain access to memory 0 with this alignment and offset, the natural alignment of which is `2^max_align` bytes.
#[inline(always)]
pub fn memarg_of(access: (u8, u64), max_align: u8) -> MemArg
    ensures { argument access.0 max_align 0 None access.1 ≡ result }
{
    MemArg {
        align: access.0,
        max_align,
        offset: access.1,
        memory: 0,
        ordering: None,
        target: MemArgTarget::Memory,
    }
}

/// The bits of a float of 32 bits, the lowest byte first.
#[inline(always)]
pub fn f32_at(bytes: &[u8], at: usize) -> Option<(Ieee32, usize)>
    requires { at ≤ length bytes.now }
    ensures { IfSome result (λ r. GivesAt (word 4) bytes.now at r.0.0 r.1) }
{
    if bytes.len() - at < 4 {
        return None;
    }
    let bits = u32::from_le_bytes([bytes[at], bytes[at + 1], bytes[at + 2], bytes[at + 3]]);
    Some((Ieee32::from_bits(bits), at + 4))
}

/// The bits of a float of 64 bits, the lowest byte first.
#[inline(always)]
pub fn f64_at(bytes: &[u8], at: usize) -> Option<(Ieee64, usize)>
    requires { at ≤ length bytes.now }
    ensures { IfSome result (λ r. GivesAt (word 8) bytes.now at r.0.0 r.1) }
{
    if bytes.len() - at < 8 {
        return None;
    }
    let bits = u64::from_le_bytes([
        bytes[at],
        bytes[at + 1],
        bytes[at + 2],
        bytes[at + 3],
        bytes[at + 4],
        bytes[at + 5],
        bytes[at + 6],
        bytes[at + 7],
    ]);
    Some((Ieee64::from_bits(bits), at + 8))
}
