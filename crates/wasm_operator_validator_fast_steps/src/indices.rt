//! Numbers at an offset: indices, arguments of accesses, and constants, of which the loop asks only where they end.

ghost use Rattle.std.specs.Prelude.{◌≡◌, ◌<◌, ◌≤◌, ◌+◌, ◌/◌, ◌%◌, ◌&&◌, ℤ, Bool, length, IfSome};
ghost use Rattle.wasm_types.specs.decoding.Leb.{u32 as u32_decoder, s32, s64};
ghost use Rattle.wasm_types.specs.decoding.Numbers.{GivesAt};
ghost use Rattle.wasm_operators_immediates.specs.Kinds.{Memories};
ghost use Rattle.wasm_operators_encoding.specs.immediates.Bytes.{index_or_zero};
ghost use Rattle.wasm_operators_encoding.specs.immediates.Immediates.{may_index};
ghost use Rattle.wasm_operators_encoding.specs.immediates.MemoryArguments.{offset as reach};
ghost use Rattle.wasm_operator_validator_fast_tables.specs.Values.{address_of};
ghost use Rattle.wasm_operator_validator_fast_tables.specs.Tables.{no_code, Reaches};
ghost use Rattle.wasm_operator_validator_fast_steps.specs.Shapes.{IsArgumentAt, NamesMemory};

use wasm_operator_validator_fast_tables::{NO_CODE, Tables};
use wasm_operators_frequent::zero_at;
use wasm_types::WasmFeatures;
use wasm_types_decoding::{short_i32_at, short_i64_at, short_u32_at, short_u64_at};

// An index of any length and how many bytes it has, in one number, so that it needs no place in memory. 0 if there is none.
#[cold]
#[inline(never)]
fn long_index_at(bytes: &[u8], at: usize) -> u64
    requires { at ≤ length bytes.now }
    ensures { 0 < result → GivesAt u32_decoder bytes.now at (result % 0x100000000) (at + result / 0x100000000) }
{
    let Some((index, end)) = short_u32_at(bytes, at) else {
        return 0;
    };
    let count = (end - at) as u64;
    if count > 10 {
        return 0;
    }
    count * 0x1_0000_0000 + index as u64
}

// An index of any length, and the offset behind it.
#[inline(always)]
fn any_index_at(bytes: &[u8], at: usize) -> Option<(u32, usize)>
    requires { at ≤ length bytes.now }
    ensures { IfSome result (λ r. GivesAt u32_decoder bytes.now at r.0 r.1) }
{
    let both = long_index_at(bytes, at);
    if both == 0 {
        return None;
    }
    let index = (both % 0x1_0000_0000) as u32;
    let count = (both / 0x1_0000_0000) as usize;
    if count > bytes.len() - at {
        return None;
    }
    Some((index, at + count))
}

/// An index, which is mostly of one or two bytes, and the offset behind it.
#[inline(always)]
pub fn near_index_at(bytes: &[u8], at: usize) -> Option<(u32, usize)>
    requires { at < length bytes.now }
    ensures { IfSome result (λ r. GivesAt u32_decoder bytes.now at r.0 r.1) }
{
    let first = bytes[at];
    if first < 0x80 {
        return Some((first as u32, at + 1));
    }
    if at + 1 < bytes.len() {
        let second = bytes[at + 1];
        if second < 0x80 {
            return Some((second as u32 * 0x80 + (first as u32 - 0x80), at + 2));
        }
    }
    any_index_at(bytes, at)
}

/// An index, which a linker may have written in five bytes, and the offset behind it.
#[inline(always)]
pub fn index_at(bytes: &[u8], at: usize) -> Option<(u32, usize)>
    requires { at ≤ length bytes.now }
    ensures { IfSome result (λ r. GivesAt u32_decoder bytes.now at r.0 r.1) }
{
    if bytes.len() - at >= 5 {
        let first = bytes[at];
        if first < 0x80 {
            return Some((first as u32, at + 1));
        }
        let second = bytes[at + 1];
        if second < 0x80 {
            return Some((second as u32 * 0x80 + (first as u32 - 0x80), at + 2));
        }
        let third = bytes[at + 2];
        let fourth = bytes[at + 3];
        let fifth = bytes[at + 4];
        if third >= 0x80 && fourth >= 0x80 && fifth < 0x10 {
            let low = (second as u32 - 0x80) * 0x80 + (first as u32 - 0x80);
            let high = (fourth as u32 - 0x80) * 0x80 + (third as u32 - 0x80);
            return Some((fifth as u32 * 0x1000_0000 + high * 0x4000 + low, at + 5));
        }
    }
    any_index_at(bytes, at)
}

/// The index of a memory in an operator that has no other memory, and the offset after it: 0, or any index if the features allow it.
#[inline(always)]
pub fn memory_index_at(bytes: &[u8], at: usize, features: WasmFeatures) -> Option<(u32, usize)>
    requires { at ≤ length bytes.now }
    ensures { IfSome result (λ r. GivesAt (index_or_zero (may_index features.0 Memories)) bytes.now at r.0 r.1) }
{
    if let Some((memory, end)) = zero_at(bytes, at) {
        return Some((memory, end));
    }
    if !features.multi_memory() {
        return None;
    }
    let Some((memory, end)) = index_at(bytes, at) else {
        return None;
    };
    Some((memory, end))
}

// The code of the addresses of the memory at an index. Out of line, since code mostly uses memory 0.
#[inline(never)]
fn addresses_of_another(tables: &Tables, memory: u32) -> u32
    ensures { result < no_code → Reaches tables.now memory result }
{
    let index = memory as usize;
    let memories = tables.known.memories.as_slice();
    if index >= memories.len() {
        return NO_CODE;
    }
    memories[index]
}

/// The same, which is no code if there is no such memory.
#[inline(always)]
pub fn addresses_of(tables: &Tables, memory: u32) -> u32
    ensures { result < no_code → Reaches tables.now memory result }
{
    if memory == 0 {
        return tables.known.memory;
    }
    addresses_of_another(tables, memory)
}

/// The code of lengths of copies: of 64 bits if both addresses are.
#[inline(always)]
pub fn shorter(to: u32, from: u32) -> u32
    ensures { (a b : Bool) → to ≡ address_of a → from ≡ address_of b → result ≡ address_of (a && b) }
{
    if to == 0 {
        return 0;
    }
    from
}

// The offset that an argument ends with, of 64 bits if memories of 64 bits are allowed.
#[inline(always)]
#[tactic(auto, unfolding(wasm_operators_encoding::specs::immediates::MemoryArguments::offset))]
fn reach_at(bytes: &[u8], at: usize, wide: bool) -> Option<(u64, usize)>
    requires { at ≤ length bytes.now }
    ensures { IfSome result (λ r. GivesAt (reach wide) bytes.now at r.0 r.1) }
{
    if wide {
        return short_u64_at(bytes, at);
    }
    let Some((offset, end)) = short_u32_at(bytes, at) else {
        return None;
    };
    Some((offset as u64, end))
}

// The memory that an argument names, which is memory 0 if it names none, and the offset after that.
#[inline(always)]
fn memory_named(bytes: &[u8], at: usize, features: WasmFeatures) -> Option<(u32, usize)>
    requires { at < length bytes.now }
    ensures named { IfSome result (λ r. NamesMemory features.0 bytes.now at r.0 r.1) }
    ensures forward { IfSome result (λ r. at ≤ r.1) }
    ensures inside { IfSome result (λ r. r.1 ≤ length bytes.now) }
{
    let flags = bytes[at];
    if flags < 0x10 {
        return Some((0, at + 1));
    }
    if flags < 0x40 || flags >= 0x50 || !features.multi_memory() {
        return None;
    }
    let Some((memory, end)) = short_u32_at(bytes, at + 1) else {
        return None;
    };
    Some((memory, end))
}

// How many bytes an argument has, however long it is and whatever memory it names, and the code of the memory's addresses, in one number. 0 if
// there is none.
#[cold]
#[inline(never)]
fn long_argument_at(bytes: &[u8], at: usize, natural: u8, tables: &Tables) -> usize
    requires { at ≤ length bytes.now }
    ensures { 0 < result → IsArgumentAt tables.now bytes.now at natural (result % 2) (at + result / 2) }
{
    if at >= bytes.len() {
        return 0;
    }
    let flags = bytes[at];
    if flags % 0x10 > natural {
        return 0;
    }
    let Some((memory, middle)) = memory_named(bytes, at, tables.features) else {
        return 0;
    };
    let Some((offset, end)) = reach_at(bytes, middle, tables.features.memory64()) else {
        return 0;
    };
    let address = addresses_of(tables, memory);
    let count = end - at;
    if address >= 2 || count > 20 || offset >= 0x1_0000_0000 {
        return 0;
    }
    count * 2 + address as usize
}

// The offset after an argument of any length, and the code of the memory's addresses.
#[inline(always)]
fn any_argument_at(bytes: &[u8], at: usize, natural: u8, tables: &Tables) -> Option<(usize, u32)>
    requires { at ≤ length bytes.now }
    ensures { IfSome result (λ r. IsArgumentAt tables.now bytes.now at natural r.1 r.0) }
{
    let both = long_argument_at(bytes, at, natural, tables);
    if both == 0 {
        return None;
    }
    let address = (both % 2) as u32;
    let count = both / 2;
    if count > bytes.len() - at {
        return None;
    }
    Some((at + count, address))
}

/// The offset after the argument of an access, the natural alignment of which is so many times doubled, and the code of the addresses of the
/// memory that it reaches into.
#[inline(always)]
pub fn argument_at(bytes: &[u8], at: usize, natural: u8, tables: &Tables) -> Option<(usize, u32)>
    requires inside { at ≤ length bytes.now }
    requires few { natural < 16 }
    ensures { IfSome result (λ r. IsArgumentAt tables.now bytes.now at natural r.1 r.0) }
{
    let address = tables.known.memory;
    if address >= NO_CODE || bytes.len() - at <= 2 || bytes[at] > natural {
        return any_argument_at(bytes, at, natural, tables);
    }
    if bytes[at + 1] < 0x80 {
        return Some((at + 2, address));
    }
    if bytes[at + 2] < 0x80 {
        return Some((at + 3, address));
    }
    any_argument_at(bytes, at, natural, tables)
}

// The offset behind a signed number of 32 bits of any length. 0 if there is none.
#[cold]
#[inline(never)]
fn long_i32_end(bytes: &[u8], at: usize) -> usize
    requires { at ≤ length bytes.now }
    ensures { 0 < result → (x : ℤ) × GivesAt s32 bytes.now at x result }
{
    let Some((_value, end)) = short_i32_at(bytes, at) else {
        return 0;
    };
    end
}

// The same of one of 64 bits.
#[cold]
#[inline(never)]
fn long_i64_end(bytes: &[u8], at: usize) -> usize
    requires { at ≤ length bytes.now }
    ensures { 0 < result → (x : ℤ) × GivesAt s64 bytes.now at x result }
{
    let Some((_value, end)) = short_i64_at(bytes, at) else {
        return 0;
    };
    end
}

/// The offset behind a signed number of 32 bits.
#[inline(always)]
pub fn i32_end(bytes: &[u8], at: usize) -> Option<usize>
    requires { at < length bytes.now }
    ensures { IfSome result (λ end. (x : ℤ) × GivesAt s32 bytes.now at x end) }
{
    if bytes[at] < 0x80 {
        return Some(at + 1);
    }
    if bytes.len() - at < 5 {
        let end = long_i32_end(bytes, at);
        if end == 0 {
            return None;
        }
        return Some(end);
    }
    if bytes[at + 1] < 0x80 {
        return Some(at + 2);
    }
    if bytes[at + 2] < 0x80 {
        return Some(at + 3);
    }
    if bytes[at + 3] < 0x80 {
        return Some(at + 4);
    }
    let last = bytes[at + 4];
    if last < 0x08 {
        return Some(at + 5);
    }
    if last < 0x78 || last >= 0x80 {
        return None;
    }
    Some(at + 5)
}

/// The offset behind a signed number of 64 bits.
#[inline(always)]
pub fn i64_end(bytes: &[u8], at: usize) -> Option<usize>
    requires { at < length bytes.now }
    ensures { IfSome result (λ end. (x : ℤ) × GivesAt s64 bytes.now at x end) }
{
    if bytes[at] < 0x80 {
        return Some(at + 1);
    }
    if bytes.len() - at >= 5 {
        if bytes[at + 1] < 0x80 {
            return Some(at + 2);
        }
        if bytes[at + 2] < 0x80 {
            return Some(at + 3);
        }
        if bytes[at + 3] < 0x80 {
            return Some(at + 4);
        }
        if bytes[at + 4] < 0x80 {
            return Some(at + 5);
        }
    }
    let end = long_i64_end(bytes, at);
    if end == 0 {
        return None;
    }
    Some(end)
}
