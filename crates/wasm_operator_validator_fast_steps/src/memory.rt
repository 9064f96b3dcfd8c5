//! Memories, and data segments.

ghost use Rattle.std.specs.Prelude.{◌≡◌, ◌<◌, ◌≤◌, ◌∷◌, ℕ, List, length, [], IfSome};
ghost use Rattle.wasm_operators_frequent.specs.Short.{Begins, BeginsPrefixed};
ghost use Rattle.wasm_operator_validator_fast_tables.specs.Loop.{Leads, all};

use crate::indices::{addresses_of, argument_at, memory_index_at, shorter};
use crate::shape::{load_shape, store_shape};
use wasm_operator_validator_fast_tables::{NO_CODE, Opens, Stack, Tables};
use wasm_types_decoding::short_u32_at;

/// A load.
#[inline(always)]
pub fn load(
    code: u8,
    tables: &Tables,
    bytes: &[u8],
    at: usize,
    stack: &mut Stack,
    opens: &Opens,
) -> Option<usize>
    requires { Begins bytes.now at code }
    ensures leads { IfSome result (λ end. Leads bytes.now tables.now at (all opens.now) stack.old
        end (all opens.now) stack.new) }
    ensures forward { IfSome result (λ end. at < end) }
    ensures inside { IfSome result (λ end. end ≤ length bytes.now) }
{
    let (natural, gives) = load_shape(code);
    if gives >= NO_CODE {
        return None;
    }
    let Some((end, address)) = argument_at(bytes, at + 1, natural, tables) else {
        return None;
    };
    if !stack.change(address, gives) {
        return None;
    }
    Some(end)
}

/// A store.
#[inline(always)]
pub fn store(
    code: u8,
    tables: &Tables,
    bytes: &[u8],
    at: usize,
    stack: &mut Stack,
    opens: &Opens,
) -> Option<usize>
    requires { Begins bytes.now at code }
    ensures leads { IfSome result (λ end. Leads bytes.now tables.now at (all opens.now) stack.old
        end (all opens.now) stack.new) }
    ensures forward { IfSome result (λ end. at < end) }
    ensures inside { IfSome result (λ end. end ≤ length bytes.now) }
{
    let (natural, takes) = store_shape(code);
    if takes >= NO_CODE {
        return None;
    }
    let Some((end, address)) = argument_at(bytes, at + 1, natural, tables) else {
        return None;
    };
    if !stack.take(takes) || !stack.take(address) {
        return None;
    }
    Some(end)
}

/// How large a memory is.
#[inline(always)]
pub fn memory_size(
    tables: &Tables,
    bytes: &[u8],
    at: usize,
    stack: &mut Stack,
    opens: &Opens,
) -> Option<usize>
    requires { Begins bytes.now at 0x3f }
    ensures leads { IfSome result (λ end. Leads bytes.now tables.now at (all opens.now) stack.old
        end (all opens.now) stack.new) }
    ensures forward { IfSome result (λ end. at < end) }
    ensures inside { IfSome result (λ end. end ≤ length bytes.now) }
{
    let Some((memory, end)) = memory_index_at(bytes, at + 1, tables.features) else {
        return None;
    };
    let address = addresses_of(tables, memory);
    if address >= NO_CODE || !stack.put(address) {
        return None;
    }
    Some(end)
}

/// A memory grows.
#[inline(always)]
pub fn memory_grow(
    tables: &Tables,
    bytes: &[u8],
    at: usize,
    stack: &mut Stack,
    opens: &Opens,
) -> Option<usize>
    requires { Begins bytes.now at 0x40 }
    ensures leads { IfSome result (λ end. Leads bytes.now tables.now at (all opens.now) stack.old
        end (all opens.now) stack.new) }
    ensures forward { IfSome result (λ end. at < end) }
    ensures inside { IfSome result (λ end. end ≤ length bytes.now) }
{
    let Some((memory, end)) = memory_index_at(bytes, at + 1, tables.features) else {
        return None;
    };
    let address = addresses_of(tables, memory);
    if address >= NO_CODE || !stack.has(address) {
        return None;
    }
    Some(end)
}

/// A part of a memory is copied to another, or within it.
#[inline(always)]
pub fn memory_copy(
    middle: usize,
    tables: &Tables,
    bytes: &[u8],
    at: usize,
    stack: &mut Stack,
    opens: &Opens,
) -> Option<usize>
    requires { BeginsPrefixed bytes.now at 0xfc 0x0a middle }
    ensures leads { IfSome result (λ end. Leads bytes.now tables.now at (all opens.now) stack.old
        end (all opens.now) stack.new) }
    ensures forward { IfSome result (λ end. at < end) }
    ensures inside { IfSome result (λ end. end ≤ length bytes.now) }
{
    let Some((to, next)) = short_u32_at(bytes, middle) else {
        return None;
    };
    let Some((from, end)) = short_u32_at(bytes, next) else {
        return None;
    };
    let target = addresses_of(tables, to);
    let source = addresses_of(tables, from);
    if target >= NO_CODE || source >= NO_CODE {
        return None;
    }
    let least = shorter(target, source);
    if !stack.take(least) || !stack.take(source) || !stack.take(target) {
        return None;
    }
    Some(end)
}

/// A part of a memory is filled.
#[inline(always)]
pub fn memory_fill(
    middle: usize,
    tables: &Tables,
    bytes: &[u8],
    at: usize,
    stack: &mut Stack,
    opens: &Opens,
) -> Option<usize>
    requires { BeginsPrefixed bytes.now at 0xfc 0x0b middle }
    ensures leads { IfSome result (λ end. Leads bytes.now tables.now at (all opens.now) stack.old
        end (all opens.now) stack.new) }
    ensures forward { IfSome result (λ end. at < end) }
    ensures inside { IfSome result (λ end. end ≤ length bytes.now) }
{
    let Some((memory, end)) = short_u32_at(bytes, middle) else {
        return None;
    };
    let address = addresses_of(tables, memory);
    if address >= NO_CODE {
        return None;
    }
    if !stack.take(address) || !stack.take(0) || !stack.take(address) {
        return None;
    }
    Some(end)
}

/// A part of a memory is written from a data segment.
#[inline(always)]
pub fn memory_init(
    middle: usize,
    tables: &Tables,
    bytes: &[u8],
    at: usize,
    stack: &mut Stack,
    opens: &Opens,
) -> Option<usize>
    requires { BeginsPrefixed bytes.now at 0xfc 0x08 middle }
    ensures leads { IfSome result (λ end. Leads bytes.now tables.now at (all opens.now) stack.old
        end (all opens.now) stack.new) }
    ensures forward { IfSome result (λ end. at < end) }
    ensures inside { IfSome result (λ end. end ≤ length bytes.now) }
{
    if !tables.features.bulk_memory() {
        return None;
    }
    let Some((segment, next)) = short_u32_at(bytes, middle) else {
        return None;
    };
    let Some((memory, end)) = short_u32_at(bytes, next) else {
        return None;
    };
    let address = addresses_of(tables, memory);
    if address >= NO_CODE || segment >= tables.known.data {
        return None;
    }
    if !stack.take(0) || !stack.take(0) || !stack.take(address) {
        return None;
    }
    Some(end)
}

/// A data segment is dropped.
#[inline(always)]
pub fn data_drop(
    middle: usize,
    tables: &Tables,
    bytes: &[u8],
    at: usize,
    stack: &mut Stack,
    opens: &Opens,
) -> Option<usize>
    requires { BeginsPrefixed bytes.now at 0xfc 0x09 middle }
    ensures leads { IfSome result (λ end. Leads bytes.now tables.now at (all opens.now) stack.old
        end (all opens.now) stack.new) }
    ensures forward { IfSome result (λ end. at < end) }
    ensures inside { IfSome result (λ end. end ≤ length bytes.now) }
{
    if !tables.features.bulk_memory() {
        return None;
    }
    let Some((segment, end)) = short_u32_at(bytes, middle) else {
        return None;
    };
    if segment >= tables.known.data {
        return None;
    }
    Some(end)
}
