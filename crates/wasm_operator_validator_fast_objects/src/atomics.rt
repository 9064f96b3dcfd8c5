//! Atomic accesses to memories, and the fence.

ghost use Rattle.std.specs.Prelude.{◌≡◌, ◌<◌, ◌≤◌, ◌∷◌, ℕ, List, true, length, IfSome};
ghost use Rattle.wasm_operators_frequent.specs.Short.{Begins, BeginsPrefixed};
ghost use Rattle.wasm_operator_validator_fast_tables.specs.Tables.{no_code};
ghost use Rattle.wasm_operator_validator_fast_tables.specs.Loop.{Leads, all};
ghost use Rattle.wasm_operator_validator_fast_objects.specs.Atomics.{IsAtomicAt, Exchanges};

use wasm_operator_validator_fast_steps::indices::argument_at;
use wasm_operator_validator_fast_tables::{NO_CODE, Opens, Stack, Tables};
use wasm_operators_frequent::zero_at;
use wasm_types_decoding::short_u32_at;

/// What an atomic access does: all of one class take and give the same, by the type of the number.
#[derive(Clone, Copy)]
pub enum AccessClass {
    Load,
    Store,
    Modify,
    CompareExchange,
    Notify,
    Wait,
}

/// How many times the alignment of the access with this code is doubled, what it does, and the type of the number: no code if there is no such access.
fn shape_of(code: u32) -> (u8, AccessClass, u32)
    ensures access { result.2 < no_code → IsAtomicAt code result.0 result.1 result.2 }
    ensures few { result.0 < 4 }
{
    match code {
        0x00 => (2, AccessClass::Notify, 0),
        0x01 => (2, AccessClass::Wait, 0),
        0x02 => (3, AccessClass::Wait, 1),
        0x10 => (2, AccessClass::Load, 0),
        0x11 => (3, AccessClass::Load, 1),
        0x12 => (0, AccessClass::Load, 0),
        0x13 => (1, AccessClass::Load, 0),
        0x14 => (0, AccessClass::Load, 1),
        0x15 => (1, AccessClass::Load, 1),
        0x16 => (2, AccessClass::Load, 1),
        0x17 => (2, AccessClass::Store, 0),
        0x18 => (3, AccessClass::Store, 1),
        0x19 => (0, AccessClass::Store, 0),
        0x1a => (1, AccessClass::Store, 0),
        0x1b => (0, AccessClass::Store, 1),
        0x1c => (1, AccessClass::Store, 1),
        0x1d => (2, AccessClass::Store, 1),
        0x1e => (2, AccessClass::Modify, 0),
        0x1f => (3, AccessClass::Modify, 1),
        0x20 => (0, AccessClass::Modify, 0),
        0x21 => (1, AccessClass::Modify, 0),
        0x22 => (0, AccessClass::Modify, 1),
        0x23 => (1, AccessClass::Modify, 1),
        0x24 => (2, AccessClass::Modify, 1),
        0x25 => (2, AccessClass::Modify, 0),
        0x26 => (3, AccessClass::Modify, 1),
        0x27 => (0, AccessClass::Modify, 0),
        0x28 => (1, AccessClass::Modify, 0),
        0x29 => (0, AccessClass::Modify, 1),
        0x2a => (1, AccessClass::Modify, 1),
        0x2b => (2, AccessClass::Modify, 1),
        0x2c => (2, AccessClass::Modify, 0),
        0x2d => (3, AccessClass::Modify, 1),
        0x2e => (0, AccessClass::Modify, 0),
        0x2f => (1, AccessClass::Modify, 0),
        0x30 => (0, AccessClass::Modify, 1),
        0x31 => (1, AccessClass::Modify, 1),
        0x32 => (2, AccessClass::Modify, 1),
        0x33 => (2, AccessClass::Modify, 0),
        0x34 => (3, AccessClass::Modify, 1),
        0x35 => (0, AccessClass::Modify, 0),
        0x36 => (1, AccessClass::Modify, 0),
        0x37 => (0, AccessClass::Modify, 1),
        0x38 => (1, AccessClass::Modify, 1),
        0x39 => (2, AccessClass::Modify, 1),
        0x3a => (2, AccessClass::Modify, 0),
        0x3b => (3, AccessClass::Modify, 1),
        0x3c => (0, AccessClass::Modify, 0),
        0x3d => (1, AccessClass::Modify, 0),
        0x3e => (0, AccessClass::Modify, 1),
        0x3f => (1, AccessClass::Modify, 1),
        0x40 => (2, AccessClass::Modify, 1),
        0x41 => (2, AccessClass::Modify, 0),
        0x42 => (3, AccessClass::Modify, 1),
        0x43 => (0, AccessClass::Modify, 0),
        0x44 => (1, AccessClass::Modify, 0),
        0x45 => (0, AccessClass::Modify, 1),
        0x46 => (1, AccessClass::Modify, 1),
        0x47 => (2, AccessClass::Modify, 1),
        0x48 => (2, AccessClass::CompareExchange, 0),
        0x49 => (3, AccessClass::CompareExchange, 1),
        0x4a => (0, AccessClass::CompareExchange, 0),
        0x4b => (1, AccessClass::CompareExchange, 0),
        0x4c => (0, AccessClass::CompareExchange, 1),
        0x4d => (1, AccessClass::CompareExchange, 1),
        0x4e => (2, AccessClass::CompareExchange, 1),
        _ => (0, AccessClass::Load, NO_CODE),
    }
}

// Takes an operand off, and puts another in the place of the next.
#[inline(always)]
fn take_change(stack: &mut Stack, first: u32, takes: u32, gives: u32) -> bool
    ensures { result ≡ true → (rest : List ℕ) × (stack.old ≡ (first ∷ takes ∷ rest, stack.old.1))
        × (stack.new ≡ (gives ∷ rest, stack.old.1)) }
{
    stack.take(first) && stack.change(takes, gives)
}

// Takes two operands off, and puts another in the place of the next.
#[inline(always)]
fn take_two_change(stack: &mut Stack, first: u32, second: u32, takes: u32, gives: u32) -> bool
    ensures { result ≡ true → (rest : List ℕ) × (stack.old ≡ (first ∷ second ∷ takes ∷ rest, stack.old.1))
        × (stack.new ≡ (gives ∷ rest, stack.old.1)) }
{
    stack.take(first) && take_change(stack, second, takes, gives)
}

// Takes two operands off.
#[inline(always)]
fn take_two(stack: &mut Stack, first: u32, second: u32) -> bool
    ensures { result ≡ true → stack.old ≡ (first ∷ second ∷ stack.new.0, stack.new.1) }
{
    stack.take(first) && stack.take(second)
}

// Takes what an access takes, of which the address has this code, and gives what it gives.
fn exchange(class: AccessClass, ty: u32, address: u32, stack: &mut Stack) -> bool
    ensures { result ≡ true → Exchanges class ty address stack.old stack.new }
{
    match class {
        AccessClass::Load => stack.change(address, ty),
        AccessClass::Store => take_two(stack, ty, address),
        AccessClass::Modify => take_change(stack, ty, address, ty),
        AccessClass::CompareExchange => take_two_change(stack, ty, ty, address, ty),
        AccessClass::Notify => take_change(stack, 0, address, 0),
        AccessClass::Wait => take_two_change(stack, 1, ty, address, 0),
    }
}

/// A fence.
fn fence(
    middle: usize,
    tables: &Tables,
    bytes: &[u8],
    at: usize,
    stack: &mut Stack,
    opens: &Opens,
) -> Option<usize>
    requires { BeginsPrefixed bytes.now at 0xfe 0x03 middle }
    ensures leads { IfSome result (λ end. Leads bytes.now tables.now at (all opens.now) stack.old
        end (all opens.now) stack.new) }
    ensures forward { IfSome result (λ end. at < end) }
    ensures inside { IfSome result (λ end. end ≤ length bytes.now) }
{
    if !tables.features.threads() {
        return None;
    }
    let Some((_zero, end)) = zero_at(bytes, middle) else {
        return None;
    };
    Some(end)
}

/// An access, with exactly its natural alignment.
fn access(
    code: u32,
    middle: usize,
    tables: &Tables,
    bytes: &[u8],
    at: usize,
    stack: &mut Stack,
    opens: &Opens,
) -> Option<usize>
    requires { BeginsPrefixed bytes.now at 0xfe code middle }
    ensures leads { IfSome result (λ end. Leads bytes.now tables.now at (all opens.now) stack.old
        end (all opens.now) stack.new) }
    ensures forward { IfSome result (λ end. at < end) }
    ensures inside { IfSome result (λ end. end ≤ length bytes.now) }
{
    let (natural, class, ty) = shape_of(code);
    if ty >= NO_CODE || !tables.features.threads() || middle >= bytes.len() {
        return None;
    }
    let flags = bytes[middle];
    if flags % 0x10 != natural {
        return None;
    }
    let Some((end, address)) = argument_at(bytes, middle, natural, tables) else {
        return None;
    };
    if !exchange(class, ty, address, stack) {
        return None;
    }
    Some(end)
}

/// An operator behind the prefix `fe`.
pub fn atomic(
    tables: &Tables,
    bytes: &[u8],
    at: usize,
    stack: &mut Stack,
    opens: &Opens,
) -> Option<usize>
    requires { Begins bytes.now at 0xfe }
    ensures leads { IfSome result (λ end. Leads bytes.now tables.now at (all opens.now) stack.old
        end (all opens.now) stack.new) }
    ensures forward { IfSome result (λ end. at < end) }
    ensures inside { IfSome result (λ end. end ≤ length bytes.now) }
{
    let Some((code, middle)) = short_u32_at(bytes, at + 1) else {
        return None;
    };
    match code {
        0x03 => fence(middle, tables, bytes, at, stack, opens),
        _ => access(code, middle, tables, bytes, at, stack, opens),
    }
}
