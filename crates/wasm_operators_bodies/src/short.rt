//! Constant expressions of one operator, straight from their bytes.
//!
//! Nearly all constants of a module are one number, one global, one function or one null. [`short_constant`] tells these from their first bytes,
//! with no reader of operators; of all others it says nothing.

ghost use Rattle.std.specs.Prelude.{◌≡◌, ◌≤◌, ℕ, length, take, IfSome};
ghost use Rattle.wasm_types.specs.values.Spells.{abstract_byte};
ghost use Rattle.wasm_types.specs.values.Trees.{abstract_of};
ghost use Rattle.wasm_operators_frequent.specs.Short.{Begins, IsTold};
ghost use Rattle.wasm_operators_bodies.specs.Short.{IsOf, SpellsShort};

use wasm_types::AbstractHeapType;
use wasm_types_decoding::{short_i32_at, short_i64_at, short_u32_at};

/// The one operator of a constant expression.
#[derive(Clone, Copy, Debug)]
pub enum ShortConstant {
    /// `i32.const`
    I32,
    /// `i64.const`
    I64,
    /// `global.get` of this global
    Global(u32),
    /// `ref.func` of this function
    Function(u32),
    /// `ref.null` of this abstract heap type, not of a shared one
    Null(AbstractHeapType),
}

/// A number, which begins behind the first byte, and where it ends.
#[inline(always)]
fn number_at(bytes: &[u8], code: u8) -> Option<(ShortConstant, usize)>
    requires { Begins bytes.now 0 code }
    ensures { IfSome result (λ r. (features : ℕ) → IsTold features bytes.now 0 r.1 (IsOf r.0)) }
{
    match code {
        0x41 => match short_i32_at(bytes, 1) {
            Some((_value, end)) => Some((ShortConstant::I32, end)),
            None => None,
        },
        0x42 => match short_i64_at(bytes, 1) {
            Some((_value, end)) => Some((ShortConstant::I64, end)),
            None => None,
        },
        _ => None,
    }
}

/// A global or a function, whose index begins behind the first byte, and where it ends.
#[inline(always)]
fn index_at(bytes: &[u8], code: u8) -> Option<(ShortConstant, usize)>
    requires { Begins bytes.now 0 code }
    ensures { IfSome result (λ r. (features : ℕ) → IsTold features bytes.now 0 r.1 (IsOf r.0)) }
{
    let Some((index, end)) = short_u32_at(bytes, 1) else {
        return None;
    };
    match code {
        0x23 => Some((ShortConstant::Global(index), end)),
        0xd2 => Some((ShortConstant::Function(index), end)),
        _ => None,
    }
}

/// The operator at the front, and where it ends.
#[inline(always)]
fn operator_at(bytes: &[u8]) -> Option<(ShortConstant, usize)>
    ensures { IfSome result (λ r. (features : ℕ) → IsTold features bytes.now 0 r.1 (IsOf r.0)) }
{
    if bytes.is_empty() {
        return None;
    }
    let code = bytes[0];
    if code == 0x41 || code == 0x42 {
        return number_at(bytes, code);
    }
    index_at(bytes, code)
}

/// The abstract heap type of a byte.
fn abstract_type(byte: u8) -> Option<AbstractHeapType>
    ensures { IfSome result (λ t. byte ≡ abstract_byte (abstract_of t)) }
{
    match byte {
        0x68 => Some(AbstractHeapType::Cont),
        0x69 => Some(AbstractHeapType::Exn),
        0x6a => Some(AbstractHeapType::Array),
        0x6b => Some(AbstractHeapType::Struct),
        0x6c => Some(AbstractHeapType::I31),
        0x6d => Some(AbstractHeapType::Eq),
        0x6e => Some(AbstractHeapType::Any),
        0x6f => Some(AbstractHeapType::Extern),
        0x70 => Some(AbstractHeapType::Func),
        0x71 => Some(AbstractHeapType::None),
        0x72 => Some(AbstractHeapType::NoExtern),
        0x73 => Some(AbstractHeapType::NoFunc),
        0x74 => Some(AbstractHeapType::NoExn),
        0x75 => Some(AbstractHeapType::NoCont),
        _ => None,
    }
}

/// The heap type of the null at the front, with its `end`: three bytes.
#[inline(always)]
fn null_at(bytes: &[u8]) -> Option<AbstractHeapType>
    ensures inside { IfSome result (λ _. 3 ≤ length bytes.now) }
    ensures spelled { IfSome result (λ t. SpellsShort (ShortConstant.Null t) (take 3 bytes.now)) }
{
    let long = bytes.len();
    if long < 3 {
        return None;
    }
    let first = bytes[0];
    if first != 0xd0 {
        return None;
    }
    let last = bytes[2];
    if last != 0x0b {
        return None;
    }
    let Some(ty) = abstract_type(bytes[1]) else {
        return None;
    };
    Some(ty)
}

/// The constant expression of one operator at the front of these bytes, and how long it is, if it is one that is known here.
pub fn short_constant(bytes: &[u8]) -> Option<(ShortConstant, usize)>
    ensures inside { IfSome result (λ r. r.1 ≤ length bytes.now) }
    ensures spelled { IfSome result (λ r. SpellsShort r.0 (take r.1 bytes.now)) }
{
    if let Some(ty) = null_at(bytes) {
        return Some((ShortConstant::Null(ty), 3));
    }
    other_constant(bytes)
}

/// The same of those that are no nulls.
#[inline(always)]
fn other_constant(bytes: &[u8]) -> Option<(ShortConstant, usize)>
    ensures inside { IfSome result (λ r. r.1 ≤ length bytes.now) }
    ensures spelled { IfSome result (λ r. SpellsShort r.0 (take r.1 bytes.now)) }
{
    let Some((constant, end)) = operator_at(bytes) else {
        return None;
    };
    if end >= bytes.len() || bytes[end] != 0x0b {
        return None;
    }
    Some((constant, end + 1))
}
