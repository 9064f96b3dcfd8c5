//! Numbers of one and two bytes, taken at once; a longer one by a call. None where the bytes at hand spell no number: the
//! long forms say why.

ghost use Rattle.std.specs.Prelude.{◌≡◌, ◌≤◌, length, IfSome, IfNone};
ghost use Rattle.wasm_types_decoding.specs.Decoder.{byte as byte_decoder};
ghost use Rattle.wasm_types_decoding.specs.Leb.{u32 as u32_decoder, u64 as u64_decoder, s32, s33, s64};
ghost use Rattle.wasm_types_decoding.specs.Numbers.{GivesAt, RefusedAt};

use crate::groups::{seven_bits, two_groups};
use crate::long::{long_i32_at, long_i64_at, long_s33_at, long_u32_at, long_u64_at};

/// The byte at an offset in `bytes`, and the offset behind it.
#[inline(always)]
#[tactic(auto, using(crate::proofs::AtOnce::one_byte, crate::proofs::AtOnce::no_byte))]
pub fn short_u8_at(bytes: &[u8], at: usize) -> Option<(u8, usize)>
    ensures found { IfSome result (λ r. GivesAt byte_decoder bytes.now at r.0 r.1) }
    ensures none { IfNone result (RefusedAt byte_decoder bytes.now at) }
{
    if at < bytes.len() {
        return Some((bytes[at], at + 1));
    }
    None
}

/// The unsigned number of 32 bits that begins at an offset in `bytes`, and the offset behind it.
#[inline(always)]
pub fn short_u32_at(bytes: &[u8], at: usize) -> Option<(u32, usize)>
    requires { at ≤ length bytes.now }
    ensures found { IfSome result (λ r. GivesAt u32_decoder bytes.now at r.0 r.1) }
    ensures none { IfNone result (RefusedAt u32_decoder bytes.now at) }
{
    if at + 1 < bytes.len() {
        let first = bytes[at];
        if first < 0x80 {
            return Some((first as u32, at + 1));
        }
        let second = bytes[at + 1];
        if second < 0x80 {
            return Some((second as u32 * 0x80 + (first as u32 - 0x80), at + 2));
        }
    }
    let Ok(read) = long_u32_at(bytes, at) else {
        return None;
    };
    Some(read)
}

/// The unsigned number of 64 bits that begins at an offset in `bytes`, and the offset behind it.
#[inline(always)]
pub fn short_u64_at(bytes: &[u8], at: usize) -> Option<(u64, usize)>
    requires { at ≤ length bytes.now }
    ensures found { IfSome result (λ r. GivesAt u64_decoder bytes.now at r.0 r.1) }
    ensures none { IfNone result (RefusedAt u64_decoder bytes.now at) }
{
    if at + 1 < bytes.len() {
        let first = bytes[at];
        if first < 0x80 {
            return Some((first as u64, at + 1));
        }
        let second = bytes[at + 1];
        if second < 0x80 {
            return Some((second as u64 * 0x80 + (first as u64 - 0x80), at + 2));
        }
    }
    let Ok(read) = long_u64_at(bytes, at) else {
        return None;
    };
    Some(read)
}

/// The signed number of 32 bits that begins at an offset in `bytes`, and the offset behind it.
#[inline(always)]
pub fn short_i32_at(bytes: &[u8], at: usize) -> Option<(i32, usize)>
    requires { at ≤ length bytes.now }
    ensures found { IfSome result (λ r. GivesAt s32 bytes.now at r.0 r.1) }
    ensures none { IfNone result (RefusedAt s32 bytes.now at) }
{
    if at + 1 < bytes.len() {
        let first = bytes[at];
        if first < 0x80 {
            return Some((seven_bits(first) as i32, at + 1));
        }
        let second = bytes[at + 1];
        if second < 0x80 {
            return Some((two_groups(first, second) as i32, at + 2));
        }
    }
    let Ok(read) = long_i32_at(bytes, at) else {
        return None;
    };
    Some(read)
}

/// The signed number of 33 bits that begins at an offset in `bytes`, and the offset behind it.
#[inline(always)]
pub fn short_s33_at(bytes: &[u8], at: usize) -> Option<(i64, usize)>
    requires { at ≤ length bytes.now }
    ensures found { IfSome result (λ r. GivesAt s33 bytes.now at r.0 r.1) }
    ensures none { IfNone result (RefusedAt s33 bytes.now at) }
{
    if at + 1 < bytes.len() {
        let first = bytes[at];
        if first < 0x80 {
            return Some((seven_bits(first), at + 1));
        }
        let second = bytes[at + 1];
        if second < 0x80 {
            return Some((two_groups(first, second), at + 2));
        }
    }
    let Ok(read) = long_s33_at(bytes, at) else {
        return None;
    };
    Some(read)
}

/// The signed number of 64 bits that begins at an offset in `bytes`, and the offset behind it.
#[inline(always)]
pub fn short_i64_at(bytes: &[u8], at: usize) -> Option<(i64, usize)>
    requires { at ≤ length bytes.now }
    ensures found { IfSome result (λ r. GivesAt s64 bytes.now at r.0 r.1) }
    ensures none { IfNone result (RefusedAt s64 bytes.now at) }
{
    if at + 1 < bytes.len() {
        let first = bytes[at];
        if first < 0x80 {
            return Some((seven_bits(first), at + 1));
        }
        let second = bytes[at + 1];
        if second < 0x80 {
            return Some((two_groups(first, second), at + 2));
        }
    }
    let Ok(read) = long_i64_at(bytes, at) else {
        return None;
    };
    Some(read)
}
