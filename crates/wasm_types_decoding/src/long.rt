//! Numbers of any length, with the flaw where the bytes spell none.

ghost use Rattle.std.specs.Prelude.{◌≡◌, ◌-◌, ◌<◌, ◌≤◌, ◌^◌, length, IfOk};
ghost use Rattle.wasm_types_decoding.specs.Leb.{u32 as u32_decoder, u64 as u64_decoder, s32, s33, s64};
ghost use Rattle.wasm_types_decoding.specs.Numbers.{unsigned_of, signed_of, IsWithin, ReadsAt};

use crate::groups::{ends_signed, seven_bits};

/// Why the bytes at hand spell no number, and the offset in the slice that shows it.
#[derive(Clone, Copy)]
pub enum Flaw {
    /// The bytes end there, before the number does.
    Ended(usize),
    /// The number has no room for that byte, the last that it may have. Where the byte says that more follow, the number is
    /// too long, and else it is too large.
    NoRoom { offset: usize, byte: u8 },
}

/// The unsigned number of 32 bits that begins at an offset in `bytes`, in at most five bytes, and the offset behind it.
#[inline(never)]
pub fn long_u32_at(bytes: &[u8], at: usize) -> Result<(u32, usize), Flaw>
    requires { at ≤ length bytes.now }
    ensures { ReadsAt u32_decoder bytes.now at result }
{
    match unsigned_at(bytes, at, 32) {
        Ok((value, end)) => Ok((value as u32, end)),
        Err(flaw) => Err(flaw),
    }
}

/// The unsigned number of 64 bits that begins at an offset in `bytes`, in at most ten bytes, and the offset behind it.
#[inline(never)]
pub fn long_u64_at(bytes: &[u8], at: usize) -> Result<(u64, usize), Flaw>
    requires { at ≤ length bytes.now }
    ensures { ReadsAt u64_decoder bytes.now at result }
{
    unsigned_at(bytes, at, 64)
}

/// The signed number of 32 bits that begins at an offset in `bytes`, in at most five bytes, and the offset behind it.
#[inline(never)]
pub fn long_i32_at(bytes: &[u8], at: usize) -> Result<(i32, usize), Flaw>
    requires { at ≤ length bytes.now }
    ensures { ReadsAt s32 bytes.now at result }
{
    match signed_at(bytes, at, 32) {
        Ok((value, end)) => Ok((value as i32, end)),
        Err(flaw) => Err(flaw),
    }
}

/// The signed number of 33 bits that begins at an offset in `bytes`, in at most five bytes, and the offset behind it.
#[inline(never)]
pub fn long_s33_at(bytes: &[u8], at: usize) -> Result<(i64, usize), Flaw>
    requires { at ≤ length bytes.now }
    ensures { ReadsAt s33 bytes.now at result }
{
    signed_at(bytes, at, 33)
}

/// The signed number of 64 bits that begins at an offset in `bytes`, in at most ten bytes, and the offset behind it.
#[inline(never)]
pub fn long_i64_at(bytes: &[u8], at: usize) -> Result<(i64, usize), Flaw>
    requires { at ≤ length bytes.now }
    ensures { ReadsAt s64 bytes.now at result }
{
    signed_at(bytes, at, 64)
}

/// The unsigned number of `bits` bits that begins at an offset, and the offset behind it.
#[inline]
fn unsigned_at(bytes: &[u8], at: usize, bits: u32) -> Result<(u64, usize), Flaw>
    requires inside { at ≤ length bytes.now }
    requires some { 0 < bits }
    requires room { bits ≤ 64 }
    ensures answer { ReadsAt (unsigned_of bits) bytes.now at result }
    ensures within { IfOk result (λ r. r.0 < 2 ^ bits) }
{
    let rest = &bytes[at..];
    let mut value: u64 = 0;
    let mut shift: u32 = 0;
    for (i, byte) in rest.iter().enumerate() {
        // The last byte that a number may have has room for so many bits.
        if shift + 7 >= bits && *byte >= 1 << (bits - shift) {
            return Err(Flaw::NoRoom {
                offset: at + i,
                byte: *byte,
            });
        }
        value |= ((*byte & 0x7f) as u64) << shift;
        if shift + 7 >= bits || *byte < 0x80 {
            return Ok((value, at + i + 1));
        }
        shift += 7;
    }
    Err(Flaw::Ended(bytes.len()))
}

/// The signed number of `bits` bits that begins at an offset, and the offset behind it.
#[inline]
fn signed_at(bytes: &[u8], at: usize, bits: u32) -> Result<(i64, usize), Flaw>
    requires inside { at ≤ length bytes.now }
    requires some { 0 < bits }
    requires room { bits ≤ 64 }
    ensures answer { ReadsAt (signed_of bits) bytes.now at result }
    ensures within { IfOk result (λ r. IsWithin (bits - 1) r.0) }
{
    let rest = &bytes[at..];
    let mut low: u64 = 0;
    let mut shift: u32 = 0;
    for (i, byte) in rest.iter().enumerate() {
        if shift + 7 >= bits && !ends_signed(*byte, bits - shift) {
            return Err(Flaw::NoRoom {
                offset: at + i,
                byte: *byte,
            });
        }
        if shift + 7 >= bits || *byte < 0x80 {
            let high = seven_bits(*byte).cast_unsigned() << shift;
            return Ok(((low | high).cast_signed(), at + i + 1));
        }
        low |= ((*byte & 0x7f) as u64) << shift;
        shift += 7;
    }
    Err(Flaw::Ended(bytes.len()))
}
