//! The seven bits that a byte of a number has.

ghost use Rattle.std.specs.Prelude.{◌≡◌, ◌<◌, ◌≤◌};
ghost use Rattle.std.specs.Bool.{MatchBool};
ghost use Rattle.wasm_types_decoding.specs.Leb.{seven_bits as bits_signed};
ghost use Rattle.wasm_types_decoding.specs.Numbers.{EndsSigned, two_groups as groups};

/// The number that seven bits are, of which the highest is the sign.
#[inline(always)]
pub(crate) fn seven_bits(byte: u8) -> i64
    requires { byte < 128 }
    ensures { result ≡ bits_signed byte }
{
    if byte < 0x40 {
        byte as i64
    } else {
        byte as i64 - 0x80
    }
}

/// The signed number of two bytes, of which the first says that more follow.
#[inline(always)]
pub(crate) fn two_groups(first: u8, second: u8) -> i64
    requires more { 128 ≤ first }
    requires last { second < 128 }
    ensures { result ≡ groups first second }
{
    seven_bits(second) * 0x80 + (first - 0x80) as i64
}

/// Whether a byte ends a signed number that takes `bits` of its bits: those above them are as the highest of them, the sign.
#[inline]
pub(crate) fn ends_signed(byte: u8, bits: u32) -> bool
    requires some { 0 < bits }
    requires few { bits ≤ 7 }
    ensures { MatchBool result (EndsSigned bits byte) (EndsSigned bits byte → ⊥) }
{
    let half = 1u8 << (bits - 1);
    byte < half || (0x80 - half <= byte && byte < 0x80)
}
