//! Numbers in LEB128 as hot code reads them: a value, or none where the bytes at hand spell none. The reader then stands
//! where it was, and the public readers give the reason.

ghost use Rattle.std.specs.Prelude.{◌≡◌, IfSome, IfNone};
ghost use Rattle.wasm_types_decoding.specs.Decoder.{Done, Reaches, byte as byte_decoder};
ghost use Rattle.wasm_types_decoding.specs.Leb.{u32 as u32_decoder, u64 as u64_decoder, s32, s33, s64};
ghost use Rattle.wasm_types_decoding.specs.Numbers.{IsRefused};

use crate::BinaryReader;
use wasm_types_decoding::{
    short_i32_at, short_i64_at, short_s33_at, short_u8_at, short_u32_at, short_u64_at,
};

impl<'a> BinaryReader<'a> {
    /// The next byte, or none at the end.
    #[inline(always)]
    #[tactic(auto, using(crate::proofs::AtOnce::given, crate::proofs::AtOnce::goes_forward, crate::proofs::AtOnce::refused))]
    pub fn short_u8(&mut self) -> Option<u8>
        ensures found { IfSome result (λ b. byte_decoder self.old ≡ Done b self.new) }
        ensures none { IfNone result (IsRefused (byte_decoder self.old) × (self.new ≡ self.old)) }
        ensures forward { Reaches self.old self.new }
    {
        let Some((value, length)) = short_u8_at(self.rest(), 0) else {
            return None;
        };
        self.advance(length);
        Some(value)
    }

    /// The next unsigned number of 32 bits.
    #[inline(always)]
    #[tactic(auto, using(crate::proofs::AtOnce::given, crate::proofs::AtOnce::goes_forward, crate::proofs::AtOnce::refused))]
    pub fn short_u32(&mut self) -> Option<u32>
        ensures found { IfSome result (λ v. u32_decoder self.old ≡ Done v self.new) }
        ensures none { IfNone result (IsRefused (u32_decoder self.old) × (self.new ≡ self.old)) }
        ensures forward { Reaches self.old self.new }
    {
        let Some((value, length)) = short_u32_at(self.rest(), 0) else {
            return None;
        };
        self.advance(length);
        Some(value)
    }

    /// The next unsigned number of 64 bits.
    #[inline(always)]
    #[tactic(auto, using(crate::proofs::AtOnce::given, crate::proofs::AtOnce::goes_forward, crate::proofs::AtOnce::refused))]
    pub fn short_u64(&mut self) -> Option<u64>
        ensures found { IfSome result (λ v. u64_decoder self.old ≡ Done v self.new) }
        ensures none { IfNone result (IsRefused (u64_decoder self.old) × (self.new ≡ self.old)) }
        ensures forward { Reaches self.old self.new }
    {
        let Some((value, length)) = short_u64_at(self.rest(), 0) else {
            return None;
        };
        self.advance(length);
        Some(value)
    }

    /// The next signed number of 32 bits.
    #[inline(always)]
    #[tactic(auto, using(crate::proofs::AtOnce::given, crate::proofs::AtOnce::goes_forward, crate::proofs::AtOnce::refused))]
    pub fn short_i32(&mut self) -> Option<i32>
        ensures found { IfSome result (λ v. s32 self.old ≡ Done v self.new) }
        ensures none { IfNone result (IsRefused (s32 self.old) × (self.new ≡ self.old)) }
        ensures forward { Reaches self.old self.new }
    {
        let Some((value, length)) = short_i32_at(self.rest(), 0) else {
            return None;
        };
        self.advance(length);
        Some(value)
    }

    /// The next signed number of 33 bits.
    #[inline(always)]
    #[tactic(auto, using(crate::proofs::AtOnce::given, crate::proofs::AtOnce::goes_forward, crate::proofs::AtOnce::refused))]
    pub fn short_s33(&mut self) -> Option<i64>
        ensures found { IfSome result (λ v. s33 self.old ≡ Done v self.new) }
        ensures none { IfNone result (IsRefused (s33 self.old) × (self.new ≡ self.old)) }
        ensures forward { Reaches self.old self.new }
    {
        let Some((value, length)) = short_s33_at(self.rest(), 0) else {
            return None;
        };
        self.advance(length);
        Some(value)
    }

    /// The next signed number of 64 bits.
    #[inline(always)]
    #[tactic(auto, using(crate::proofs::AtOnce::given, crate::proofs::AtOnce::goes_forward, crate::proofs::AtOnce::refused))]
    pub fn short_i64(&mut self) -> Option<i64>
        ensures found { IfSome result (λ v. s64 self.old ≡ Done v self.new) }
        ensures none { IfNone result (IsRefused (s64 self.old) × (self.new ≡ self.old)) }
        ensures forward { Reaches self.old self.new }
    {
        let Some((value, length)) = short_i64_at(self.rest(), 0) else {
            return None;
        };
        self.advance(length);
        Some(value)
    }
}
