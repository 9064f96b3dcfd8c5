//! Vectors of 128 bits.

ghost use Rattle.std.specs.Prelude.{◌≡◌};
ghost use Rattle.std.specs.Int.{w128, to_le_bytes, from_le_bytes, cast_signed, cast_unsigned};

/// A vector of 128 bits, as 16 bytes, the lowest first (WebAssembly 3.0, binary format, vector instructions).
#[derive(Clone, Copy, Debug, PartialEq, Eq)]
pub struct V128(pub [u8; 16]);

impl V128 {
    /// The bytes, the lowest first.
    #[inline]
    pub fn bytes(&self) -> &[u8; 16]
        ensures { result.now ≡ self.now.0 }
    {
        &self.0
    }

    /// The number whose bits these are, with a sign.
    #[inline]
    pub fn i128(&self) -> i128
        ensures { result ≡ cast_signed w128 (from_le_bytes w128 self.now.0) }
    {
        i128::from_le_bytes(self.0)
    }
}

impl From<u128> for V128 {
    ghost from_gives = { λ n v. v.0 ≡ to_le_bytes w128 n };

    fn from(number: u128) -> V128 {
        V128(number.to_le_bytes())
    }
}

impl From<i128> for V128 {
    ghost from_gives = { λ n v. v.0 ≡ to_le_bytes w128 (cast_unsigned w128 n) };

    fn from(signed: i128) -> V128 {
        V128(signed.to_le_bytes())
    }
}

impl From<V128> for u128 {
    ghost from_gives = { λ v n. n ≡ from_le_bytes w128 v.0 };

    fn from(vector: V128) -> u128 {
        u128::from_le_bytes(vector.0)
    }
}

impl From<V128> for i128 {
    ghost from_gives = { λ v n. n ≡ cast_signed w128 (from_le_bytes w128 v.0) };

    fn from(vector: V128) -> i128 {
        vector.i128()
    }
}
