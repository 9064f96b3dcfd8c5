//! A reader of bytes that keeps where it stands as an offset.

ghost use Rattle.std.specs.Prelude.{◌≡◌, ◌==◌, ◌<◌, get_or, length};
ghost use Rattle.wasm_types.specs.decoding.Decoder.{Reaches};

use std::marker::Model;
use wasm_types::{BinaryReader, WasmFeatures};

/// A reader of bytes that keeps where it stands as an offset behind its start. So what goes on writes an offset alone, and
/// what is refused writes nothing.
#[derive(Drop)]
pub(crate) struct Cursor<'a> {
    pub(crate) start: BinaryReader<'a>,
    pub(crate) bytes: &'a [u8],
    pub(crate) position: usize,
}

impl<'a> Model for Cursor<'a> {
    ghost use Rattle.std.specs.Prelude.{◌≡◌, ◌≤◌, length};
    ghost use Rattle.wasm_types.specs.decoding.Decoder.{State};
    ghost use Rattle.wasm_types.specs.decoding.Numbers.{behind};

    ghost Value = { State };

    ghost view = { λ c. behind c.position c.start };

    ghost invariant = { λ c. (c.bytes.now ≡ c.start.rest) × (c.position ≤ length c.bytes.now) };
}

impl<'a> Cursor<'a> {
    /// Where this reader stands.
    #[inline]
    pub(crate) fn new(reader: BinaryReader<'a>) -> Cursor<'a>
        ensures { result ≡ reader.entry }
    {
        let mut ahead = reader.clone();
        let Ok(bytes) = ahead.read_bytes(reader.bytes_remaining()) else {
            unreachable!()
        };
        Cursor {
            start: reader,
            bytes,
            position: 0,
        }
    }

    /// The same once more.
    #[inline]
    pub(crate) fn copy(&self) -> Cursor<'a>
        ensures { result ≡ self.now }
    {
        Cursor {
            start: self.start.clone(),
            bytes: self.bytes,
            position: self.position,
        }
    }

    /// A reader that stands there.
    #[inline]
    pub(crate) fn reader(&self) -> BinaryReader<'a>
        ensures { result ≡ self.now }
    {
        let mut reader = self.start.clone();
        let Ok(_) = reader.read_bytes(self.position) else {
            unreachable!()
        };
        reader
    }

    /// Goes on to where this reader stands.
    #[inline]
    pub(crate) fn go_to(&mut self, ahead: &BinaryReader<'a>)
        requires { Reaches self.old ahead.now }
        ensures { self.new ≡ ahead.now }
    {
        self.position = self.bytes.len() - ahead.bytes_remaining();
    }

    /// Whether no byte is left.
    #[inline]
    pub(crate) fn eof(&self) -> bool
        ensures { result ≡ (length self.now.rest == 0) }
    {
        self.position >= self.bytes.len()
    }

    /// The next byte, which stays.
    #[inline]
    pub(crate) fn first(&self) -> u8
        requires { 0 < length self.now.rest }
        ensures { result ≡ get_or self.now.rest 0 0 }
    {
        self.bytes[self.position]
    }

    /// Where the next byte stands in the input.
    #[inline]
    pub(crate) fn original_position(&self) -> u64
        ensures { result ≡ self.now.place }
    {
        let end = self.start.remaining_range().end;
        end - (self.bytes.len() - self.position) as u64
    }

    /// The features that are allowed.
    #[inline]
    pub(crate) fn features(&self) -> WasmFeatures
        ensures { result.0 ≡ self.now.settings.features }
    {
        self.start.features()
    }
}
