//! A section of items.

ghost use Rattle.std.specs.Prelude.{◌≡◌, ◌+◌, length, IfErr, MatchResult};
ghost use Rattle.wasm_types.specs.decoding.Decoder.{Done};
ghost use Rattle.wasm_types.specs.decoding.Leb.{u32 as u32_decoder};
ghost use Rattle.wasm_types.specs.reader.Reading.{Fails, IsNotMemory};
ghost use Rattle.wasm_types.specs.settings.Limits.{IsWithinCeilings};

use std::alloc::Global;
use std::marker::PhantomData;
use std::ops::Range;
use wasm_types::{BinaryReader, FromReader, Limits, Result, WasmFeatures};

/// A count and as many items, which are read as they are asked for.
#[derive(Drop)]
pub struct SectionLimited<'a, T: FromReader<'a>> {
    pub(crate) reader: BinaryReader<'a>,
    count: u32,
    pub(crate) alloc: Global,
    // No item is held. The prover has no proof of a caller's `&` of a `PhantomData<T>` where the items borrow.
    of: PhantomData<&'a T>,
}

impl<'a, T: FromReader<'a>> SectionLimited<'a, T> {
    /// A section of these contents: reads the count, a number of 32 bits. Items that take memory take it of `alloc`.
    pub fn new(alloc: Global, reader: BinaryReader<'a>) -> Result<SectionLimited<'a, T>>
        ensures answer { MatchResult result (λ s. u32_decoder reader.entry ≡ Done s.count s.reader)
            (λ e. Fails e (u32_decoder reader.entry)) }
        ensures no_memory { IfErr result (λ e. IsNotMemory e.kind) }
    {
        let mut reader = reader;
        let count = reader.read_var_u32()?;
        Ok(SectionLimited {
            reader,
            count,
            alloc,
            of: PhantomData,
        })
    }

    /// How many items were counted.
    pub fn count(&self) -> u32
        ensures { result ≡ self.now.count }
    {
        self.count
    }

    /// The offset of the first item.
    pub fn original_position(&self) -> u64
        ensures { result ≡ self.now.reader.place }
    {
        self.reader.original_position()
    }

    /// The offsets of the contents, the count too.
    pub fn range(&self) -> Range<u64>
        ensures { result ≡ record {
          start = self.now.reader.start;
          end = self.now.reader.place + length self.now.reader.rest;
        } }
    {
        self.reader.range()
    }

    /// Allows the items these features from here on.
    pub fn set_features(&mut self, features: WasmFeatures)
        ensures { self.new ≡ record self.old {
          reader = record self.old.reader {
            settings = record { features = features.0; limits = self.old.reader.settings.limits };
          };
        } }
    {
        self.reader.set_features(features);
    }

    /// Holds the items to these limits from here on.
    pub fn set_limits(&mut self, limits: Limits)
        requires within { IsWithinCeilings limits }
        ensures { self.new ≡ record self.old {
          reader = record self.old.reader {
            settings = record { features = self.old.reader.settings.features; limits = limits };
          };
        } }
    {
        self.reader.set_limits(limits);
    }

    /// The same section, whose items are read by these features and limits.
    pub fn read_by(self, features: WasmFeatures, limits: Limits) -> SectionLimited<'a, T>
        requires within { IsWithinCeilings limits }
        ensures { result ≡ record self.entry {
          reader = record self.entry.reader {
            settings = record { features = features.0; limits = limits };
          };
        } }
    {
        let mut section = self;
        section.set_features(features);
        section.set_limits(limits);
        section
    }

    /// A reader of the items' bytes.
    pub fn get_binary_reader(&self) -> BinaryReader<'a>
        ensures { result ≡ self.now.reader }
    {
        self.reader.clone()
    }
}
