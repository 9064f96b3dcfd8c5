//! The parser.

ghost use Rattle.std.specs.Prelude.{◌≡◌, ◌+◌, ◌<◌, ◌^◌, length, None};
ghost use Rattle.wasm_types.specs.settings.Sets.{bits_of, default_features};
ghost use Rattle.wasm_types.specs.decoding.declared.error.ErrorKind.TheVariants.{Other};
ghost use Rattle.wasm_types.specs.settings.Limits.{default_limits, IsWithinCeilings};
ghost use Rattle.wasm_types.specs.reader.Reading.{NeedsNoMemory};
ghost use Rattle.wasm_sections_parser.specs.declared.progress.Stage.TheVariants.{Header, Failed};
ghost use Rattle.wasm_sections_parser.specs.Parsers.{staged};
ghost use Rattle.wasm_sections_parser.specs.Parsing.{between, Ends, Comes, Parses};

use crate::needs::needed;
use crate::progress::{counts_agree, is_over};
use crate::sections::{Read, read_frame};
use crate::{Frame, Progress, Stage};
use std::marker::Model;
use wasm_types::{BinaryReader, Error, Limits, Result, WasmFeatures, Words};

// Why a module may not end: it has functions and no code section, or data segments were announced and it has no data section.
#[cold]
fn absent_error(progress: &Progress, offset: u64) -> Error
    ensures kind { result.kind ≡ Other }
    ensures offset { result.offset ≡ offset }
{
    if progress.functions != progress.bodies {
        return Error::new(
            Words::FunctionSectionHasNonZeroCountButCodeSectionIsAbsent,
            offset,
        );
    }
    Error::new(Words::DataCountIsNonZeroButDataSectionIsAbsent, offset)
}

/// What a call gives.
#[derive(Drop)]
pub enum Chunk<'a> {
    /// So many more bytes than were given are needed, and no fewer: with fewer the call is answered so again, and some so many bring a
    /// frame or a refusal (`wasm_sections_parser::runs` has the laws). The parser is as it was: the next call is given the same bytes
    /// again, with more behind them.
    NeedMoreData(usize),
    /// A frame of so many bytes.
    Parsed {
        /// The bytes of the frame.
        consumed: usize,
        /// The frame.
        frame: Frame<'a>,
    },
}

/// Reads a module from its bytes, in pieces, by the features that are allowed and the limits that hold.
#[derive(Clone, Copy)]
pub struct Parser {
    pub(crate) offset: u64,
    pub(crate) features: WasmFeatures,
    pub(crate) limits: Limits,
    pub(crate) progress: Progress,
}

impl Model for Parser {
    ghost use Rattle.wasm_types.specs.settings.Limits.{IsWithinCeilings};
    ghost use Rattle.wasm_sections_parser.specs.Parsers.{Parser as Standing};

    ghost Value = { Standing };

    ghost view = { λ p. record {
      offset = p.offset;
      settings = record { features = p.features.0; limits = p.limits };
      progress = p.progress;
    } };

    ghost invariant = { λ p. IsWithinCeilings p.limits };

    ghost inverse = { λ s. record {
      offset = s.offset;
      features = record { 0 = s.settings.features };
      limits = s.settings.limits;
      progress = s.progress;
    } };
}

impl Parser {
    /// A parser of a module that begins at this offset of the input, with the default features and the default limits.
    pub fn new(offset: u64) -> Parser
        ensures offset { result.offset ≡ offset }
        ensures settings { result.settings ≡ record { features = bits_of default_features; limits = default_limits } }
        ensures progress { result.progress ≡ record {
          stage = Header;
          last = 0;
          functions = 0;
          bodies = 0;
          data_count = None;
          segments = 0;
        } }
    {
        Parser {
            offset,
            features: WasmFeatures::default(),
            limits: Limits::default(),
            progress: Progress {
                stage: Stage::Header,
                last: 0,
                functions: 0,
                bodies: 0,
                data_count: None,
                segments: 0,
            },
        }
    }

    /// The features that are allowed.
    pub fn features(&self) -> WasmFeatures
        ensures { result.0 ≡ self.now.settings.features }
    {
        self.features
    }

    /// Allows these features from here on.
    pub fn set_features(&mut self, features: WasmFeatures)
        ensures { self.new ≡ record self.old {
          settings = record
              { features = features.0; limits = self.old.settings.limits };
        } }
    {
        self.features = features;
    }

    /// The limits that hold.
    pub fn limits(&self) -> Limits
        ensures value { result ≡ self.now.settings.limits }
        ensures within { IsWithinCeilings result }
    {
        self.limits
    }

    /// Holds to these limits from here on.
    pub fn set_limits(&mut self, limits: Limits)
        requires within { IsWithinCeilings limits }
        ensures { self.new ≡ record self.old {
          settings = record
              { features = self.old.settings.features; limits = limits };
        } }
    {
        self.limits = limits;
    }

    /// Refuses the module where it stands: from here on each call is refused with kind 4.
    pub fn fail(&mut self)
        ensures { self.new ≡ staged self.old Failed }
    {
        self.set_stage(Stage::Failed);
    }

    /// What comes next of the module, at the front of these bytes; `eof` says that none follow them. Where more bytes are needed
    /// the parser stays as it is; behind the end and behind a refusal each call is refused with kind 4.
    pub fn parse<'d>(&mut self, data: &'d [u8], eof: bool) -> Result<Chunk<'d>>
        requires { self.old.offset + length data.now < 2 ^ 64 }
        ensures answer { Parses self.old data.now eof result self.new }
        ensures no_memory { NeedsNoMemory result }
    {
        if is_over(&self.progress) {
            return Err(Error::failed(Words::NothingMoreIsParsed, self.offset));
        }
        if data.len() == 0 && self.is_between() {
            return self.end(eof);
        }
        self.next(data, eof)
    }

    /// Whether a section, or the end, may come here.
    pub fn is_between(&self) -> bool
        ensures { result ≡ between self.now.progress.stage self.now.offset }
    {
        match self.progress.stage {
            Stage::Header => false,
            Stage::Sections => true,
            Stage::Code { left, end } => {
                if left == 0 {
                    return end <= self.offset;
                }
                false
            }
            Stage::Ended => false,
            Stage::Failed => false,
        }
    }

    // The same parser in another stage.
    fn set_stage(&mut self, stage: Stage)
        ensures { self.new ≡ staged self.old stage }
    {
        self.progress.stage = stage;
    }

    // The end, where none of the bytes is left.
    fn end<'d>(&mut self, eof: bool) -> Result<Chunk<'d>>
        ensures answer { Ends self.old eof result self.new }
        ensures no_memory { NeedsNoMemory result }
    {
        if !eof {
            return Ok(Chunk::NeedMoreData(2));
        }
        let place = self.offset;
        if !counts_agree(&self.progress) {
            self.set_stage(Stage::Failed);
            return Err(absent_error(&self.progress, place));
        }
        self.set_stage(Stage::Ended);
        Ok(Chunk::Parsed {
            consumed: 0,
            frame: Frame::End(place),
        })
    }

    // What comes next at the front of these bytes.
    fn next<'d>(&mut self, data: &'d [u8], eof: bool) -> Result<Chunk<'d>>
        requires { self.old.offset + length data.now < 2 ^ 64 }
        ensures answer { Comes self.old data.now eof result self.new }
        ensures no_memory { NeedsNoMemory result }
    {
        let mut reader = BinaryReader::new_limited(data, self.offset, self.features, self.limits);
        match read_frame(self.progress, &mut reader) {
            Ok(Read { frame, progress }) => {
                self.offset = reader.original_position();
                self.progress = progress;
                Ok(Chunk::Parsed {
                    consumed: reader.current_position(),
                    frame,
                })
            }
            Err(error) => {
                if !eof {
                    if let Some(lacking) = error.needed_hint() {
                        let count = needed(&self.progress, self.offset, data, lacking);
                        return Ok(Chunk::NeedMoreData(count));
                    }
                }
                self.set_stage(Stage::Failed);
                Err(error)
            }
        }
    }
}
