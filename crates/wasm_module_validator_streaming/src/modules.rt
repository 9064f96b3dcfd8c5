//! A module's bytes, taken payload by payload.

ghost use Rattle.std.specs.Prelude.{◌≡◌, ◌<◌, ◌+◌, ◌^◌, Ok, false, length};
ghost use Rattle.wasm_sections.specs.Parsing.{ParsesPayload};
ghost use Rattle.wasm_sections.specs.declared.parser.Chunk.TheVariants.{NeedMoreData};
ghost use Rattle.wasm_module_validator_streaming.specs.Taking.{IsMidst};
ghost use Rattle.wasm_module_validator_streaming.specs.Verdicts.{StandsAt, ShownAt, DeniedAt, WaitsAt, TakesAt};
ghost use Rattle.wasm_module_validator_streaming.specs.laws.Judging.{stands_more, stands_last};
ghost use Rattle.wasm_module_validator_streaming.specs.laws.Running.{memory_denies};

use crate::customs::{Front, read_front};
use crate::judging::Judging;
use crate::taking::{Taken, TakesBytes};
use wasm_module_validator::Types;
use wasm_sections::Chunk;
use wasm_types::Error;

impl Judging {
    /// Takes the next payload, if no contents go by.
    fn take_next(&mut self, bytes: &[u8], eof: bool) -> Taken<Types>
        requires midst { IsMidst StandsAt eof bytes.now self.old }
        requires idle { self.old.passing ≡ 0 }
        ensures { TakesAt self.old eof bytes.now result self.new }
    {
        if let Some((body, consumed)) = self.parser.next_body(bytes) {
            return self.take_body(consumed, body);
        }
        if let Some((section, consumed)) = self.parser.next_custom(bytes) {
            return self.take_custom(consumed, section);
        }
        self.take_other(bytes, eof)
    }

    /// The same of any payload.
    #[inline(never)]
    fn take_other(&mut self, bytes: &[u8], eof: bool) -> Taken<Types>
        requires midst { IsMidst StandsAt eof bytes.now self.old }
        requires idle { self.old.passing ≡ 0 }
        ensures { TakesAt self.old eof bytes.now result self.new }
    {
        match self.parser.parse(bytes, eof) {
            Ok(Chunk::NeedMoreData(needed)) => self.take_front(bytes, needed),
            Ok(Chunk::Parsed { consumed, payload }) => self.take_payload(consumed, payload),
            Err(error) => Taken::Refused(error),
        }
    }

    /// Takes bytes that are in no whole payload, if they are a custom section's front: what the contents are does not matter. Else so many
    /// more bytes are needed, or of a front that is not whole as many as may bring it.
    fn take_front(&mut self, bytes: &[u8], needed: usize) -> Taken<Types>
        requires idle { self.old.passing ≡ 0 }
        requires room { self.old.parser.frames.offset + length bytes.now < 2 ^ 64 }
        requires asks { ParsesPayload self.old.parser.frames bytes.now false (Ok (NeedMoreData needed)) self.old.parser.frames }
        requires some { 0 < needed }
        ensures { TakesAt self.old false bytes.now result self.new }
    {
        if !self.parser.is_between() {
            return Taken::Waits(needed);
        }
        match read_front(&self.parser, bytes) {
            Front::Head { missing, contents } => {
                let there = bytes.len();
                let end = self.parser.offset() + there as u64;
                let Some(_end) = end.checked_add(missing as u64) else {
                    return Taken::Waits(needed);
                };
                self.parser
                    .pass_section(0, 0, there as u64 + missing as u64);
                self.in_loop = None;
                self.passing = missing;
                self.contents = contents;
                Taken::Item(there)
            }
            Front::Cut(more) => Taken::Waits(needed.min(more)),
            Front::Other => Taken::Waits(needed),
        }
    }

    /// Takes contents of a custom section, as far as they are there.
    fn take_contents(&mut self, bytes: &[u8], eof: bool) -> Taken<Types>
        requires { 0 < self.old.passing }
        ensures { TakesAt self.old eof bytes.now result self.new }
    {
        let there = bytes.len();
        if there == 0 {
            if eof {
                return Taken::Refused(Error::eof(self.contents, self.passing));
            }
            return Taken::Waits(1);
        }
        let count = self.passing.min(there);
        self.passing -= count;
        Taken::Item(count)
    }
}

impl TakesBytes for Judging {
    type Done = Types;

    ghost stands = { StandsAt };

    ghost shown = { ShownAt };

    ghost denied = { DeniedAt };

    ghost waits = { WaitsAt };

    fn take(&mut self, bytes: &[u8], eof: bool) -> Taken<Types> {
        if self.passing > 0 {
            return self.take_contents(bytes, eof);
        }
        self.take_next(bytes, eof)
    }

    ghost more = { stands_more };

    ghost last = { stands_last };

    ghost memory = { λ first text e k. memory_denies first.validator.settings text e k };
}
