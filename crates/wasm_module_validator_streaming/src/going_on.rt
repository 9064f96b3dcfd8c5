//! A module's bytes, taken to their end: a body that is refused does not stop that.

ghost use Rattle.std.specs.Prelude.{◌≡◌, ◌+◌, ℕ, List, None, is_some, Bool, true, false, length};
ghost use Rattle.wasm_types.specs.decoding.declared.error.ErrorKind.TheVariants.{OutOfMemory};
ghost use Rattle.wasm_module_validator_streaming.specs.declared.going_on.GoingOn.{GoingOn};
ghost use Rattle.wasm_module_validator_streaming.specs.GoingOn.{GoesOnAt, TakesOn, ShownOn, DeniedOn, WaitsOn};
ghost use Rattle.wasm_module_validator_streaming.specs.Taking.{IsMidst, IsDenied, Takes};
ghost use Rattle.wasm_module_validator_streaming.specs.laws.GoingOn.{goes_on_more, goes_on_last};
ghost use Rattle.wasm_module_validator_streaming.specs.laws.Running.{memory_denies};

use crate::judging::Judging;
use crate::taking::{Taken, TakesBytes};
use wasm_module_validator::{Types, ValidPayload};
use wasm_sections::Chunk;
use wasm_types::{Error, ErrorKind};

/// What judges a module as its bytes come, and goes on after the first body that is refused. If a section is refused
/// too, that is told, as it is if all sections are read before the first body is judged.
#[derive(Drop)]
pub(crate) struct GoingOn {
    pub(crate) judging: Judging,
    /// Why a body was refused: the first one that was.
    pub(crate) refused: Option<Error>,
}

impl GoingOn {
    /// Takes the next item, if no body was refused.
    #[inline(always)]
    fn take_judged(&mut self, bytes: &[u8], eof: bool) -> Taken<Types>
        requires midst { IsMidst GoesOnAt eof bytes.now self.old }
        requires sound { self.old.refused ≡ None }
        ensures { TakesOn self.old eof bytes.now result self.new }
    {
        if self.judging.passing > 0 {
            return self.judging.take(bytes, eof);
        }
        let before = self.judging.parser.offset();
        let taken = self.judging.take(bytes, eof);
        if !self.judging.has_refused_body {
            return taken;
        }
        match taken {
            Taken::Refused(error) => self.go_on(before, bytes, error),
            taken => taken,
        }
    }

    /// Keeps why a body was refused, and passes over the body: the parser was at this offset, and is after the body now.
    /// Out of memory is no verdict, and ends the judging.
    #[cold]
    #[inline(never)]
    fn go_on(&mut self, before: u64, bytes: &[u8], error: Error) -> Taken<Types>
        ensures { (first : GoingOn) (got : List ℕ) (eof : Bool) → before + length bytes.now ≡ length got
            → IsDenied DeniedOn first got eof error
            → Takes GoesOnAt ShownOn DeniedOn WaitsOn first got eof bytes.now result self.new }
    {
        let passed = self.judging.parser.offset().saturating_sub(before);
        // a body has some bytes, and they are there
        if ran_out(&error) || passed == 0 || passed > bytes.len() as u64 {
            return Taken::Refused(error);
        }
        self.refused = Some(error);
        Taken::Item(passed as usize)
    }

    /// Takes the next item after a body that was refused. The bodies that come are not judged any more.
    #[cold]
    #[inline(never)]
    fn take_unjudged(&mut self, bytes: &[u8], eof: bool) -> Taken<Types>
        requires midst { IsMidst GoesOnAt eof bytes.now self.old }
        requires lost { is_some self.old.refused ≡ true }
        ensures { TakesOn self.old eof bytes.now result self.new }
    {
        match self.judging.parser.parse(bytes, eof) {
            Ok(Chunk::NeedMoreData(needed)) => Taken::Waits(needed),
            Ok(Chunk::Parsed { consumed, payload }) => {
                match self.judging.validator.payload(payload) {
                    Ok(ValidPayload::Ok) => (),
                    Ok(ValidPayload::Func(_, _)) => (),
                    Ok(ValidPayload::End(_)) => (),
                    Err(error) => return Taken::Refused(error),
                }
                if consumed > 0 {
                    return Taken::Item(consumed);
                }
                // the end has no bytes
                match self.refused.take() {
                    Some(error) => Taken::Refused(error),
                    None => unreachable!(),
                }
            }
            Err(error) => Taken::Refused(error),
        }
    }
}

impl TakesBytes for GoingOn {
    type Done = Types;

    ghost stands = { GoesOnAt };

    ghost shown = { ShownOn };

    ghost denied = { DeniedOn };

    ghost waits = { WaitsOn };

    #[inline(always)]
    fn take(&mut self, bytes: &[u8], eof: bool) -> Taken<Types> {
        match &self.refused {
            None => self.take_judged(bytes, eof),
            Some(_) => self.take_unjudged(bytes, eof),
        }
    }

    ghost more = { goes_on_more };

    ghost last = { goes_on_last };

    ghost memory = { λ first text e k. memory_denies first.judging.validator.settings text e k };
}

/// Whether memory ran out.
fn ran_out(error: &Error) -> bool
    ensures { result ≡ false → error.now.kind ≡ OutOfMemory → ⊥ }
{
    error.kind() == ErrorKind::OutOfMemory
}
