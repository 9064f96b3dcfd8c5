//! Inputs are judged by the validator of modules.
ghost use Rattle.std.specs.Prelude.{◌≡◌, IfOk, IfErr};
ghost use Rattle.wasm_module_validator.specs.rules.Accepts.{AcceptsUnder};
ghost use Rattle.wasm_module_validator.specs.soundness.Soundness.{AcceptedIsSound};
ghost use Rattle.wasm_types.specs.settings.Limits.{IsWithinCeilings};
ghost use Rattle.wasm_check_command.specs.Modes.{HasPieces, ruling_by};
ghost use Rattle.wasm_check_command.specs.Reports.{sources_of, IsReported, Stops};
ghost use Rattle.wasm_check_program.specs.Faults.{unjudged};
ghost use Rattle.wasm_check_program.specs.Begun.{came_to_end};

use std::alloc::{AllocError, Global};
use std::io::{Read, Write};
use wasm_check_command::{Input, Judge, MAX_BYTES, Mode, Status, Unjudged, check_by};
use wasm_check_explanation::{explain, told};
use wasm_check_faults::CheckError;
use wasm_check_lines::Explanation;
use wasm_module_validator::{Validator, ValidatorId};
use wasm_module_validator_streaming::{
    ModuleToEnd, ReadError, WatchedReader, validate_reader_limited,
};
use wasm_types::{Error, Limits, WasmFeatures};

/// Judges bytes as a module, each time by a validator of its own, which has the input's place for its id.
pub(crate) struct Validating;

impl Judge for Validating {
    type Begun = ModuleToEnd;

    ghost accepts = { AcceptsUnder };

    ghost came = { came_to_end };

    fn judge(
        &self,
        alloc: Global,
        features: WasmFeatures,
        limits: Limits,
        index: usize,
        bytes: &[u8],
    ) -> Result<(), Error> {
        let id = ValidatorId::new(index);
        let mut validator = Validator::new_with_limits(alloc, id, features, limits);
        match validator.validate_all(bytes) {
            Ok(_types) => Ok(()),
            Err(error) => Err(error),
        }
    }

    fn judge_pieces<R: Read>(
        &self,
        alloc: Global,
        features: WasmFeatures,
        limits: Limits,
        index: usize,
        reader: &mut R,
        piece: u32,
    ) -> Result<(), Unjudged> {
        let id = ValidatorId::new(index);
        let most = MAX_BYTES as u64;
        let mut watched = WatchedReader::new(reader);
        let piece = piece as usize;
        match validate_reader_limited(alloc, id, features, limits, &mut watched, piece, most) {
            Ok(_types) => Ok(()),
            Err(fault) => Err(unjudged(fault)),
        }
    }

    fn begin(
        &self,
        alloc: Global,
        features: WasmFeatures,
        limits: Limits,
        index: usize,
    ) -> ModuleToEnd {
        let id = ValidatorId::new(index);
        ModuleToEnd::new(alloc, id, features, limits)
    }

    fn take(&self, begun: &mut ModuleToEnd, bytes: &[u8]) {
        begun.take(bytes)
    }

    fn conclude(&self, begun: ModuleToEnd) -> Result<(), Error> {
        match begun.end() {
            Ok(_types) => Ok(()),
            Err(error) => Err(error),
        }
    }

    fn explain(
        &self,
        alloc: Global,
        features: WasmFeatures,
        limits: Limits,
        bytes: &[u8],
        error: &Error,
    ) -> Result<Option<Explanation>, AllocError> {
        let place = explain(alloc, features, limits, bytes, error)?;
        let explanation = told(alloc, place)?;
        Ok(Some(explanation))
    }
}

/// What stopped the reading of a module, as the program asks it of a judge.
fn unjudged(fault: ReadError) -> Unjudged
    ensures { result ≡ unjudged fault }
{
    match fault {
        ReadError::Refused(error) => Unjudged::Refused(error),
        ReadError::Read => Unjudged::Read,
        ReadError::TooLong => Unjudged::TooLong,
    }
}

/// Judges each input by a validator of its own with these features and limits, in order, and writes a line for each. Inputs are read
/// whole, or judged as they come, as the mode says.
///
/// Each module that is called valid runs soundly, whatever the features and limits (`AcceptedIsSound`): if the features are those of the
/// standard, no run of it is stuck (WebAssembly 3.0, appendix, soundness).
pub fn check<R: Read + Drop, W: Write>(
    alloc: Global,
    inputs: Vec<Input<'_, R>>,
    features: WasmFeatures,
    limits: Limits,
    mode: Mode,
    out: &mut W,
) -> Result<Status, CheckError>
    requires within { IsWithinCeilings limits }
    requires pieces { HasPieces mode }
    ensures ok { IfOk result (IsReported (ruling_by AcceptsUnder features.0 limits mode)
        (sources_of R.remaining inputs.entry.items)
        (W.contents out.old) (W.contents out.new)) }
    ensures err { IfErr result (Stops (ruling_by AcceptsUnder features.0 limits mode)
        (sources_of R.remaining inputs.entry.items)
        (W.contents out.old) (W.contents out.new)) }
    ensures sound { AcceptedIsSound }
{
    check_by(&Validating, alloc, inputs, features, limits, mode, out)
}
