//! Modules that are validated one after the other.

ghost use Rattle.std.specs.Prelude.{◌≡◌, ◌<◌, IfOk, IfErr, Some, length, slice_get, true};
ghost use Rattle.wasm_types.specs.decoding.declared.error.ErrorKind.TheVariants as kinds;
ghost use Rattle.wasm_types.specs.reader.Reading.{IsNotMemory};
ghost use Rattle.wasm_sections_parser.specs.Parsing.{one_of};
ghost use Rattle.wasm_module_validator.specs.declared.validator.State.TheVariants as states;
ghost use Rattle.wasm_module_validator.specs.Methods.{can_reset};
ghost use Rattle.wasm_module_validator.specs.Lists.{texts, IsVerdict, AreVerdicts, goes_on, state_behind, state_after, KeepsAll, ShareIds, LeavesGroups};
ghost use Rattle.wasm_module_validator.specs.States.{held_by};

use crate::types::Types;
use crate::validator::{State, Validator};
use wasm_types::{Error, ErrorKind, Result};

/// What is said of a module.
#[derive(Drop)]
pub enum Verdict {
    /// It is valid, and this is known of it.
    Accepted(Types),
    /// It is not.
    Refused {
        /// The reason, and where it stands.
        error: Error,
        /// Whether all of it was read, and nothing but a function was refused.
        ended: bool,
    },
}

impl Verdict {
    // Whether another module may come behind it.
    fn goes_on(&self) -> bool
        ensures { result ≡ goes_on self.now }
    {
        match self {
            Verdict::Accepted(_) => true,
            Verdict::Refused { error: _, ended } => *ended,
        }
    }
}

impl Validator {
    /// Validates modules one after the other, each as `validate_all` does, with `reset` between: a verdict for each, in their order. The
    /// last verdict is that on the last module, or on the first that is refused before its end.
    ///
    /// What is said of a module does not depend on those before it, except that the list of types has 2^20 types at most: a module may be
    /// refused because it has no room behind the types of those before it (`validate_all`). Where types are kept in canonical form, an id of
    /// one module that was accepted and an id of another are the same exactly if their types are. The list keeps the types of all that were
    /// accepted, as long as a further module may come. An accepted module runs soundly, as with `validate_all`.
    ///
    /// # Errors
    ///
    /// There is no memory, and the validator has failed.
    pub fn validate_each(&mut self, inputs: &[&[u8]]) -> Result<Vec<Verdict>>
        requires { self.old.state ≡ states.Unparsed }
        ensures verdicts { IfOk result (λ vs. AreVerdicts self.old.settings self.old.id (held_by self.old)
            (texts inputs.now) vs.items) }
        ensures ids { IfOk result (λ vs. ShareIds self.old.settings vs.items) }
        ensures kept { IfOk result (λ vs. KeepsAll self.old vs.items self.new) }
        ensures state { IfOk result (λ vs. self.new.state ≡ state_after vs.items) }
        ensures memory { IfErr result (λ e. (e.kind ≡ kinds.OutOfMemory) × (self.new.state ≡ states.Failed)) }
        ensures others { self.new ≡ record self.old { state = self.new.state; reached = self.new.reached } }
    {
        let mut verdicts = Vec::new(self.alloc);
        for i in 0..inputs.len() {
            let bytes = input_at(inputs, i);
            let verdict = match self.validate_next(bytes) {
                Ok(verdict) => verdict,
                Err(error) => return Err(error),
            };
            let goes_on = verdict.goes_on();
            match verdicts.push(verdict) {
                Ok(()) => (),
                Err(_) => {
                    self.state = State::Failed;
                    return Err(Error::out_of_memory(0));
                }
            }
            if !goes_on {
                return Ok(verdicts);
            }
        }
        Ok(verdicts)
    }

    // The verdict on the next module. It is an error only if there is no memory.
    fn validate_next(&mut self, bytes: &[u8]) -> Result<Verdict>
        requires { can_reset self.old.state ≡ true }
        ensures verdict { IfOk result (IsVerdict self.old.settings self.old.id (held_by self.old) bytes.now) }
        ensures groups { IfOk result (λ v. LeavesGroups self.old bytes.now v self.new) }
        ensures state { IfOk result (λ v. self.new.state ≡ state_behind v) }
        ensures memory { IfErr result (λ e. (e.kind ≡ kinds.OutOfMemory) × (self.new.state ≡ states.Failed)) }
        ensures others { self.new ≡ record self.old { state = self.new.state; reached = self.new.reached } }
    {
        self.reset();
        match self.validate_all(bytes) {
            Ok(types) => {
                types.tell_ids();
                Ok(Verdict::Accepted(types))
            }
            Err(error) => {
                if is_memory(error.kind()) {
                    return Err(error);
                }
                let ended = self.can_reset();
                Ok(Verdict::Refused { error, ended })
            }
        }
    }
}

// The bytes of the input at this place.
fn input_at<'a>(inputs: &[&'a [u8]], at: usize) -> &'a [u8]
    requires { at < length inputs.now }
    ensures { slice_get (texts inputs.now) at ≡ Some result.now }
{
    inputs[at]
}

// Whether there was no memory, by the kind of an error.
fn is_memory(kind: ErrorKind) -> bool
    ensures { one_of result (kind ≡ kinds.OutOfMemory) (IsNotMemory kind) }
{
    match kind {
        ErrorKind::OutOfMemory => true,
        _ => false,
    }
}
