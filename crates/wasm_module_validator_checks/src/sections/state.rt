//! Where a validator is in a module.

ghost use Rattle.std.specs.Prelude.{◌≡◌, IsTrue, IfErr, OnOk, OnErr};
ghost use Rattle.wasm_types.specs.decoding.Denials.{Tells};
ghost use Rattle.wasm_types.specs.decoding.declared.error.ErrorKind.TheVariants.{Other};
ghost use Rattle.wasm_module_validator_checks.specs.sections.Turns.{is_in_turn, after};

use wasm_types::{Error, ModuleWords, Result, Words};

/// Where a validator is in a module.
#[derive(Clone, Copy, Debug, PartialEq, Eq)]
pub enum State {
    /// Before a header.
    Unparsed,
    /// Behind a header, and before the code section.
    Module,
    /// Behind the start of the code section.
    Code,
    /// Behind the end.
    End,
}

/// A call that tells a validator what comes.
#[derive(Clone, Copy, Debug, PartialEq, Eq)]
pub enum Call {
    /// The header.
    Header,
    /// A section that stands before the code section.
    Section,
    /// The start of the code section.
    CodeStart,
    /// An entry of the code section.
    Entry,
    /// The start section or the data section.
    StartOrData,
    /// The end.
    End,
}

impl State {
    // Whether a call comes in turn.
    fn is_in_turn(self, call: Call) -> bool
        ensures { result ≡ is_in_turn self call }
    {
        match self {
            State::Unparsed => matches!(call, Call::Header),
            State::Module => matches!(
                call,
                Call::Section | Call::CodeStart | Call::StartOrData | Call::End
            ),
            State::Code => matches!(call, Call::Entry | Call::StartOrData | Call::End),
            State::End => false,
        }
    }

    // Where a call in turn leads.
    fn after(self, call: Call) -> State
        ensures { result ≡ after self call }
    {
        match call {
            Call::Header => State::Module,
            Call::CodeStart => State::Code,
            Call::End => State::End,
            Call::Section => self,
            Call::Entry => self,
            Call::StartOrData => self,
        }
    }

    /// Takes a call that comes in turn. Where it does not the state stays.
    ///
    /// # Errors
    ///
    /// The call is out of turn: an error of kind `Other`, at `offset`.
    pub fn take(&mut self, call: Call, offset: u64) -> Result<()>
        ensures answer { Tells result (IsTrue (is_in_turn self.old call)) }
        ensures taken { OnOk result (self.new ≡ after self.old call) }
        ensures kept { OnErr result (self.new ≡ self.old) }
        ensures refused { IfErr result (λ e. (e.kind ≡ Other) × (e.offset ≡ offset)) }
    {
        if !self.is_in_turn(call) {
            return Err(out_of_turn(*self, call, offset));
        }
        *self = self.after(call);
        Ok(())
    }
}

// The refusal of a call out of turn.
#[cold]
fn out_of_turn(state: State, call: Call, offset: u64) -> Error
    ensures kind { result.kind ≡ Other }
    ensures at { result.offset ≡ offset }
{
    if matches!(call, Call::Header) {
        return Error::new(
            Words::Module(ModuleWords::WasmVersionHeaderOutOfOrder),
            offset,
        );
    }
    if matches!(state, State::Unparsed) {
        return Error::new(
            Words::Module(ModuleWords::UnexpectedSectionBeforeHeaderWasParsed),
            offset,
        );
    }
    if matches!(state, State::End) {
        return Error::new(
            Words::Module(ModuleWords::UnexpectedSectionAfterParsingHasCompleted),
            offset,
        );
    }
    Error::new(
        Words::Module(ModuleWords::UnexpectedSectionBehindTheCodeSection),
        offset,
    )
}
