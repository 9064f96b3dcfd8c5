//! The memory that a validator used, for another to use.

ghost use Rattle.std.specs.Prelude.{◌≡◌, [], None};

use crate::OperatorValidator;
use std::alloc::Global;
use wasm_operator_validator_locals::Locals;
use wasm_operator_validator_locals::inits::LocalInits;
use wasm_operator_validator_locals::tape::Tape;
use wasm_operator_validator_state::{Frame, Operand};

/// The memory of a validator that is done. Whatever is left in it is forgotten by the validator that gets it, which begins as one
/// with new memory does.
#[derive(Drop)]
pub struct OperatorValidatorAllocations {
    /// The operands.
    pub operands: Tape<Operand>,
    /// The open frames.
    pub control: Tape<Frame>,
    /// The types of the locals.
    pub locals: Locals,
    /// Which locals have a value.
    pub inits: LocalInits,
}

impl OperatorValidatorAllocations {
    /// None yet. It takes no memory.
    pub fn new(alloc: Global) -> OperatorValidatorAllocations
        ensures operands { result.operands ≡ ([], None) }
        ensures control { result.control ≡ ([], None) }
        ensures locals { result.locals ≡ [] }
        ensures inits { result.inits ≡ record { first = []; set = []; saved = None } }
    {
        OperatorValidatorAllocations {
            operands: Tape::new(alloc),
            control: Tape::new(alloc),
            locals: Locals::new(alloc),
            inits: LocalInits::new(alloc),
        }
    }
}

impl OperatorValidator {
    /// The memory of this validator, emptied.
    pub fn into_allocations(self) -> OperatorValidatorAllocations
        ensures operands { result.operands ≡ ([], None) }
        ensures control { result.control ≡ ([], None) }
        ensures locals { result.locals ≡ [] }
        ensures inits { result.inits ≡ record { first = []; set = []; saved = None } }
    {
        let OperatorValidator {
            features: _,
            mut locals,
            params: _,
            shared: _,
            failed: _,
            failed_before: _,
            mut operands,
            mut control,
            mut inits,
        } = self;
        operands.clear();
        control.clear();
        locals.clear();
        inits.clear();
        OperatorValidatorAllocations {
            operands,
            control,
            locals,
            inits,
        }
    }
}
