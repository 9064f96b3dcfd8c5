//! Attempts: an operator is tried, and taken back.

ghost use Rattle.std.specs.Prelude.{◌≡◌, [], false, None};
ghost use Rattle.wasm_operator_validator_stacks.specs.Layout.{none_saved, rolled_back, AreFirst, Begins};

use crate::OperatorValidator;
use wasm_operator_validator_locals::Locals;
use wasm_operator_validator_locals::inits::LocalInits;
use wasm_operator_validator_locals::tape::Tape;
use wasm_operator_validator_state::{Frame, Operand};
use wasm_types::WasmFeatures;

impl OperatorValidator {
    /// What is known where no frame is open yet: the locals, of which the first so many are parameters, and which of them have a
    /// value from the start. The stacks are emptied first. It takes no memory.
    pub fn new(
        operands: Tape<Operand>,
        control: Tape<Frame>,
        features: WasmFeatures,
        locals: Locals,
        inits: LocalInits,
        params: u32,
        shared: bool,
    ) -> OperatorValidator
        requires first { AreFirst params locals inits.first }
        requires none_set { inits.set ≡ [] }
        requires none_saved { inits.saved ≡ None }
        ensures { result ≡ record {
          given = record {
            bits = features.0;
            locals = locals;
            params = params;
            shared = shared;
          };
          inits = [];
          opens = [];
          failed = false;
          saved = none_saved;
        } }
    {
        let mut operands = operands;
        let mut control = control;
        operands.clear();
        control.clear();
        OperatorValidator {
            features,
            locals,
            params,
            shared,
            failed: false,
            failed_before: false,
            operands,
            control,
            inits,
        }
    }

    /// Begins an attempt: a rollback gives what stands here.
    pub fn begin_try_op(&mut self)
        ensures { Begins self.old self.new }
    {
        self.failed_before = self.failed;
        self.operands.begin();
        self.control.begin();
        self.inits.begin();
    }

    /// Ends an attempt, if one has begun: what was done stays.
    pub fn commit(&mut self)
        ensures { self.new ≡ record self.old { saved = none_saved } }
    {
        self.failed_before = false;
        self.operands.commit();
        self.control.commit();
        self.inits.commit();
    }

    /// Ends an attempt, if one has begun: what stood where it began stands again, also whether an operator had been refused. It
    /// takes no memory.
    pub fn rollback(&mut self)
        ensures { self.new ≡ rolled_back self.old }
    {
        if self.operands.is_in_attempt() {
            self.failed = self.failed_before;
        }
        self.failed_before = false;
        self.operands.rollback();
        self.control.rollback();
        self.inits.rollback();
    }
}
