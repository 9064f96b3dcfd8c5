//! The stacks of a validator of operators, and what is done to them (WebAssembly 3.0, appendix, validation algorithm).

ghost use Rattle.std.specs.Prelude.{◌≡◌, ◌↔◌, ◌∷◌, [], IsTrue, MatchResult, Some, length, true, false};
ghost use Rattle.wasm_types.specs.decoding.Denials.{Denies};
ghost use Rattle.wasm_operator_validator_rules.specs.Operands.{known, stack};
ghost use Rattle.wasm_operator_validator_state.specs.declared.operand.MaybeType.TheVariants.{Known};
ghost use Rattle.wasm_operator_validator_state.specs.resources.Meaning.{Meaning, type_in};
ghost use Rattle.wasm_operator_validator_state.specs.Refusals.{Does, kind_of, refused};
ghost use Rattle.wasm_operator_validator_state.specs.State.{State, types_in};
ghost use Rattle.wasm_operator_validator_state.specs.Steps.{IsOpen, MayPopAny, PoppedAny, PushedAny, Popped, MayPop, Pushed, Jumped, Exchanged};
ghost use Rattle.wasm_operator_validator_stacks.specs.Layout.{state_of, IsLayered, IsSavedLayered, AreFirst};
ghost use Rattle.wasm_operator_validator_stacks.specs.Peeking.{operand_at};

use crate::fitting::{is_fit, is_same, not_taken, type_mismatch};
use std::alloc::Global;
use std::marker::Model;
use wasm_operator_validator_locals::Locals;
use wasm_operator_validator_locals::inits::LocalInits;
use wasm_operator_validator_locals::tape::Tape;
use wasm_operator_validator_state::{Frame, MaybeType, Operand, Refusal, WasmModuleResources};
use wasm_types::{ValType, WasmFeatures};

/// What is known of a body: the locals, and the operands of all open frames in one place. After a refusal it may stand for
/// anything, but what an attempt has saved stays as it was. Whoever answers a visit notes a refusal by [`Self::fail`].
#[derive(Drop)]
pub struct OperatorValidator {
    pub(crate) features: WasmFeatures,
    pub(crate) locals: Locals,
    pub(crate) params: u32,
    pub(crate) shared: bool,
    pub(crate) failed: bool,
    pub(crate) failed_before: bool,
    pub(crate) operands: Tape<Operand>,
    pub(crate) control: Tape<Frame>,
    pub(crate) inits: LocalInits,
}

impl Model for OperatorValidator {
    ghost Value = { State };

    ghost view = { λ v. state_of (record {
      bits = v.features.0;
      locals = v.locals;
      params = v.params;
      shared = v.shared;
    })
        (record { operands = v.operands.1; frames = v.control.1; inits = v.inits.saved; failed = v.failed_before })
        v.failed v.control.0 v.operands.0
        v.inits.set };

    ghost invariant = { λ v. IsLayered v.control.0 v.operands.0 v.inits.set
        × IsSavedLayered v.control.1 v.operands.1 v.inits.saved × AreFirst v.params v.locals v.inits.first };
}

impl OperatorValidator {
    /// Whether every frame has ended.
    #[inline]
    pub fn is_done(&self) -> bool
        ensures { IsTrue result ↔ (self.now.opens ≡ []) }
    {
        self.control.as_slice().is_empty()
    }

    /// The allocator that its memory is of.
    pub fn allocator(&self) -> Global {
        self.operands.allocator()
    }

    /// The features that operators may need.
    #[inline]
    pub fn features(&self) -> WasmFeatures
        ensures { result.0 ≡ self.now.given.bits }
    {
        self.features
    }

    /// Takes an operand off, whatever it is.
    #[inline]
    pub fn pop_any(&mut self) -> Result<MaybeType, Refusal>
        ensures does { (m : Meaning) → MatchResult result (λ a. PoppedAny m self.old a self.new)
            (λ r. Denies (kind_of r) (MayPopAny m self.old)) }
        ensures given { self.new.given ≡ self.old.given }
        ensures failed { self.new.failed ≡ self.old.failed }
        ensures saved { self.new.saved ≡ self.old.saved }
    {
        let Some(frame) = self.control.as_slice().last().copied() else {
            return Err(Refusal::AfterEnd);
        };
        if self.operands.as_slice().len() == frame.height {
            if frame.unreachable {
                return Ok(MaybeType::Bottom);
            }
            return Err(Refusal::EmptyStackOfAny);
        }
        let Ok(popped) = self.operands.pop() else {
            return Err(Refusal::OutOfMemory);
        };
        let Some(operand) = popped else {
            return Err(Refusal::EmptyStackOfAny);
        };
        Ok(operand.get())
    }

    /// Puts an operand on. It is refused for memory alone.
    #[inline(always)]
    pub fn push_operand(&mut self, operand: MaybeType) -> Result<(), Refusal>
        requires { IsOpen self.old.opens }
        ensures does { (m : Meaning) → Does (refused result) (PushedAny m self.old operand self.new) (Unit {0}) }
        ensures given { self.new.given ≡ self.old.given }
        ensures failed { self.new.failed ≡ self.old.failed }
        ensures saved { self.new.saved ≡ self.old.saved }
    {
        let Ok(()) = self.operands.push(Operand::new(operand)) else {
            return Err(Refusal::OutOfMemory);
        };
        Ok(())
    }

    /// Nothing after this is reached. It is refused for memory alone, which it takes in an attempt.
    pub fn set_unreachable(&mut self) -> Result<(), Refusal>
        requires { IsOpen self.old.opens }
        ensures does { (m : Meaning) → Does (refused result) (Jumped m self.old self.new) (Unit {0}) }
        ensures given { self.new.given ≡ self.old.given }
        ensures failed { self.new.failed ≡ self.old.failed }
        ensures saved { self.new.saved ≡ self.old.saved }
    {
        let Some(frame) = self.control.as_slice().last().copied() else {
            return Err(Refusal::AfterEnd);
        };
        let Ok(()) = self.operands.truncate(frame.height) else {
            return Err(Refusal::OutOfMemory);
        };
        let Ok(()) = self.control.replace_last(unreached(frame)) else {
            return Err(Refusal::OutOfMemory);
        };
        Ok(())
    }

    /// Takes an operand off that may be taken for one of this type. Nearly every operand has the very type: one comparison tells.
    #[inline(always)]
    pub fn pop_operand<R: WasmModuleResources>(
        &mut self,
        resources: &R,
        expected: &ValType,
    ) -> Result<(), Refusal>
        ensures does { Does (refused result) (Popped (R.meaning resources.now) self.old
            (known (type_in (R.meaning resources.now) expected.now) ∷ []) self.new)
            (MayPop (R.meaning resources.now) self.old (known (type_in (R.meaning resources.now) expected.now) ∷ [])) }
        ensures given { self.new.given ≡ self.old.given }
        ensures failed { self.new.failed ≡ self.old.failed }
        ensures saved { self.new.saved ≡ self.old.saved }
    {
        if self.pop_same(expected) {
            return Ok(());
        }
        self.pop_fitting(resources, expected)
    }

    /// Takes an operand off that is known to have this very type, outside an attempt. Else nothing changes.
    #[inline(always)]
    fn pop_same(&mut self, expected: &ValType) -> bool
        ensures popped { result ≡ true → (m : Meaning) → PoppedAny m self.old (Known expected.now) self.new }
        ensures stays { result ≡ false → self.new ≡ self.old }
        ensures given { self.new.given ≡ self.old.given }
        ensures failed { self.new.failed ≡ self.old.failed }
        ensures saved { self.new.saved ≡ self.old.saved }
    {
        let Some(frame) = self.control.as_slice().last().copied() else {
            return false;
        };
        let operands = self.operands.as_slice();
        if operands.len() == frame.height {
            return false;
        }
        let Some(top) = operands.last() else {
            return false;
        };
        if !is_same(&top.get(), expected) {
            return false;
        }
        let Some(_taken) = self.operands.pop_outside() else {
            return false;
        };
        true
    }

    /// Takes an operand off that may be taken for one of this type.
    #[inline(never)]
    fn pop_fitting<R: WasmModuleResources>(
        &mut self,
        resources: &R,
        expected: &ValType,
    ) -> Result<(), Refusal>
        ensures does { Does (refused result) (Popped (R.meaning resources.now) self.old
            (known (type_in (R.meaning resources.now) expected.now) ∷ []) self.new)
            (MayPop (R.meaning resources.now) self.old (known (type_in (R.meaning resources.now) expected.now) ∷ [])) }
        ensures given { self.new.given ≡ self.old.given }
        ensures failed { self.new.failed ≡ self.old.failed }
        ensures saved { self.new.saved ≡ self.old.saved }
    {
        let found = match self.pop_any() {
            Ok(found) => found,
            Err(refusal) => return Err(not_taken(refusal, expected)),
        };
        if !is_fit(resources, &found, expected) {
            return Err(type_mismatch(&found, expected));
        }
        Ok(())
    }

    /// Takes operands off, the last first.
    #[inline(always)]
    pub fn pop_operands<R: WasmModuleResources>(
        &mut self,
        resources: &R,
        types: &[ValType],
    ) -> Result<(), Refusal>
        requires { IsOpen self.old.opens }
        ensures does { Does (refused result) (Popped (R.meaning resources.now) self.old
            (stack (types_in (R.meaning resources.now) types.now)) self.new)
            (MayPop (R.meaning resources.now) self.old (stack (types_in (R.meaning resources.now) types.now))) }
        ensures given { self.new.given ≡ self.old.given }
        ensures failed { self.new.failed ≡ self.old.failed }
        ensures saved { self.new.saved ≡ self.old.saved }
    {
        let mut left = types;
        while let Some((last, rest)) = left.split_last() {
            left = rest;
            self.pop_operand(resources, last)?;
        }
        Ok(())
    }

    /// Puts operands on, the last on top. It is refused for memory alone.
    #[inline(always)]
    pub fn push_operands<R: WasmModuleResources>(
        &mut self,
        resources: &R,
        types: &[ValType],
    ) -> Result<(), Refusal>
        requires { IsOpen self.old.opens }
        ensures does { Does (refused result) (Pushed (R.meaning resources.now) self.old
            (stack (types_in (R.meaning resources.now) types.now)) self.new) (Unit {0}) }
        ensures given { self.new.given ≡ self.old.given }
        ensures failed { self.new.failed ≡ self.old.failed }
        ensures saved { self.new.saved ≡ self.old.saved }
    {
        let _resources = resources;
        for one in types {
            self.push_operand(MaybeType::Known(*one))?;
        }
        Ok(())
    }

    /// Whether two operands of the innermost frame lie on top that are known to have this very type.
    #[inline(always)]
    fn lie_same(&self, ty: &ValType) -> bool
        ensures top { result ≡ true → operand_at self.now.opens 0 ≡ Some (Known ty.now) }
        ensures under { result ≡ true → operand_at self.now.opens 1 ≡ Some (Known ty.now) }
    {
        let Some(frame) = self.control.as_slice().last().copied() else {
            return false;
        };
        let operands = self.operands.as_slice();
        if operands.len().saturating_sub(frame.height) < 2 {
            return false;
        }
        let top = operands.len() - 1;
        is_same(&operands[top].get(), ty) && is_same(&operands[top - 1].get(), ty)
    }

    /// The ordinary operator on two numbers: takes two operands of the first type and gives one of the other. Nearly always both are
    /// known to have that very type: then one is taken off, and the other replaced.
    #[inline(always)]
    pub fn combine<R: WasmModuleResources>(
        &mut self,
        resources: &R,
        popped: &ValType,
        pushed: &ValType,
    ) -> Result<(), Refusal>
        requires { IsOpen self.old.opens }
        ensures does { Does (refused result) (Exchanged (R.meaning resources.now) self.old
            (types_in (R.meaning resources.now) (popped.now ∷ popped.now ∷ []))
            (types_in (R.meaning resources.now) (pushed.now ∷ [])) self.new)
            (MayPop (R.meaning resources.now) self.old (stack
            (types_in (R.meaning resources.now) (popped.now ∷ popped.now ∷ [])))) }
        ensures given { self.new.given ≡ self.old.given }
        ensures failed { self.new.failed ≡ self.old.failed }
        ensures saved { self.new.saved ≡ self.old.saved }
    {
        if self.lie_same(popped) {
            if let Some(_taken) = self.operands.pop_outside() {
                let Ok(()) = self
                    .operands
                    .replace_last(Operand::new(MaybeType::Known(*pushed)))
                else {
                    return Err(Refusal::OutOfMemory);
                };
                return Ok(());
            }
        }
        self.combine_fitting(resources, popped, pushed)
    }

    /// The same, whatever is known of the operands.
    #[inline(never)]
    fn combine_fitting<R: WasmModuleResources>(
        &mut self,
        resources: &R,
        popped: &ValType,
        pushed: &ValType,
    ) -> Result<(), Refusal>
        requires { IsOpen self.old.opens }
        ensures does { Does (refused result) (Exchanged (R.meaning resources.now) self.old
            (types_in (R.meaning resources.now) (popped.now ∷ popped.now ∷ []))
            (types_in (R.meaning resources.now) (pushed.now ∷ [])) self.new)
            (MayPop (R.meaning resources.now) self.old (stack
            (types_in (R.meaning resources.now) (popped.now ∷ popped.now ∷ [])))) }
        ensures given { self.new.given ≡ self.old.given }
        ensures failed { self.new.failed ≡ self.old.failed }
        ensures saved { self.new.saved ≡ self.old.saved }
    {
        self.exchange(resources, &[*popped, *popped], &[*pushed])
    }

    /// The ordinary operator: takes operands of the first types and gives some of the others.
    #[inline(always)]
    pub fn exchange<R: WasmModuleResources>(
        &mut self,
        resources: &R,
        popped: &[ValType],
        pushed: &[ValType],
    ) -> Result<(), Refusal>
        requires { IsOpen self.old.opens }
        ensures does { Does (refused result) (Exchanged (R.meaning resources.now) self.old
            (types_in (R.meaning resources.now) popped.now)
            (types_in (R.meaning resources.now) pushed.now) self.new)
            (MayPop (R.meaning resources.now) self.old (stack (types_in (R.meaning resources.now) popped.now))) }
        ensures given { self.new.given ≡ self.old.given }
        ensures failed { self.new.failed ≡ self.old.failed }
        ensures saved { self.new.saved ≡ self.old.saved }
    {
        self.pop_operands(resources, popped)?;
        self.push_operands(resources, pushed)
    }
}

/// The frame, from where nothing is reached.
fn unreached(frame: Frame) -> Frame
    ensures { result ≡ record frame { unreachable = true } }
{
    let mut frame = frame;
    frame.unreachable = true;
    frame
}
