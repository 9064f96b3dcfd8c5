//! Locals that a body declares.

ghost use Rattle.std.specs.Prelude.{◌≡◌, ◌<◌, true, false, OnOk, IfErr, MatchResult};
ghost use Rattle.wasm_types.specs.settings.Limits.{IsWithinCeilings};
ghost use Rattle.wasm_types.specs.decoding.Denials.{Denies, RefusedAt};
ghost use Rattle.wasm_operator_validator_rules.specs.Context.{IsType};
ghost use Rattle.wasm_operator_validator_state.specs.resources.Meaning.{Meaning, type_in};
ghost use Rattle.wasm_operator_validator_stacks.specs.Defining.{with_locals, HasRoomFor, MayWrite, DefinesLocals, RefusesCount, RefusesLocals};

use crate::OperatorValidator;
use wasm_operator_validator_locals::too_many_locals;
use wasm_operator_validator_state::WasmModuleResources;
use wasm_types::{Error, Limits, Result, ValType, WasmFeatures};

impl OperatorValidator {
    /// Puts `count` locals of a type at the end, as a body declares them (WebAssembly 3.0, validation, locals). They have a value
    /// from the start where the type has a default value.
    ///
    /// # Errors
    ///
    /// First where the module may not write the type, also for no locals; then where there would be more in all than the limits
    /// say; then where there is no memory for them. Nothing changes then.
    pub fn define_locals<R: WasmModuleResources>(
        &mut self,
        limits: Limits,
        offset: u64,
        count: u32,
        ty: ValType,
        resources: &R,
    ) -> Result<()>
        requires within { IsWithinCeilings limits }
        ensures defined { OnOk result (DefinesLocals (R.meaning resources.now) limits.locals self.old
            count ty self.new) }
        ensures refused { IfErr result (λ e. RefusesLocals (R.meaning resources.now) limits.locals self.old
            count ty e.kind) }
        ensures stays { IfErr result (λ _. self.new ≡ self.old) }
        ensures at { RefusedAt offset result }
    {
        let named = match self.named(offset, ty, resources) {
            Ok(named) => named,
            Err(error) => return Err(error),
        };
        self.put_locals(limits.locals, offset, count, &named)
    }

    // A type that the module may write, by its ids: numbers are most of them, and name nothing.
    #[inline(always)]
    fn named<R: WasmModuleResources>(
        &self,
        offset: u64,
        ty: ValType,
        resources: &R,
    ) -> Result<ValType>
        ensures answer { MatchResult result
            (λ named. IsType self.now.given.bits (R.meaning resources.now).«module» ty
            (type_in (R.meaning resources.now) named))
            (λ e. Denies e.kind (MayWrite (R.meaning resources.now) self.now ty)) }
        ensures at { RefusedAt offset result }
    {
        if is_allowed_number(self.features, &ty) {
            return Ok(ty);
        }
        match self.named_by_ids(offset, ty, resources) {
            Ok(named) => Ok(named),
            Err(error) => Err(error),
        }
    }

    // The same of any type. It is called with a place of its own for the answer, so that none is made ready before.
    #[inline(never)]
    fn named_by_ids<R: WasmModuleResources>(
        &self,
        offset: u64,
        ty: ValType,
        resources: &R,
    ) -> Result<ValType>
        ensures answer { MatchResult result
            (λ named. IsType self.now.given.bits (R.meaning resources.now).«module» ty
            (type_in (R.meaning resources.now) named))
            (λ e. Denies e.kind (MayWrite (R.meaning resources.now) self.now ty)) }
        ensures at { RefusedAt offset result }
    {
        let features = self.features;
        let mut named = ty;
        match resources.check_value_type(&mut named, &features, offset) {
            Ok(()) => (),
            Err(error) => return Err(error),
        }
        Ok(named)
    }

    // The same of a type by its ids.
    #[inline]
    fn put_locals(&mut self, most: u32, offset: u64, count: u32, ty: &ValType) -> Result<()>
        ensures put { OnOk result ((self.new ≡ with_locals self.old count ty.now) × HasRoomFor most self.old count) }
        ensures refused { IfErr result (λ e. RefusesCount most self.old count e.kind) }
        ensures stays { IfErr result (λ _. self.new ≡ self.old) }
        ensures at { RefusedAt offset result }
    {
        if !self.locals.may_define(most, count) {
            return Err(too_many_locals(offset));
        }
        if self.put_within(most, count, ty) {
            return Ok(());
        }
        Err(Error::out_of_memory(offset))
    }

    // The same where there is room, and whether it was done. Else there is no memory, and nothing changes.
    #[inline]
    fn put_within(&mut self, most: u32, count: u32, ty: &ValType) -> bool
        requires { HasRoomFor most self.old count }
        ensures put { result ≡ true → self.new ≡ with_locals self.old count ty.now }
        ensures stays { result ≡ false → self.new ≡ self.old }
        ensures some { result ≡ false → 0 < count }
    {
        if count == 0 {
            return true;
        }
        let held = self.inits.len_locals();
        let Ok(()) = self.inits.define_locals(count, ty) else {
            return false;
        };
        if !self.locals.put(most, count, ty) {
            self.inits.truncate(held);
            return false;
        }
        true
    }
}

// Whether it is a type of numbers that these features allow: a module may write it whatever types it has.
#[inline(always)]
fn is_allowed_number(features: WasmFeatures, ty: &ValType) -> bool
    ensures { result ≡ true → (m : Meaning) → IsType features.0 m.«module» ty.now (type_in m ty.now) }
{
    match ty {
        ValType::I32 => true,
        ValType::I64 => true,
        ValType::F32 => features.floats(),
        ValType::F64 => features.floats(),
        ValType::V128 => false,
        ValType::Ref(_) => false,
    }
}
