//! What the walk drives, and the call.

ghost use Rattle.std.proofs.Common.{◌≡◌, ◌∙◌, ap, refl};
ghost use Rattle.wasm_operator_validator_state.specs.State.{Visits};
ghost use Rattle.wasm_operator_validator_state.specs.Refusals.{refused};
ghost use Rattle.wasm_operator_validator_expression.specs.Validating.{Validates};

use crate::objects::{tell_object, tell_reference};
use crate::operators::{
    tell_atomic, tell_bulk, tell_const, tell_continuation, tell_control, tell_descriptor,
    tell_exception, tell_gc, tell_memory, tell_numeric, tell_parametric, tell_shared, tell_simd,
    tell_simd_numeric,
};
use crate::short::{
    tell_alone, tell_block, tell_f32_const, tell_f64_const, tell_global, tell_i32_const,
    tell_i64_const, tell_index, tell_indirect, tell_load, tell_local_get, tell_local_set,
    tell_local_tee, tell_memory_size, tell_number, tell_prefixed, tell_store,
};
use std::alloc::Global;
use wasm_operator_validator_expression::{
    Refused, TellOperator, TellSimdOperator, Validating, validate_operators,
};
use wasm_operator_validator_stacks::{OperatorValidator, Refusal, WasmModuleResources};
use wasm_operator_validator_visits::{AsRefusal, ValidatingVisitor};
use wasm_operators_visit::{Operator, Visitor};
use wasm_types::{BinaryReader, WasmFeatures};

/// The visitor that validates, as a walk tells it of operators: group by group.
pub struct ValidatingWalk<'v, 'r, R: WasmModuleResources> {
    /// The visitor.
    pub visitor: ValidatingVisitor<'v, 'r, R, AsRefusal>,
}

impl<'a, 'v, 'r, R: WasmModuleResources> Visitor<'a> for ValidatingWalk<'v, 'r, R> {
    type Output = Result<(), Refusal>;

    ghost visits = { λ before op answer after.
        Visits (R.meaning before.visitor.resources.now) before.visitor.inner.now op
        (refused answer) after.visitor.inner.now
        × (after.visitor.inner.ghost_name ≡ before.visitor.inner.ghost_name)
        × (after.visitor.resources.now ≡ before.visitor.resources.now) };
}

impl<'a, 'v, 'r, R: WasmModuleResources> TellOperator<'a> for ValidatingWalk<'v, 'r, R> {
    fn tell(&mut self, op: Operator<'a>) -> Result<(), Refusal> {
        match op {
            Operator::Control(op) => tell_control(&mut self.visitor, op),
            Operator::Parametric(op) => tell_parametric(&mut self.visitor, op),
            Operator::Exception(op) => tell_exception(&mut self.visitor, op),
            Operator::Memory(op) => tell_memory(&mut self.visitor, op),
            Operator::Const(op) => tell_const(&mut self.visitor, op),
            Operator::Numeric(op) => tell_numeric(&mut self.visitor, op),
            Operator::Bulk(op) => tell_bulk(&mut self.visitor, op),
            Operator::Gc(op) => tell_gc(&mut self.visitor, op),
            Operator::Descriptor(op) => tell_descriptor(&mut self.visitor, op),
            Operator::Simd(_) => unreachable!(),
            Operator::SimdNumeric(_) => unreachable!(),
            Operator::Atomic(op) => tell_atomic(&mut self.visitor, op),
            Operator::Shared(op) => tell_shared(&mut self.visitor, op),
            Operator::Continuation(op) => tell_continuation(&mut self.visitor, op),
        }
    }

    #[inline(always)]
    fn tell_short(
        &mut self,
        bytes: &'a [u8],
        at: usize,
        features: WasmFeatures,
    ) -> Option<(Result<(), Refusal>, usize)> {
        if at >= bytes.len() {
            return None;
        }
        let code = bytes[at];
        match code {
            0x20 => tell_local_get(&mut self.visitor, bytes, at, features),
            0x21 => tell_local_set(&mut self.visitor, bytes, at, features),
            0x22 => tell_local_tee(&mut self.visitor, bytes, at, features),
            0x23 => tell_global(&mut self.visitor, bytes, at, 0x23, features),
            0x24 => tell_global(&mut self.visitor, bytes, at, 0x24, features),
            0x3f => tell_memory_size(&mut self.visitor, bytes, at, 0x3f, features),
            0x40 => tell_memory_size(&mut self.visitor, bytes, at, 0x40, features),
            0x41 => tell_i32_const(&mut self.visitor, bytes, at, 0x41, features),
            0x42 => tell_i64_const(&mut self.visitor, bytes, at, 0x42, features),
            0x43 => tell_f32_const(&mut self.visitor, bytes, at, 0x43, features),
            0x44 => tell_f64_const(&mut self.visitor, bytes, at, 0x44, features),
            0x45 => tell_number(&mut self.visitor, bytes, at, 0x45, features),
            0x46 => tell_number(&mut self.visitor, bytes, at, 0x46, features),
            0x47 => tell_number(&mut self.visitor, bytes, at, 0x47, features),
            0x48 => tell_number(&mut self.visitor, bytes, at, 0x48, features),
            0x49 => tell_number(&mut self.visitor, bytes, at, 0x49, features),
            0x4a => tell_number(&mut self.visitor, bytes, at, 0x4a, features),
            0x4b => tell_number(&mut self.visitor, bytes, at, 0x4b, features),
            0x4c => tell_number(&mut self.visitor, bytes, at, 0x4c, features),
            0x4d => tell_number(&mut self.visitor, bytes, at, 0x4d, features),
            0x4e => tell_number(&mut self.visitor, bytes, at, 0x4e, features),
            0x4f => tell_number(&mut self.visitor, bytes, at, 0x4f, features),
            0x6a => tell_number(&mut self.visitor, bytes, at, 0x6a, features),
            0x6b => tell_number(&mut self.visitor, bytes, at, 0x6b, features),
            0x6c => tell_number(&mut self.visitor, bytes, at, 0x6c, features),
            0x6d => tell_number(&mut self.visitor, bytes, at, 0x6d, features),
            0x6e => tell_number(&mut self.visitor, bytes, at, 0x6e, features),
            0x6f => tell_number(&mut self.visitor, bytes, at, 0x6f, features),
            0x70 => tell_number(&mut self.visitor, bytes, at, 0x70, features),
            0x71 => tell_number(&mut self.visitor, bytes, at, 0x71, features),
            0x72 => tell_number(&mut self.visitor, bytes, at, 0x72, features),
            0x73 => tell_number(&mut self.visitor, bytes, at, 0x73, features),
            0x74 => tell_number(&mut self.visitor, bytes, at, 0x74, features),
            0x75 => tell_number(&mut self.visitor, bytes, at, 0x75, features),
            0x76 => tell_number(&mut self.visitor, bytes, at, 0x76, features),
            0x77 => tell_number(&mut self.visitor, bytes, at, 0x77, features),
            0x78 => tell_number(&mut self.visitor, bytes, at, 0x78, features),
            0x25..=0x26 => tell_reference(&mut self.visitor, bytes, at, code, features),
            0x28..=0x35 => tell_load(&mut self.visitor, bytes, at, code, features),
            0x36..=0x3e => tell_store(&mut self.visitor, bytes, at, code, features),
            0x45..=0xc4 => tell_number(&mut self.visitor, bytes, at, code, features),
            0xd0..=0xd6 => tell_reference(&mut self.visitor, bytes, at, code, features),
            0xfb => tell_object(&mut self.visitor, bytes, at, features),
            0xfc => tell_prefixed(&mut self.visitor, bytes, at, features),
            _ => None,
        }
    }

    #[inline(always)]
    fn tell_short_control(
        &mut self,
        bytes: &'a [u8],
        at: usize,
        features: WasmFeatures,
    ) -> Option<(Result<(), Refusal>, usize)> {
        if at >= bytes.len() {
            return None;
        }
        let code = bytes[at];
        match code {
            0x00 => tell_alone(&mut self.visitor, bytes, at, 0x00, features),
            0x01 => tell_alone(&mut self.visitor, bytes, at, 0x01, features),
            0x05 => tell_alone(&mut self.visitor, bytes, at, 0x05, features),
            0x0b => tell_alone(&mut self.visitor, bytes, at, 0x0b, features),
            0x0f => tell_alone(&mut self.visitor, bytes, at, 0x0f, features),
            0x1a => tell_alone(&mut self.visitor, bytes, at, 0x1a, features),
            0x1b => tell_alone(&mut self.visitor, bytes, at, 0x1b, features),
            0x0c => tell_index(&mut self.visitor, bytes, at, 0x0c, features),
            0x0d => tell_index(&mut self.visitor, bytes, at, 0x0d, features),
            0x10 => tell_index(&mut self.visitor, bytes, at, 0x10, features),
            0x11 => tell_indirect(&mut self.visitor, bytes, at, 0x11, features),
            0x02..=0x04 => tell_block(&mut self.visitor, bytes, at, code, features),
            0x14..=0x15 => tell_reference(&mut self.visitor, bytes, at, code, features),
            _ => None,
        }
    }
}

impl<'a, 'v, 'r, R: WasmModuleResources> TellSimdOperator<'a> for ValidatingWalk<'v, 'r, R> {
    fn tell_simd(&mut self, op: Operator<'a>) -> Result<(), Refusal> {
        match op {
            Operator::Control(op) => tell_control(&mut self.visitor, op),
            Operator::Parametric(op) => tell_parametric(&mut self.visitor, op),
            Operator::Exception(op) => tell_exception(&mut self.visitor, op),
            Operator::Memory(op) => tell_memory(&mut self.visitor, op),
            Operator::Const(op) => tell_const(&mut self.visitor, op),
            Operator::Numeric(op) => tell_numeric(&mut self.visitor, op),
            Operator::Bulk(op) => tell_bulk(&mut self.visitor, op),
            Operator::Gc(op) => tell_gc(&mut self.visitor, op),
            Operator::Descriptor(op) => tell_descriptor(&mut self.visitor, op),
            Operator::Simd(op) => tell_simd(&mut self.visitor, op),
            Operator::SimdNumeric(op) => tell_simd_numeric(&mut self.visitor, op),
            Operator::Atomic(op) => tell_atomic(&mut self.visitor, op),
            Operator::Shared(op) => tell_shared(&mut self.visitor, op),
            Operator::Continuation(op) => tell_continuation(&mut self.visitor, op),
        }
    }
}

/// The same, which keeps why the last operator that is refused is: so the loop over operators has an answer of one bit, and none of its
/// places is made ready for a refusal.
pub struct NotingWalk<'v, 'r, R: WasmModuleResources> {
    /// The walk.
    pub walk: ValidatingWalk<'v, 'r, R>,
    /// Why the last operator that is refused is.
    pub refusal: Refusal,
}

impl<'a, 'v, 'r, R: WasmModuleResources> Visitor<'a> for NotingWalk<'v, 'r, R> {
    type Output = Result<(), Refused>;

    ghost use Rattle.wasm_operator_validator_expression.specs.Validating.{refused_for};

    ghost visits = { λ before op answer after.
        Visits (R.meaning before.walk.visitor.resources.now) before.walk.visitor.inner.now op
        (refused_for after.refusal answer) after.walk.visitor.inner.now
        × (after.walk.visitor.inner.ghost_name ≡ before.walk.visitor.inner.ghost_name)
        × (after.walk.visitor.resources.now ≡ before.walk.visitor.resources.now) };
}

impl<'a, 'v, 'r, R: WasmModuleResources> TellOperator<'a> for NotingWalk<'v, 'r, R> {
    fn tell(&mut self, op: Operator<'a>) -> Result<(), Refused> {
        match self.walk.tell(op) {
            Ok(()) => Ok(()),
            Err(refusal) => {
                self.refusal = refusal;
                Err(Refused)
            }
        }
    }

    #[inline(always)]
    fn tell_short(
        &mut self,
        bytes: &'a [u8],
        at: usize,
        features: WasmFeatures,
    ) -> Option<(Result<(), Refused>, usize)> {
        let Some((answer, end)) = self.walk.tell_short(bytes, at, features) else {
            return None;
        };
        if let Err(refusal) = answer {
            self.refusal = refusal;
            return Some((Err(Refused), end));
        }
        Some((Ok(()), end))
    }

    #[inline(always)]
    fn tell_short_control(
        &mut self,
        bytes: &'a [u8],
        at: usize,
        features: WasmFeatures,
    ) -> Option<(Result<(), Refused>, usize)> {
        let Some((answer, end)) = self.walk.tell_short_control(bytes, at, features) else {
            return None;
        };
        if let Err(refusal) = answer {
            self.refusal = refusal;
            return Some((Err(Refused), end));
        }
        Some((Ok(()), end))
    }
}

impl<'a, 'v, 'r, R: WasmModuleResources> TellSimdOperator<'a> for NotingWalk<'v, 'r, R> {
    fn tell_simd(&mut self, op: Operator<'a>) -> Result<(), Refused> {
        match self.walk.tell_simd(op) {
            Ok(()) => Ok(()),
            Err(refusal) => {
                self.refusal = refusal;
                Err(Refused)
            }
        }
    }
}

impl<'a, 'v, 'r, R: WasmModuleResources> Validating<'a> for NotingWalk<'v, 'r, R> {
    ghost meaning = { λ w. R.meaning w.walk.visitor.resources.now };

    ghost state = { λ w. w.walk.visitor.inner.now };

    ghost why = { λ w. w.refusal };

    ghost keeps = { λ v w. (w.walk.visitor.inner.ghost_name ≡ v.walk.visitor.inner.ghost_name)
        × (w.walk.visitor.resources.now ≡ v.walk.visitor.resources.now) };

    fn refusal(&self) -> Refusal {
        self.refusal
    }

    fn has_failed(&self) -> bool {
        self.walk.visitor.inner.has_failed()
    }

    fn is_done(&self) -> bool {
        self.walk.visitor.inner.is_done()
    }

    fn fail(&mut self) {
        self.walk.visitor.inner.fail();
    }

    ghost visited = { λ v o a w h. (h.0, (h.1, h.2)) };

    ghost kept = { λ v w k. ap R.meaning k.1 };

    ghost stays = { λ v. (refl, refl) };

    ghost through = { λ u v w a b. (b.0 ∙ a.0, b.1 ∙ a.1) };
}

/// Validates the operators of an expression, to the end of the bytes, and asks that every frame of the validator has ended then. It is
/// Ok exactly if the bytes spell one expression whose operators may come, out of memory aside; behind the locals of a function,
/// where they spell its body and that is well typed (`laws::bodies_are_expressions` of `wasm_operator_validator_expression`). What was
/// given of the body, and what an attempt has saved, stay (WebAssembly 3.0, validation, expressions).
///
/// # Errors
///
/// An operator was refused before; the bytes spell no expression; an operator is refused, at its offset; a frame
/// is still open at the end; or there is no memory. The validator has failed then.
pub fn validate_expression<R: WasmModuleResources>(
    alloc: Global,
    reader: BinaryReader<'_>,
    validator: &mut OperatorValidator,
    resources: &R,
) -> wasm_types::Result<()>
    ensures validates { Validates (R.meaning resources.now) validator.old reader.entry result validator.new }
{
    let mut walk = NotingWalk {
        walk: ValidatingWalk {
            visitor: ValidatingVisitor {
                inner: validator,
                resources,
                answer: AsRefusal,
            },
        },
        refusal: Refusal::OutOfMemory,
    };
    let answer = validate_walk(alloc, reader, &mut walk);
    let _validator = lent_validator(walk);
    answer
}

/// The same, at a walk: it keeps the validator that it was lent, and the module.
fn validate_walk<R: WasmModuleResources>(
    alloc: Global,
    reader: BinaryReader<'_>,
    walk: &mut NotingWalk<'_, '_, R>,
) -> wasm_types::Result<()>
    ensures validates { Validates (R.meaning walk.old.walk.visitor.resources.now) walk.old.walk.visitor.inner.now
        reader.entry result walk.new.walk.visitor.inner.now }
    ensures lent { walk.new.walk.visitor.inner.ghost_name ≡ walk.old.walk.visitor.inner.ghost_name }
    ensures resources { walk.new.walk.visitor.resources.now ≡ walk.old.walk.visitor.resources.now }
{
    validate_operators(alloc, reader, walk)
}

/// The validator that a walk was lent. A walk ends here: taken apart in the function that made it, it would not tell the proof what the
/// validator is now.
fn lent_validator<'v, 'r, R: WasmModuleResources>(
    walk: NotingWalk<'v, 'r, R>,
) -> &'v mut OperatorValidator
    ensures same { result ≡ walk.entry.walk.visitor.inner }
{
    let NotingWalk {
        walk,
        refusal: _refusal,
    } = walk;
    let ValidatingWalk { visitor } = walk;
    let ValidatingVisitor {
        inner,
        resources: _resources,
        answer: _answer,
    } = visitor;
    inner
}
