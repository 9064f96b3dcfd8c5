//! The validator of a function, as its body begins.

ghost use Rattle.std.specs.Prelude.{◌≡◌, ◌≤◌, IfOk, IfErr, None, [], true, length, replicate};
ghost use Rattle.wasm_types.specs.settings.Limits.{IsWithinCeilings};
ghost use Rattle.wasm_types.specs.decoding.Denials.{Denies, Tells};
ghost use Rattle.wasm_types.specs.decoding.declared.error.ErrorKind.TheVariants.{OutOfMemory, Other};
ghost use Rattle.wasm_operator_validator_locals.specs.Locals.{RefusedAt};
ghost use Rattle.wasm_operator_validator_stacks.specs.Functions.{Begins, MayBegin};

use crate::{
    BlockType, FrameKind, LocalInits, Locals, OperatorValidator, OperatorValidatorAllocations,
    Refusal, Space, WasmModuleResources,
};
use wasm_operator_validator_locals::too_many_locals;
use wasm_operator_validator_state::blocks::function_of;
use wasm_types::{Error, Limits, Result, ValType, WasmFeatures};

/// The validator of a function whose type stands at an index of the module's types: its parameters are its locals, and the frame of
/// its body is open (WebAssembly 3.0, validation, functions). The memory of a validator that is done may be used again: nothing of it
/// is left.
///
/// # Errors
///
/// The module has no function type there, or one with more parameters than a function may have locals by these limits; or there is no
/// memory.
pub fn new_func<R: WasmModuleResources>(
    ty: u32,
    offset: u64,
    features: &WasmFeatures,
    limits: Limits,
    resources: &R,
    allocs: OperatorValidatorAllocations,
) -> Result<OperatorValidator>
    requires within { IsWithinCeilings limits }
    ensures exact { Tells result (MayBegin (R.meaning resources.now) limits.locals ty) }
    ensures begins { IfOk result (λ v. Begins (R.meaning resources.now) features.now.0 ty v) }
    ensures at { RefusedAt offset result }
{
    let Some(sub_type) = resources.sub_type_at(ty) else {
        return Err(refused(Space::Type, offset, ty));
    };
    let Some(function) = function_of(sub_type) else {
        return Err(refused(Space::FunctionType, offset, ty));
    };
    let OperatorValidatorAllocations {
        operands,
        control,
        locals,
        inits,
    } = allocs;
    let locals = match params_as_locals(locals, limits.locals, offset, function.params()) {
        Ok(locals) => locals,
        Err(error) => return Err(error),
    };
    let count = locals.len_locals();
    let inits = match params_as_inits(inits, offset, count) {
        Ok(inits) => inits,
        Err(error) => return Err(error),
    };
    let shared = sub_type.composite_type.shared;
    let mut validator = OperatorValidator::new(
        operands, control, *features, locals, inits, count, shared,
    );
    let Ok(()) = validator.enter(FrameKind::Block, BlockType::FuncType(ty)) else {
        return Err(Error::out_of_memory(offset));
    };
    Ok(validator)
}

/// The refusal of an index that names no function type.
#[cold]
fn refused(space: Space, offset: u64, index: u32) -> Error
    ensures kind { result.kind ≡ Other }
    ensures at { result.offset ≡ offset }
{
    Refusal::Unknown { space, index }.error(offset)
}

/// The parameters as the first locals, in place of those that there are, where a function has at most `most`.
fn params_as_locals(locals: Locals, most: u32, offset: u64, params: &[ValType]) -> Result<Locals>
    ensures exact { Tells result (length params.now ≤ most) }
    ensures locals { IfOk result (λ l. l ≡ params.now) }
    ensures at { RefusedAt offset result }
{
    let mut locals = locals;
    if params.len() > most as usize {
        return Err(too_many_locals(offset));
    }
    if !locals.put_params(most, params) {
        return Err(Error::out_of_memory(offset));
    }
    Ok(locals)
}

/// That so many parameters have a value, in place of what was known of others.
fn params_as_inits(inits: LocalInits, offset: u64, count: u32) -> Result<LocalInits>
    ensures inits { IfOk result (λ l. l ≡ record { first = replicate count true; set = []; saved = None }) }
    ensures refused { IfErr result (λ e. e.kind ≡ OutOfMemory) }
{
    let mut inits = inits;
    inits.clear();
    let Ok(()) = inits.define_params(count as usize) else {
        return Err(Error::out_of_memory(offset));
    };
    Ok(inits)
}
