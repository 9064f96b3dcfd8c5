//! The validator of a constant, as its expression begins.

ghost use Rattle.std.specs.Prelude.{◌≡◌, IfOk, IfErr};
ghost use Rattle.wasm_types.specs.decoding.declared.error.ErrorKind.TheVariants.{OutOfMemory};
ghost use Rattle.wasm_operator_validator_constants.specs.Beginning.{constant_begins};

use wasm_operator_validator_stacks::{
    BlockType, FrameKind, OperatorValidator, OperatorValidatorAllocations,
};
use wasm_types::{Error, Limits, Result, ValType, WasmFeatures};

/// The validator of a constant expression of this type: there are no locals, and one frame is open that gives the type
/// (WebAssembly 3.0, validation, constant expressions). The memory of a validator that is done may be used again: nothing of it is
/// left. No limit is asked of a constant's operators.
///
/// # Errors
///
/// There is no memory for the frame.
pub fn new_const_expr(
    features: WasmFeatures,
    _limits: Limits,
    ty: ValType,
    allocs: OperatorValidatorAllocations,
) -> Result<OperatorValidator>
    ensures begins { IfOk result (λ v. v ≡ constant_begins features.0 ty) }
    ensures refused { IfErr result (λ e. e.kind ≡ OutOfMemory) }
{
    let OperatorValidatorAllocations {
        operands,
        control,
        mut locals,
        mut inits,
    } = allocs;
    locals.clear();
    inits.clear();
    let mut validator = OperatorValidator::new(
        operands, control, features, locals, inits, 0, false,
    );
    let Ok(()) = validator.enter(FrameKind::Block, BlockType::Val(ty)) else {
        return Err(Error::out_of_memory(0));
    };
    Ok(validator)
}
