//! What a shared function may use (the proposal on shared everything).

ghost use Rattle.std.specs.Prelude.{◌↔◌, IsTrue};
ghost use Rattle.wasm_types.specs.trees.Below.{value_is_shared};
ghost use Rattle.wasm_operator_validator_state.specs.resources.Meaning.{type_in};
ghost use Rattle.wasm_operator_validator_stacks.specs.determined.Operators.{MayUseIn};

use crate::{OperatorValidator, WasmModuleResources};
use wasm_types::ValType;

/// Whether the function may use something that is shared, or not.
#[inline]
pub fn may_use(validator: &OperatorValidator, shared: bool) -> bool
    ensures { IsTrue result ↔ MayUseIn validator.now shared }
{
    if validator.is_shared() {
        return shared;
    }
    true
}

/// Whether the function may use values of this type.
#[inline]
pub fn may_use_type<R: WasmModuleResources>(
    validator: &OperatorValidator,
    resources: &R,
    ty: &ValType,
) -> bool
    ensures { IsTrue result ↔ MayUseIn validator.now (value_is_shared (type_in (R.meaning resources.now) ty.now)) }
{
    let reference = match ty.as_reference_type() {
        Some(reference) => reference,
        None => return true,
    };
    may_use(validator, resources.is_shared(reference))
}
