//! Choices of a written type.

ghost use Rattle.std.specs.Prelude.{IfErr};
ghost use Rattle.wasm_operators_enums.specs.Op.{Op, ParametricTree};
ghost use Rattle.wasm_operator_validator_state.specs.State.{Checks};
ghost use Rattle.wasm_operator_validator_state.specs.Refusals.{refused};
ghost use Rattle.wasm_operator_validator_stacks.specs.determined.Operators.{IsOfContent};

use wasm_operator_validator_stacks::determined::{
    OperatorValidator, Proposal, Reason, Refusal, WasmModuleResources, copied, may_use_type,
    refusal_of,
};
use wasm_types::ValType;

/// `select` of a type (WebAssembly 3.0, validation, parametric instructions).
pub fn check_typed_select<R: WasmModuleResources>(
    validator: &mut OperatorValidator,
    resources: &R,
    ty: ValType,
) -> Result<(), Refusal>
    ensures { Checks (R.meaning resources.now) validator.old (Op.Parametric (ParametricTree.TypedSelect ty))
        (refused result) validator.new }
{
    match validator.begin(Proposal::ReferenceTypes, false) {
        Ok(()) => (),
        Err(refusal) => return Err(refusal),
    }
    let features = validator.features();
    let mut named = ty;
    match resources.check_value_type(&mut named, &features, 0) {
        Ok(()) => (),
        Err(error) => return Err(refusal_of(&error, &ty)),
    }
    if !may_use_type(validator, resources, &named) {
        return Err(Refusal::Because(Reason::NotShared));
    }
    validator.exchange(
        resources,
        &[copied(&named), copied(&named), ValType::I32],
        &[copied(&named)],
    )
}

/// `select` of no type or of several, which is refused (WebAssembly 3.0, validation, parametric instructions).
pub fn check_typed_select_multi<R: WasmModuleResources>(
    validator: &mut OperatorValidator,
    resources: &R,
    tys: &[ValType],
) -> Result<(), Refusal>
    ensures checks { Checks (R.meaning resources.now) validator.old
        (Op.Parametric (ParametricTree.TypedSelectMulti tys.now)) (refused result) validator.new }
    ensures memory { IfErr result IsOfContent }
{
    let _resources = resources;
    let _tys = tys;
    match validator.begin(Proposal::ReferenceTypes, false) {
        Ok(()) => (),
        Err(refusal) => return Err(refusal),
    }
    Err(Refusal::Because(Reason::SelectArity))
}
