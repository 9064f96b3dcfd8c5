//! Operands against the labels of a table.

ghost use Rattle.std.specs.Prelude.{◌∷◌};
ghost use Rattle.wasm_operator_validator_state.specs.Steps.{IsOpen};
ghost use Rattle.wasm_operator_validator_control.specs.Fitting.{EachSuits, MayBranch, Answers};

use crate::matching::{match_label, match_operands};
use crate::sharing::agree;
use crate::{
    BrTable, BrTableTargets, OperatorValidator, Refusal, WasmModuleResources, label_types,
};
use wasm_operator_validator_locals::labels::{Met, is_known, keep};

/// Whether each of these labels takes so many operands, and what it takes could be taken off. A label that was met is not asked again.
fn match_targets<R: WasmModuleResources>(
    validator: &OperatorValidator,
    resources: &R,
    mut targets: BrTableTargets,
    count: usize,
) -> Result<(), Refusal>
    requires { IsOpen validator.now.opens }
    ensures { Answers result (EachSuits (R.meaning resources.now) validator.now count targets.entry) }
{
    let mut met = Met::new(validator.allocator());
    while let Some(target) = targets.next() {
        if !is_known(&met, target, count) {
            match match_label(validator, resources, target, count) {
                Ok(()) => {}
                Err(refusal) => return Err(refusal),
            }
            keep(&mut met, target, count);
        }
    }
    Ok(())
}

/// Whether there are operands that all labels of a table take. The default is looked up first, and then each target, in order.
pub(crate) fn match_table<R: WasmModuleResources>(
    validator: &OperatorValidator,
    resources: &R,
    table: &BrTable,
) -> Result<(), Refusal>
    requires { IsOpen validator.now.opens }
    ensures { Answers result (MayBranch (R.meaning resources.now) validator.now
        (table.now.default ∷ table.now.targets)) }
{
    let Some((block_type, kind)) = validator.jump(table.default()) else {
        return Err(Refusal::UnknownLabel);
    };
    let types = label_types(resources, &block_type, kind);
    match match_targets(validator, resources, table.targets(), types.len()) {
        Ok(()) => {}
        Err(refusal) => return Err(refusal),
    }
    match match_operands(validator, resources, types) {
        Ok(()) => {}
        Err(refusal) => return Err(refusal),
    }
    agree(validator, resources, table, types)
}
