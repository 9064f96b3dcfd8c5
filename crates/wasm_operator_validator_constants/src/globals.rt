//! Globals that a constant reads.

ghost use Rattle.std.specs.Prelude.{◌≡◌, IfOk, IfErr};
ghost use Rattle.wasm_operator_validator_rules.specs.constants.Constants.{IsConstantGlobal};
ghost use Rattle.wasm_operator_validator_constants.specs.Operators.{RefusesGlobal};

use crate::ConstantRefusal;
use wasm_operator_validator_stacks::{Refusal, Space, WasmModuleResources};
use wasm_types::WasmFeatures;

/// Whether a constant may read the global at an index: one that is never written, and imported where garbage collection is off.
#[tactic(auto, unfolding(crate::specs::Operators::has))]
pub(crate) fn check_global<R: WasmModuleResources>(
    global_index: u32,
    features: WasmFeatures,
    resources: &R,
    imported_globals: u32,
) -> Result<(), ConstantRefusal>
    ensures constant { IfOk result (λ _. IsConstantGlobal features.0
        (R.meaning resources.now).«module» imported_globals global_index) }
    ensures refused { IfErr result (λ r. RefusesGlobal features.0
        (R.meaning resources.now).«module» imported_globals global_index r) }
{
    let Some(global) = resources.global_at(global_index) else {
        return Err(ConstantRefusal::Invalid(Refusal::Unknown {
            space: Space::ConstantGlobal,
            index: global_index,
        }));
    };
    if global_index >= imported_globals {
        if !features.gc() {
            return Err(ConstantRefusal::LocalGlobal {
                feature: WasmFeatures::GC,
            });
        }
    }
    if global.mutable {
        return Err(ConstantRefusal::MutableGlobal);
    }
    Ok(())
}
