//! Functions that code may refer to.

ghost use Rattle.std.specs.Prelude.{◌≡◌, List};
ghost use Rattle.wasm_module_validator_type_storage.specs.trees.Groups.{Group};
ghost use Rattle.wasm_module_validator_resources.specs.Named.{IsReadOver};
ghost use Rattle.wasm_module_validator_state.specs.invariant.Standing.{marking};

use wasm_module_validator_state::invariant::ModuleState;

/// Lets code refer to each of these functions that there is.
pub(crate) fn refer_to_each(state: &mut ModuleState, names: &[u32])
    ensures marked { state.new ≡ record state.old { spaces = marking names.now state.old.spaces } }
{
    for at in 0..names.len() {
        state.refer_to_function(names[at]);
    }
}
