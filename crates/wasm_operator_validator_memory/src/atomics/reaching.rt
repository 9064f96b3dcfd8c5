//! Which atomic accesses a memory allows.

ghost use Rattle.std.specs.Prelude.{◌≡◌, true, slice_get, MatchResult};
ghost use Rattle.wasm_operator_validator_state.specs.resources.Meaning.{type_in};
ghost use Rattle.wasm_operator_validator_memory.specs.Reaching.{reached};

use crate::{MemArg, Reason, Refusal, WasmModuleResources, has_alignment, reach};
use wasm_types::ValType;

/// The type of addresses of the memory that an argument reaches into, where the memory allows an atomic access by it. The alignment is
/// asked first.
pub(crate) fn reach_atomic<R: WasmModuleResources>(
    resources: &R,
    memarg: &MemArg,
) -> Result<ValType, Refusal>
    ensures { MatchResult result (λ t. reached true memarg.now
        (slice_get (R.meaning resources.now).«module».memories memarg.now.memory) ≡ Some
        (type_in (R.meaning resources.now) t)) (λ r. reached true memarg.now
        (slice_get (R.meaning resources.now).«module».memories memarg.now.memory) ≡ None) }
{
    if !has_alignment(true, memarg) {
        return Err(Refusal::Because(Reason::AtomicAlignment));
    }
    reach(resources, true, memarg)
}
