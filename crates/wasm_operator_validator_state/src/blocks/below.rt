//! Types in one place of others.

ghost use Rattle.std.specs.Prelude.{◌↔◌, IsTrue};
ghost use Rattle.wasm_operator_validator_rules.specs.Operands.{AllBelow, all_known};
ghost use Rattle.wasm_operator_validator_state.specs.State.{types_in};

use crate::WasmModuleResources;
use wasm_types::ValType;

/// Whether operands of the first types may be taken for operands of the second, each for that in its place (WebAssembly 3.0,
/// validation, matching, result types).
pub fn are_below<R: WasmModuleResources>(
    resources: &R,
    found: &[ValType],
    expected: &[ValType],
) -> bool
    ensures { IsTrue result ↔ AllBelow (all_known (types_in (R.meaning resources.now) found.now))
        (all_known (types_in (R.meaning resources.now) expected.now)) }
{
    if found.len() != expected.len() {
        return false;
    }
    for i in 0..found.len() {
        if !resources.is_subtype(found[i], expected[i]) {
            return false;
        }
    }
    true
}
