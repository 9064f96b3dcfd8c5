//! Data segments that their bytes alone tell.
//!
//! Most data segments of a module are copied into memory 0 at a number of 32 bits. [`check_short_data`] tells these with no reader of operators;
//! of all others it says nothing.

ghost use Rattle.std.specs.Prelude.{◌≤◌, length, IfSome};
ghost use Rattle.wasm_module_validator_initialisers.specs.segments.Short.{HasNarrowMemory, IsShortData};

use wasm_operator_validator_constants::WasmModuleResources;
use wasm_operators_bodies::{ShortConstant, short_constant};
use wasm_types_decoding::short_u32_at;

/// Where the data segment at an offset ends, if the bytes alone tell that it is valid in the module so far: it is copied into memory 0,
/// whose addresses have 32 bits, at a number (`short_data_is_valid` of `specs/segments/ShortLaws.antt`).
pub fn check_short_data<R: WasmModuleResources>(
    resources: &R,
    bytes: &[u8],
    at: usize,
) -> Option<usize>
    requires { at ≤ length bytes.now }
    ensures short { IfSome result (IsShortData bytes.now at) }
    ensures memory { IfSome result (λ _. HasNarrowMemory (R.meaning resources.now).«module») }
{
    let Some(memory) = resources.memory_at(0) else {
        return None;
    };
    if memory.memory64 {
        return None;
    }
    short_data_at(bytes, at)
}

/// Where the data segment at an offset ends, if it is active in memory 0 at a number of 32 bits.
fn short_data_at(bytes: &[u8], at: usize) -> Option<usize>
    requires { at ≤ length bytes.now }
    ensures { IfSome result (IsShortData bytes.now at) }
{
    let Some((0, first)) = short_u32_at(bytes, at) else {
        return None;
    };
    let Some((ShortConstant::I32, long)) = short_constant(&bytes[first..]) else {
        return None;
    };
    let Some((count, start)) = short_u32_at(bytes, first + long) else {
        return None;
    };
    if count as usize > bytes.len() - start {
        return None;
    }
    Some(start + count as usize)
}
