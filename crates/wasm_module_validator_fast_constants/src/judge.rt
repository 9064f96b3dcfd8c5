//! The loop over the operators of a constant.

ghost use Rattle.std.specs.Prelude.{◌≡◌, ◌≤◌, ◌<◌, ◌∷◌, [], IsTrue, IfSome, length};
ghost use Rattle.wasm_types.specs.trees.Below.{Below};
ghost use Rattle.wasm_types.specs.values.declared.value.ValType.{ValType};
ghost use Rattle.wasm_operator_validator_state.specs.resources.Meaning.{type_in};
ghost use Rattle.wasm_module_validator_fast_constants.specs.Steps.{IsShortConstant, Nexts};

use crate::numbers::{f32_const, f64_const, i32_const, i64_const, sum};
use crate::objects::object;
use crate::references::{global, null};
use wasm_operator_validator_state::WasmModuleResources;
use wasm_types::{ValType, WasmFeatures};

// Takes an operator that is no `end`, and answers where it ends.
#[inline(always)]
fn next<R: WasmModuleResources>(
    bytes: &[u8],
    at: usize,
    resources: &R,
    features: &WasmFeatures,
    stack: &mut Vec<ValType>,
) -> Option<usize>
    requires { at < length bytes.now }
    ensures { IfSome result (λ j. Nexts features.now.0 (R.meaning resources.now) bytes.now at stack.old.items j stack.new.items) }
{
    let code = bytes[at];
    match code {
        0x41 => i32_const(bytes, at, stack),
        0x42 => i64_const(bytes, at, stack),
        0x43 => f32_const(bytes, at, features, stack),
        0x44 => f64_const(bytes, at, features, stack),
        0x23 => global(bytes, at, resources, features, stack),
        0xd0 => null(bytes, at, resources, features, stack),
        0xfb => object(bytes, at, resources, features, stack),
        _ => sum(bytes, at, code, features, stack),
    }
}

// The same, with room for one operand more, which is all that an operator needs. If there is no memory for it, `lacks` is set.
#[inline(always)]
fn next_in_room<R: WasmModuleResources>(
    bytes: &[u8],
    at: usize,
    resources: &R,
    features: &WasmFeatures,
    stack: &mut Vec<ValType>,
    lacks: &mut bool,
) -> Option<usize>
    requires { at < length bytes.now }
    ensures { IfSome result (λ j. Nexts features.now.0 (R.meaning resources.now) bytes.now at stack.old.items j stack.new.items) }
{
    let Ok(()) = stack.reserve(1) else {
        *lacks = true;
        return None;
    };
    next(bytes, at, resources, features, stack)
}

// Whether the one operand is of this type.
#[inline(always)]
fn is_of<R: WasmModuleResources>(stack: &[ValType], ty: &ValType, resources: &R) -> bool
    ensures { IsTrue result → (x : ValType) × (stack.now ≡ x ∷ [])
        × Below (type_in (R.meaning resources.now) x) (type_in (R.meaning resources.now) ty.now) }
{
    if stack.len() != 1 {
        return false;
    }
    resources.is_subtype(stack[0], *ty)
}

/// Where the constant at an offset of these bytes ends, if it is one of this type, over ids, in the module so far, and one that the pass knows.
/// It refers to no function. `stack` is memory; if a growth of it is refused, `lacks` is set.
pub fn accepts_constant<R: WasmModuleResources>(
    bytes: &[u8],
    start: usize,
    ty: &ValType,
    resources: &R,
    features: &WasmFeatures,
    stack: &mut Vec<ValType>,
    lacks: &mut bool,
) -> Option<usize>
    requires { start ≤ length bytes.now }
    ensures { IfSome result (λ j. IsShortConstant features.now.0 (R.meaning resources.now).«module»
        (type_in (R.meaning resources.now) ty.now) bytes.now start j []) }
{
    stack.clear();
    let mut at = start;
    while at < bytes.len() {
        if bytes[at] == 0x0b {
            if !is_of(stack.as_slice(), ty, resources) {
                return None;
            }
            return Some(at + 1);
        }
        let Some(end) = next_in_room(bytes, at, resources, features, stack, lacks) else {
            return None;
        };
        at = end;
    }
    None
}
