//! Signatures of functions and blocks, as slices of what the module has.

ghost use Rattle.std.specs.Prelude.{◌≡◌, option_map};
ghost use Rattle.wasm_types.specs.Kinds.{func_in};
ghost use Rattle.wasm_operator_validator_rules.specs.Context.{label_of};
ghost use Rattle.wasm_operator_validator_state.specs.State.{types_in, signature_of};
ghost use Rattle.wasm_operator_validator_state.specs.blocks.Signatures.{signature_in, IsFunctionAt};

use crate::{BlockType, FrameKind, WasmModuleResources};
use std::slice;
use wasm_types::{CompositeInnerType, FuncType, SubType, ValType};

/// The function type that a type is, if it is one.
#[inline]
pub fn function_of(sub_type: &SubType) -> Option<&FuncType>
    ensures { option_map (λ f. f.now) result ≡ func_in sub_type.now.composite_type.inner }
{
    match &sub_type.composite_type.inner {
        CompositeInnerType::Func(function) => Some(function),
        CompositeInnerType::Array(_) => None,
        CompositeInnerType::Struct(_) => None,
        CompositeInnerType::Cont(_) => None,
    }
}

/// The function type at an index of the module's types, if there is one.
pub fn function_at<R: WasmModuleResources>(resources: &R, type_index: u32) -> Option<&FuncType>
    ensures { IsFunctionAt (R.meaning resources.now) type_index
        (option_map (λ f. signature_in (R.meaning resources.now) f.now) result) }
{
    let Some(sub_type) = resources.sub_type_at(type_index) else {
        return None;
    };
    function_of(sub_type)
}

/// What a block takes.
pub fn block_params<'a, R: WasmModuleResources>(
    resources: &'a R,
    block_type: &'a BlockType,
) -> &'a [ValType]
    ensures { types_in (R.meaning resources.now) result.now ≡
        (signature_of (R.meaning resources.now) block_type.now).params }
{
    match block_type {
        BlockType::Empty => &[],
        BlockType::Val(_) => &[],
        BlockType::FuncType(type_index) => match function_at(resources, *type_index) {
            Some(function) => function.params(),
            None => &[],
        },
    }
}

/// What a block gives.
#[inline(always)]
pub fn block_results<'a, R: WasmModuleResources>(
    resources: &'a R,
    block_type: &'a BlockType,
) -> &'a [ValType]
    ensures { types_in (R.meaning resources.now) result.now ≡
        (signature_of (R.meaning resources.now) block_type.now).results }
{
    match block_type {
        BlockType::Empty => &[],
        BlockType::Val(ty) => slice::from_ref(ty),
        BlockType::FuncType(type_index) => match function_at(resources, *type_index) {
            Some(function) => function.results(),
            None => &[],
        },
    }
}

/// What a branch to a frame takes: the parameters of a loop, and the results of any other block.
pub fn label_types<'a, R: WasmModuleResources>(
    resources: &'a R,
    block_type: &'a BlockType,
    kind: FrameKind,
) -> &'a [ValType]
    ensures { types_in (R.meaning resources.now) result.now ≡ label_of kind
        (signature_of (R.meaning resources.now) block_type.now) }
{
    match kind {
        FrameKind::Loop => block_params(resources, block_type),
        FrameKind::Block => block_results(resources, block_type),
        FrameKind::If => block_results(resources, block_type),
        FrameKind::Else => block_results(resources, block_type),
        FrameKind::TryTable => block_results(resources, block_type),
        FrameKind::LegacyTry => block_results(resources, block_type),
        FrameKind::LegacyCatch => block_results(resources, block_type),
        FrameKind::LegacyCatchAll => block_results(resources, block_type),
    }
}
