//! Function types by their index.

ghost use Rattle.std.specs.Prelude.{◌≡◌, IfErr, IfOk, Some};
ghost use Rattle.wasm_types.specs.decoding.Denials.{Tells};
ghost use Rattle.wasm_types.specs.decoding.declared.error.ErrorKind.TheVariants.{Other};
ghost use Rattle.wasm_operator_validator_state.specs.blocks.Signatures.{signature_in, IsFunctionAt};
ghost use Rattle.wasm_module_validator_rules.specs.Valid.{IsFunctionIndex};

use wasm_operator_validator_state::WasmModuleResources;
use wasm_operator_validator_state::blocks::function_at;
use wasm_types::{Error, FuncType, ModuleWords, Result, Text, Words};

// The refusal of an index that is no function type's.
#[cold]
fn no_function_type<R: WasmModuleResources>(resources: &R, type_index: u32, offset: u64) -> Error
    ensures kind { result.kind ≡ Other }
    ensures at { result.offset ≡ offset }
{
    if resources.sub_type_at(type_index).is_none() {
        return Error::with(
            Text::Number(Words::UnknownType, type_index, Words::TypeIndexOutOfBounds),
            offset,
        );
    }
    Error::with(
        Text::Number(
            Words::Module(ModuleWords::TypeIndex),
            type_index,
            Words::Module(ModuleWords::IsNotAFunctionType),
        ),
        offset,
    )
}

/// The function type at an index of the module's types.
///
/// # Errors
///
/// The module has no type there, or one that is no function type: an error of kind `Other`, at `offset`.
pub fn func_type_at<R: WasmModuleResources>(
    resources: &R,
    type_index: u32,
    offset: u64,
) -> Result<&FuncType>
    ensures answer { Tells result (IsFunctionIndex (R.meaning resources.now).«module» type_index) }
    ensures function { IfOk result (λ f. IsFunctionAt (R.meaning resources.now) type_index
        (Some (signature_in (R.meaning resources.now) f.now))) }
    ensures refused { IfErr result (λ e. (e.kind ≡ Other) × (e.offset ≡ offset)) }
{
    let Some(function) = function_at(resources, type_index) else {
        return Err(no_function_type(resources, type_index, offset));
    };
    Ok(function)
}
