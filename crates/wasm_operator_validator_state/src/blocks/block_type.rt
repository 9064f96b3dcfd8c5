//! Which block types code may write.

ghost use Rattle.std.specs.Prelude.{◌≡◌, ◌↔◌, MatchResult};
ghost use Rattle.wasm_types.specs.decoding.Denials.{Denies};
ghost use Rattle.wasm_types.specs.decoding.declared.error.ErrorKind.TheVariants.{OutOfMemory, Other};
ghost use Rattle.wasm_operator_validator_rules.specs.Operands.{ValueType};
ghost use Rattle.wasm_operator_validator_rules.specs.Context.{Signature, IsType};
ghost use Rattle.wasm_operator_validator_resources.specs.Meaning.{type_in};
ghost use Rattle.wasm_operator_validator_state.specs.Refusals.{kind_of};
ghost use Rattle.wasm_operator_validator_state.specs.State.{Given, signature_of};
ghost use Rattle.wasm_operator_validator_state.specs.blocks.Signatures.{IsBlock};

use crate::blocks::signatures::function_at;
use crate::{BlockType, Reason, Refusal, Space, WasmModuleResources};
use wasm_types::{Error, ErrorKind, ValType, WasmFeatures};

/// A block type as code writes it, under these features, with the types in it named by their ids (WebAssembly 3.0, validation, types,
/// block types).
#[inline(always)]
pub fn check_block_type<R: WasmModuleResources>(
    resources: &R,
    features: WasmFeatures,
    written: BlockType,
) -> Result<BlockType, Refusal>
    ensures { (w : Given) → w.bits ≡ features.0 → MatchResult result
        (λ named. IsBlock (R.meaning resources.now) w written (signature_of (R.meaning resources.now) named))
        (λ r. Denies (kind_of r) ((b : Signature) × IsBlock (R.meaning resources.now) w written b)) }
{
    match written {
        BlockType::Empty => Ok(BlockType::Empty),
        BlockType::Val(ty) => match check_result_type(resources, features, ty) {
            Ok(named) => Ok(BlockType::Val(named)),
            Err(refusal) => Err(refusal),
        },
        BlockType::FuncType(type_index) => {
            if !features.multi_value() {
                return Err(Refusal::NotEnabled {
                    feature: WasmFeatures::MULTI_VALUE,
                });
            }
            match function_at(resources, type_index) {
                Some(_) => Ok(BlockType::FuncType(type_index)),
                None => Err(no_function(resources, type_index)),
            }
        }
    }
}

/// Why an index names no function type.
#[cold]
fn no_function<R: WasmModuleResources>(resources: &R, index: u32) -> Refusal
    ensures { kind_of result ≡ Other }
{
    let space = match resources.sub_type_at(index) {
        Some(_) => Space::FunctionType,
        None => Space::Type,
    };
    Refusal::Unknown { space, index }
}

/// A value type as code writes it, with the types in it named by their ids. Numbers that need no feature are not asked.
fn check_result_type<R: WasmModuleResources>(
    resources: &R,
    features: WasmFeatures,
    written: ValType,
) -> Result<ValType, Refusal>
    ensures { MatchResult result (λ named. IsType features.0 (R.meaning resources.now).«module» written
        (type_in (R.meaning resources.now) named))
        (λ r. Denies (kind_of r) ((t : ValueType) × IsType features.0 (R.meaning resources.now).«module» written t)) }
{
    if let ValType::I32 = written {
        return Ok(ValType::I32);
    }
    if let ValType::I64 = written {
        return Ok(ValType::I64);
    }
    let mut ty = written;
    match resources.check_value_type(&mut ty, &features, 0) {
        Ok(()) => Ok(ty),
        Err(error) => Err(type_refusal(&error, written)),
    }
}

/// Why a value type is refused, in few bytes.
#[cold]
fn type_refusal(error: &Error, ty: ValType) -> Refusal
    ensures { (kind_of result ≡ OutOfMemory) ↔ (error.now.kind ≡ OutOfMemory) }
{
    match error.kind() {
        ErrorKind::MissingFeature(feature) => Refusal::TypeNotEnabled { feature, ty },
        ErrorKind::OutOfMemory => Refusal::OutOfMemory,
        ErrorKind::EndOfData { needed_hint: _ } => unknown_type(ty),
        ErrorKind::Failed => unknown_type(ty),
        ErrorKind::Other => unknown_type(ty),
    }
}

// That a value type names a type that the module does not have.
fn unknown_type(ty: ValType) -> Refusal
    ensures { kind_of result ≡ Other }
{
    match ty.as_reference_type() {
        Some(reference) => Refusal::unknown_heap(reference.heap_type()),
        None => Refusal::Because(Reason::UnknownType),
    }
}
