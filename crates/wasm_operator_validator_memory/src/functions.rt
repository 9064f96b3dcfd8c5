//! References to functions.

ghost use Rattle.std.specs.Prelude.{◌≡◌, ◌↔◌, ◌<◌, IsTrue, MatchResult, length, false};
ghost use Rattle.wasm_types.specs.trees.Types.{ref};
ghost use Rattle.wasm_types.specs.trees.Trees.{TypeTree};
ghost use Rattle.wasm_types.specs.trees.ValidGroup.{type_at};
ghost use Rattle.wasm_operators_enums.specs.Op.{Op};
ghost use Rattle.wasm_operator_validator_state.specs.resources.Meaning.{type_in};
ghost use Rattle.wasm_operator_validator_state.specs.State.{Checks};
ghost use Rattle.wasm_operator_validator_state.specs.Refusals.{refused};
ghost use Rattle.wasm_operator_validator_memory.specs.Tables.{IsReferable, IsExactly, IsFunctionReference, heap_to, written_heap};

use wasm_operator_validator_stacks::determined::{
    BulkOperator, OperatorValidator, Proposal, Reason, Refusal, Space, WasmModuleResources,
    may_use_type,
};
use wasm_types::{HeapType, RefType, UnpackedIndex, ValType};

/// `ref.func`, of a function that the module names elsewhere too (WebAssembly 3.0, validation, reference instructions).
pub fn check_ref_func<R: WasmModuleResources>(
    validator: &mut OperatorValidator,
    resources: &R,
    function_index: u32,
) -> Result<(), Refusal>
    ensures { Checks (R.meaning resources.now) validator.old (Op.Bulk (BulkOperator.RefFunc function_index))
        (refused result) validator.new }
{
    match validator.begin(Proposal::ReferenceTypes, false) {
        Ok(()) => (),
        Err(refusal) => return Err(refusal),
    }
    let ty = match name_function(validator, resources, function_index) {
        Ok(ty) => ty,
        Err(refusal) => return Err(refusal),
    };
    validator.push_operands(resources, &[ty])
}

// The type of a reference to a function, where code may refer to it.
fn name_function<R: WasmModuleResources>(
    validator: &OperatorValidator,
    resources: &R,
    function_index: u32,
) -> Result<ValType, Refusal>
    ensures { MatchResult result (λ t. IsFunctionReference (R.meaning resources.now) validator.now function_index
        (type_in (R.meaning resources.now) t)) (λ r. (t : TypeTree)
        → IsReferable (R.meaning resources.now) validator.now function_index t → ⊥) }
{
    let type_index = match resources.type_index_of_function(function_index) {
        Some(type_index) => type_index,
        None => {
            return Err(Refusal::Unknown {
                space: Space::Function,
                index: function_index,
            });
        }
    };
    if !resources.is_function_referenced(function_index) {
        return Err(Refusal::Because(Reason::UndeclaredFunction));
    }
    let exactly = is_exactly(validator, resources, function_index);
    let ty = reference_to(resources, type_index, exactly);
    if !may_use_type(validator, resources, &ty) {
        return Err(Refusal::Because(Reason::NotShared));
    }
    Ok(ty)
}

// Whether a function's type is known exactly, and code may say so.
#[tactic(auto, unfolding(crate::specs::Tables::has))]
fn is_exactly<R: WasmModuleResources>(
    validator: &OperatorValidator,
    resources: &R,
    function_index: u32,
) -> bool
    ensures { IsTrue result ↔ IsExactly (R.meaning resources.now) validator.now function_index }
{
    let features = validator.features();
    if !features.custom_descriptors() {
        return false;
    }
    resources.has_function_exact_type(function_index)
}

// The reference to what has the type at an index, or exactly that type. Its index is named by its id, which fits into a reference.
fn reference_to<R: WasmModuleResources>(resources: &R, type_index: u32, exactly: bool) -> ValType
    requires { type_index < length (R.meaning resources.now).«module».types }
    ensures { type_in (R.meaning resources.now) result ≡ ref false
        (heap_to exactly (type_at (R.meaning resources.now).«module».types type_index)) }
{
    let mut heap_type = written(type_index, exactly);
    match resources.check_heap_type(&mut heap_type, 0) {
        Ok(()) => (),
        Err(_) => unreachable!(),
    }
    match RefType::new(false, heap_type) {
        Some(reference) => ValType::Ref(reference),
        None => unreachable!(),
    }
}

// The heap type as a module writes it.
fn written(type_index: u32, exactly: bool) -> HeapType
    ensures { result ≡ written_heap exactly type_index }
{
    if exactly {
        return HeapType::Exact(UnpackedIndex::Module(type_index));
    }
    HeapType::Concrete(UnpackedIndex::Module(type_index))
}
