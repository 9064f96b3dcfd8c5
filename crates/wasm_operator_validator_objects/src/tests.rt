//! Tests and casts of references, and references to small numbers.

ghost use Rattle.std.specs.Prelude.{◌≡◌, MatchOption, true, false};
ghost use Rattle.wasm_types.specs.trees.Types.{ref};
ghost use Rattle.wasm_types.specs.values.Trees.{abstract_of};
ghost use Rattle.wasm_operator_validator_rules.specs.Aggregates.{is_castable, is_cont, top_heap};
ghost use Rattle.wasm_operator_validator_resources.specs.Meaning.{heap_in, type_in};
ghost use Rattle.wasm_operators_enums.specs.Op.{Op};
ghost use Rattle.wasm_operator_validator_state.specs.Refusals.{refused};
ghost use Rattle.wasm_operator_validator_state.specs.State.{Checks};
ghost use Rattle.wasm_operator_validator_objects.specs.Rows.{TestsReference, CastsReference};

use crate::naming::{abstract_reference, heap_at};
use crate::steps::{begin, exchange};
use wasm_operator_validator_stacks::determined::{
    OperatorValidator, Reason, Refusal, WasmModuleResources,
};
use wasm_operators_visit::GcOperator;
use wasm_types::{AbstractHeapType, HeapType, RefType, ValType};

/// `ref.test`, whatever the features are.
pub fn check_ref_test<R: WasmModuleResources>(
    validator: &mut OperatorValidator,
    resources: &R,
    op: GcOperator,
    heap_type: &HeapType,
) -> Result<(), Refusal>
    requires { TestsReference op heap_type.now }
    ensures { Checks (R.meaning resources.now) validator.old (Op.Gc op) (refused result) validator.new }
{
    match begin(validator, resources, &op) {
        Ok(()) => (),
        Err(refusal) => return Err(refusal),
    }
    let named = match heap_at(validator, resources, true, heap_type) {
        Ok(named) => named,
        Err(refusal) => return Err(refusal),
    };
    let top = match castable_top(resources, &named) {
        Some(top) => top,
        None => return Err(Refusal::Because(Reason::NotCastable)),
    };
    exchange(validator, resources, &op, &[top], &[ValType::I32])
}

/// `ref.cast`, whatever the features are.
pub fn check_ref_cast<R: WasmModuleResources>(
    validator: &mut OperatorValidator,
    resources: &R,
    op: GcOperator,
    heap_type: &HeapType,
    nullable: bool,
) -> Result<(), Refusal>
    requires { CastsReference op heap_type.now nullable }
    ensures { Checks (R.meaning resources.now) validator.old (Op.Gc op) (refused result) validator.new }
{
    match begin(validator, resources, &op) {
        Ok(()) => (),
        Err(refusal) => return Err(refusal),
    }
    let named = match heap_at(validator, resources, nullable, heap_type) {
        Ok(named) => named,
        Err(refusal) => return Err(refusal),
    };
    let top = match castable_top(resources, &named) {
        Some(top) => top,
        None => return Err(Refusal::Because(Reason::NotCastable)),
    };
    exchange(validator, resources, &op, &[top], &[ValType::Ref(named)])
}

/// A reference to what is above all types of the hierarchy, that may be null; there is none to continuations.
pub fn castable_top<R: WasmModuleResources>(resources: &R, named: &RefType) -> Option<ValType>
    ensures { MatchOption result (is_castable (heap_in (R.meaning resources.now) named.now.heap) ≡ false)
        (λ t. (is_castable (heap_in (R.meaning resources.now) named.now.heap) ≡ true)
        × (type_in (R.meaning resources.now) t ≡ ref true (top_heap
        (heap_in (R.meaning resources.now) named.now.heap)))) }
{
    match resources.top_type(&named.heap_type()) {
        HeapType::Abstract { shared, ty } => {
            if is_cont(ty) {
                return None;
            }
            Some(abstract_reference(true, shared, ty))
        }
        HeapType::Concrete(_) => unreachable!(),
        HeapType::Exact(_) => unreachable!(),
    }
}

// Whether it is the type of all continuations.
fn is_cont(ty: AbstractHeapType) -> bool
    ensures { result ≡ is_cont (abstract_of ty) }
{
    match ty {
        AbstractHeapType::Cont => true,
        AbstractHeapType::Func => false,
        AbstractHeapType::Extern => false,
        AbstractHeapType::Any => false,
        AbstractHeapType::None => false,
        AbstractHeapType::NoExtern => false,
        AbstractHeapType::NoFunc => false,
        AbstractHeapType::Eq => false,
        AbstractHeapType::Struct => false,
        AbstractHeapType::Array => false,
        AbstractHeapType::I31 => false,
        AbstractHeapType::Exn => false,
        AbstractHeapType::NoExn => false,
        AbstractHeapType::NoCont => false,
    }
}

/// `ref.i31`.
pub fn check_ref_i31<R: WasmModuleResources>(
    validator: &mut OperatorValidator,
    resources: &R,
) -> Result<(), Refusal>
    ensures { Checks (R.meaning resources.now) validator.old (Op.Gc GcOperator.RefI31) (refused result) validator.new }
{
    let op = GcOperator::RefI31;
    match begin(validator, resources, &op) {
        Ok(()) => (),
        Err(refusal) => return Err(refusal),
    }
    let made = abstract_reference(false, false, AbstractHeapType::I31);
    exchange(validator, resources, &op, &[ValType::I32], &[made])
}
