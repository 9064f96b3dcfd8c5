//! Atomic accesses to globals, tables, structs and arrays (the proposal on shared everything): one check over a place, and what may be
//! stored there.

ghost use Rattle.std.specs.Prelude.{◌≡◌, ◌++◌, MatchResult, Some, false};
ghost use Rattle.wasm_operators_immediates.specs.declared.proposal.Proposal.TheVariants.{SharedEverythingThreads};
ghost use Rattle.wasm_operators_enums.specs.Op.{Op};
ghost use Rattle.wasm_operator_validator_rules.specs.Operands.{stack};
ghost use Rattle.wasm_operator_validator_rules.specs.Places.{element_place, field_place, global_place, table_place};
ghost use Rattle.wasm_operator_validator_rules.specs.SharedAccesses.{given_by_access, taken_above};
ghost use Rattle.wasm_operator_validator_resources.specs.Meaning.{type_in};
ghost use Rattle.wasm_operator_validator_state.specs.Entering.{MayBegin};
ghost use Rattle.wasm_operator_validator_state.specs.Refusals.{Does, kind_of, refused};
ghost use Rattle.wasm_operator_validator_state.specs.State.{Checks, types_in};
ghost use Rattle.wasm_operator_validator_state.specs.Steps.{Exchanged, IsOpen, MayPop};
ghost use Rattle.wasm_operator_validator_proposals.specs.Accesses.{Accesses, access_of, AccessesAt};

use crate::places::{AtomicAccess, global_at, may_change, not_stored, stores, table_at};
use crate::steps::exchange_above;
use wasm_operator_validator_objects::{abstract_reference, element_at, field_at};
use wasm_operator_validator_stacks::determined::{
    OperatorValidator, Proposal, Reason, Refusal, WasmModuleResources,
};
use wasm_operators_visit::SharedOperator;
use wasm_types::{AbstractHeapType, FieldType, ValType};

/// An atomic access to the global at an index.
pub fn check_global_access<R: WasmModuleResources>(
    validator: &mut OperatorValidator,
    resources: &R,
    op: SharedOperator,
    access: AtomicAccess,
    global_index: u32,
) -> Result<(), Refusal>
    requires { Accesses op access (λ g. global_place g global_index) }
    ensures { Checks (R.meaning resources.now) validator.old (Op.Shared op) (refused result) validator.new }
{
    match begin(validator, resources, &op) {
        Ok(()) => (),
        Err(refusal) => return Err(refusal),
    }
    let global = match global_at(validator, resources, global_index) {
        Ok(global) => global,
        Err(refusal) => return Err(refusal),
    };
    check_access(
        validator,
        resources,
        &op,
        access,
        &[],
        &global,
        Reason::ImmutableGlobal,
    )
}

/// An atomic access to an element of the table at an index.
pub fn check_table_access<R: WasmModuleResources>(
    validator: &mut OperatorValidator,
    resources: &R,
    op: SharedOperator,
    access: AtomicAccess,
    table_index: u32,
) -> Result<(), Refusal>
    requires { Accesses op access (λ g. table_place g table_index) }
    ensures { Checks (R.meaning resources.now) validator.old (Op.Shared op) (refused result) validator.new }
{
    match begin(validator, resources, &op) {
        Ok(()) => (),
        Err(refusal) => return Err(refusal),
    }
    let (index, element) = match table_at(validator, resources, table_index) {
        Ok(found) => found,
        Err(refusal) => return Err(refusal),
    };
    check_access(
        validator,
        resources,
        &op,
        access,
        &[index],
        &element,
        Reason::ImmutableArray,
    )
}

/// An atomic access to a field of the struct type at an index.
pub fn check_field_access<R: WasmModuleResources>(
    validator: &mut OperatorValidator,
    resources: &R,
    op: SharedOperator,
    access: AtomicAccess,
    type_index: u32,
    field_index: u32,
) -> Result<(), Refusal>
    requires { Accesses op access (λ g. field_place g type_index field_index) }
    ensures { Checks (R.meaning resources.now) validator.old (Op.Shared op) (refused result) validator.new }
{
    match begin(validator, resources, &op) {
        Ok(()) => (),
        Err(refusal) => return Err(refusal),
    }
    let (reference, field) = match field_at(validator, resources, type_index, field_index) {
        Ok(found) => found,
        Err(refusal) => return Err(refusal),
    };
    check_access(
        validator,
        resources,
        &op,
        access,
        &[reference],
        &field,
        Reason::ImmutableField,
    )
}

/// An atomic access to an element of the array type at an index.
pub fn check_element_access<R: WasmModuleResources>(
    validator: &mut OperatorValidator,
    resources: &R,
    op: SharedOperator,
    access: AtomicAccess,
    type_index: u32,
) -> Result<(), Refusal>
    requires { Accesses op access (λ g. element_place g type_index) }
    ensures { Checks (R.meaning resources.now) validator.old (Op.Shared op) (refused result) validator.new }
{
    match begin(validator, resources, &op) {
        Ok(()) => (),
        Err(refusal) => return Err(refusal),
    }
    let (reference, element) = match element_at(validator, resources, type_index) {
        Ok(found) => found,
        Err(refusal) => return Err(refusal),
    };
    let reached = &[reference, ValType::I32];
    check_access(
        validator,
        resources,
        &op,
        access,
        reached,
        &element,
        Reason::ImmutableArray,
    )
}

/// `ref.i31_shared`.
pub fn check_ref_i31_shared<R: WasmModuleResources>(
    validator: &mut OperatorValidator,
    resources: &R,
) -> Result<(), Refusal>
    ensures { Checks (R.meaning resources.now) validator.old (Op.Shared SharedOperator.RefI31Shared)
        (refused result) validator.new }
{
    let op = SharedOperator::RefI31Shared;
    match begin(validator, resources, &op) {
        Ok(()) => (),
        Err(refusal) => return Err(refusal),
    }
    let made = abstract_reference(false, true, AbstractHeapType::I31);
    validator.exchange(resources, &[ValType::I32], &[made])
}

// The test at the entry.
fn begin<R: WasmModuleResources>(
    validator: &OperatorValidator,
    resources: &R,
    op: &SharedOperator,
) -> Result<(), Refusal>
    ensures { MatchResult result (λ _. MayBegin validator.now SharedEverythingThreads false)
        (λ r. Checks (R.meaning resources.now) validator.now (Op.Shared op.now) (Some (kind_of r)) validator.now) }
{
    let _resources = resources;
    let _op = op;
    match validator.begin(Proposal::SharedEverythingThreads, false) {
        Ok(()) => Ok(()),
        Err(refusal) => Err(refusal),
    }
}

// An access to a place that was found: whether it may be changed, whether what is stored there may be accessed so, and the operands.
fn check_access<R: WasmModuleResources>(
    validator: &mut OperatorValidator,
    resources: &R,
    op: &SharedOperator,
    access: AtomicAccess,
    reached: &[ValType],
    place: &FieldType,
    constant: Reason,
) -> Result<(), Refusal>
    requires begun { MayBegin validator.old SharedEverythingThreads false }
    requires row { AccessesAt (R.meaning resources.now) validator.old op.now access reached.now place.now }
    ensures { Checks (R.meaning resources.now) validator.old (Op.Shared op.now) (refused result) validator.new }
{
    let _op = op;
    if !may_change(access, place.mutable) {
        return Err(Refusal::Because(constant));
    }
    if !stores(resources, access, &place.element_type) {
        return Err(Refusal::Because(not_stored(access)));
    }
    let stored = place.element_type.unpack();
    exchange_stored(validator, resources, access, reached, &stored)
}

// The operands of an access: those that reach the place, and those of its type.
fn exchange_stored<R: WasmModuleResources>(
    validator: &mut OperatorValidator,
    resources: &R,
    access: AtomicAccess,
    reached: &[ValType],
    stored: &ValType,
) -> Result<(), Refusal>
    requires { IsOpen validator.old.opens }
    ensures does { Does (refused result) (Exchanged (R.meaning resources.now) validator.old
        (types_in (R.meaning resources.now) reached.now
        ++ taken_above (access_of access) (type_in (R.meaning resources.now) stored.now))
        (given_by_access (access_of access) (type_in (R.meaning resources.now) stored.now)) validator.new)
        (MayPop (R.meaning resources.now) validator.old (stack (types_in (R.meaning resources.now) reached.now
        ++ taken_above (access_of access) (type_in (R.meaning resources.now) stored.now)))) }
    ensures given { validator.new.given ≡ validator.old.given }
    ensures failed { validator.new.failed ≡ validator.old.failed }
    ensures saved { validator.new.saved ≡ validator.old.saved }
{
    match access {
        AtomicAccess::Reads => exchange_above(validator, resources, reached, &[], &[*stored]),
        AtomicAccess::ReadsPacked => exchange_above(validator, resources, reached, &[], &[*stored]),
        AtomicAccess::Writes => exchange_above(validator, resources, reached, &[*stored], &[]),
        AtomicAccess::Modifies => {
            exchange_above(validator, resources, reached, &[*stored], &[*stored])
        }
        AtomicAccess::Exchanges => {
            exchange_above(validator, resources, reached, &[*stored], &[*stored])
        }
        AtomicAccess::Compares => {
            exchange_above(
                validator,
                resources,
                reached,
                &[*stored, *stored],
                &[*stored],
            )
        }
    }
}
