//! Element segments.

ghost use Rattle.std.specs.Prelude.{◌≡◌, IfErr, IfOk, OnErr, OnOk};
ghost use Rattle.wasm_types.specs.decoding.Denials.{Tells, UnlessMemory};
ghost use Rattle.wasm_types.specs.settings.Limits.{IsWithinCeilings};
ghost use Rattle.wasm_module_validator_resources.specs.Named.{IsReadOver};
ghost use Rattle.wasm_operator_validator_state.specs.resources.Meaning.{reference_in};
ghost use Rattle.wasm_module_validator_resources.specs.rules_in_order.Sections as section;
ghost use Rattle.wasm_module_validator_initialisers.specs.elements.Trees.{element_read};
ghost use Rattle.wasm_module_validator_initialisers.specs.elements.Items.{item_type};
ghost use Rattle.wasm_module_validator_initialisers.specs.elements.Judged.{IsElementThere};
ghost use Rattle.wasm_module_validator_initialisers.specs.elements.Naming.{NamesElement};
ghost use Rattle.wasm_module_validator_initialisers.specs.elements.Refusals.{RefusesElement};
ghost use Rattle.wasm_module_validator_state.specs.invariant.Standing.{constants_of, AddsItem, TellsItem};
ghost use Rattle.wasm_module_validator_initialisers.specs.adding.Refusals.{RefusesNewElement};

use crate::adding::marking::refer_to_each;
use crate::elements::{
    ConstExpr, ElementOf, OperatorValidatorAllocations, ReferringToAll, check_element,
};
use std::alloc::Global;
use wasm_module_validator_state::invariant::ModuleState;
use wasm_module_validator_type_list::TypeList;
use wasm_types::{RefType, Result};

// Checks an element segment in the module that is being read, gives the type of its elements over ids, and names the functions that it
// refers to.
fn judge_element<'a>(
    alloc: Global,
    element: ElementOf<'a, ConstExpr<'a>>,
    state: &ModuleState,
    types: &TypeList,
    allocs: &mut OperatorValidatorAllocations,
    names: &mut Vec<u32>,
    offset: u64,
) -> Result<RefType>
    requires over { IsReadOver types.now.groups state.now.spaces }
    requires within { IsWithinCeilings state.now.spaces.settings.limits }
    ensures answer { Tells result (IsElementThere state.now.spaces.settings
        (constants_of types.now.groups state.now.spaces).«module» state.now.spaces.imported_globals
        (element_read element.entry)) }
    ensures named { IfOk result (λ t. reference_in (constants_of types.now.groups state.now.spaces) t ≡ item_type
        (constants_of types.now.groups state.now.spaces).«module».types element.entry.items) }
    ensures names { IfOk result (λ _. NamesElement state.now.spaces.settings
        (element_read element.entry) names.old.items names.new.items) }
    ensures refused { IfErr result (λ e. UnlessMemory e.kind (RefusesElement state.now.spaces.settings
        (constants_of types.now.groups state.now.spaces) state.now.spaces.imported_globals offset element.entry e)) }
{
    let module = state.resources(types);
    check_element(
        alloc,
        element,
        &ReferringToAll::new(&module),
        &state.settings(),
        state.module().imported_globals(),
        allocs,
        names,
        offset,
    )
}

// The same with the memory that the state keeps for constants.
fn check_new_element<'a>(
    alloc: Global,
    element: ElementOf<'a, ConstExpr<'a>>,
    state: &mut ModuleState,
    types: &TypeList,
    names: &mut Vec<u32>,
    offset: u64,
) -> Result<RefType>
    requires over { IsReadOver types.now.groups state.old.spaces }
    requires within { IsWithinCeilings state.old.spaces.settings.limits }
    ensures answer { Tells result (IsElementThere state.old.spaces.settings
        (constants_of types.now.groups state.old.spaces).«module» state.old.spaces.imported_globals
        (element_read element.entry)) }
    ensures named { IfOk result (λ t. reference_in (constants_of types.now.groups state.old.spaces) t ≡ item_type
        (constants_of types.now.groups state.old.spaces).«module».types element.entry.items) }
    ensures names { IfOk result (λ _. NamesElement state.old.spaces.settings
        (element_read element.entry) names.old.items names.new.items) }
    ensures refused { IfErr result (λ e. UnlessMemory e.kind (RefusesElement state.old.spaces.settings
        (constants_of types.now.groups state.old.spaces) state.old.spaces.imported_globals offset element.entry e)) }
    ensures stays { state.new ≡ state.old }
{
    let mut allocs = state.take_const_expr_allocs(alloc);
    let answer = judge_element(alloc, element, state, types, &mut allocs, names, offset);
    state.keep_const_expr_allocs(allocs);
    answer
}

/// Checks an element segment, and adds it; code may then refer to the functions that it names. Where the state stands for a tree it is Ok
/// exactly if the segment may be added to the tree, out of memory aside, and the state then stands for each tree with the segment
/// more (WebAssembly 3.0, validation, modules, element segments).
///
/// # Errors
///
/// The type of its elements is not valid; how it is used is not; there are more elements than the limit, or one of them is not valid; or
/// there are as many segments as the limit: the first of these, a constant inside its bytes, the index of a function where it stands,
/// the others at `offset`. Or there is no memory. The state stays then.
pub fn add_element<'a>(
    alloc: Global,
    state: &mut ModuleState,
    types: &TypeList,
    element: ElementOf<'a, ConstExpr<'a>>,
    offset: u64,
) -> Result<()>
    requires over { IsReadOver types.now.groups state.old.spaces }
    requires within { IsWithinCeilings state.old.spaces.settings.limits }
    ensures answer { TellsItem section.element_segments types.now.groups state.old (element_read element.entry) result }
    ensures added { OnOk result (AddsItem section.element_segments types.now.groups state.old
        (element_read element.entry) types.now.groups state.new) }
    ensures read { IsReadOver types.now.groups state.new.spaces }
    ensures settings { state.new.spaces.settings ≡ state.old.spaces.settings }
    ensures types { state.new.spaces.types ≡ state.old.spaces.types }
    ensures code { state.new.next_code ≡ state.old.next_code }
    ensures stays { OnErr result (state.new ≡ state.old) }
    ensures refused { IfErr result (λ e. UnlessMemory e.kind (RefusesNewElement types.now.groups state.old offset
        element.entry e)) }
{
    let mut names = Vec::new(alloc);
    let ty = match check_new_element(alloc, element, state, types, &mut names, offset) {
        Ok(ty) => ty,
        Err(error) => return Err(error),
    };
    match state.push_element_segment(ty, offset) {
        Ok(()) => (),
        Err(error) => return Err(error),
    }
    refer_to_each(state, names.as_slice());
    Ok(())
}
