//! Data segments.

ghost use Rattle.std.specs.Prelude.{◌≡◌, ◌≤◌, length, IfErr, IfSome, OnOk};
ghost use Rattle.wasm_module_validator_initialisers.specs.segments.Short.{IsShortData, in_first_memory};
ghost use Rattle.wasm_types.specs.decoding.Denials.{Tells, UnlessMemory};
ghost use Rattle.wasm_types.specs.settings.Limits.{IsWithinCeilings};
ghost use Rattle.wasm_module_validator_resources.specs.Named.{IsReadOver};
ghost use Rattle.wasm_module_validator_initialisers.specs.segments.Trees.{data_read};
ghost use Rattle.wasm_module_validator_initialisers.specs.segments.Judged.{IsData};
ghost use Rattle.wasm_module_validator_initialisers.specs.segments.Refusals.{RefusesData};
ghost use Rattle.wasm_module_validator_resources.specs.rules_in_order.Sections as section;
ghost use Rattle.wasm_module_validator_state.specs.invariant.Standing.{constants_of, AddsItem, IsAdded, TellsItem};
ghost use Rattle.wasm_module_validator_initialisers.specs.adding.Read.{data_tree};

use crate::elements::{
    ConstExpr, DataOf, OperatorValidatorAllocations, ReferringToAll, check_data, check_short_data,
};
use std::alloc::Global;
use wasm_module_validator_state::invariant::ModuleState;
use wasm_module_validator_type_list::TypeList;
use wasm_types::Result;

// Checks a data segment in the module that is being read.
fn judge_data(
    alloc: Global,
    segment: &DataOf<'_, ConstExpr<'_>>,
    state: &ModuleState,
    types: &TypeList,
    allocs: &mut OperatorValidatorAllocations,
    offset: u64,
) -> Result<()>
    requires over { IsReadOver types.now.groups state.now.spaces }
    requires within { IsWithinCeilings state.now.spaces.settings.limits }
    ensures answer { Tells result (IsData state.now.spaces.settings
        (constants_of types.now.groups state.now.spaces).«module» state.now.spaces.imported_globals
        (data_read segment.now)) }
    ensures refused { IfErr result (λ e. UnlessMemory e.kind (RefusesData state.now.spaces.settings
        (constants_of types.now.groups state.now.spaces) state.now.spaces.imported_globals offset segment.now.kind e)) }
{
    let module = state.resources(types);
    check_data(
        alloc,
        segment,
        &ReferringToAll::new(&module),
        &state.settings(),
        state.module().imported_globals(),
        allocs,
        offset,
    )
}

/// Checks a data segment with memory of the caller's, in a state that is lent: nothing of a segment is kept. All else is as of
/// `check_data_item`.
///
/// # Errors
///
/// As of `check_data_item`.
pub fn check_data_with(
    alloc: Global,
    segment: &DataOf<'_, ConstExpr<'_>>,
    state: &ModuleState,
    types: &TypeList,
    allocs: &mut OperatorValidatorAllocations,
    offset: u64,
) -> Result<()>
    requires over { IsReadOver types.now.groups state.now.spaces }
    requires within { IsWithinCeilings state.now.spaces.settings.limits }
    ensures answer { TellsItem section.data_segments types.now.groups state.now (data_tree segment.now) result }
    ensures added { OnOk result (AddsItem section.data_segments types.now.groups state.now
        (data_tree segment.now) types.now.groups state.now) }
    ensures refused { IfErr result (λ e. UnlessMemory e.kind (RefusesData state.now.spaces.settings
        (constants_of types.now.groups state.now.spaces) state.now.spaces.imported_globals offset segment.now.kind e)) }
{
    judge_data(alloc, segment, state, types, allocs, offset)
}

/// Checks a data segment, of which the state keeps nothing. Where the state stands for a tree it is Ok exactly if the segment may be
/// added to the tree, out of memory aside, and the state then stands for each tree with the segment more (WebAssembly 3.0, validation,
/// modules, data segments).
///
/// # Errors
///
/// It is passive, and no feature allows that; it is active, and the module has no such memory, or the bytes of its offset spell no
/// constant of the type of that memory's addresses: the first of these, the constant inside its bytes, the others at `offset`. Or there
/// is no memory. The state stays in any case.
pub fn check_data_item(
    alloc: Global,
    state: &mut ModuleState,
    types: &TypeList,
    segment: DataOf<'_, ConstExpr<'_>>,
    offset: u64,
) -> Result<()>
    requires over { IsReadOver types.now.groups state.old.spaces }
    requires within { IsWithinCeilings state.old.spaces.settings.limits }
    ensures answer { TellsItem section.data_segments types.now.groups state.old (data_tree segment.entry) result }
    ensures added { OnOk result (AddsItem section.data_segments types.now.groups state.old
        (data_tree segment.entry) types.now.groups state.new) }
    ensures stays { state.new ≡ state.old }
    ensures refused { IfErr result (λ e. UnlessMemory e.kind (RefusesData state.old.spaces.settings
        (constants_of types.now.groups state.old.spaces) state.old.spaces.imported_globals offset
        segment.entry.kind e)) }
{
    let mut allocs = state.take_const_expr_allocs(alloc);
    let answer = judge_data(alloc, &segment, state, types, &mut allocs, offset);
    state.keep_const_expr_allocs(allocs);
    answer
}

/// Where the data segment at an offset of these bytes ends, if the bytes alone tell that it may be added to the module so far. The state
/// keeps nothing of it.
pub fn check_short_data_item(
    state: &ModuleState,
    types: &TypeList,
    bytes: &[u8],
    at: usize,
) -> Option<usize>
    requires over { IsReadOver types.now.groups state.now.spaces }
    requires inside { at ≤ length bytes.now }
    ensures short { IfSome result (IsShortData bytes.now at) }
    ensures added { IfSome result (λ j. (s : IsShortData bytes.now at j)
        → IsAdded section.data_segments types.now.groups state.now (in_first_memory s.constant s.content) state.now) }
{
    let module = state.resources(types);
    check_short_data(&ReferringToAll::new(&module), bytes, at)
}
