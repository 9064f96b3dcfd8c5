//! Data segments.

ghost use Rattle.std.specs.Prelude.{◌≡◌, IfErr};
ghost use Rattle.wasm_types.specs.decoding.Denials.{Tells, UnlessMemory};
ghost use Rattle.wasm_types.specs.decoding.declared.error.ErrorKind.TheVariants.{Other};
ghost use Rattle.wasm_types.specs.settings.Features.{BulkMemory};
ghost use Rattle.wasm_types.specs.settings.Limits.{IsWithinCeilings};
ghost use Rattle.wasm_types.specs.trees.Gates.{Has};
ghost use Rattle.wasm_module_validator_initialisers.specs.segments.Trees.{data_read};
ghost use Rattle.wasm_module_validator_initialisers.specs.segments.Judged.{IsData};
ghost use Rattle.wasm_module_validator_initialisers.specs.segments.Refusals.{IsMissing, RefusesData};

use crate::segments::constants::check_constant;
use std::alloc::Global;
use wasm_module_validator_checks::externs::{Settings, require};
use wasm_operator_validator_constants::{
    ConstExpr, OperatorValidatorAllocations, WasmModuleResources,
};
use wasm_sections_items::segments::{DataKindOf, DataOf};
use wasm_types::{Error, ModuleWords, Result, Text, WasmFeatures, Words};

// The refusal of an index past the end of the memories.
#[cold]
fn unknown_memory(index: u32, offset: u64) -> Error
    ensures kind { result.kind ≡ Other }
    ensures at { result.offset ≡ offset }
{
    Error::with(
        Text::Number(
            Words::UnknownMemory,
            index,
            Words::Module(ModuleWords::MemoryIndexOutOfBounds),
        ),
        offset,
    )
}

// Asks for the feature of passive segments.
#[tactic(auto, unfolding(crate::specs::segments::Refusals::has))]
fn check_bulk(settings: &Settings, offset: u64) -> Result<()>
    ensures answer { Tells result (Has settings.now.features BulkMemory) }
    ensures refused { IfErr result (IsMissing settings.now BulkMemory offset) }
{
    require(
        settings.features().bulk_memory(),
        WasmFeatures::BULK_MEMORY,
        Words::Module(ModuleWords::PassiveDataSegmentsRequireTheBulkMemoryProposal),
        offset,
    )
}

/// Checks a data segment: Ok exactly if it is valid in the module so far, of whose globals the first so many are imported, out of
/// memory aside (WebAssembly 3.0, validation, modules, data segments). The memory of `allocs` is used.
///
/// # Errors
///
/// It is passive, and no feature allows that; it is active, and the module has no such memory, or the bytes of its offset spell no
/// constant of the type of that memory's addresses: the first of these, the constant inside its bytes, the others at `offset`; or
/// there is no memory.
pub fn check_data<R: WasmModuleResources>(
    alloc: Global,
    segment: &DataOf<'_, ConstExpr<'_>>,
    resources: &R,
    settings: &Settings,
    imported_globals: u32,
    allocs: &mut OperatorValidatorAllocations,
    offset: u64,
) -> Result<()>
    requires within { IsWithinCeilings settings.now.limits }
    ensures answer { Tells result (IsData settings.now (R.meaning resources.now).«module» imported_globals
        (data_read segment.now)) }
    ensures refused { IfErr result (λ e. UnlessMemory e.kind (RefusesData settings.now
        (R.meaning resources.now) imported_globals offset segment.now.kind e)) }
{
    match &segment.kind {
        DataKindOf::Passive => check_bulk(settings, offset),
        DataKindOf::Active {
            memory_index,
            offset_expr,
        } => {
            let Some(memory) = resources.memory_at(*memory_index) else {
                return Err(unknown_memory(*memory_index, offset));
            };
            check_constant(
                alloc,
                offset_expr,
                memory.index_type(),
                resources,
                settings,
                imported_globals,
                allocs,
            )
        }
    }
}
