//! Where sections begin: how many items they may bring (WebAssembly 3.0, appendix, implementation limitations).
//!
//! Each call is Ok exactly if a section of so many items fits behind the tree that was read, out of memory aside, where nothing was read
//! of the section or behind it. A refusal is of kind `Other`, at `offset`.

ghost use Rattle.std.specs.Prelude.{◌≡◌, IfErr, List};
ghost use Rattle.wasm_types.specs.decoding.declared.error.ErrorKind.TheVariants.{Other};
ghost use Rattle.wasm_module_validator_type_storage.specs.trees.Groups.{Group};
ghost use Rattle.wasm_module_validator_section_order.specs.rules_in_order.Sections as section;
ghost use Rattle.wasm_module_validator_state.specs.invariant.Standing.{TellsFit};

use wasm_module_validator_state::invariant::ModuleState;
use wasm_types::Result;

/// So many groups of types may come.
pub fn begin_types(state: &ModuleState, count: u32, offset: u64) -> Result<()>
    ensures answer { (groups : List Group) → TellsFit section.types groups state.now count result }
    ensures refused { IfErr result (λ e. (e.kind ≡ Other) × (e.offset ≡ offset)) }
{
    state.check_type_count(count, offset)
}

/// So many imports may come.
pub fn begin_imports(state: &ModuleState, count: u32, offset: u64) -> Result<()>
    ensures answer { (groups : List Group) → TellsFit section.imports groups state.now count result }
    ensures refused { IfErr result (λ e. (e.kind ≡ Other) × (e.offset ≡ offset)) }
{
    state.check_import_count(0, count, offset)
}

/// So many functions may come.
pub fn begin_functions(state: &ModuleState, count: u32, offset: u64) -> Result<()>
    ensures answer { (groups : List Group) → TellsFit section.functions groups state.now count result }
    ensures refused { IfErr result (λ e. (e.kind ≡ Other) × (e.offset ≡ offset)) }
{
    state.check_function_count(count, offset)
}

/// So many tables may come.
pub fn begin_tables(state: &ModuleState, count: u32, offset: u64) -> Result<()>
    ensures answer { (groups : List Group) → TellsFit section.tables groups state.now count result }
    ensures refused { IfErr result (λ e. (e.kind ≡ Other) × (e.offset ≡ offset)) }
{
    state.check_table_count(count, offset)
}

/// So many memories may come.
pub fn begin_memories(state: &ModuleState, count: u32, offset: u64) -> Result<()>
    ensures answer { (groups : List Group) → TellsFit section.memories groups state.now count result }
    ensures refused { IfErr result (λ e. (e.kind ≡ Other) × (e.offset ≡ offset)) }
{
    state.check_memory_count(count, offset)
}

/// So many tags may come.
pub fn begin_tags(state: &ModuleState, count: u32, offset: u64) -> Result<()>
    ensures answer { (groups : List Group) → TellsFit section.tags groups state.now count result }
    ensures refused { IfErr result (λ e. (e.kind ≡ Other) × (e.offset ≡ offset)) }
{
    state.check_tag_count(count, offset)
}

/// So many globals may come.
pub fn begin_globals(state: &ModuleState, count: u32, offset: u64) -> Result<()>
    ensures answer { (groups : List Group) → TellsFit section.globals groups state.now count result }
    ensures refused { IfErr result (λ e. (e.kind ≡ Other) × (e.offset ≡ offset)) }
{
    state.check_global_count(count, offset)
}

/// So many exports may come.
pub fn begin_exports(state: &ModuleState, count: u32, offset: u64) -> Result<()>
    ensures answer { (groups : List Group) → TellsFit section.exports groups state.now count result }
    ensures refused { IfErr result (λ e. (e.kind ≡ Other) × (e.offset ≡ offset)) }
{
    state.check_export_count(count, offset)
}

/// So many element segments may come.
pub fn begin_elements(state: &ModuleState, count: u32, offset: u64) -> Result<()>
    ensures answer { (groups : List Group) → TellsFit section.element_segments groups state.now count result }
    ensures refused { IfErr result (λ e. (e.kind ≡ Other) × (e.offset ≡ offset)) }
{
    state.check_element_segment_count(count, offset)
}

/// So many data segments may come.
pub fn begin_data(state: &ModuleState, count: u32, offset: u64) -> Result<()>
    ensures answer { (groups : List Group) → TellsFit section.data_segments groups state.now count result }
    ensures refused { IfErr result (λ e. (e.kind ≡ Other) × (e.offset ≡ offset)) }
{
    state.check_data_segment_count(count, offset)
}
