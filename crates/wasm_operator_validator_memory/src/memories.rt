//! Memories and data segments.

ghost use Rattle.std.specs.Prelude.{◌≡◌, ◌&&◌, true, false, slice_get, IfErr, MatchResult};
ghost use Rattle.wasm_types.specs.externs.Addresses.{address_type};
ghost use Rattle.wasm_operators_enums.specs.Op.{Op};
ghost use Rattle.wasm_operator_validator_rules.specs.InstructionTypes.{names_data};
ghost use Rattle.wasm_operator_validator_state.specs.State.{Checks};
ghost use Rattle.wasm_operator_validator_state.specs.Refusals.{refused};
ghost use Rattle.wasm_operator_validator_stacks.specs.determined.Operators.{IsOfContent};

use wasm_operator_validator_stacks::determined::{
    BulkOperator, MemoryOperator, OperatorValidator, Proposal, Reason, Refusal, Space,
    WasmModuleResources,
};
use wasm_types::{MemoryType, ValType};

/// `memory.size` (WebAssembly 3.0, validation, memory instructions).
pub fn check_memory_size<R: WasmModuleResources>(
    validator: &mut OperatorValidator,
    resources: &R,
    mem: u32,
) -> Result<(), Refusal>
    ensures { Checks (R.meaning resources.now) validator.old (Op.Memory (MemoryOperator.MemorySize mem))
        (refused result) validator.new }
{
    match validator.begin(Proposal::Mvp, false) {
        Ok(()) => (),
        Err(refusal) => return Err(refusal),
    }
    let memory = match find_memory(resources, mem) {
        Ok(memory) => memory,
        Err(refusal) => return Err(refusal),
    };
    validator.push_operands(resources, &[memory.index_type()])
}

/// `memory.grow` (WebAssembly 3.0, validation, memory instructions).
pub fn check_memory_grow<R: WasmModuleResources>(
    validator: &mut OperatorValidator,
    resources: &R,
    mem: u32,
) -> Result<(), Refusal>
    ensures { Checks (R.meaning resources.now) validator.old (Op.Memory (MemoryOperator.MemoryGrow mem))
        (refused result) validator.new }
{
    match validator.begin(Proposal::Mvp, false) {
        Ok(()) => (),
        Err(refusal) => return Err(refusal),
    }
    let memory = match find_memory(resources, mem) {
        Ok(memory) => memory,
        Err(refusal) => return Err(refusal),
    };
    validator.exchange(resources, &[memory.index_type()], &[memory.index_type()])
}

/// `memory.fill` (WebAssembly 3.0, validation, memory instructions).
pub fn check_memory_fill<R: WasmModuleResources>(
    validator: &mut OperatorValidator,
    resources: &R,
    mem: u32,
) -> Result<(), Refusal>
    ensures { Checks (R.meaning resources.now) validator.old (Op.Bulk (BulkOperator.MemoryFill mem))
        (refused result) validator.new }
{
    match validator.begin(Proposal::BulkMemoryOpt, false) {
        Ok(()) => (),
        Err(refusal) => return Err(refusal),
    }
    let memory = match find_memory(resources, mem) {
        Ok(memory) => memory,
        Err(refusal) => return Err(refusal),
    };
    validator.pop_operands(
        resources,
        &[memory.index_type(), ValType::I32, memory.index_type()],
    )
}

/// `memory.copy`, of a length that fits both memories (WebAssembly 3.0, validation, memory instructions).
pub fn check_memory_copy<R: WasmModuleResources>(
    validator: &mut OperatorValidator,
    resources: &R,
    dst_mem: u32,
    src_mem: u32,
) -> Result<(), Refusal>
    ensures { Checks (R.meaning resources.now) validator.old (Op.Bulk (BulkOperator.MemoryCopy dst_mem src_mem))
        (refused result) validator.new }
{
    match validator.begin(Proposal::BulkMemoryOpt, false) {
        Ok(()) => (),
        Err(refusal) => return Err(refusal),
    }
    let to = match find_memory(resources, dst_mem) {
        Ok(to) => to,
        Err(refusal) => return Err(refusal),
    };
    let from = match find_memory(resources, src_mem) {
        Ok(from) => from,
        Err(refusal) => return Err(refusal),
    };
    validator.pop_operands(
        resources,
        &[
            to.index_type(),
            from.index_type(),
            length_type(to.memory64, from.memory64),
        ],
    )
}

/// `memory.init`, from a data segment that the data count section names (WebAssembly 3.0, validation, memory instructions).
pub fn check_memory_init<R: WasmModuleResources>(
    validator: &mut OperatorValidator,
    resources: &R,
    data_index: u32,
    mem: u32,
) -> Result<(), Refusal>
    ensures { Checks (R.meaning resources.now) validator.old (Op.Bulk (BulkOperator.MemoryInit data_index mem))
        (refused result) validator.new }
{
    match validator.begin(Proposal::BulkMemory, false) {
        Ok(()) => (),
        Err(refusal) => return Err(refusal),
    }
    let memory = match find_memory(resources, mem) {
        Ok(memory) => memory,
        Err(refusal) => return Err(refusal),
    };
    match find_data(resources, data_index) {
        Ok(()) => (),
        Err(refusal) => return Err(refusal),
    }
    validator.pop_operands(
        resources,
        &[memory.index_type(), ValType::I32, ValType::I32],
    )
}

/// `data.drop`, of a segment that the data count section names (WebAssembly 3.0, validation, memory instructions).
pub fn check_data_drop<R: WasmModuleResources>(
    validator: &mut OperatorValidator,
    resources: &R,
    data_index: u32,
) -> Result<(), Refusal>
    ensures checks { Checks (R.meaning resources.now) validator.old (Op.Bulk (BulkOperator.DataDrop data_index))
        (refused result) validator.new }
    ensures memory { IfErr result IsOfContent }
{
    match validator.begin(Proposal::BulkMemory, false) {
        Ok(()) => (),
        Err(refusal) => return Err(refusal),
    }
    find_data(resources, data_index)
}

/// `memory.discard` (the proposal on memory control).
pub fn check_memory_discard<R: WasmModuleResources>(
    validator: &mut OperatorValidator,
    resources: &R,
    mem: u32,
) -> Result<(), Refusal>
    ensures { Checks (R.meaning resources.now) validator.old (Op.Bulk (BulkOperator.MemoryDiscard mem))
        (refused result) validator.new }
{
    match validator.begin(Proposal::MemoryControl, false) {
        Ok(()) => (),
        Err(refusal) => return Err(refusal),
    }
    let memory = match find_memory(resources, mem) {
        Ok(memory) => memory,
        Err(refusal) => return Err(refusal),
    };
    validator.pop_operands(resources, &[memory.index_type(), memory.index_type()])
}

// The memory at an index.
fn find_memory<R: WasmModuleResources>(resources: &R, at: u32) -> Result<MemoryType, Refusal>
    ensures { MatchResult result (λ t. slice_get (R.meaning resources.now).«module».memories at ≡ Some t)
        (λ r. slice_get (R.meaning resources.now).«module».memories at ≡ None) }
{
    match resources.memory_at(at) {
        Some(memory) => Ok(memory),
        None => Err(Refusal::Unknown {
            space: Space::Memory,
            index: at,
        }),
    }
}

// Whether the data count section, where it stands, names a data segment.
fn find_data<R: WasmModuleResources>(resources: &R, at: u32) -> Result<(), Refusal>
    ensures found { MatchResult result (λ _. names_data (R.meaning resources.now).«module».data_count at ≡ true)
        (λ r. names_data (R.meaning resources.now).«module».data_count at ≡ false) }
    ensures content { IfErr result IsOfContent }
{
    let count = match resources.data_count() {
        Some(count) => count,
        None => {
            return Err(Refusal::Because(Reason::NoDataCount));
        }
    };
    if at < count {
        return Ok(());
    }
    Err(Refusal::Unknown {
        space: Space::Data,
        index: at,
    })
}

// The type of a length that fits both memories.
const fn length_type(to64: bool, from64: bool) -> ValType
    ensures { result ≡ address_type (to64 && from64) }
{
    if to64 && from64 {
        ValType::I64
    } else {
        ValType::I32
    }
}
