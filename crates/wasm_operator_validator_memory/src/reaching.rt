//! Which accesses a memory allows.

ghost use Rattle.std.specs.Prelude.{◌≡◌, ◌||◌, ◌^◌, nat_lt, slice_get, MatchResult};
ghost use Rattle.wasm_operator_validator_rules.specs.Accesses.{is_aligned, is_in_memory};
ghost use Rattle.wasm_operator_validator_state.specs.resources.Meaning.{type_in};
ghost use Rattle.wasm_operator_validator_memory.specs.Reaching.{reached};

use wasm_operator_validator_stacks::determined::{
    MemArg, MemArgTarget, Reason, Refusal, Space, WasmModuleResources,
};
use wasm_types::ValType;

/// The type of addresses of the memory that an argument reaches into, where the memory allows such an access, atomic or not
/// (WebAssembly 3.0, validation, memory instructions).
pub fn reach<R: WasmModuleResources>(
    resources: &R,
    is_atomic: bool,
    memarg: &MemArg,
) -> Result<ValType, Refusal>
    ensures { MatchResult result (λ t. reached is_atomic memarg.now
        (slice_get (R.meaning resources.now).«module».memories memarg.now.memory) ≡ Some
        (type_in (R.meaning resources.now) t)) (λ r. reached is_atomic memarg.now
        (slice_get (R.meaning resources.now).«module».memories memarg.now.memory) ≡ None) }
{
    let memory = match resources.memory_at(memarg.memory) {
        Some(memory) => memory,
        None => {
            return Err(Refusal::Unknown {
                space: Space::Memory,
                index: memarg.memory,
            });
        }
    };
    if !has_alignment(is_atomic, memarg) {
        return Err(Refusal::Because(alignment_reason(is_atomic)));
    }
    if !has_offset(memory.memory64, memarg.offset) {
        return Err(Refusal::Because(Reason::OffsetOutOfRange));
    }
    if !reaches_memory(memarg.target) {
        return Err(Refusal::Because(Reason::ArrayTarget));
    }
    Ok(memory.index_type())
}

/// Whether the alignment is at most the natural one; of an atomic access it is that.
#[inline]
pub fn has_alignment(is_atomic: bool, memarg: &MemArg) -> bool
    ensures { result ≡ is_aligned is_atomic memarg.now }
{
    if is_atomic {
        return memarg.align == memarg.max_align;
    }
    memarg.align <= memarg.max_align
}

// Whether an offset is an address.
#[inline]
fn has_offset(memory64: bool, offset: u64) -> bool
    ensures { result ≡ (memory64 || nat_lt offset (2 ^ 32)) }
{
    if memory64 {
        return true;
    }
    offset < 0x1_0000_0000
}

// Whether an access is one to a memory.
#[inline]
fn reaches_memory(target: MemArgTarget) -> bool
    ensures { result ≡ is_in_memory target }
{
    match target {
        MemArgTarget::Memory => true,
        MemArgTarget::Array => false,
    }
}

// Why an alignment is refused.
fn alignment_reason(is_atomic: bool) -> Reason {
    if is_atomic {
        Reason::AtomicAlignment
    } else {
        Reason::Alignment
    }
}
