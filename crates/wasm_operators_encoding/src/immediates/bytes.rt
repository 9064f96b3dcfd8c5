//! Immediates of one byte or of a few bytes.

ghost use Rattle.std.specs.Prelude.{◌≡◌};
ghost use Rattle.wasm_types.specs.decoding.Decoder.{Reaches};
ghost use Rattle.wasm_types.specs.decoding.declared.error.ErrorKind.TheVariants.{Other};
ghost use Rattle.wasm_types.specs.settings.Features.{has, MultiMemory, CallIndirectOverlong};
ghost use Rattle.wasm_types.specs.reader.Reading.{Gives, NeedsNoMemory};
ghost use Rattle.wasm_operators_encoding.specs.immediates.Bytes.{zero_byte, index_or_zero, ordering_by, lane, shuffle, vector, select_types};

use std::alloc::Global;
use wasm_operators_immediates::{
    BinaryReader, Error, Ordering, Result, Text, V128, ValType, Words, read_list,
};

// A byte that is zero. Another is refused with this message.
#[tactic(auto, using(wasm_operators_immediates::specs::Reaching::reaches_self, wasm_operators_immediates::specs::Reaching::reaches_then), unfolding(crate::specs::immediates::Bytes::zero_byte))]
fn read_zero<'a>(message: Words, reader: &mut BinaryReader<'a>) -> Result<()>
    ensures answer { Gives (λ u. 0) result reader.new (zero_byte reader.old) }
    ensures no_memory { NeedsNoMemory result }
    ensures forward { Reaches reader.old reader.new }
{
    let offset = reader.original_position();
    let zero = reader.read_u8()?;
    if zero == 0 {
        return Ok(());
    }
    Err(Error::new(message, offset))
}

/// The byte of `atomic.fence`, which is zero; another is refused at its offset (the proposal on threads).
pub fn read_zero_byte<'a>(reader: &mut BinaryReader<'a>) -> Result<()>
    ensures answer { Gives (λ u. 0) result reader.new (zero_byte reader.old) }
    ensures no_memory { NeedsNoMemory result }
    ensures forward { Reaches reader.old reader.new }
{
    read_zero(Words::NonzeroByteAfterAtomicFence, reader)
}

// An index where it is allowed, and else a byte that is zero.
#[tactic(auto, using(wasm_operators_immediates::specs::Reaching::reaches_self, wasm_operators_immediates::specs::Reaching::reaches_then), unfolding(crate::specs::immediates::Bytes::index_or_zero))]
fn read_index_or_zero<'a>(allowed: bool, reader: &mut BinaryReader<'a>) -> Result<u32>
    ensures answer { Gives (λ n. n) result reader.new (index_or_zero allowed reader.old) }
    ensures no_memory { NeedsNoMemory result }
    ensures forward { Reaches reader.old reader.new }
{
    if allowed {
        return reader.read_var_u32();
    }
    read_zero(Words::ZeroByteExpected, reader)?;
    Ok(0)
}

/// The memory of `memory.size` and the like: an index where several memories are allowed, else a byte that is zero
/// (WebAssembly 3.0, binary format, memory instructions). Another byte is refused at its offset.
pub fn read_memory_or_zero<'a>(reader: &mut BinaryReader<'a>) -> Result<u32>
    ensures answer { Gives (λ n. n) result reader.new (index_or_zero
        (has MultiMemory reader.old.settings.features) reader.old) }
    ensures no_memory { NeedsNoMemory result }
    ensures forward { Reaches reader.old reader.new }
{
    let allowed = reader.features().multi_memory();
    read_index_or_zero(allowed, reader)
}

/// The table of `call_indirect`: an index where that is allowed, else a byte that is zero (WebAssembly 3.0, binary
/// format, control instructions). Another byte is refused at its offset.
pub fn read_table_or_zero<'a>(reader: &mut BinaryReader<'a>) -> Result<u32>
    ensures answer { Gives (λ n. n) result reader.new (index_or_zero
        (has CallIndirectOverlong reader.old.settings.features) reader.old) }
    ensures no_memory { NeedsNoMemory result }
    ensures forward { Reaches reader.old reader.new }
{
    let allowed = reader.features().call_indirect_overlong();
    read_index_or_zero(allowed, reader)
}

// The error of a byte that stands for no ordering.
#[cold]
fn ordering_error(byte: u8, offset: u64) -> Error
    ensures kind { result.kind ≡ Other }
    ensures offset { result.offset ≡ offset }
{
    Error::with(
        Text::Number(
            Words::InvalidAtomicConsistencyOrdering,
            byte as u32,
            Words::Nothing,
        ),
        offset,
    )
}

// An ordering, where this byte stands for acquire and release, and zero for sequential consistency.
#[tactic(auto, using(wasm_operators_immediates::specs::Reaching::reaches_self, wasm_operators_immediates::specs::Reaching::reaches_then), unfolding(crate::specs::immediates::Bytes::ordering_by))]
pub(crate) fn read_ordering_by<'a>(
    acquire_release: u8,
    reader: &mut BinaryReader<'a>,
) -> Result<Ordering>
    ensures answer { Gives (λ o. o) result reader.new (ordering_by acquire_release reader.old) }
    ensures no_memory { NeedsNoMemory result }
    ensures forward { Reaches reader.old reader.new }
{
    let offset = reader.original_position();
    let byte = reader.read_u8()?;
    if byte == 0 {
        return Ok(Ordering::SeqCst);
    }
    if byte == acquire_release {
        return Ok(Ordering::AcqRel);
    }
    Err(ordering_error(byte, offset))
}

/// The ordering of an access to what is shared (the proposal on shared everything). A byte that stands for none is refused
/// at its offset.
pub fn read_ordering<'a>(reader: &mut BinaryReader<'a>) -> Result<Ordering>
    ensures answer { Gives (λ o. o) result reader.new (ordering_by 0x01 reader.old) }
    ensures no_memory { NeedsNoMemory result }
    ensures forward { Reaches reader.old reader.new }
{
    read_ordering_by(0x01, reader)
}

/// The index of a lane of a vector with so many (WebAssembly 3.0, binary format, vector instructions). A larger one is
/// refused at its offset.
#[tactic(auto, using(wasm_operators_immediates::specs::Reaching::reaches_self, wasm_operators_immediates::specs::Reaching::reaches_then), unfolding(crate::specs::immediates::Bytes::lane))]
pub fn read_lane<'a>(lanes: u8, reader: &mut BinaryReader<'a>) -> Result<u8>
    ensures answer { Gives (λ l. l) result reader.new (lane lanes reader.old) }
    ensures no_memory { NeedsNoMemory result }
    ensures forward { Reaches reader.old reader.new }
{
    let offset = reader.original_position();
    let index = reader.read_u8()?;
    if index < lanes {
        return Ok(index);
    }
    Err(Error::new(Words::InvalidLaneIndex, offset))
}

/// The 16 lanes of `i8x16.shuffle`, each below 32 (WebAssembly 3.0, binary format, vector instructions). A larger one is
/// refused at its offset.
#[tactic(auto, using(wasm_operators_immediates::specs::Reaching::reaches_self, wasm_operators_immediates::specs::Reaching::reaches_then), unfolding(crate::specs::immediates::Bytes::shuffle))]
pub fn read_shuffle<'a>(reader: &mut BinaryReader<'a>) -> Result<[u8; 16]>
    ensures answer { Gives (λ l. l) result reader.new (shuffle reader.old) }
    ensures no_memory { NeedsNoMemory result }
    ensures forward { Reaches reader.old reader.new }
{
    let mut lanes = [0; 16];
    for place in 0..16 {
        let lane = read_lane(32, reader)?;
        lanes[place] = lane;
    }
    Ok(lanes)
}

/// A constant vector: 16 bytes, the lowest first (WebAssembly 3.0, binary format, vector instructions).
#[tactic(auto, using(wasm_operators_immediates::specs::Reaching::reaches_self, wasm_operators_immediates::specs::Reaching::reaches_then), unfolding(crate::specs::immediates::Bytes::vector))]
pub fn read_vector<'a>(reader: &mut BinaryReader<'a>) -> Result<V128>
    ensures answer { Gives (λ v. v) result reader.new (vector reader.old) }
    ensures no_memory { NeedsNoMemory result }
    ensures forward { Reaches reader.old reader.new }
{
    let text = reader.read_bytes(16)?;
    let mut bytes = [0; 16];
    bytes.copy_from_slice(text);
    Ok(V128(bytes))
}

/// The types that a `select` names, within their limit (WebAssembly 3.0, binary format, parametric instructions).
/// A larger count is refused at its offset.
#[tactic(auto, using(wasm_operators_immediates::specs::Reaching::reaches_self, wasm_operators_immediates::specs::Reaching::reaches_then), unfolding(crate::specs::immediates::Bytes::select_types))]
pub fn read_select_types<'a>(alloc: Global, reader: &mut BinaryReader<'a>) -> Result<Vec<ValType>>
    ensures answer { Gives (λ v. v.items) result reader.new (select_types reader.old.settings reader.old) }
    ensures forward { Reaches reader.old reader.new }
{
    let limit = reader.limits().select_types as usize;
    read_list(alloc, limit, Words::SelectTypes, reader)
}
