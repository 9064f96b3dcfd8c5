//! The arguments of accesses to memory.

ghost use Rattle.std.specs.Prelude.{◌≡◌};
ghost use Rattle.wasm_types.specs.decoding.Decoder.{Reaches};
ghost use Rattle.wasm_types.specs.decoding.declared.error.ErrorKind.TheVariants.{Other};
ghost use Rattle.wasm_types.specs.reader.Reading.{Gives, NeedsNoMemory};
ghost use Rattle.wasm_operators_encoding.specs.immediates.MemoryArguments.{is_atomic, flags, named_memory, access_ordering, named_ordering};
ghost use Rattle.wasm_operators_encoding.specs.immediates.MemoryArguments.{offset as offset_decoder, after_flags, memory_argument};
ghost use Rattle.wasm_operators_encoding.specs.immediates.Accesses.{access_of};

use crate::immediates::bytes::read_ordering_by;
use wasm_operators_immediates::{
    BinaryReader, Error, MemArg, MemArgOrdering, MemArgTarget, Result, WasmFeatures, Words,
};

/// What ordering a memory argument may name.
#[derive(Clone, Copy, Debug, PartialEq, Eq)]
pub enum Access {
    /// None.
    Plain,
    /// That of an atomic load or store, or of what waits or notifies.
    Atomic,
    /// That of both halves of a read-modify-write.
    ReadModifyWrite,
}

// What the first number of a memory argument says.
#[derive(Clone, Copy)]
pub(crate) struct Flags {
    // The exponent of the alignment.
    align: u8,
    // Whether an ordering follows.
    has_ordering: bool,
    // Whether the index of a memory follows.
    has_memory: bool,
}

// Whether an access is atomic.
#[inline]
fn is_atomic_access(access: Access) -> bool
    ensures { result ≡ is_atomic (access_of access) }
{
    match access {
        Access::Plain => false,
        Access::Atomic => true,
        Access::ReadModifyWrite => true,
    }
}

// The error of flags that mean nothing, or what is not allowed.
#[cold]
fn flags_error(offset: u64) -> Error
    ensures kind { result.kind ≡ Other }
    ensures offset { result.offset ≡ offset }
{
    Error::new(Words::MalformedMemopAlignmentAlignmentTooLarge, offset)
}

// The flags, where an ordering and a memory may be named or not.
#[tactic(auto, using(wasm_operators_immediates::specs::Reaching::reaches_self, wasm_operators_immediates::specs::Reaching::reaches_then), unfolding(crate::specs::immediates::MemoryArguments::flags))]
fn read_flags<'a>(may_order: bool, may_name: bool, reader: &mut BinaryReader<'a>) -> Result<Flags>
    ensures answer { Gives (λ f. f) result reader.new (flags may_order may_name reader.old) }
    ensures no_memory { NeedsNoMemory result }
    ensures forward { Reaches reader.old reader.new }
{
    let offset = reader.original_position();
    let number = reader.read_var_u32()?;
    if number >= 128 {
        return Err(flags_error(offset));
    }
    if number / 16 % 2 != 0 {
        return Err(flags_error(offset));
    }
    let has_ordering = number / 32 % 2 == 1;
    if has_ordering && !may_order {
        return Err(flags_error(offset));
    }
    let has_memory = number / 64 == 1;
    if has_memory && !may_name {
        return Err(flags_error(offset));
    }
    Ok(Flags {
        align: (number % 16) as u8,
        has_ordering,
        has_memory,
    })
}

// The memory, which is 0 where none is named.
#[tactic(auto, using(wasm_operators_immediates::specs::Reaching::reaches_self, wasm_operators_immediates::specs::Reaching::reaches_then), unfolding(crate::specs::immediates::MemoryArguments::named_memory))]
fn read_memory<'a>(named: bool, reader: &mut BinaryReader<'a>) -> Result<u32>
    ensures answer { Gives (λ n. n) result reader.new (named_memory named reader.old) }
    ensures no_memory { NeedsNoMemory result }
    ensures forward { Reaches reader.old reader.new }
{
    if named {
        return reader.read_var_u32();
    }
    Ok(0)
}

// The ordering of an access.
#[tactic(auto, using(wasm_operators_immediates::specs::Reaching::reaches_self, wasm_operators_immediates::specs::Reaching::reaches_then), unfolding(crate::specs::immediates::MemoryArguments::access_ordering))]
fn read_access_ordering<'a>(access: Access, reader: &mut BinaryReader<'a>) -> Result<MemArgOrdering>
    ensures answer { Gives (λ o. o) result reader.new (access_ordering (access_of access) reader.old) }
    ensures no_memory { NeedsNoMemory result }
    ensures forward { Reaches reader.old reader.new }
{
    match access {
        Access::Plain => Err(flags_error(reader.original_position())),
        Access::Atomic => {
            let ordering = read_ordering_by(0x01, reader)?;
            Ok(MemArgOrdering::Op(ordering))
        }
        Access::ReadModifyWrite => {
            let ordering = read_ordering_by(0x11, reader)?;
            Ok(MemArgOrdering::Rmw(ordering))
        }
    }
}

// The ordering, if one is named.
#[tactic(auto, using(wasm_operators_immediates::specs::Reaching::reaches_self, wasm_operators_immediates::specs::Reaching::reaches_then), unfolding(crate::specs::immediates::MemoryArguments::named_ordering))]
fn read_named_ordering<'a>(
    access: Access,
    named: bool,
    reader: &mut BinaryReader<'a>,
) -> Result<Option<MemArgOrdering>>
    ensures answer { Gives (λ o. o) result reader.new (named_ordering (access_of access) named reader.old) }
    ensures no_memory { NeedsNoMemory result }
    ensures forward { Reaches reader.old reader.new }
{
    if !named {
        return Ok(None);
    }
    let ordering = read_access_ordering(access, reader)?;
    Ok(Some(ordering))
}

// The offset, of 64 bits where wide memories are allowed.
#[tactic(auto, using(wasm_operators_immediates::specs::Reaching::reaches_self, wasm_operators_immediates::specs::Reaching::reaches_then), unfolding(crate::specs::immediates::MemoryArguments::offset))]
fn read_offset<'a>(wide: bool, reader: &mut BinaryReader<'a>) -> Result<u64>
    ensures answer { Gives (λ n. n) result reader.new (offset_decoder wide reader.old) }
    ensures no_memory { NeedsNoMemory result }
    ensures forward { Reaches reader.old reader.new }
{
    if wide {
        return reader.read_var_u64();
    }
    let offset = reader.read_var_u32()?;
    Ok(offset as u64)
}

// What follows the flags.
#[tactic(auto, using(wasm_operators_immediates::specs::Reaching::reaches_self, wasm_operators_immediates::specs::Reaching::reaches_then), unfolding(crate::specs::immediates::MemoryArguments::after_flags))]
fn read_after_flags<'a>(
    features: WasmFeatures,
    access: Access,
    max_align: u8,
    flags: Flags,
    reader: &mut BinaryReader<'a>,
) -> Result<MemArg>
    ensures answer { Gives (λ m. m) result reader.new (after_flags features.0
        (access_of access) max_align flags reader.old) }
    ensures no_memory { NeedsNoMemory result }
    ensures forward { Reaches reader.old reader.new }
{
    let memory = read_memory(flags.has_memory, reader)?;
    let ordering = read_named_ordering(access, flags.has_ordering, reader)?;
    let offset = read_offset(features.memory64(), reader)?;
    Ok(MemArg {
        align: flags.align,
        max_align,
        offset,
        memory,
        ordering,
        target: MemArgTarget::Memory,
    })
}

/// The argument of an access of this kind, the natural alignment of which is `2^max_align` bytes (WebAssembly 3.0, binary
/// format, memory instructions). Flags come first: the exponent of the alignment, below 16; bit 5 where an ordering
/// follows, on atomic accesses where shared everything is allowed; bit 6 where the index of a memory follows, where
/// several are allowed. Other flags are refused at their offset. Then come the index, the ordering, and an offset of 64
/// bits where memories of 64 bits are allowed, else of 32.
#[tactic(auto, using(wasm_operators_immediates::specs::Reaching::reaches_self, wasm_operators_immediates::specs::Reaching::reaches_then), unfolding(crate::specs::immediates::MemoryArguments::memory_argument))]
pub fn read_memarg<'a>(
    reader: &mut BinaryReader<'a>,
    access: Access,
    max_align: u8,
) -> Result<MemArg>
    ensures answer { Gives (λ m. m) result reader.new (memory_argument reader.old.settings.features
        (access_of access) max_align reader.old) }
    ensures no_memory { NeedsNoMemory result }
    ensures forward { Reaches reader.old reader.new }
{
    let features = reader.features();
    let may_order = features.shared_everything_threads() && is_atomic_access(access);
    let flags = read_flags(may_order, features.multi_memory(), reader)?;
    read_after_flags(features, access, max_align, flags, reader)
}
