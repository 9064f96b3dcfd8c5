//! The immediates of branches on casts.

ghost use Rattle.std.specs.Prelude.{◌≡◌, ◌<◌};
ghost use Rattle.wasm_types.specs.decoding.Decoder.{Reaches};
ghost use Rattle.wasm_types.specs.reader.Reading.{Gives, NeedsNoMemory};
ghost use Rattle.wasm_types.specs.decoding.declared.error.ErrorKind.TheVariants.{Other};
ghost use Rattle.wasm_types.specs.values.Decode.{long_reference};
ghost use Rattle.wasm_operators_encoding.specs.immediates.Casts.{cast_branch};

use std::alloc::Global;
use wasm_operators_immediates::{BinaryReader, Error, FromReader, HeapType, RefType, Result, Text};

/// What `br_on_cast` and `br_on_cast_fail` carry (WebAssembly 3.0, structure, control instructions).
#[derive(Clone, Copy, Debug, PartialEq, Eq)]
pub struct CastBranch {
    /// The label, which counts frames outwards.
    pub relative_depth: u32,
    /// The type before the cast.
    pub from_ref_type: RefType,
    /// The type that is cast to.
    pub to_ref_type: RefType,
}

// A reference to a heap type that stands next.
fn read_reference<'a>(
    nullable: bool,
    alloc: Global,
    reader: &mut BinaryReader<'a>,
) -> Result<RefType>
    ensures answer { Gives (λ r. r) result reader.new (long_reference nullable reader.old) }
    ensures no_memory { NeedsNoMemory result }
    ensures forward { Reaches reader.old reader.new }
{
    let heap_type = HeapType::from_reader(alloc, reader)?;
    match RefType::new(nullable, heap_type) {
        Some(ty) => Ok(ty),
        None => unreachable!(),
    }
}

// The error of flags that mean nothing.
#[cold]
fn flags_error(flags: u8, offset: u64) -> Error
    ensures kind { result.kind ≡ Other }
    ensures offset { result.offset ≡ offset }
{
    Error::with(Text::CastFlags(flags), offset)
}

/// What a branch on a cast carries: a byte of flags, of which bit 0 says that the type before the cast takes null and bit
/// 1 that the other does, a label, and the heap types of the two (WebAssembly 3.0, binary format, control instructions).
/// Other flags are refused at their offset, and so is an index of 2^20 or more.
#[tactic(auto, using(wasm_operators_immediates::specs::Reaching::reaches_self, wasm_operators_immediates::specs::Reaching::reaches_then), unfolding(crate::specs::immediates::Casts::cast_branch, crate::specs::immediates::Casts::cast_after))]
pub fn read_cast_branch<'a>(alloc: Global, reader: &mut BinaryReader<'a>) -> Result<CastBranch>
    ensures answer { Gives (λ c. c) result reader.new (cast_branch reader.old) }
    ensures no_memory { NeedsNoMemory result }
    ensures forward { Reaches reader.old reader.new }
{
    let offset = reader.original_position();
    let flags = reader.read_u8()?;
    if flags >= 4 {
        return Err(flags_error(flags, offset));
    }
    let relative_depth = reader.read_var_u32()?;
    let from_ref_type = read_reference(flags % 2 == 1, alloc, reader)?;
    let to_ref_type = read_reference(flags / 2 == 1, alloc, reader)?;
    Ok(CastBranch {
        relative_depth,
        from_ref_type,
        to_ref_type,
    })
}
