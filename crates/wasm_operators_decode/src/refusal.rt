//! Why an opcode is refused.

ghost use Rattle.std.specs.Prelude.{◌≡◌};
ghost use Rattle.wasm_types.specs.decoding.declared.error.ErrorKind.TheVariants.{Other};

use wasm_types::{Error, Text, Words};

/// That a byte begins no operator.
#[cold]
pub fn illegal_opcode(code: u32, offset: u64) -> Error
    ensures kind { result.kind ≡ Other }
    ensures offset { result.offset ≡ offset }
{
    Error::with(
        Text::Hex(Words::IllegalOpcode0x, code, Words::Nothing),
        offset,
    )
}

/// That a code behind a prefix is no operator's.
#[cold]
pub fn unknown_subopcode(prefix: u8, code: u32, offset: u64) -> Error
    ensures kind { result.kind ≡ Other }
    ensures offset { result.offset ≡ offset }
{
    Error::with(Text::Subopcode(prefix, code), offset)
}
