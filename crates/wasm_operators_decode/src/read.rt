//! Operators from their first byte on.

ghost use Rattle.std.specs.Prelude.{◌≡◌, IfOk, IsTrue, false};
ghost use Rattle.wasm_types.specs.reader.Reading.{Answers, Gives, NeedsNoMemory};
ghost use Rattle.wasm_operators_enums.specs.Op.{op_of};
ghost use Rattle.wasm_operators_enums.specs.Immediates.{is_canonical};
ghost use Rattle.wasm_operators_encoding.specs.Opcodes.{is_prefix, prefixed};
ghost use Rattle.wasm_operators_encoding.specs.Coded.{behind, operator};
ghost use Rattle.wasm_operators_encoding.specs.Operators.{coded_of};
ghost use Rattle.wasm_operators_decode.specs.Memory.{keeps_list_at};

use crate::plain::read_plain;
use crate::prefixed::{read_fb, read_fc, read_fd, read_fe};
use std::alloc::Global;
use wasm_operators_encoding::Operator;
use wasm_types::{BinaryReader, Result};

// Whether a code follows this byte.
fn is_prefix(byte: u8) -> bool
    ensures { result ≡ is_prefix byte }
{
    matches!(byte, 0xfb | 0xfc | 0xfd | 0xfe)
}

// What stands behind a code that follows this byte.
fn read_prefixed<'a>(
    alloc: Global,
    prefix: u8,
    code: u32,
    offset: u64,
    reader: &mut BinaryReader<'a>,
) -> Result<Operator<'a>>
    requires { IsTrue (is_prefix prefix) }
    ensures answer { Gives (λ o. coded_of (op_of o)) result reader.new
        (behind reader.old.settings offset (prefixed prefix code) reader.old) }
    ensures canonical { IfOk result (λ o. IsTrue (is_canonical (op_of o))) }
    ensures no_memory { NeedsNoMemory result }
{
    match prefix {
        0xfb => read_fb(alloc, code, offset, reader),
        0xfc => read_fc(code, offset, reader),
        0xfd => read_fd(code, offset, reader),
        0xfe => read_fe(code, offset, reader),
        _ => unreachable!(),
    }
}

// Reads an operator; a refused reader may have gone on.
#[tactic(auto, unfolding(wasm_operators_encoding::specs::Coded::operator, wasm_operators_encoding::specs::Opcodes::opcode))]
fn read_ahead<'a>(alloc: Global, reader: &mut BinaryReader<'a>) -> Result<Operator<'a>>
    ensures answer { Gives (λ o. coded_of (op_of o)) result reader.new (operator reader.old.settings reader.old) }
    ensures canonical { IfOk result (λ o. IsTrue (is_canonical (op_of o))) }
    ensures no_memory { keeps_list_at reader.old ≡ false → NeedsNoMemory result }
{
    let offset = reader.original_position();
    let first = reader.read_u8()?;
    if is_prefix(first) {
        let code = reader.read_var_u32()?;
        return read_prefixed(alloc, first, code, offset, reader);
    }
    read_plain(alloc, u32::from(first), offset, reader)
}

/// Reads an operator: an opcode, and the immediates that belong to it.
///
/// # Errors
///
/// Where the bytes spell no operator that the features of the reader allow, and where the memory for a list that the operator
/// keeps is refused. The reader then stands where it was.
pub fn read_operator<'a>(alloc: Global, reader: &mut BinaryReader<'a>) -> Result<Operator<'a>>
    ensures answer { Answers (λ o. coded_of (op_of o)) result reader.old reader.new
        (operator reader.old.settings reader.old) }
    ensures canonical { IfOk result (λ o. IsTrue (is_canonical (op_of o))) }
    ensures no_memory { keeps_list_at reader.old ≡ false → NeedsNoMemory result }
{
    let start = reader.clone();
    let op = match read_ahead(alloc, reader) {
        Ok(op) => op,
        Err(error) => {
            *reader = start;
            return Err(error);
        }
    };
    Ok(op)
}
