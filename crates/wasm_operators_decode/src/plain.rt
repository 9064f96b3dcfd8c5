//! Operators whose opcode is one byte, from their bytes.

ghost use Rattle.std.specs.Prelude.{◌≡◌, IfOk, IsTrue, false};
ghost use Rattle.wasm_types.specs.reader.Reading.{Gives, NeedsNoMemory};
ghost use Rattle.wasm_operators_enums.specs.Op.{op_of};
ghost use Rattle.wasm_operators_enums.specs.Immediates.{is_canonical};
ghost use Rattle.wasm_operators_encoding.specs.Opcodes.{plain};
ghost use Rattle.wasm_operators_encoding.specs.Coded.{behind, carried_by, plain_kinds};
ghost use Rattle.wasm_operators_encoding.specs.Operators.{coded_of};
ghost use Rattle.wasm_operators_decode.specs.Memory.{keeps_list};
ghost use Rattle.wasm_operators_decode.specs.Plain.{further_kinds};

use crate::refusal::illegal_opcode;
use std::alloc::Global;
use wasm_operators_decode_control::{
    continuation_shape, control_shape, exception_shape, gc_plain_of, parametric_shape,
    read_continuation, read_control, read_exception, read_parametric,
};
use wasm_operators_decode_memory::{
    bulk_plain_shape, const_shape, memory_shape, numeric_of, read_bulk_plain, read_const,
    read_memory,
};
use wasm_operators_encoding::Operator;
use wasm_types::{BinaryReader, Result};

/// What stands behind a code of one byte.
pub fn read_plain<'a>(
    alloc: Global,
    code: u32,
    offset: u64,
    reader: &mut BinaryReader<'a>,
) -> Result<Operator<'a>>
    ensures answer { Gives (λ o. coded_of (op_of o)) result reader.new
        (behind reader.old.settings offset (plain code) reader.old) }
    ensures canonical { IfOk result (λ o. IsTrue (is_canonical (op_of o))) }
    ensures no_memory { keeps_list (plain_kinds code) ≡ false → NeedsNoMemory result }
{
    if let Some(shape) = control_shape(code) {
        let op = read_control(alloc, code, shape, reader)?;
        return Ok(Operator::Control(op));
    }
    if let Some(shape) = parametric_shape(code) {
        let op = read_parametric(alloc, code, shape, reader)?;
        return Ok(Operator::Parametric(op));
    }
    if let Some(shape) = exception_shape(code) {
        let op = read_exception(alloc, code, shape, reader)?;
        return Ok(Operator::Exception(op));
    }
    if let Some(shape) = memory_shape(code) {
        let op = read_memory(code, shape, reader)?;
        return Ok(Operator::Memory(op));
    }
    if let Some(shape) = const_shape(code) {
        let op = read_const(code, shape, reader)?;
        return Ok(Operator::Const(op));
    }
    read_further(alloc, code, offset, reader)
}

// The same of the groups that are asked last.
fn read_further<'a>(
    alloc: Global,
    code: u32,
    offset: u64,
    reader: &mut BinaryReader<'a>,
) -> Result<Operator<'a>>
    ensures answer { Gives (λ o. coded_of (op_of o)) result reader.new
        (carried_by reader.old.settings offset (plain code) (further_kinds code) reader.old) }
    ensures canonical { IfOk result (λ o. IsTrue (is_canonical (op_of o))) }
    ensures no_memory { keeps_list (further_kinds code) ≡ false → NeedsNoMemory result }
{
    if let Some(op) = numeric_of(code) {
        return Ok(Operator::Numeric(op));
    }
    if let Some(shape) = bulk_plain_shape(code) {
        let op = read_bulk_plain(alloc, code, shape, reader)?;
        return Ok(Operator::Bulk(op));
    }
    if let Some(op) = gc_plain_of(code) {
        return Ok(Operator::Gc(op));
    }
    if let Some(shape) = continuation_shape(code) {
        let op = read_continuation(alloc, code, shape, reader)?;
        return Ok(Operator::Continuation(op));
    }
    Err(illegal_opcode(code, offset))
}
