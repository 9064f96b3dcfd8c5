//! Operators whose code stands behind a prefix, from their bytes.

ghost use Rattle.std.specs.Prelude.{◌≡◌, IfOk, IsTrue, Some};
ghost use Rattle.wasm_types.specs.reader.Reading.{Gives, NeedsNoMemory};
ghost use Rattle.wasm_operators_enums.specs.Op.{op_of};
ghost use Rattle.wasm_operators_enums.specs.Immediates.{is_canonical};
ghost use Rattle.wasm_operators_encoding.specs.Opcodes.{prefixed};
ghost use Rattle.wasm_operators_encoding.specs.Coded.{behind};
ghost use Rattle.wasm_operators_encoding.specs.Operators.{coded_of};

use crate::refusal::unknown_subopcode;
use crate::{
    atomic_shape, read_atomic, read_shared, read_simd, shared_shape, simd_numeric_of, simd_shape,
};
use std::alloc::Global;
use wasm_operators_decode_control::{descriptor_shape, gc_shape, read_descriptor, read_gc};
use wasm_operators_decode_memory::{bulk_shape, numeric_prefixed_of, read_bulk};
use wasm_operators_encoding::Operator;
use wasm_types::{BinaryReader, Result};

/// What stands behind a code that follows `0xfb`.
pub fn read_fb<'a>(
    alloc: Global,
    code: u32,
    offset: u64,
    reader: &mut BinaryReader<'a>,
) -> Result<Operator<'a>>
    ensures answer { Gives (λ o. coded_of (op_of o)) result reader.new
        (behind reader.old.settings offset (prefixed 0xfb code) reader.old) }
    ensures canonical { IfOk result (λ o. IsTrue (is_canonical (op_of o))) }
    ensures no_memory { NeedsNoMemory result }
{
    if let Some(shape) = gc_shape(code) {
        let op = read_gc(alloc, code, shape, reader)?;
        return Ok(Operator::Gc(op));
    }
    if let Some(shape) = descriptor_shape(code) {
        let op = read_descriptor(alloc, code, shape, reader)?;
        return Ok(Operator::Descriptor(op));
    }
    Err(unknown_subopcode(0xfb, code, offset))
}

/// What stands behind a code that follows `0xfc`.
pub fn read_fc<'a>(code: u32, offset: u64, reader: &mut BinaryReader<'a>) -> Result<Operator<'a>>
    ensures answer { Gives (λ o. coded_of (op_of o)) result reader.new
        (behind reader.old.settings offset (prefixed 0xfc code) reader.old) }
    ensures canonical { IfOk result (λ o. IsTrue (is_canonical (op_of o))) }
    ensures no_memory { NeedsNoMemory result }
{
    if let Some(op) = numeric_prefixed_of(code) {
        return Ok(Operator::Numeric(op));
    }
    if let Some(shape) = bulk_shape(code) {
        let op = read_bulk(code, shape, reader)?;
        return Ok(Operator::Bulk(op));
    }
    Err(unknown_subopcode(0xfc, code, offset))
}

/// What stands behind a code that follows `0xfd`.
pub fn read_fd<'a>(code: u32, offset: u64, reader: &mut BinaryReader<'a>) -> Result<Operator<'a>>
    ensures answer { Gives (λ o. coded_of (op_of o)) result reader.new
        (behind reader.old.settings offset (prefixed 0xfd code) reader.old) }
    ensures canonical { IfOk result (λ o. IsTrue (is_canonical (op_of o))) }
    ensures no_memory { NeedsNoMemory result }
{
    if let Some(shape) = simd_shape(code) {
        let op = read_simd(code, shape, reader)?;
        return Ok(Operator::Simd(op));
    }
    if let Some(op) = simd_numeric_of(code) {
        return Ok(Operator::SimdNumeric(op));
    }
    Err(unknown_subopcode(0xfd, code, offset))
}

/// What stands behind a code that follows `0xfe`.
pub fn read_fe<'a>(code: u32, offset: u64, reader: &mut BinaryReader<'a>) -> Result<Operator<'a>>
    ensures answer { Gives (λ o. coded_of (op_of o)) result reader.new
        (behind reader.old.settings offset (prefixed 0xfe code) reader.old) }
    ensures canonical { IfOk result (λ o. IsTrue (is_canonical (op_of o))) }
    ensures no_memory { NeedsNoMemory result }
{
    if let Some(shape) = atomic_shape(code) {
        let op = read_atomic(code, shape, reader)?;
        return Ok(Operator::Atomic(op));
    }
    if let Some(shape) = shared_shape(code) {
        let op = read_shared(code, shape, reader)?;
        return Ok(Operator::Shared(op));
    }
    Err(unknown_subopcode(0xfe, code, offset))
}
