//! Visitors that can be told of any operator, those on vectors too.

ghost use Rattle.std.specs.Prelude.{◌≡◌, false, IfOk, IfErr};
ghost use Rattle.wasm_types.specs.reader.Reading.{NeedsNoMemory};
ghost use Rattle.wasm_operators_enums.specs.Op.{Op, op_of};
ghost use Rattle.wasm_operators_decode.specs.Memory.{keeps_list_at};
ghost use Rattle.wasm_operators_reader.specs.Standing.{Refuses, WantsMemory};
ghost use Rattle.wasm_operators_reader.specs.Visiting.{Visits};
ghost use Rattle.wasm_operators_reader.specs.walks.InFrame.{ReadsIn, RefusesIn};

use crate::walks::read_operators::read_in_frame;
use crate::{FrameStack, Operator, OperatorsReader, Visitor};
use std::alloc::Global;
use wasm_types::{BinaryReader, Result};

/// Can be told of any operator, those on vectors too. A type that has all visits may tell itself group by group, as for `TellOperator`: `visit_simd` and `visit_simd_numeric` are those of vectors.
pub trait TellSimdOperator<'a>: Visitor<'a> {
    /// Tells it of this operator, and hands the operator over.
    fn tell_simd(&mut self, op: Operator<'a>) -> Self::Output
        ensures { Self.visits self.old (op_of op.entry) result self.new };
}

/// Reads the next operator, as `OperatorsReader::read` does, and tells the visitor of it, also where it is one on vectors.
///
/// # Errors
///
/// As `OperatorsReader::read`. The reader stays as it was, and the visitor is told nothing.
pub fn tell_operator_simd<'a, V: TellSimdOperator<'a>>(
    operators: &mut OperatorsReader<'a>,
    visitor: &mut V,
) -> Result<V::Output>
    ensures visited { IfOk result (λ answer. Visits V.visits operators.old visitor.old answer
        operators.new visitor.new) }
    ensures refused { IfErr result (λ e. Refuses operators.old e × (operators.new ≡ operators.old)) }
    ensures told { IfErr result (λ _. visitor.new ≡ visitor.old) }
    ensures no_memory { (WantsMemory operators.old → ⊥) → NeedsNoMemory result }
{
    let op = match operators.read() {
        Ok(op) => op,
        Err(error) => return Err(error),
    };
    Ok(visitor.tell_simd(op))
}

/// The same of a reader of bytes, where the visitor knows which frames are open. With none open nothing is read: that is refused before
/// a byte is read.
///
/// # Errors
///
/// As `ReadOperators::peek_operator`. The reader stays as it was, and the visitor is told nothing.
pub fn tell_operator_in_frame_simd<'a, V: TellSimdOperator<'a> + FrameStack>(
    alloc: Global,
    reader: &mut BinaryReader<'a>,
    visitor: &mut V,
) -> Result<V::Output>
    ensures visited { IfOk result (λ answer. (o : Op) × ReadsIn (V.frame visitor.old) reader.old o reader.new
        × V.visits visitor.old o answer visitor.new) }
    ensures refused { IfErr result (λ e. RefusesIn (V.frame visitor.old) reader.old e × (reader.new ≡ reader.old)) }
    ensures told { IfErr result (λ _. visitor.new ≡ visitor.old) }
    ensures no_memory { keeps_list_at reader.old ≡ false → NeedsNoMemory result }
{
    let op = match read_in_frame(alloc, visitor.current_frame(), reader) {
        Ok(op) => op,
        Err(error) => return Err(error),
    };
    Ok(visitor.tell_simd(op))
}
