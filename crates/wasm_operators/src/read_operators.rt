//! Operators from a reader of bytes that are visited, where the visitor keeps the frames.

ghost use Rattle.std.specs.Prelude.{◌≡◌, false, IfOk, IfErr};
ghost use Rattle.wasm_types.specs.decoding.Decoder.{State};
ghost use Rattle.wasm_types.specs.reader.Reading.{NeedsNoMemory};
ghost use Rattle.wasm_operators_enums.specs.Op.{Op};
ghost use Rattle.wasm_operators_decode.specs.Memory.{keeps_list_at};
ghost use Rattle.wasm_operators_enums.specs.Vectors.{is_simd};
ghost use Rattle.wasm_operators_reader.specs.walks.InFrame.{ReadsIn, RefusesIn, RefusesPlainIn};

use std::alloc::Global;
use wasm_operators_reader::FrameStack;
use wasm_operators_reader::walks::{read_in_frame, read_plain_in_frame};
use wasm_operators_visit_simd_operator::{VisitOperator, VisitSimdOperator};
use wasm_types::{BinaryReader, Result};

/// Reads operators one by one and visits them. The visitor knows which frames are open: with none open nothing is read, and that
/// is refused before a byte is read.
pub trait ReadToVisitor<'a, V: VisitOperator<'a> + FrameStack> {
    ghost use Rattle.wasm_types.specs.decoding.Decoder.{State as TheState};

    /// Where it stands.
    ghost state: { Self → TheState };

    /// Reads the next operator, and calls the visit that belongs to it.
    ///
    /// # Errors
    ///
    /// As `ReadOperators::peek_operator`; and where the operator is one on vectors, which is refused where it begins. The reader stays as it
    /// was, and the visitor is told nothing.
    fn visit_operator(&mut self, alloc: Global, visitor: &mut V) -> Result<V::Output>
        ensures visited { IfOk result (λ answer. (o : Op) × ReadsIn (V.frame visitor.old) (state self.old) o
            (state self.new) × (is_simd o ≡ false) × V.visits visitor.old o answer visitor.new) }
        ensures refused { IfErr result (λ e. RefusesPlainIn (V.frame visitor.old) (state self.old) e
            × (self.new ≡ self.old)) }
        ensures told { IfErr result (λ _. visitor.new ≡ visitor.old) }
        ensures no_memory { keeps_list_at (state self.old) ≡ false → NeedsNoMemory result };
}

/// The same of a visitor of all operators, those on vectors too.
pub trait ReadToSimdVisitor<'a, V: VisitSimdOperator<'a> + FrameStack> {
    ghost use Rattle.wasm_types.specs.decoding.Decoder.{State as TheState};

    /// Where it stands.
    ghost state: { Self → TheState };

    /// Reads the next operator, and calls the visit that belongs to it, also where it is one on vectors.
    ///
    /// # Errors
    ///
    /// As `ReadOperators::peek_operator`. The reader stays as it was, and the visitor is told nothing.
    fn visit_operator_simd(&mut self, alloc: Global, visitor: &mut V) -> Result<V::Output>
        ensures visited { IfOk result (λ answer. (o : Op) × ReadsIn (V.frame visitor.old) (state self.old) o
            (state self.new) × V.visits visitor.old o answer visitor.new) }
        ensures refused { IfErr result (λ e. RefusesIn (V.frame visitor.old) (state self.old) e
            × (self.new ≡ self.old)) }
        ensures told { IfErr result (λ _. visitor.new ≡ visitor.old) }
        ensures no_memory { keeps_list_at (state self.old) ≡ false → NeedsNoMemory result };
}

impl<'a, V: VisitOperator<'a> + FrameStack> ReadToVisitor<'a, V> for BinaryReader<'a> {
    ghost state = { λ r. r };

    fn visit_operator(&mut self, alloc: Global, visitor: &mut V) -> Result<V::Output> {
        let op = match read_plain_in_frame(alloc, visitor.current_frame(), self) {
            Ok(op) => op,
            Err(error) => return Err(error),
        };
        Ok(visitor.visit_owned(op))
    }
}

impl<'a, V: VisitSimdOperator<'a> + FrameStack> ReadToSimdVisitor<'a, V> for BinaryReader<'a> {
    ghost state = { λ r. r };

    fn visit_operator_simd(&mut self, alloc: Global, visitor: &mut V) -> Result<V::Output> {
        let op = match read_in_frame(alloc, visitor.current_frame(), self) {
            Ok(op) => op,
            Err(error) => return Err(error),
        };
        Ok(visitor.visit_simd_owned(op))
    }
}
