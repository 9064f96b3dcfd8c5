//! Operators that are read and visited, where the reader keeps the frames.

ghost use Rattle.std.specs.Prelude.{◌≡◌, IfOk, IfErr};
ghost use Rattle.wasm_types.specs.reader.Reading.{NeedsNoMemory};
ghost use Rattle.wasm_operators_reader.specs.Standing.{Standing, Refuses, WantsMemory};
ghost use Rattle.wasm_operators_reader.specs.Visiting.{Visits, VisitsPlain, RefusesPlain};

use wasm_operators_reader::OperatorsReader;
use wasm_operators_visit_simd_operator::{VisitOperator, VisitSimdOperator};
use wasm_types::Result;

/// Reads operators one by one and visits them. It is a trait, and no method of `OperatorsReader`, so that whoever names a reader of
/// operators does not name every visit.
pub trait VisitNext<'a, V: VisitOperator<'a>> {
    ghost use Rattle.wasm_operators_reader.specs.Standing.{Standing as TheStanding};

    /// Where it stands.
    ghost standing: { Self → TheStanding };

    /// Reads the next operator, as `OperatorsReader::read` does, and calls the visit that belongs to it.
    ///
    /// # Errors
    ///
    /// As `OperatorsReader::read`; and where the operator is one on vectors, which is refused where it begins. The reader stays as it was,
    /// and the visitor is told nothing.
    fn visit_operator(&mut self, visitor: &mut V) -> Result<V::Output>
        ensures visited { IfOk result (λ answer. VisitsPlain V.visits (standing self.old) visitor.old answer
            (standing self.new) visitor.new) }
        ensures refused { IfErr result (λ e. RefusesPlain (standing self.old) e × (self.new ≡ self.old)) }
        ensures told { IfErr result (λ _. visitor.new ≡ visitor.old) }
        ensures no_memory { (WantsMemory (standing self.old) → ⊥) → NeedsNoMemory result };
}

/// The same of a visitor of all operators, those on vectors too.
pub trait VisitNextSimd<'a, V: VisitSimdOperator<'a>> {
    ghost use Rattle.wasm_operators_reader.specs.Standing.{Standing as TheStanding};

    /// Where it stands.
    ghost standing: { Self → TheStanding };

    /// Reads the next operator, as `OperatorsReader::read` does, and calls the visit that belongs to it, also where it is one on vectors.
    ///
    /// # Errors
    ///
    /// As `OperatorsReader::read`. The reader stays as it was, and the visitor is told nothing.
    fn visit_operator_simd(&mut self, visitor: &mut V) -> Result<V::Output>
        ensures visited { IfOk result (λ answer. Visits V.visits (standing self.old) visitor.old answer
            (standing self.new) visitor.new) }
        ensures refused { IfErr result (λ e. Refuses (standing self.old) e × (self.new ≡ self.old)) }
        ensures told { IfErr result (λ _. visitor.new ≡ visitor.old) }
        ensures no_memory { (WantsMemory (standing self.old) → ⊥) → NeedsNoMemory result };
}

impl<'a, V: VisitOperator<'a>> VisitNext<'a, V> for OperatorsReader<'a> {
    ghost standing = { λ r. r };

    fn visit_operator(&mut self, visitor: &mut V) -> Result<V::Output> {
        let op = match self.read_plain() {
            Ok(op) => op,
            Err(error) => return Err(error),
        };
        Ok(visitor.visit_owned(op))
    }
}

impl<'a, V: VisitSimdOperator<'a>> VisitNextSimd<'a, V> for OperatorsReader<'a> {
    ghost standing = { λ r. r };

    fn visit_operator_simd(&mut self, visitor: &mut V) -> Result<V::Output> {
        let op = match self.read() {
            Ok(op) => op,
            Err(error) => return Err(error),
        };
        Ok(visitor.visit_simd_owned(op))
    }
}
