//! Expressions that are visited as they are read.

ghost use Rattle.std.specs.Prelude.{◌≡◌, Ok, Err, IfOk, IfErr};
ghost use Rattle.wasm_types.specs.reader.Reading.{IsNotMemory};
ghost use Rattle.wasm_operators_encoding.specs.expressions.Code.{Code, walk};
ghost use Rattle.wasm_operators_encoding.specs.expressions.Spelling.{SpelledExpression};
ghost use Rattle.wasm_operators_reader.specs.Standing.{Standing, at_start};
ghost use Rattle.wasm_operators_reader.specs.Walking.{HasNoVectors, VisitsAll, WalksTo, WalksUntil, WalksUntilAt, StopsPlain};

use std::alloc::Global;
use wasm_operators_frequent::reading::LentVisitor;
use wasm_operators_reader::walks::tell_expression_with_offset;
use wasm_operators_visit_simd_operator::VisitOperator;
use wasm_types::{BinaryReader, Result};

/// Visits the operators of an expression in their order, to the end of the bytes. The visitor answers whether to go on: the walk
/// ends with its first `Err`, which is given back. Where it answers none, the whole expression was visited, which all bytes of
/// the reader spell.
///
/// # Errors
///
/// The bytes spell no expression without vectors, or there is no memory; the operators before the one that is refused were
/// visited.
#[tactic(none)]
pub fn visit_expression<'a, E: Drop, V: VisitOperator<'a, Output = std::result::Result<(), E>>>(
    alloc: Global,
    reader: BinaryReader<'a>,
    visitor: &mut V,
) -> Result<std::result::Result<(), E>>
    ensures whole { IfOk result (λ end. IfOk end (λ _. (c : Code)
        × SpelledExpression reader.entry.settings c reader.entry.rest
        × HasNoVectors (walk c) × VisitsAll V.visits (Ok tt) visitor.old (walk c) visitor.new)) }
    ensures ended { IfOk result (λ end. IfErr end (λ x. WalksUntil V.visits (Ok tt) (at_start reader.entry) visitor.old
        (Err x) visitor.new)) }
    ensures refused { IfErr result (λ e. IsNotMemory e.kind → (c : Code)
        → SpelledExpression reader.entry.settings c reader.entry.rest → HasNoVectors (walk c) → ⊥) }
    ensures stops { IfErr result (λ e. (t : Standing) × WalksTo V.visits (Ok tt)
        (at_start reader.entry) visitor.old t visitor.new × StopsPlain t e) }
{
    let end = match visit_expression_with_offset(alloc, reader, visitor) {
        Ok(end) => end,
        Err(error) => return Err(error),
    };
    if let Err(last) = end {
        return Ok(Err(last.0));
    }
    Ok(Ok(()))
}

/// The same, and where the visitor ends the walk the offset of the operator that it answered so.
///
/// # Errors
///
/// As [`visit_expression`].
pub fn visit_expression_with_offset<
    'a,
    E: Drop,
    V: VisitOperator<'a, Output = std::result::Result<(), E>>,
>(
    alloc: Global,
    reader: BinaryReader<'a>,
    visitor: &mut V,
) -> Result<std::result::Result<(), (E, u64)>>
    ensures whole { IfOk result (λ end. IfOk end (λ _. (c : Code)
        × SpelledExpression reader.entry.settings c reader.entry.rest
        × HasNoVectors (walk c) × VisitsAll V.visits (Ok tt) visitor.old (walk c) visitor.new)) }
    ensures ended { IfOk result (λ end. IfErr end (λ x. WalksUntilAt V.visits (Ok tt)
        (at_start reader.entry) visitor.old (Err x.0) visitor.new x.1)) }
    ensures refused { IfErr result (λ e. IsNotMemory e.kind → (c : Code)
        → SpelledExpression reader.entry.settings c reader.entry.rest → HasNoVectors (walk c) → ⊥) }
    ensures stops { IfErr result (λ e. (t : Standing) × WalksTo V.visits (Ok tt)
        (at_start reader.entry) visitor.old t visitor.new × StopsPlain t e) }
{
    let mut lent = LentVisitor { visitor };
    tell_lent(alloc, reader, &mut lent)
}

// The same, by the visits of the visitor that is lent; it stays the one that is lent.
#[inline]
fn tell_lent<'a, E: Drop, V: VisitOperator<'a, Output = std::result::Result<(), E>>>(
    alloc: Global,
    reader: BinaryReader<'a>,
    lent: &mut LentVisitor<'_, V>,
) -> Result<std::result::Result<(), (E, u64)>>
    ensures whole { IfOk result (λ end. IfOk end (λ _. (c : Code)
        × SpelledExpression reader.entry.settings c reader.entry.rest
        × HasNoVectors (walk c) × VisitsAll V.visits (Ok tt) lent.old.visitor.now (walk c) lent.new.visitor.now)) }
    ensures ended { IfOk result (λ end. IfErr end (λ x. WalksUntilAt V.visits (Ok tt)
        (at_start reader.entry) lent.old.visitor.now (Err x.0) lent.new.visitor.now x.1)) }
    ensures refused { IfErr result (λ e. IsNotMemory e.kind → (c : Code)
        → SpelledExpression reader.entry.settings c reader.entry.rest → HasNoVectors (walk c) → ⊥) }
    ensures stops { IfErr result (λ e. (t : Standing) × WalksTo V.visits (Ok tt)
        (at_start reader.entry) lent.old.visitor.now t lent.new.visitor.now × StopsPlain t e) }
    ensures same { lent.new.visitor.ghost_name ≡ lent.old.visitor.ghost_name }
{
    tell_expression_with_offset(alloc, reader, lent)
}
