//! Worked operators on vectors, frequent operators that are told, iterators, standings, and what visitors are told, as rows that
//! compute. The crate has no code of its own.
//!
//! The messages of refusals, which no contract promises, are judged by `tests/run` (`tests/worked`).

ghost use Rattle.wasm_operators_tests.specs.reader.Rows.{IteratorRows, TellingRows, VectorRows};
ghost use Rattle.wasm_operators_tests.specs.reader.StandingRows.{ReadRows, RefusedRows, MemoryRows, RunRows};
ghost use Rattle.wasm_operators_tests.specs.reader.VisitorRows.{VisitRows, WalkRows, FirstByteRows, FrameRows};

/// A constant of vectors is read, and refused where a visitor has no visits of vectors.
#[tactic(auto, using(crate::specs::reader::RowLaws::vector_rows))]
pub const fn vectors_are_worked()
    ensures { VectorRows }
{}

/// A frequent operator is told as what its bytes spell, and as no other.
#[tactic(auto, using(crate::specs::reader::RowLaws::telling_rows))]
pub const fn tellings_are_worked()
    ensures { TellingRows }
{}

/// An iterator of operators gives nothing behind an error.
#[tactic(auto, using(crate::specs::reader::RowLaws::iterator_rows))]
pub const fn iterators_are_worked()
    ensures { IteratorRows }
{}

/// What is read where a reader stands, why it refuses, what takes memory, and operators one after the other (WebAssembly 3.0, binary
/// format, instructions and expressions).
#[tactic(auto, using(crate::specs::reader::StandingRowLaws::read_rows, crate::specs::reader::StandingRowLaws::refused_rows, crate::specs::reader::StandingRowLaws::memory_rows, crate::specs::reader::StandingRowLaws::run_rows))]
pub const fn standings_are_worked()
    ensures read { ReadRows }
    ensures refused { RefusedRows }
    ensures memory { MemoryRows }
    ensures runs { RunRows }
{}

/// What a visitor is told of what is read, one operator or several, where frames are open and where only the innermost is known.
#[tactic(auto, using(crate::specs::reader::VisitorRowLaws::visit_rows, crate::specs::reader::VisitorRowLaws::walk_rows, crate::specs::reader::VisitorRowLaws::first_byte_rows, crate::specs::reader::VisitorRowLaws::frame_rows))]
pub const fn visits_are_worked()
    ensures visits { VisitRows }
    ensures walks { WalkRows }
    ensures first_bytes { FirstByteRows }
    ensures frames { FrameRows }
{}
