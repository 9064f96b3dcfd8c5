//! Worked bytes of bodies and constants, as rows that compute. The crate has no code of its own.
//!
//! The messages of refusals, which no contract promises, are judged by `tests/run` (`tests/worked`).

ghost use Rattle.wasm_operators_tests.specs.bodies.Rows.{LocalRows, BodyRows, BeginRows, ConstantRows};

/// The decoders of locals, of bodies and of constants give these answers.
pub const fn bodies_are_worked()
    ensures locals { LocalRows }
    ensures bodies { BodyRows }
    ensures beginnings { BeginRows }
    ensures constants { ConstantRows }
{}
