//! Worked bytes of immediates and of operators, with what the decoders make of them: values, refusals and their offsets, and ends
//! of data. Each row computes. The crate has no code of its own.

ghost use Rattle.wasm_operators_tests.specs.worked.ArgumentRows.{ArgumentRows};
ghost use Rattle.wasm_operators_tests.specs.worked.NumberRows.{NumberRows};
ghost use Rattle.wasm_operators_tests.specs.worked.ByteRows.{ByteRows};
ghost use Rattle.wasm_operators_tests.specs.worked.TypeRows.{TypeRows};
ghost use Rattle.wasm_operators_tests.specs.worked.TableRows.{TableRows};
ghost use Rattle.wasm_operators_tests.specs.worked.LabelRows.{LabelRows};
ghost use Rattle.wasm_operators_tests.specs.worked.PlainRows.{PlainRows};
ghost use Rattle.wasm_operators_tests.specs.worked.PrefixedRows.{PrefixedRows};

/// Each kind of immediate, read and refused: of a kind that depends on a feature, where it is allowed and where it is not.
pub const fn immediates_are_worked()
    ensures arguments { ArgumentRows }
    ensures numbers { NumberRows }
    ensures bytes { ByteRows }
    ensures types { TypeRows }
    ensures tables { TableRows }
    ensures labels { LabelRows }
{}

/// Operators of each group, read and refused; codes that no operator has; and bytes that end too early.
pub const fn operators_are_worked()
    ensures plain { PlainRows }
    ensures prefixed { PrefixedRows }
{}
