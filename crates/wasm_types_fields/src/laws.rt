//! Laws of fields and of what is made of them, on the contract of a function that does nothing.

ghost use Rattle.wasm_types_fields.specs.WorkedFieldLaws.{FieldsAreRead, FunctionsAreRead, FunctionsCompared, FunctionsHashed, IndicesAreRead, TextsAreWritten};

/// Worked fields, functions and indices: what their bytes are read as, how functions compare, what is hashed of them, and how they are
/// written.
pub const fn fields_are_worked()
    ensures fields { FieldsAreRead }
    ensures functions { FunctionsAreRead }
    ensures compared { FunctionsCompared }
    ensures hashed { FunctionsHashed }
    ensures indices { IndicesAreRead }
    ensures texts { TextsAreWritten }
{}
