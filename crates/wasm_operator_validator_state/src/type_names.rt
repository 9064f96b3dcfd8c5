//! How value types are called in messages.

ghost use Rattle.wasm_types_decoding.specs.Words.{words_text};
ghost use Rattle.std.specs.Prelude.{◌≡◌};
ghost use Rattle.wasm_operator_validator_state.specs.Names.{type_name};

use wasm_types::{TypeWords, ValType, Words};

/// The name of a value type in the text format, with `$type` in the place of an index (WebAssembly 3.0, text format, types).
pub fn ty_to_str(ty: ValType) -> Words
    ensures { words_text result ≡ type_name ty }
{
    match ty {
        ValType::I32 => Words::Type(TypeWords::I32),
        ValType::I64 => Words::Type(TypeWords::I64),
        ValType::F32 => Words::Type(TypeWords::F32),
        ValType::F64 => Words::Type(TypeWords::F64),
        ValType::V128 => Words::Type(TypeWords::V128),
        ValType::Ref(reference) => reference.words(),
    }
}
