//! The types that the names of operators on numbers tell.

use wasm_types::ValType;

/// The type with whose name a name begins: `i64.add` gives an `i64`.
pub(crate) fn named_first(name: &str) -> Option<ValType> {
    if name.starts_with("i32.") {
        return Some(ValType::I32);
    }
    if name.starts_with("i64.") {
        return Some(ValType::I64);
    }
    if name.starts_with("f32.") {
        return Some(ValType::F32);
    }
    if name.starts_with("f64.") {
        return Some(ValType::F64);
    }
    None
}

/// What an operator on numbers takes, which its name tells: `i64.extend_i32_s` an `i32`, and `i64.add` two `i64`.
pub(crate) fn taken_by(name: &str) -> Option<ValType> {
    if name.find("_i32").is_some() {
        return Some(ValType::I32);
    }
    if name.find("_i64").is_some() {
        return Some(ValType::I64);
    }
    if name.find("_f32").is_some() {
        return Some(ValType::F32);
    }
    if name.find("_f64").is_some() {
        return Some(ValType::F64);
    }
    named_first(name)
}

/// Whether an operator on numbers compares: after the type and a point its name begins with one of `eq`, `lt`, `gt`, `le` and `ge`, or it
/// is `ne`.
fn compares(name: &str) -> bool {
    if name.find(".eq").is_some() || name.find(".lt").is_some() || name.find(".gt").is_some() {
        return true;
    }
    if name.find(".le").is_some() || name.find(".ge").is_some() {
        return true;
    }
    name.len() == 6 && name.find(".ne").is_some()
}

/// What an operator on numbers gives.
pub(crate) fn given_by(name: &str) -> Option<ValType> {
    if compares(name) {
        return Some(ValType::I32);
    }
    named_first(name)
}
