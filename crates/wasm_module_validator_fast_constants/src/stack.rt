//! The types of operands, the last on top.

ghost use Rattle.std.specs.Prelude.{◌≡◌, ◌++◌, ◌∷◌, [], IsTrue};
ghost use Rattle.wasm_module_validator_fast_constants.specs.Steps.{integer_type};

use wasm_types::ValType;

/// Puts a type on top, if there is memory for it.
#[inline(always)]
pub(crate) fn put(stack: &mut Vec<ValType>, ty: ValType) -> bool
    ensures { IsTrue result → stack.new.items ≡ stack.old.items ++ ty ∷ [] }
{
    match stack.push(ty) {
        Ok(()) => true,
        Err(_) => false,
    }
}

/// The type of integers of 64 bits, or of 32.
#[inline(always)]
pub(crate) fn integer_of(wide: bool) -> ValType
    ensures { result ≡ integer_type wide }
{
    if wide {
        return ValType::I64;
    }
    ValType::I32
}

/// Takes an integer of 64 bits or of 32 off the top, if it is one.
#[inline(always)]
pub(crate) fn take_integer(stack: &mut Vec<ValType>, wide: bool) -> bool
    ensures { IsTrue result → stack.old.items ≡ stack.new.items ++ integer_type wide ∷ [] }
{
    match stack.pop() {
        None => false,
        Some(top) => is_integer(&top, wide),
    }
}

// Whether a type is that of these integers.
#[inline(always)]
fn is_integer(ty: &ValType, wide: bool) -> bool
    ensures { IsTrue result → ty.now ≡ integer_type wide }
{
    match ty {
        ValType::I32 => !wide,
        ValType::I64 => wide,
        _ => false,
    }
}
