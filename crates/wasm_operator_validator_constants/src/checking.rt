//! Whole constants.

ghost use Rattle.std.specs.Prelude.{◌≡◌, [], None, false};
ghost use Rattle.wasm_operator_validator_constants.specs.Checked.{ValidatesConstant, ChecksConstant};

use crate::beginning::new_const_expr;
use crate::validating::validate_constant_operators;
use crate::walk::ConstantWalk;
use std::alloc::Global;
use std::mem::replace;
use wasm_operator_validator_driver::{AsRefusal, ValidatingVisitor, ValidatingWalk};
use wasm_operator_validator_stacks::{
    OperatorValidator, OperatorValidatorAllocations, WasmModuleResources,
};
use wasm_operators_bodies::ConstExpr;
use wasm_types::{BinaryReader, Result, ValType, WasmFeatures};

/// Checks a constant expression of this type, in a module of whose globals the first so many are imported: Ok exactly if its bytes
/// spell one, out of memory aside (WebAssembly 3.0, validation, constant expressions). The type is named as the module names it for
/// itself, by ids or by its own indices. The globals that the module has are those that the constant sees. The memory of `allocs` is used, and is
/// given back empty.
///
/// # Errors
///
/// The bytes spell no expression; an operator is not constant or may not come, at its offset; or there is no memory.
pub fn check_const_expr<R: WasmModuleResources>(
    alloc: Global,
    expr: &ConstExpr<'_>,
    ty: ValType,
    resources: &R,
    features: WasmFeatures,
    imported_globals: u32,
    allocs: &mut OperatorValidatorAllocations,
) -> Result<()>
    ensures checks { ChecksConstant (record {
      bits = features.0;
      meaning = R.meaning resources.now;
      imported = imported_globals;
    }) ty expr.now result }
    ensures operands { allocs.new.operands ≡ ([], None) }
    ensures control { allocs.new.control ≡ ([], None) }
    ensures locals { allocs.new.locals ≡ [] }
    ensures inits { allocs.new.inits ≡ record { first = []; set = []; saved = None } }
{
    let reader = expr.get_binary_reader();
    let taken = replace(allocs, OperatorValidatorAllocations::new(alloc));
    let mut validator = match new_const_expr(features, reader.limits(), ty, taken) {
        Ok(validator) => validator,
        Err(error) => return Err(error),
    };
    let answer = validate_constant(
        alloc,
        reader,
        &mut validator,
        resources,
        features,
        imported_globals,
    );
    *allocs = validator.into_allocations();
    answer
}

/// The same, where a validator stands at the beginning of the constant.
fn validate_constant<R: WasmModuleResources>(
    alloc: Global,
    reader: BinaryReader<'_>,
    validator: &mut OperatorValidator,
    resources: &R,
    features: WasmFeatures,
    imported_globals: u32,
) -> Result<()>
    requires going { validator.old.failed ≡ false }
    ensures { ValidatesConstant (record {
      bits = features.0;
      meaning = R.meaning resources.now;
      imported = imported_globals;
    }) validator.old reader.entry result }
{
    let visitor = ValidatingVisitor {
        inner: validator,
        resources,
        answer: AsRefusal,
    };
    let mut constant = ConstantWalk {
        walk: ValidatingWalk { visitor },
        features,
        imported_globals,
    };
    let answer = validate_constant_operators(alloc, reader, &mut constant);
    let ConstantWalk {
        walk,
        features: _,
        imported_globals: _,
    } = constant;
    let ValidatingWalk { visitor } = walk;
    let ValidatingVisitor {
        inner: _,
        resources: _,
        answer: _,
    } = visitor;
    answer
}
