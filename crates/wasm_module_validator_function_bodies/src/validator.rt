//! The validator of a function's body.

ghost use Rattle.std.specs.Prelude.{◌≡◌, [], None};
ghost use Rattle.wasm_types.specs.settings.Limits.{IsWithinCeilings};
ghost use Rattle.wasm_module_validator_function_bodies.specs.Locals.{judged_by};
ghost use Rattle.wasm_module_validator_function_bodies.specs.Functions.{under, ValidatesFunction};

use crate::FuncValidatorAllocations;
use crate::held::HeldLimits;
use std::alloc::Global;
use wasm_operator_validator_driver::{OperatorValidator, WasmModuleResources, validate_expression};
use wasm_operators_bodies::FunctionBody;
use wasm_types::{BinaryReader, Limits, Result, WasmFeatures};

/// What judges the body of one function: what is known of the body so far, and the module.
#[derive(Drop)]
pub struct FuncValidator<R> {
    pub(crate) validator: OperatorValidator,
    pub(crate) resources: R,
    pub(crate) index: u32,
    pub(crate) limits: HeldLimits,
    pub(crate) alloc: Global,
}

impl<R: WasmModuleResources> FuncValidator<R> {
    /// Judges a whole body: its locals, and its operators to the last byte. Of a validator that was just made it is Ok exactly if the
    /// bytes spell a valid function of the type, out of memory aside. They are read by the validator's own features and limits, whatever
    /// those of the body's reader are (WebAssembly 3.0, validation, modules, functions and locals).
    ///
    /// # Errors
    ///
    /// Something was refused before; the end was reached before; the bytes spell no locals, or some that the function may not have; behind them they spell no
    /// expression; an operator is refused, at its offset; a frame is still open at the end; or there is no memory.
    /// The validator has failed then, and each later call is refused.
    pub fn validate(&mut self, body: &FunctionBody<'_>) -> Result<()>
        ensures validates { ValidatesFunction (R.meaning self.old.resources) self.old.limits body.now self.old.validator
            result self.new.validator }
        ensures resources { self.new.resources ≡ self.old.resources }
        ensures index { self.new.index ≡ self.old.index }
        ensures limits { self.new.limits ≡ self.old.limits }
    {
        let limits = self.limits.get();
        let mut reader = read_under(body.get_binary_reader(), self.validator.features(), limits);
        match self.read_locals(&mut reader) {
            Ok(()) => (),
            Err(error) => return Err(error),
        }
        validate_expression(self.alloc, reader, &mut self.validator, &self.resources)
    }

    /// The memory of this validator, for another to use. It is as new memory is.
    pub fn into_allocations(self) -> FuncValidatorAllocations
    where
        R: Drop,
        ensures operands { result.allocs.operands ≡ ([], None) }
        ensures control { result.allocs.control ≡ ([], None) }
        ensures locals { result.allocs.locals ≡ [] }
        ensures inits { result.allocs.inits ≡ record { first = []; set = []; saved = None } }
    {
        let FuncValidator {
            validator,
            resources: _resources,
            index: _,
            limits: _limits,
            alloc,
        } = self;
        FuncValidatorAllocations {
            allocs: validator.into_allocations(),
            alloc,
        }
    }
}

/// The same reader, by these features and limits.
pub(crate) fn read_under(
    reader: BinaryReader<'_>,
    features: WasmFeatures,
    limits: Limits,
) -> BinaryReader<'_>
    requires within { IsWithinCeilings limits }
    ensures { result ≡ under (judged_by features.0 limits) reader.entry }
{
    let mut reader = reader;
    reader.set_features(features);
    reader.set_limits(limits);
    reader
}
