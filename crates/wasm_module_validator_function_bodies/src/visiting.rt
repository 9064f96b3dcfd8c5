//! A body's validator and its module, lent to visits.

use crate::FuncValidator;
use wasm_operator_validator_driver::WasmModuleResources;
use wasm_operator_validator_visits::{AsError, ValidatingVisitor, WasmProposalValidator};

impl<R: WasmModuleResources> FuncValidator<R> {
    ghost use Rattle.std.specs.Borrow.{Lends, sem};
    ghost use Rattle.std.specs.Prelude.{◌≡◌};
    ghost use Rattle.wasm_module_validator_function_bodies.specs.contracts.validator.FuncValidator.{the_row};
    ghost use Rattle.wasm_module_validator_function_bodies.specs.Lent.{validator_row};

    /// The visitor that judges the operators of this body: it has this validator and its module, and answers errors at `offset`, the offset
    /// of the operator that is visited next. What the visitor leaves of the validator, this one has then. Whoever holds the visitor takes
    /// it apart in the end.
    pub fn visitor(&mut self, offset: u64) -> WasmProposalValidator<'_, '_, R>
        ensures validator { result.inner.now ≡ self.old.validator }
        ensures resources { result.resources.now ≡ self.old.resources }
        ensures offset { result.answer.offset ≡ offset }
        ensures* writes_back { sem 𝓛 (Lends (the_row R.row) validator_row self.entry result.inner
            (λ v. record {
              validator = v;
              resources = self.entry.now.resources;
              index = self.entry.now.index;
              limits = self.entry.now.limits;
              alloc = self.entry.now.alloc;
            })) }
    {
        ValidatingVisitor {
            inner: &mut self.validator,
            resources: &self.resources,
            answer: AsError { offset },
        }
    }
}
