//! Which function is judged, and the memory that its validator uses.

ghost use Rattle.std.specs.Prelude.{◌≡◌, [], None, IfOk};
ghost use Rattle.wasm_types.specs.settings.Limits.{IsWithinCeilings};
ghost use Rattle.wasm_types.specs.decoding.Denials.{Tells};
ghost use Rattle.wasm_operator_validator_stacks.specs.locals.Locals.{RefusedAt};
ghost use Rattle.wasm_operator_validator_stacks.specs.Functions.{Begins, MayBegin};

use crate::FuncValidator;
use crate::held::HeldLimits;
use std::alloc::Global;
use wasm_operator_validator_driver::{OperatorValidatorAllocations, WasmModuleResources};
use wasm_operator_validator_stacks::new_func;
use wasm_types::{Limits, Result, WasmFeatures};

/// The memory of a validator of functions that is done, for another to use. Nothing else is left in it.
#[derive(Drop)]
pub struct FuncValidatorAllocations {
    pub(crate) allocs: OperatorValidatorAllocations,
    pub(crate) alloc: Global,
}

impl FuncValidatorAllocations {
    /// None yet. It takes no memory.
    pub fn new(alloc: Global) -> FuncValidatorAllocations
        ensures operands { result.allocs.operands ≡ ([], None) }
        ensures control { result.allocs.control ≡ ([], None) }
        ensures locals { result.allocs.locals ≡ [] }
        ensures inits { result.allocs.inits ≡ record { first = []; set = []; saved = None } }
    {
        FuncValidatorAllocations {
            allocs: OperatorValidatorAllocations::new(alloc),
            alloc,
        }
    }
}

/// A function of a module whose body is to be judged.
#[derive(Drop)]
pub struct FuncToValidate<R> {
    /// The module, as its types, tables and other things are looked up.
    pub resources: R,
    /// The index of the function in its module.
    pub index: u32,
    /// The index of the function's type, among those of the module.
    pub ty: u32,
    /// The features by which the body is judged.
    pub features: WasmFeatures,
    /// The limits by which the body is judged.
    pub limits: Limits,
}

impl<R: WasmModuleResources + Drop> FuncToValidate<R> {
    /// The validator of the function, where its body begins: the parameters are its locals. The memory of a validator that is done is used
    /// again.
    ///
    /// # Errors
    ///
    /// The module has no function type at the index, or one with more parameters than a function may have locals by these limits; or
    /// there is no memory. The offset is 0, since no byte is read.
    pub fn into_validator(self, allocs: FuncValidatorAllocations) -> Result<FuncValidator<R>>
        requires within { IsWithinCeilings self.limits }
        ensures exact { Tells result (MayBegin (R.meaning self.resources) self.limits.locals self.ty) }
        ensures begins { IfOk result (λ v. Begins (R.meaning self.resources) self.features.0 self.ty v.validator) }
        ensures resources { IfOk result (λ v. v.resources ≡ self.resources) }
        ensures index { IfOk result (λ v. v.index ≡ self.index) }
        ensures limits { IfOk result (λ v. v.limits ≡ self.limits) }
        ensures at { RefusedAt 0 result }
    {
        self.begin_at(0, allocs)
    }

    /// The same, if a refusal is to be told at this offset.
    #[inline]
    pub(crate) fn begin_at(
        self,
        offset: u64,
        allocs: FuncValidatorAllocations,
    ) -> Result<FuncValidator<R>>
        requires within { IsWithinCeilings self.limits }
        ensures exact { Tells result (MayBegin (R.meaning self.resources) self.limits.locals self.ty) }
        ensures begins { IfOk result (λ v. Begins (R.meaning self.resources) self.features.0 self.ty v.validator) }
        ensures resources { IfOk result (λ v. v.resources ≡ self.resources) }
        ensures index { IfOk result (λ v. v.index ≡ self.index) }
        ensures limits { IfOk result (λ v. v.limits ≡ self.limits) }
        ensures at { RefusedAt offset result }
    {
        let FuncToValidate {
            resources,
            index,
            ty,
            features,
            limits,
        } = self;
        let FuncValidatorAllocations { allocs, alloc } = allocs;
        let validator = match new_func(ty, offset, &features, limits, &resources, allocs) {
            Ok(validator) => validator,
            Err(error) => return Err(error),
        };
        Ok(FuncValidator {
            validator,
            resources,
            index,
            limits: HeldLimits::new(limits),
            alloc,
        })
    }
}
