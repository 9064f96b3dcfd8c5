//! Functions, memories and tags that the module has itself.

ghost use Rattle.std.specs.Prelude.{◌≡◌, ◌<◌, IfErr, OnOk, OnErr, length, List, true};
ghost use Rattle.wasm_types.specs.decoding.Denials.{Tells, UnlessMemory};
ghost use Rattle.wasm_types.specs.decoding.declared.error.ErrorKind.TheVariants.{Other};
ghost use Rattle.wasm_module_validator_type_storage.specs.trees.Groups.{Group};
ghost use Rattle.wasm_module_validator_checks.specs.rules.Valid.{IsFunctionIndex, IsValidMemoryType, IsValidTagType, most_memories};
ghost use Rattle.wasm_module_validator_checks.specs.externs.Refusals.{IsNeeded, allowing};
ghost use Rattle.wasm_module_validator_resources.specs.Named.{IsReadOver};
ghost use Rattle.wasm_module_validator_resources.specs.Reading.{context_of};
ghost use Rattle.wasm_module_validator_state.specs.Adding.{adding_function, adding_memory, adding_tag};
ghost use Rattle.wasm_module_validator_state.specs.Contexts.{with_function, with_memory, with_tag};
ghost use Rattle.wasm_module_validator_state.specs.Items.{IsRefusedBy};

use crate::ModuleState;
use wasm_module_validator_checks::externs::{check_memory_type, check_tag_type, func_type_at};
use wasm_module_validator_type_list::TypeList;
use wasm_types::{MemoryType, Result, TagType};

impl ModuleState {
    // The index of a function type.
    fn check_function_type(&self, type_index: u32, types: &TypeList, offset: u64) -> Result<()>
        requires { IsReadOver types.now.groups self.now.spaces }
        ensures answer { Tells result (IsFunctionIndex (context_of types.now.groups self.now.spaces) type_index) }
        ensures refused { IfErr result (λ e. (e.kind ≡ Other) × (e.offset ≡ offset)) }
    {
        match func_type_at(&self.resources(types), type_index, offset) {
            Ok(_) => Ok(()),
            Err(error) => Err(error),
        }
    }

    // The type of a tag.
    fn check_tag(&self, ty: &TagType, types: &TypeList, offset: u64) -> Result<()>
        requires { IsReadOver types.now.groups self.now.spaces }
        ensures answer { Tells result (IsValidTagType self.now.spaces.settings
            (context_of types.now.groups self.now.spaces) ty.now) }
        ensures refused { IfErr result (λ e. IsNeeded self.now.spaces.settings.features
            (λ b. IsValidTagType (allowing b self.now.spaces.settings)
            (context_of types.now.groups self.now.spaces) ty.now) e.kind) }
        ensures at { IfErr result (λ e. e.offset ≡ offset) }
    {
        match check_tag_type(&self.resources(types), ty, &self.settings(), offset) {
            Ok(_) => Ok(()),
            Err(error) => Err(error),
        }
    }

    /// Adds a function, by the index of its type.
    ///
    /// # Errors
    ///
    /// The module has no function type there, or as many functions as the limit: an error of kind `Other`, at `offset`. The state stays
    /// then.
    pub fn add_function(&mut self, type_index: u32, types: &TypeList, offset: u64) -> Result<()>
        requires { IsReadOver types.now.groups self.old.spaces }
        ensures answer { Tells result (IsFunctionIndex (context_of types.now.groups self.old.spaces) type_index
            × (length self.old.spaces.functions < self.old.spaces.settings.limits.functions)) }
        ensures added { OnOk result (self.new ≡ record self.old
            { spaces = adding_function type_index self.old.spaces }) }
        ensures context { OnOk result (context_of types.now.groups self.new.spaces ≡ with_function true type_index
            (context_of types.now.groups self.old.spaces)) }
        ensures read { IsReadOver types.now.groups self.new.spaces }
        ensures stays { OnErr result (self.new ≡ self.old) }
        ensures refused { IfErr result (λ e. UnlessMemory e.kind ((e.kind ≡ Other) × (e.offset ≡ offset))) }
    {
        match self.check_function_type(type_index, types, offset) {
            Ok(()) => (),
            Err(error) => return Err(error),
        }
        match self.check_function_count(1, offset) {
            Ok(()) => (),
            Err(error) => return Err(error),
        }
        self.module.add_function(type_index, offset)
    }

    /// Adds a memory.
    ///
    /// # Errors
    ///
    /// The type is not valid, or there are as many memories as there may be, of kind `Other`: the first of these, at `offset`. The state
    /// stays then.
    pub fn add_memory(&mut self, ty: MemoryType, offset: u64) -> Result<()>
        ensures answer { Tells result (IsValidMemoryType self.old.spaces.settings ty
            × (length self.old.spaces.memories < most_memories self.old.spaces.settings)) }
        ensures added { OnOk result (self.new ≡ record self.old { spaces = adding_memory ty self.old.spaces }) }
        ensures context { OnOk result ((groups : List Group) → context_of groups self.new.spaces ≡ with_memory ty
            (context_of groups self.old.spaces)) }
        ensures read { (groups : List Group) → IsReadOver groups self.old.spaces → IsReadOver groups self.new.spaces }
        ensures stays { OnErr result (self.new ≡ self.old) }
        ensures refused { IfErr result (λ e. UnlessMemory e.kind (e.offset ≡ offset)) }
        ensures kind { IfErr result (λ e. UnlessMemory e.kind
            (IsRefusedBy self.old.spaces.settings.features (λ b. IsValidMemoryType
            (allowing b self.old.spaces.settings) ty)
            (IsValidMemoryType self.old.spaces.settings ty) e.kind)) }
    {
        let settings = self.settings();
        match check_memory_type(&ty, &settings, offset) {
            Ok(()) => (),
            Err(error) => return Err(error),
        }
        match self.check_memory_count(1, offset) {
            Ok(()) => (),
            Err(error) => return Err(error),
        }
        self.module.add_memory(ty, settings.max_memories(), offset)
    }

    /// Adds a tag, by the index of its type.
    ///
    /// # Errors
    ///
    /// The type is not valid, or there are as many tags as the limit, of kind `Other`: the first of these, at `offset`. The state stays
    /// then.
    pub fn add_tag(&mut self, ty: TagType, types: &TypeList, offset: u64) -> Result<()>
        requires { IsReadOver types.now.groups self.old.spaces }
        ensures answer { Tells result (IsValidTagType self.old.spaces.settings
            (context_of types.now.groups self.old.spaces) ty ×
            (length self.old.spaces.tags < self.old.spaces.settings.limits.tags)) }
        ensures added { OnOk result (self.new ≡ record self.old
            { spaces = adding_tag ty.func_type_idx self.old.spaces }) }
        ensures context { OnOk result (context_of types.now.groups self.new.spaces ≡ with_tag ty.func_type_idx
            (context_of types.now.groups self.old.spaces)) }
        ensures read { IsReadOver types.now.groups self.new.spaces }
        ensures stays { OnErr result (self.new ≡ self.old) }
        ensures refused { IfErr result (λ e. UnlessMemory e.kind (e.offset ≡ offset)) }
        ensures kind { IfErr result (λ e. UnlessMemory e.kind (IsRefusedBy self.old.spaces.settings.features
            (λ b. IsValidTagType (allowing b self.old.spaces.settings) (context_of types.now.groups self.old.spaces) ty)
            (IsValidTagType self.old.spaces.settings (context_of types.now.groups self.old.spaces) ty) e.kind)) }
    {
        match self.check_tag(&ty, types, offset) {
            Ok(()) => (),
            Err(error) => return Err(error),
        }
        match self.check_tag_count(1, offset) {
            Ok(()) => (),
            Err(error) => return Err(error),
        }
        self.module.add_tag(ty.func_type_idx, offset)
    }
}
