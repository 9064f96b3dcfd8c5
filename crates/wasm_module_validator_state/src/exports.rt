//! Exports.

ghost use Rattle.std.specs.Prelude.{◌≡◌, ◌+◌, ◌<◌, ◌≤◌, IsTrue, IfErr, IfOk, OnOk, OnErr, length};
ghost use Rattle.wasm_types.specs.decoding.Denials.{Tells, UnlessMemory};
ghost use Rattle.wasm_types.specs.decoding.declared.error.ErrorKind.TheVariants.{Other};
ghost use Rattle.wasm_module_validator_checks.specs.rules.Valid.{IsValidExport, export_size};
ghost use Rattle.wasm_module_validator_checks.specs.externs.Refusals.{IsRefusal, IsNeeded, allowing};
ghost use Rattle.wasm_module_validator_resources.specs.Named.{IsReadOver};
ghost use Rattle.wasm_module_validator_resources.specs.Reading.{context_of};
ghost use Rattle.wasm_module_validator_state.specs.Adding.{exporting};
ghost use Rattle.wasm_module_validator_state.specs.Items.{IsExportable, IsExported, IsRefusedBy};

use crate::ModuleState;
use wasm_module_validator_exports::{check_export, combine_export_size};
use wasm_module_validator_type_list::TypeList;
use wasm_sections_items::imports::ExternalKind;
use wasm_types::Result;

impl ModuleState {
    // What is exported.
    fn check_exported(
        &self,
        kind: ExternalKind,
        index: u32,
        types: &TypeList,
        offset: u64,
    ) -> Result<()>
        requires { IsReadOver types.now.groups self.now.spaces }
        ensures answer { Tells result (IsValidExport self.now.spaces.settings
            (context_of types.now.groups self.now.spaces) kind index) }
        ensures refused { IfErr result (λ e. IsNeeded self.now.spaces.settings.features
            (λ b. IsValidExport (allowing b self.now.spaces.settings)
            (context_of types.now.groups self.now.spaces) kind index) e.kind) }
        ensures at { IfErr result (λ e. e.offset ≡ offset) }
    {
        check_export(
            &self.resources(types),
            kind,
            index,
            &self.settings(),
            offset,
        )
    }

    // One export more, where that is tested.
    fn check_export_room(&self, check_limit: bool, offset: u64) -> Result<()>
        ensures answer { Tells result (IsTrue check_limit → length self.now.exports
            < self.now.spaces.settings.limits.exports) }
        ensures refused { IfErr result (λ e. (e.kind ≡ Other) × (e.offset ≡ offset)) }
    {
        if !check_limit {
            return Ok(());
        }
        self.check_export_count(1, offset)
    }

    // The sum of sizes with that of an export's type.
    fn combine_export(
        &self,
        kind: ExternalKind,
        index: u32,
        types: &TypeList,
        offset: u64,
    ) -> Result<u32>
        requires { IsReadOver types.now.groups self.now.spaces }
        ensures answer { Tells result (self.now.type_size + export_size
            (context_of types.now.groups self.now.spaces) kind index < self.now.spaces.settings.limits.type_size) }
        ensures sum { IfOk result (λ all. all ≡ self.now.type_size + export_size
            (context_of types.now.groups self.now.spaces) kind index) }
        ensures refused { IfErr result (λ e. (e.kind ≡ Other) × (e.offset ≡ offset)) }
    {
        combine_export_size(
            &self.resources(types),
            self.type_size,
            kind,
            index,
            &self.settings(),
            offset,
        )
    }

    // Code may refer to a function that is exported.
    fn refer_to_exported(&mut self, kind: ExternalKind, index: u32)
        ensures { self.new ≡ record self.old { spaces = exporting kind index self.old.spaces } }
    {
        match kind {
            ExternalKind::Func => self.module.refer_to_function(index),
            ExternalKind::FuncExact => self.module.refer_to_function(index),
            ExternalKind::Table => (),
            ExternalKind::Memory => (),
            ExternalKind::Global => (),
            ExternalKind::Tag => (),
        }
    }

    /// Adds an export; code may then refer to a function that is exported. The limit of exports is tested where that is asked.
    ///
    /// # Errors
    ///
    /// The index is past the end of its space, or the global is mutable and may not be exported; there are as many exports as the limit;
    /// the sizes of types pass their limit; or the name is taken: the first of these in that order, at `offset`. The last three are of
    /// kind `Other`. The state stays then.
    pub fn add_export(
        &mut self,
        name: &str,
        kind: ExternalKind,
        index: u32,
        types: &TypeList,
        offset: u64,
        check_limit: bool,
    ) -> Result<()>
        requires { IsReadOver types.now.groups self.old.spaces }
        ensures answer { Tells result (IsExportable types.now.groups self.old name.now kind index check_limit) }
        ensures exported { OnOk result (IsExported types.now.groups name.now kind index self.old self.new) }
        ensures read { IsReadOver types.now.groups self.new.spaces }
        ensures stays { OnErr result (self.new ≡ self.old) }
        ensures refused { IfErr result (λ e. UnlessMemory e.kind (e.offset ≡ offset)) }
        ensures kind { IfErr result (λ e. UnlessMemory e.kind (IsRefusedBy self.old.spaces.settings.features
            (λ b. IsValidExport (allowing b self.old.spaces.settings)
            (context_of types.now.groups self.old.spaces) kind index)
            (IsValidExport self.old.spaces.settings (context_of types.now.groups self.old.spaces) kind index) e.kind)) }
    {
        match self.check_exported(kind, index, types, offset) {
            Ok(()) => (),
            Err(error) => return Err(error),
        }
        match self.check_export_room(check_limit, offset) {
            Ok(()) => (),
            Err(error) => return Err(error),
        }
        let type_size = match self.combine_export(kind, index, types, offset) {
            Ok(type_size) => type_size,
            Err(error) => return Err(error),
        };
        match self.exports.insert(name, kind, index, offset) {
            Ok(()) => (),
            Err(error) => return Err(error),
        }
        self.refer_to_exported(kind, index);
        self.type_size = type_size;
        Ok(())
    }
}
