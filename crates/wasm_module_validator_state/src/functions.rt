//! Functions that are imported and exported, without an error.
//!
//! Nearly all imports and exports are functions, and nearly all are valid. Where one is not, it stays open why: the calls that make an error
//! name the fault.

ghost use Rattle.std.specs.Prelude.{◌≡◌, ◌+◌, ◌<◌, false, IfSome, IfNone};
ghost use Rattle.wasm_sections_items.specs.declared.imports.kind.ExternalKind.TheVariants as kind;
ghost use Rattle.wasm_sections_items.specs.declared.imports.type_ref.TypeRef.TheVariants as import;
ghost use Rattle.wasm_module_validator_checks.specs.rules.Valid.{IsFunctionIndex, IsValidExport, export_size, import_size};
ghost use Rattle.wasm_module_validator_exports.specs.Sizes.{IsAllBelow};
ghost use Rattle.wasm_module_validator_resources.specs.Named.{IsReadOver};
ghost use Rattle.wasm_module_validator_resources.specs.Reading.{context_of};
ghost use Rattle.wasm_module_validator_state.specs.Items.{IsExportable, IsExported, IsImportable, IsImported};

use crate::ModuleState;
use wasm_module_validator_exports::{Tried, exported_function_size, imported_function_size};
use wasm_module_validator_type_list::TypeList;
use wasm_sections_items::imports::ExternalKind;

impl ModuleState {
    // The sum of sizes with that of an imported function's type, where that is a function type and the sum stays below the limit.
    fn combine_function(&self, type_index: u32, types: &TypeList) -> Option<u32>
        requires { IsReadOver types.now.groups self.now.spaces }
        ensures function { IfSome result (λ _. IsFunctionIndex (context_of types.now.groups self.now.spaces)
            type_index) }
        ensures sum { IfSome result (IsAllBelow self.now.spaces.settings.limits.type_size (self.now.type_size
            + import_size (context_of types.now.groups self.now.spaces) (import.Func type_index))) }
    {
        let limit = self.module.limits().type_size;
        imported_function_size(&self.resources(types), self.type_size, type_index, limit)
    }

    /// Imports a function, by its names and the index of its type, where nothing refuses it and there is memory. Else the state stays. It
    /// makes no error.
    pub fn import_function(
        &mut self,
        module: &str,
        name: &str,
        type_index: u32,
        types: &TypeList,
    ) -> Option<()>
        requires { IsReadOver types.now.groups self.old.spaces }
        ensures importable { IfSome result (λ _. IsImportable types.now.groups self.old (import.Func type_index)) }
        ensures imported { IfSome result (λ _. IsImported types.now.groups
            (record { module_name = «module».now; field_name = name.now; ty = import.Func type_index })
            self.old self.new) }
        ensures read { IsReadOver types.now.groups self.new.spaces }
        ensures stays { IfNone result (self.new ≡ self.old) }
    {
        let Some(type_size) = self.combine_function(type_index, types) else {
            return None;
        };
        let imports = &mut self.imports;
        let Some(()) = self
            .module
            .import_function_named(imports, module, name, type_index)
        else {
            self.lacks = self.module.function_count() < self.module.limits().functions;
            return None;
        };
        self.type_size = type_size;
        Some(())
    }

    // The sum of sizes with that of an exported function's type, where there is such a function and the sum stays below the limit.
    fn combine_exported(&self, index: u32, types: &TypeList) -> Option<u32>
        requires { IsReadOver types.now.groups self.now.spaces }
        ensures there { IfSome result (λ _. IsValidExport self.now.spaces.settings
            (context_of types.now.groups self.now.spaces) kind.Func index) }
        ensures sum { IfSome result (IsAllBelow self.now.spaces.settings.limits.type_size (self.now.type_size
            + export_size (context_of types.now.groups self.now.spaces) kind.Func index)) }
    {
        let limit = self.module.limits().type_size;
        exported_function_size(&self.resources(types), self.type_size, index, limit)
    }

    /// Exports a function by a name, where nothing refuses it and there is memory; code may then refer to it. Else the state stays. The
    /// limit of exports is not tested. It makes no error.
    pub fn export_function(&mut self, name: &str, index: u32, types: &TypeList) -> Option<()>
        requires { IsReadOver types.now.groups self.old.spaces }
        ensures exportable { IfSome result (λ _. IsExportable types.now.groups self.old name.now kind.Func index
            false) }
        ensures exported { IfSome result (λ _. IsExported types.now.groups name.now kind.Func index self.old self.new) }
        ensures read { IsReadOver types.now.groups self.new.spaces }
        ensures stays { IfNone result (self.new ≡ self.old) }
    {
        let Some(type_size) = self.combine_exported(index, types) else {
            return None;
        };
        match self.exports.add(name, ExternalKind::Func, index) {
            Tried::Added => (),
            Tried::Taken => return None,
            Tried::NoMemory => {
                self.lacks = true;
                return None;
            }
        }
        self.module.refer_to_function(index);
        self.type_size = type_size;
        Some(())
    }
}
