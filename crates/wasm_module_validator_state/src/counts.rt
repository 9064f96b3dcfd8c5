//! How many things a section may bring, tested where it begins: with those that are there they are at most the limit (WebAssembly 3.0,
//! appendix, implementation limitations).

ghost use Rattle.std.specs.Prelude.{◌≡◌, ◌+◌, ◌≤◌, IfErr, length};
ghost use Rattle.wasm_types.specs.decoding.Denials.{Tells};
ghost use Rattle.wasm_types.specs.decoding.declared.error.ErrorKind.TheVariants.{Other};
ghost use Rattle.wasm_module_validator_checks.specs.rules.Valid.{most_tables, most_memories};

use crate::ModuleState;
use wasm_module_validator_checks::externs::{check_max, too_many};
use wasm_types::{ModuleWords, Result, Words};

impl ModuleState {
    /// Refuses more groups of types than there is room for beside the types that are there.
    ///
    /// # Errors
    ///
    /// More than the limit of types: an error of kind `Other`, at `offset`.
    pub fn check_type_count(&self, count: u32, offset: u64) -> Result<()>
        ensures answer { Tells result (length self.now.spaces.types + count ≤ self.now.spaces.settings.limits.types) }
        ensures refused { IfErr result (λ e. (e.kind ≡ Other) × (e.offset ≡ offset)) }
    {
        let most = self.settings().limits().types;
        check_max(
            self.module.type_ids().len(),
            count,
            most,
            Words::Module(ModuleWords::Types),
            offset,
        )
    }

    /// Refuses more imports than the limit, beside so many that are there.
    ///
    /// # Errors
    ///
    /// More than the limit: an error of kind `Other`, at `offset`.
    pub fn check_import_count(&self, imports: usize, count: u32, offset: u64) -> Result<()>
        ensures answer { Tells result (imports + count ≤ self.now.spaces.settings.limits.imports) }
        ensures refused { IfErr result (λ e. (e.kind ≡ Other) × (e.offset ≡ offset)) }
    {
        let most = self.settings().limits().imports;
        check_max(
            imports,
            count,
            most,
            Words::Module(ModuleWords::Imports),
            offset,
        )
    }

    /// Refuses more functions than the limit.
    ///
    /// # Errors
    ///
    /// More than the limit: an error of kind `Other`, at `offset`.
    pub fn check_function_count(&self, count: u32, offset: u64) -> Result<()>
        ensures answer { Tells result (length self.now.spaces.functions + count
            ≤ self.now.spaces.settings.limits.functions) }
        ensures refused { IfErr result (λ e. (e.kind ≡ Other) × (e.offset ≡ offset)) }
    {
        let most = self.settings().limits().functions;
        let functions = self.module.function_count() as usize;
        check_max(
            functions,
            count,
            most,
            Words::Module(ModuleWords::Functions),
            offset,
        )
    }

    /// Refuses more tables than the limit, and more than one where the features ask for that.
    ///
    /// # Errors
    ///
    /// More than the limit: an error of kind `Other`, at `offset`.
    pub fn check_table_count(&self, count: u32, offset: u64) -> Result<()>
        ensures answer { Tells result (length self.now.spaces.tables + count ≤ most_tables self.now.spaces.settings) }
        ensures refused { IfErr result (λ e. (e.kind ≡ Other) × (e.offset ≡ offset)) }
    {
        let most = self.settings().max_tables();
        // A module tells what stands at an index: where something stands at the first that has to be free there are too many.
        if count > most || self.module.table_at(most - count).is_some() {
            return Err(too_many(most, Words::Module(ModuleWords::Tables), offset));
        }
        Ok(())
    }

    /// Refuses more memories than the limit, and more than one where the features ask for that.
    ///
    /// # Errors
    ///
    /// More than the limit: an error of kind `Other`, at `offset`.
    pub fn check_memory_count(&self, count: u32, offset: u64) -> Result<()>
        ensures answer { Tells result (length self.now.spaces.memories + count
            ≤ most_memories self.now.spaces.settings) }
        ensures refused { IfErr result (λ e. (e.kind ≡ Other) × (e.offset ≡ offset)) }
    {
        let most = self.settings().max_memories();
        if count > most || self.module.memory_at(most - count).is_some() {
            return Err(too_many(most, Words::Module(ModuleWords::Memories), offset));
        }
        Ok(())
    }

    /// Refuses more tags than the limit.
    ///
    /// # Errors
    ///
    /// More than the limit: an error of kind `Other`, at `offset`.
    pub fn check_tag_count(&self, count: u32, offset: u64) -> Result<()>
        ensures answer { Tells result (length self.now.spaces.tags + count ≤ self.now.spaces.settings.limits.tags) }
        ensures refused { IfErr result (λ e. (e.kind ≡ Other) × (e.offset ≡ offset)) }
    {
        let most = self.settings().limits().tags;
        if count > most || self.module.tag_at(most - count).is_some() {
            return Err(too_many(most, Words::Module(ModuleWords::Tags), offset));
        }
        Ok(())
    }

    /// Refuses more globals than the limit.
    ///
    /// # Errors
    ///
    /// More than the limit: an error of kind `Other`, at `offset`.
    pub fn check_global_count(&self, count: u32, offset: u64) -> Result<()>
        ensures answer { Tells result (length self.now.spaces.globals + count
            ≤ self.now.spaces.settings.limits.globals) }
        ensures refused { IfErr result (λ e. (e.kind ≡ Other) × (e.offset ≡ offset)) }
    {
        let most = self.settings().limits().globals;
        if count > most || self.module.global_at(most - count).is_some() {
            return Err(too_many(most, Words::Module(ModuleWords::Globals), offset));
        }
        Ok(())
    }

    /// Refuses more exports than the limit.
    ///
    /// # Errors
    ///
    /// More than the limit: an error of kind `Other`, at `offset`.
    pub fn check_export_count(&self, count: u32, offset: u64) -> Result<()>
        ensures answer { Tells result (length self.now.exports + count ≤ self.now.spaces.settings.limits.exports) }
        ensures refused { IfErr result (λ e. (e.kind ≡ Other) × (e.offset ≡ offset)) }
    {
        let most = self.settings().limits().exports;
        let exports = self.exports.len();
        check_max(
            exports,
            count,
            most,
            Words::Module(ModuleWords::Exports),
            offset,
        )
    }

    /// Refuses more element segments than the limit.
    ///
    /// # Errors
    ///
    /// More than the limit: an error of kind `Other`, at `offset`.
    pub fn check_element_segment_count(&self, count: u32, offset: u64) -> Result<()>
        ensures answer { Tells result (length self.now.spaces.elements + count
            ≤ self.now.spaces.settings.limits.element_segments) }
        ensures refused { IfErr result (λ e. (e.kind ≡ Other) × (e.offset ≡ offset)) }
    {
        let most = self.settings().limits().element_segments;
        let segments = self.module.element_count() as usize;
        check_max(
            segments,
            count,
            most,
            Words::Module(ModuleWords::ElementSegments),
            offset,
        )
    }

    /// Refuses more data segments than the limit.
    ///
    /// # Errors
    ///
    /// More than the limit: an error of kind `Other`, at `offset`.
    pub fn check_data_segment_count(&self, count: u32, offset: u64) -> Result<()>
        ensures answer { Tells result (count ≤ self.now.spaces.settings.limits.data_segments) }
        ensures refused { IfErr result (λ e. (e.kind ≡ Other) × (e.offset ≡ offset)) }
    {
        let most = self.settings().limits().data_segments;
        check_max(
            0,
            count,
            most,
            Words::Module(ModuleWords::DataSegments),
            offset,
        )
    }
}
