//! The start function, the data count, and the functions whose code comes.

ghost use Rattle.std.specs.Prelude.{◌≡◌, ◌≤◌, IfErr, OnOk, OnErr};
ghost use Rattle.wasm_types.specs.decoding.Denials.{Tells};
ghost use Rattle.wasm_types.specs.decoding.declared.error.ErrorKind.TheVariants.{Other};
ghost use Rattle.wasm_types.specs.settings.Features.{BulkMemory};
ghost use Rattle.wasm_types.specs.trees.Gates.{Has};
ghost use Rattle.wasm_module_validator_checks.specs.rules.Valid.{IsValidStart};
ghost use Rattle.wasm_module_validator_resources.specs.Named.{IsReadOver};
ghost use Rattle.wasm_module_validator_resources.specs.Reading.{context_of};
ghost use Rattle.wasm_module_validator_state.specs.Adding.{counting_data};
ghost use Rattle.wasm_module_validator_state.specs.Items.{IsNextCode};

use crate::ModuleState;
use wasm_module_validator_checks::sections::{check_data_count, check_start};
use wasm_module_validator_type_list::TypeList;
use wasm_types::Result;

impl ModuleState {
    /// Refuses a start function that takes or gives anything.
    ///
    /// # Errors
    ///
    /// The module has no such function, or its type is not `[] -> []`: an error of kind `Other`, at `offset`.
    pub fn check_start(&self, func: u32, types: &TypeList, offset: u64) -> Result<()>
        requires { IsReadOver types.now.groups self.now.spaces }
        ensures answer { Tells result (IsValidStart (context_of types.now.groups self.now.spaces) func) }
        ensures refused { IfErr result (λ e. (e.kind ≡ Other) × (e.offset ≡ offset)) }
    {
        check_start(&self.resources(types), func, offset)
    }

    /// Notes how many data segments the data count section names. The context then has that count.
    ///
    /// # Errors
    ///
    /// The features of memories in bulk are not allowed, or `count` is above the limit of data segments: an error of kind `Other`, at
    /// `offset`. The state stays then.
    pub fn add_data_count(&mut self, count: u32, offset: u64) -> Result<()>
        ensures answer { Tells result (Has self.old.spaces.settings.features BulkMemory
            × (count ≤ self.old.spaces.settings.limits.data_segments)) }
        ensures added { OnOk result (self.new ≡ record self.old { spaces = counting_data count self.old.spaces }) }
        ensures stays { OnErr result (self.new ≡ self.old) }
        ensures refused { IfErr result (λ e. (e.kind ≡ Other) × (e.offset ≡ offset)) }
    {
        check_data_count(count, &self.settings(), offset)?;
        self.module.set_data_count(count);
        Ok(())
    }

    /// The function whose code comes next, and the index of its type; none where each function has its code.
    pub fn next_code_index_and_type(&mut self) -> Option<(u32, u32)>
        ensures { IsNextCode self.old self.new result }
    {
        let index = match self.code_section_index {
            Some(index) => index,
            None => self.module.imported_functions(),
        };
        if index >= self.module.function_count() {
            return None;
        }
        let Some(function) = self.module.function_at(index) else {
            return None;
        };
        self.code_section_index = Some(index + 1);
        Some((index, function.type_index))
    }
}
