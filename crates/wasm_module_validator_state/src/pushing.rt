//! Tables, globals and element segments whose types were checked, and functions that code may refer to.
//!
//! What their constants are is checked above, over the state as it stands; here they are added, by types over ids.

ghost use Rattle.std.specs.Prelude.{◌≡◌, ◌<◌, IfErr, OnOk, OnErr, length, List};
ghost use Rattle.wasm_types.specs.decoding.Denials.{Tells, UnlessMemory};
ghost use Rattle.wasm_types.specs.decoding.declared.error.ErrorKind.TheVariants.{Other};
ghost use Rattle.wasm_module_validator_type_storage.specs.trees.Groups.{Group};
ghost use Rattle.wasm_module_validator_checks.specs.rules.Valid.{most_tables};
ghost use Rattle.wasm_module_validator_resources.specs.Named.{IsReadOver};
ghost use Rattle.wasm_module_validator_state.specs.Adding.{adding_table, adding_global, adding_element, referring};

use crate::ModuleState;
use std::alloc::Global;
use std::mem::replace;
use wasm_operator_validator_stacks::OperatorValidatorAllocations;
use wasm_types::{GlobalType, RefType, Result, TableType};

impl ModuleState {
    /// Adds a table whose type was checked, by its type over ids.
    ///
    /// # Errors
    ///
    /// There are as many tables as there may be: an error of kind `Other`, at `offset`. The state stays then.
    pub fn push_table(&mut self, ty: TableType, offset: u64) -> Result<()>
        ensures answer { Tells result (length self.old.spaces.tables < most_tables self.old.spaces.settings) }
        ensures added { OnOk result (self.new ≡ record self.old { spaces = adding_table ty self.old.spaces }) }
        ensures read { (groups : List Group) → IsReadOver groups self.old.spaces → IsReadOver groups self.new.spaces }
        ensures stays { OnErr result (self.new ≡ self.old) }
        ensures refused { IfErr result (λ e. UnlessMemory e.kind ((e.kind ≡ Other) × (e.offset ≡ offset))) }
    {
        match self.check_table_count(1, offset) {
            Ok(()) => (),
            Err(error) => return Err(error),
        }
        let most = self.settings().max_tables();
        self.module.add_table(ty, most, offset)
    }

    /// Adds a global whose type was checked, by its type over ids.
    ///
    /// # Errors
    ///
    /// There are as many globals as the limit: an error of kind `Other`, at `offset`. The state stays then.
    pub fn push_global(&mut self, ty: GlobalType, offset: u64) -> Result<()>
        ensures answer { Tells result (length self.old.spaces.globals < self.old.spaces.settings.limits.globals) }
        ensures added { OnOk result (self.new ≡ record self.old { spaces = adding_global ty self.old.spaces }) }
        ensures read { (groups : List Group) → IsReadOver groups self.old.spaces → IsReadOver groups self.new.spaces }
        ensures stays { OnErr result (self.new ≡ self.old) }
        ensures refused { IfErr result (λ e. UnlessMemory e.kind ((e.kind ≡ Other) × (e.offset ≡ offset))) }
    {
        match self.check_global_count(1, offset) {
            Ok(()) => (),
            Err(error) => return Err(error),
        }
        self.module.add_global(ty, offset)
    }

    /// Adds an element segment whose type was checked, by the type of its elements over ids.
    ///
    /// # Errors
    ///
    /// There are as many element segments as the limit: an error of kind `Other`, at `offset`. The state stays then.
    pub fn push_element_segment(&mut self, ty: RefType, offset: u64) -> Result<()>
        ensures answer { Tells result (length self.old.spaces.elements
            < self.old.spaces.settings.limits.element_segments) }
        ensures added { OnOk result (self.new ≡ record self.old { spaces = adding_element ty self.old.spaces }) }
        ensures read { (groups : List Group) → IsReadOver groups self.old.spaces → IsReadOver groups self.new.spaces }
        ensures stays { OnErr result (self.new ≡ self.old) }
        ensures refused { IfErr result (λ e. UnlessMemory e.kind ((e.kind ≡ Other) × (e.offset ≡ offset))) }
    {
        match self.check_element_segment_count(1, offset) {
            Ok(()) => (),
            Err(error) => return Err(error),
        }
        self.module.add_element_segment(ty, offset)
    }

    /// Lets code refer to the function at an index, if there is one.
    pub fn refer_to_function(&mut self, at: u32)
        ensures added { self.new ≡ record self.old { spaces = referring at self.old.spaces } }
        ensures read { (groups : List Group) → IsReadOver groups self.old.spaces → IsReadOver groups self.new.spaces }
    {
        self.module.refer_to_function(at);
    }

    /// The memory of constants that were checked, for those to come; none is left here.
    pub fn take_const_expr_allocs(&mut self, alloc: Global) -> OperatorValidatorAllocations
        ensures { self.new ≡ self.old }
    {
        replace(
            &mut self.const_expr_allocs,
            OperatorValidatorAllocations::new(alloc),
        )
    }

    /// Keeps the memory of a constant that was checked.
    pub fn keep_const_expr_allocs(&mut self, allocs: OperatorValidatorAllocations)
        ensures { self.new ≡ self.old }
    {
        self.const_expr_allocs = allocs;
    }
}
