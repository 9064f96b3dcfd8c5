//! The state of a module that is being judged.

ghost use Rattle.std.specs.Prelude.{◌≡◌};
ghost use Rattle.wasm_module_validator_type_groups.specs.adding.Modules.{settings_of};
ghost use Rattle.wasm_module_validator_resources.specs.Named.{IsReadOver};
ghost use Rattle.wasm_module_validator_resources.specs.Reading.{meaning_of};
ghost use Rattle.wasm_module_validator_state.specs.Items.{no_items};

use std::alloc::Global;
use std::marker::Model;
use wasm_module_validator_checks::externs::Settings;
use wasm_module_validator_exports::{Exports, Imports};
use wasm_module_validator_resources::{Module, OperatorValidatorResources};
use wasm_module_validator_type_list::TypeList;
use wasm_operator_validator_stacks::OperatorValidatorAllocations;
use wasm_types::{Error, ErrorKind, Limits, WasmFeatures};

/// A module whose items are checked and added one by one. A contract sees what was added (`specs/Items.antt`).
#[derive(Drop)]
pub struct ModuleState {
    pub(crate) module: Module,
    pub(crate) imports: Imports,
    pub(crate) exports: Exports,
    // The sizes of the types of imports and exports, and one.
    pub(crate) type_size: u32,
    // The function whose code comes next, once code has come.
    pub(crate) code_section_index: Option<u32>,
    // The memory of constants that were checked, for those to come.
    pub(crate) const_expr_allocs: OperatorValidatorAllocations,
    // Whether memory was refused to an item that its bytes alone tell.
    pub(crate) lacks: bool,
}

impl Model for ModuleState {
    ghost use Rattle.wasm_module_validator_state.specs.Items.{Items};

    ghost Value = { Items };

    ghost view = { λ m. record {
      spaces = m.«module»;
      imports = m.imports;
      exports = m.exports;
      type_size = m.type_size;
      next_code = m.code_section_index;
    } };
}

impl ModuleState {
    /// A module without items, under these features and limits. It takes no memory.
    pub fn new(alloc: Global, features: WasmFeatures, limits: Limits) -> ModuleState
        ensures { result ≡ no_items (settings_of features.0 limits) }
    {
        ModuleState {
            module: Module::new(alloc, features, limits),
            imports: Imports::new(alloc),
            exports: Exports::new(alloc),
            type_size: 1,
            code_section_index: None,
            const_expr_allocs: OperatorValidatorAllocations::new(alloc),
            lacks: false,
        }
    }

    /// Notes that an item which its bytes alone tell was refused by this error, if that was for want of memory. No contract sees it.
    #[cold]
    pub fn note(&mut self, error: &Error)
        ensures { self.new ≡ self.old }
    {
        if error.kind() == ErrorKind::OutOfMemory {
            self.lacks = true;
        }
    }

    /// Notes that memory was refused while such an item was judged, if so.
    pub fn note_lack(&mut self, lacks: bool)
        ensures { self.new ≡ self.old }
    {
        self.lacks = self.lacks || lacks;
    }

    /// Whether either was noted: then the item is refused for want of memory when it is read again.
    pub fn lacks_memory(&self) -> bool {
        self.lacks
    }

    /// The module as far as it was read.
    pub fn module(&self) -> &Module
        ensures { result.now ≡ self.now.spaces }
    {
        &self.module
    }

    /// What it is judged by.
    pub fn settings(&self) -> Settings
        ensures { result ≡ self.now.spaces.settings }
    {
        Settings::new(self.module.features(), self.module.limits())
    }

    /// Its imports by their names: each pair of names once, in the order in which they came first.
    pub fn imports(&self) -> &Imports
        ensures { result.now ≡ self.now.imports }
    {
        &self.imports
    }

    /// Its exports, in their order.
    pub fn exports(&self) -> &Exports
        ensures { result.now ≡ self.now.exports }
    {
        &self.exports
    }

    /// The sum of the sizes of the types of its imports and exports, and one.
    pub fn type_size(&self) -> u32
        ensures { result ≡ self.now.type_size }
    {
        self.type_size
    }

    /// What checks ask of the module, and of the list that it was read over.
    pub fn resources<'a>(&'a self, types: &'a TypeList) -> OperatorValidatorResources<'a>
        requires { IsReadOver types.now.groups self.now.spaces }
        ensures { meaning_of result.types.now.groups result.«module».now ≡ meaning_of types.now.groups self.now.spaces }
    {
        OperatorValidatorResources::new(&self.module, types)
    }
}
