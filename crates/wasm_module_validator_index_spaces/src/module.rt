//! A module and its index spaces.

use std::alloc::Global;
use std::marker::Model;
use wasm_module_validator_type_groups::adding::Module as ModuleTypes;
use wasm_types::{CoreTypeId, GlobalType, Limits, MemoryType, RefType, TableType, WasmFeatures};

/// A function of a module: the index of its type, whether it is known to have exactly that type (the proposal on custom
/// descriptors), and whether code may refer to it.
#[derive(Clone, Copy, Debug, PartialEq, Eq)]
pub struct Function {
    /// The index of its type.
    pub type_index: u32,
    /// Whether it has exactly that type: each function but an inexact import.
    pub is_exact: bool,
    /// Whether code may make a reference to it.
    pub is_referenced: bool,
}

/// A module as far as it was read. A contract sees its index spaces (`specs/Spaces.antt`).
#[derive(Drop)]
pub struct Module {
    pub(crate) types: ModuleTypes,
    pub(crate) functions: Vec<Function>,
    pub(crate) tables: Vec<TableType>,
    pub(crate) memories: Vec<MemoryType>,
    pub(crate) globals: Vec<GlobalType>,
    pub(crate) tags: Vec<CoreTypeId>,
    pub(crate) element_types: Vec<RefType>,
    pub(crate) data_segments: Option<u32>,
    pub(crate) imported_functions: u32,
    pub(crate) imported_globals: u32,
}

impl Model for Module {
    ghost use Rattle.wasm_module_validator_type_groups.specs.adding.Modules.{settings_of};
    ghost use Rattle.wasm_module_validator_index_spaces.specs.Spaces.{Spaces, AreCounted, AreTyped};

    ghost Value = { Spaces };

    ghost view = { λ m. record {
      settings = settings_of m.types.features.0 m.types.limits;
      types = m.types.types.items;
      functions = m.functions.items;
      tables = m.tables.items;
      memories = m.memories.items;
      globals = m.globals.items;
      tags = m.tags.items;
      elements = m.element_types.items;
      data_count = m.data_segments;
      imported_functions = m.imported_functions;
      imported_globals = m.imported_globals;
    } };

    ghost invariant = { λ m. AreTyped m.types.types.items m.functions.items
        × AreCounted m.functions.items m.element_types.items m.globals.items m.imported_functions m.imported_globals };
}

impl Module {
    ghost use Rattle.std.specs.Prelude.{◌≡◌};
    ghost use Rattle.wasm_module_validator_type_groups.specs.adding.Modules.{settings_of};
    ghost use Rattle.wasm_module_validator_index_spaces.specs.Spaces.{nothing_read};

    /// A module of which nothing was read, under these features and limits. It takes no memory.
    pub fn new(alloc: Global, features: WasmFeatures, limits: Limits) -> Module
        ensures { result ≡ nothing_read (settings_of features.0 limits) }
    {
        Module {
            types: ModuleTypes::new(alloc, features, limits),
            functions: Vec::new(alloc),
            tables: Vec::new(alloc),
            memories: Vec::new(alloc),
            globals: Vec::new(alloc),
            tags: Vec::new(alloc),
            element_types: Vec::new(alloc),
            data_segments: None,
            imported_functions: 0,
            imported_globals: 0,
        }
    }
}
