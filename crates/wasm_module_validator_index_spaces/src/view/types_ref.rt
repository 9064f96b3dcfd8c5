//! A module that was read, and the list of its types, borrowed.

ghost use Rattle.std.specs.Prelude.{◌≡◌};
ghost use Rattle.wasm_module_validator_index_spaces.specs.view.Entities.{export_entities, import_entities};

use crate::Module;
use crate::view::ValidatorId;
use crate::view::named::{CoreExports, CoreImports};
use std::marker::Model;
use wasm_module_validator_exports::names::{Exports, Imports};
use wasm_module_validator_type_list::TypeList;

/// What a validator learned of a module, borrowed: its index spaces, its imports and exports, and the list of its types. `types[id]` is
/// the type of an id.
#[derive(Drop)]
pub struct TypesRef<'a> {
    pub(crate) id: ValidatorId,
    pub(crate) types: &'a TypeList,
    pub(crate) module: &'a Module,
    pub(crate) imports: &'a Imports,
    pub(crate) exports: &'a Exports,
}

impl<'a> Model for TypesRef<'a> {
    ghost use Rattle.wasm_module_validator_index_spaces.specs.view.Shown.{Shown};

    ghost Value = { Shown };

    ghost view = { λ r. record {
      id = r.id;
      groups = r.types.now.groups;
      spaces = r.«module».now;
      imports = r.imports.now;
      exports = r.exports.now;
    } };
}

impl<'a> TypesRef<'a> {
    /// A module, with the list that its types stand in, its imports by their names and its exports, as the validator of this id learned
    /// them.
    pub fn new(
        id: ValidatorId,
        types: &'a TypeList,
        module: &'a Module,
        imports: &'a Imports,
        exports: &'a Exports,
    ) -> TypesRef<'a>
        ensures { result ≡ record {
          id = id;
          groups = types.now.groups;
          spaces = «module».now;
          imports = imports.now;
          exports = exports.now;
        } }
    {
        TypesRef {
            id,
            types,
            module,
            imports,
            exports,
        }
    }

    /// The id of the validator that learned it.
    pub fn id(&self) -> ValidatorId
        ensures { result ≡ self.now.id }
    {
        self.id
    }

    /// The imports, each by the name of its module and its own name, with what it is: pairs of names in the order in which they came
    /// first, and all imports of one pair together. It takes no memory.
    pub fn core_imports(&self) -> CoreImports<'a>
        ensures { result ≡ import_entities self.now.spaces self.now.imports }
    {
        CoreImports::new(self.module, self.imports)
    }

    /// The exports in their order, each by its name with what it is.
    pub fn core_exports(&self) -> CoreExports<'a>
        ensures { result ≡ export_entities self.now.spaces self.now.exports }
    {
        CoreExports::new(self.module, self.exports.iter())
    }
}
