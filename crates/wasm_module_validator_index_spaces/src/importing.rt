//! Functions that are imported, and found by their names, without an error.

ghost use Rattle.std.specs.Prelude.{◌≡◌, ◌∷◌, ◌++◌, ◌+◌, ◌<◌, [], false, IfSome, IfNone, length, vec_len, vec_capacity};
ghost use Rattle.wasm_sections_items.specs.declared.imports.kind.ExternalKind.TheVariants.{Func};
ghost use Rattle.wasm_module_validator_exports.specs.names.Imports.{with_import};
ghost use Rattle.wasm_module_validator_index_spaces.specs.Spaces.{imported_function};

use crate::{Function, Module};
use wasm_module_validator_canonical_types::InternRecGroup;
use wasm_module_validator_exports::{Imports, Place};
use wasm_sections_items::imports::ExternalKind;

// A function behind the others, in room that is there.
fn push_in_room(functions: &mut Vec<Function>, function: Function)
    requires { vec_len functions.old < vec_capacity functions.old }
    ensures { functions.new.items ≡ functions.old.items ++ function ∷ [] }
{
    let _ = functions.push(function);
}

impl Module {
    /// Adds a function that is imported, not exactly, by the index of its type, and to these imports by its names; where there is room and
    /// memory for both. Else both stay. It makes no error.
    pub fn import_function_named(
        &mut self,
        imports: &mut Imports,
        module: &str,
        name: &str,
        type_index: u32,
    ) -> Option<()>
        requires { type_index < length self.old.types }
        ensures room { IfSome result (λ _. length self.old.functions < self.old.settings.limits.functions) }
        ensures added { IfSome result (λ _. self.new
            ≡ record self.old {
              functions = self.old.functions ++ imported_function false type_index ∷ [];
              imported_functions = self.old.imported_functions + 1;
            }) }
        ensures named { IfSome result (λ _. imports.new ≡ with_import «module».now name.now
            (record { kind = Func; index = length self.old.functions }) imports.old) }
        ensures stays { IfNone result (self.new ≡ self.old) }
        ensures unnamed { IfNone result (imports.new ≡ imports.old) }
    {
        let count = self.functions.len();
        if count >= self.types.limits().functions as usize {
            return None;
        }
        let Ok(()) = self.functions.reserve(1) else {
            return None;
        };
        let place = Place {
            kind: ExternalKind::Func,
            index: count as u32,
        };
        if !imports.add(module, name, place) {
            return None;
        }
        let function = Function {
            type_index,
            is_exact: false,
            is_referenced: false,
        };
        push_in_room(&mut self.functions, function);
        self.imported_functions += 1;
        Some(())
    }
}
