//! Imports and exports by their names, with what they are.

ghost use Rattle.std.specs.Prelude.{◌≡◌};
ghost use Rattle.wasm_module_validator_index_spaces.specs.view.Entities.{export_entities, import_entities, places_of};

use crate::Module;
use crate::view::EntityType;
use crate::view::entity::entity_at;
use std::marker::Model;
use wasm_module_validator_exports::names::{Imports, NamedExports, Place};

/// The exports of a module that are left, in their order, each by its name with what it is. A contract sees them as a list.
#[derive(Drop)]
pub struct CoreExports<'a> {
    module: &'a Module,
    exports: NamedExports<'a>,
}

impl<'a> Model for CoreExports<'a> {
    ghost use Rattle.std.specs.Prelude.{ℕ, List};
    ghost use Rattle.wasm_module_validator_index_spaces.specs.declared.view.entity.EntityType.{EntityType as Entity};
    ghost use Rattle.wasm_module_validator_index_spaces.specs.view.Entities.{export_entities};

    ghost Value = { List (List ℕ × Entity) };

    ghost view = { λ e. export_entities e.«module».now e.exports };
}

impl<'a> CoreExports<'a> {
    // All of these.
    pub(crate) fn new(module: &'a Module, exports: NamedExports<'a>) -> CoreExports<'a>
        ensures { result ≡ export_entities «module».now exports.entry }
    {
        CoreExports { module, exports }
    }
}

impl<'a> Iterator for CoreExports<'a> {
    type Item = (&'a str, EntityType);

    ghost use Rattle.std.specs.Iterator.{YieldsFirstBy, item_count};

    ghost next_gives = { YieldsFirstBy (λ x. (x.0.now, x.1)) (λ rest. rest) };

    ghost remaining = { item_count (λ rest. rest) };

    fn next(&mut self) -> Option<(&'a str, EntityType)> {
        while let Some(export) = self.exports.next() {
            if let Some(ty) = entity_at(self.module, export.kind, export.index) {
                return Some((export.name, ty));
            }
        }
        None
    }
}

// What is imported and left, pair of names by pair of names.
#[derive(Drop)]
struct NamedPlaces<'a> {
    imports: &'a Imports,
    // How many pairs of names were given, and how many places of the next.
    past: usize,
    given: usize,
}

impl<'a> Model for NamedPlaces<'a> {
    ghost use Rattle.std.specs.Prelude.{ℕ, List, drop};
    ghost use Rattle.wasm_module_validator_exports.specs.declared.names.imports.Place.{Place as ThePlace};
    ghost use Rattle.wasm_module_validator_index_spaces.specs.view.Entities.{places_behind};

    ghost Value = { List ((List ℕ × List ℕ) × ThePlace) };

    ghost view = { λ p. places_behind p.given (drop p.past p.imports.now) };
}

impl<'a> Iterator for NamedPlaces<'a> {
    type Item = (&'a str, &'a str, Place);

    ghost use Rattle.std.specs.Iterator.{YieldsFirstBy, item_count};

    ghost next_gives = { YieldsFirstBy (λ x. ((x.0.now, x.1.now), x.2)) (λ rest. rest) };

    ghost remaining = { item_count (λ rest. rest) };

    fn next(&mut self) -> Option<(&'a str, &'a str, Place)> {
        while let Some(named) = self.imports.get(self.past) {
            if let Some(place) = named.place(self.given) {
                let item = (named.module, named.name, place);
                self.given += 1;
                return Some(item);
            }
            self.past += 1;
            self.given = 0;
        }
        None
    }
}

/// The imports of a module that are left, each by the name of its module and its own name, with what it is: pairs of names in the order in
/// which they came first, and all imports of one pair together. A contract sees them as a list.
#[derive(Drop)]
pub struct CoreImports<'a> {
    module: &'a Module,
    places: NamedPlaces<'a>,
}

impl<'a> Model for CoreImports<'a> {
    ghost use Rattle.std.specs.Prelude.{ℕ, List};
    ghost use Rattle.wasm_module_validator_index_spaces.specs.declared.view.entity.EntityType.{EntityType as Entity};
    ghost use Rattle.wasm_module_validator_index_spaces.specs.view.Entities.{placed_entities};

    ghost Value = { List ((List ℕ × List ℕ) × Entity) };

    ghost view = { λ i. placed_entities i.«module».now i.places };
}

impl<'a> CoreImports<'a> {
    // All of these.
    pub(crate) fn new(module: &'a Module, imports: &'a Imports) -> CoreImports<'a>
        ensures { result ≡ import_entities «module».now imports.now }
    {
        CoreImports {
            module,
            places: NamedPlaces {
                imports,
                past: 0,
                given: 0,
            },
        }
    }
}

impl<'a> Iterator for CoreImports<'a> {
    type Item = (&'a str, &'a str, EntityType);

    ghost use Rattle.std.specs.Iterator.{YieldsFirstBy, item_count};

    ghost next_gives = { YieldsFirstBy (λ x. ((x.0.now, x.1.now), x.2)) (λ rest. rest) };

    ghost remaining = { item_count (λ rest. rest) };

    fn next(&mut self) -> Option<(&'a str, &'a str, EntityType)> {
        while let Some((module, name, place)) = self.places.next() {
            if let Some(ty) = entity_at(self.module, place.kind, place.index) {
                return Some((module, name, ty));
            }
        }
        None
    }
}
