//! The import section. An import is lent to what adds it: its value holds types that a call by value cannot pass on.

ghost use Rattle.std.specs.Prelude.{◌≡◌, ◌≤◌, List, length, OnOk, IfSome, IfNone};
ghost use Rattle.wasm_types.specs.decoding.Decoder.{State};
ghost use Rattle.wasm_types.specs.decoding.Denials.{Tells};
ghost use Rattle.wasm_types.specs.settings.Settings.{Settings};
ghost use Rattle.wasm_sections.specs.Payloads.{Counts};
ghost use Rattle.wasm_module_validator_section_order.specs.declared.items.bodies.Body.{Body as TheBody};
ghost use Rattle.wasm_module_validator_section_order.specs.rules_in_order.Sections as section;
ghost use Rattle.wasm_module_validator_section_order.specs.rules_in_order.Steps.{SoFar, JudgesSection};
ghost use Rattle.wasm_module_validator_payloads.specs.Progress.{Grows, IsAt};

use crate::{Collected, InProgress};
use wasm_module_validator_declarations::{add_import_item, add_short_import};
use wasm_module_validator_section_order::items::{AddLent, add_lent_items};
use wasm_sections::ImportSectionReader;
use wasm_sections_items::imports::Import;
use wasm_types::{Error, Limits, Result};

impl<'a> AddLent<'a, Import<'a>> for Collected {
    ghost use Rattle.wasm_module_validator_section_order.specs.rules_in_order.Sections as section;
    ghost use Rattle.wasm_module_validator_section_order.specs.rules_in_order.Texts.{ItemRead};
    ghost use Rattle.wasm_module_validator_section_order.specs.sections.Sections.{Reading, AddsIn, RefusesIn};
    ghost use Rattle.wasm_module_validator_section_order.specs.sections.Kinds.{import_read};
    ghost use Rattle.wasm_module_validator_section_order.specs.items.Adding.{AddsShort};
    ghost use Rattle.wasm_sections_items.specs.imports.Spells.{SpelledImport};
    ghost use Rattle.wasm_module_validator_payloads.specs.Progress.{Grows, IsRead};
    ghost use Rattle.wasm_module_validator_payloads.specs.laws.Growing.{grows_by_nothing, grows_further};

    ghost Tree = { Reading };

    ghost Item = { ItemRead section.imports };

    ghost of = { import_read };

    ghost reads = { λ k u. IsRead section.imports k u };

    ghost adds = { λ u x v. AddsIn section.imports u x v };

    ghost refuses = { λ u x p e. RefusesIn section.imports u x p e };

    ghost grows = { λ k l. Grows k l };

    fn add_lent(&mut self, item: &Import<'a>, offset: u64) -> Result<()> {
        if self.state.lacks_memory() {
            return Err(Error::out_of_memory(offset));
        }
        add_import_item(&mut self.state, &self.types, item, offset)
    }

    fn add_lent_short(&mut self, bytes: &[u8], at: usize, limits: &Limits) -> Option<usize>
        requires inside { at ≤ length bytes.now }
        ensures added { IfSome result (AddsShort import_read import_read SpelledImport (AddsIn section.imports)
            (IsRead section.imports) self.old self.new limits.now bytes.now at) }
        ensures stays { IfNone result (self.new ≡ self.old) }
        ensures grown { IfSome result (λ _. Grows self.old self.new) }
    {
        add_short_import(&mut self.state, &self.types, bytes, at, limits)
    }

    ghost alike = { λ x y is. is };

    ghost grows_by_nothing = { grows_by_nothing };

    ghost grows_further = { grows_further };
}

impl InProgress {
    // Takes the import section.
    pub(crate) fn take_imports<'a>(&mut self, imports: ImportSectionReader<'a>) -> Result<()>
        ensures answer { (z : Settings) (p : SoFar) (bodies : List TheBody) (b : State) → IsAt z self.old bodies p
            → b.settings ≡ z
            → Counts b imports.entry.count imports.entry.reader
            → Tells result ((q : SoFar) × JudgesSection z p section.imports b.rest q) }
        ensures added { OnOk result ((z : Settings) (p q : SoFar) (bodies : List TheBody) (b : State)
            → IsAt z self.old bodies p → b.settings ≡ z
            → Counts b imports.entry.count imports.entry.reader → JudgesSection z p section.imports b.rest q
            → IsAt z self.new bodies q) }
        ensures grown { OnOk result (Grows self.old.kept self.new.kept) }
    {
        let offset = imports.range().start;
        match self.begin_section(2, offset) {
            Ok(()) => (),
            Err(error) => return Err(error),
        }
        match self
            .collected
            .state
            .check_import_count(0, imports.count(), offset)
        {
            Ok(()) => (),
            Err(error) => return Err(error),
        }
        add_lent_items(&mut self.collected, imports)
    }
}
