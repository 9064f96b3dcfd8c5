//! Data segments checked in a module that is shared: the check changes nothing that is kept.

ghost use Rattle.std.specs.Prelude.{◌≡◌, ◌≤◌, List, length, IfSome, IfNone, OnOk};
ghost use Rattle.wasm_operators_encoding.specs.ConstantDecoder.{ConstantText};
ghost use Rattle.wasm_module_validator_section_order.specs.items.Adding.{AddsShort};
ghost use Rattle.wasm_module_validator_section_order.specs.sections.Sections.{AddsIn};
ghost use Rattle.wasm_module_validator_section_order.specs.sections.Kinds.{data_read};
ghost use Rattle.wasm_sections_parser.specs.items.segments.Spells.{SpelledData};
ghost use Rattle.wasm_types.specs.decoding.Decoder.{State};
ghost use Rattle.wasm_types.specs.decoding.Denials.{Tells};
ghost use Rattle.wasm_types.specs.settings.Settings.{Settings};
ghost use Rattle.wasm_sections.specs.Payloads.{Counts};
ghost use Rattle.wasm_module_validator_section_order.specs.declared.items.bodies.Body.{Body};
ghost use Rattle.wasm_module_validator_section_order.specs.rules_in_order.Sections as section;
ghost use Rattle.wasm_module_validator_section_order.specs.rules_in_order.Steps.{SoFar, JudgesSection};
ghost use Rattle.wasm_module_validator_payloads.specs.Progress.{IsAt, IsRead};

use crate::reading::{
    OperatorValidatorAllocations, SectionItem, SharedModule, check_data_with, check_short_data_item,
};
use std::alloc::Global;
use wasm_module_validator_section_order::items::{AddItem, add_items};
use wasm_sections::{Data, DataSectionReader};
use wasm_types::{Error, Limits, Result, Words};

// A module whose data segments are checked, and the memory of the checks.
#[derive(Drop)]
struct DataCheck<'b> {
    module: &'b SharedModule,
    allocs: OperatorValidatorAllocations,
    alloc: Global,
}

impl<'a, 'b> AddItem<'a, Data<'a>> for DataCheck<'b> {
    ghost use Rattle.std.specs.Prelude.{◌≡◌};
    ghost use Rattle.std.proofs.Common.{◌∙◌, refl};
    ghost use Rattle.wasm_module_validator_section_order.specs.rules_in_order.Sections as section;
    ghost use Rattle.wasm_module_validator_section_order.specs.rules_in_order.Texts.{ItemRead};
    ghost use Rattle.wasm_module_validator_section_order.specs.sections.Sections.{Reading, AddsIn, RefusesIn};
    ghost use Rattle.wasm_module_validator_section_order.specs.sections.Kinds.{data_read};
    ghost use Rattle.wasm_module_validator_payloads.specs.Progress.{IsRead};

    ghost Tree = { Reading };

    ghost Item = { ItemRead section.data_segments };

    ghost of = { data_read };

    ghost reads = { λ d u. IsRead section.data_segments d.«module».now u };

    ghost adds = { λ u x v. AddsIn section.data_segments u x v };

    ghost refuses = { λ u x p e. RefusesIn section.data_segments u x p e };

    ghost grows = { λ c d. c.«module».now ≡ d.«module».now };

    ghost full = { λ c x e. ⊥ };

    fn add(&mut self, item: Data<'a>, offset: u64) -> Result<()> {
        let module = self.module;
        check_data_with(
            self.alloc,
            &item,
            module.state(),
            module.types(),
            &mut self.allocs,
            offset,
        )
    }

    fn add_short(&mut self, bytes: &[u8], at: usize, _limits: &Limits) -> Option<usize>
        requires inside { at ≤ length bytes.now }
        ensures added { IfSome result (AddsShort data_read data_read (λ z. SpelledData (ConstantText z))
            (AddsIn section.data_segments)
            (λ d u. IsRead section.data_segments d.«module».now u) self.old self.new _limits.now bytes.now at) }
        ensures stays { IfNone result (self.new ≡ self.old) }
        ensures grown { IfSome result (λ _. self.old.«module».now ≡ self.new.«module».now) }
    {
        let module = self.module;
        match check_short_data_item(module.state(), module.types(), bytes, at) {
            Some(end) => Some(end),
            None => None,
        }
    }

    ghost alike = { λ x y is. is };

    ghost grows_by_nothing = { λ c. refl };

    ghost grows_further = { λ c d e h k. h ∙ k };
}

/// Checks a data section that comes behind the section of this place.
///
/// # Errors
///
/// The section is out of order, or brings more segments than there may be; a segment cannot be read or is not valid, or a byte is left
/// behind the last; or there is no memory: the first of these.
pub(crate) fn check_data_section(
    alloc: Global,
    module: &SharedModule,
    last: u32,
    segments: DataSectionReader<'_>,
) -> Result<()>
    ensures answer { (z : Settings) (p : SoFar) (bodies : List Body) (b : State)
        → IsAt z (record { kept = «module».now; last = last }) bodies p → b.settings ≡ z
        → Counts b segments.entry.count segments.entry.reader
        → Tells result ((q : SoFar) × JudgesSection z p section.data_segments b.rest q) }
    ensures added { OnOk result ((z : Settings) (p q : SoFar) (bodies : List Body) (b : State)
        → IsAt z (record { kept = «module».now; last = last }) bodies p → b.settings ≡ z
        → Counts b segments.entry.count segments.entry.reader → JudgesSection z p section.data_segments b.rest q
        → IsAt z (record { kept = «module».now; last = 13 }) bodies q) }
{
    let offset = segments.range().start;
    if last >= 13 {
        return Err(Error::new(Words::SectionOutOfOrder, offset));
    }
    match <Data<'_> as SectionItem<'_>>::check_count(module.state(), segments.count(), offset) {
        Ok(()) => (),
        Err(error) => return Err(error),
    }
    let mut check = DataCheck {
        module,
        allocs: OperatorValidatorAllocations::new(alloc),
        alloc,
    };
    add_items(&mut check, segments)
}
