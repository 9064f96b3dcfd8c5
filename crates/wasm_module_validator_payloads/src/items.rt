//! The items of a section, whatever they are.

ghost use Rattle.std.specs.Prelude.{◌≡◌, ◌≤◌, List, length, OnOk, IfErr, IfSome, IfNone, true};
ghost use Rattle.wasm_types.specs.decoding.Decoder.{State, Done};
ghost use Rattle.wasm_types.specs.decoding.Denials.{Tells};
ghost use Rattle.wasm_types.specs.reader.Reading.{IsNotMemory};
ghost use Rattle.wasm_types.specs.settings.Limits.{IsWithinCeilings};
ghost use Rattle.wasm_types.specs.settings.Settings.{Settings};
ghost use Rattle.wasm_module_validator_resources.specs.Named.{IsReadOver};
ghost use Rattle.wasm_module_validator_type_storage.specs.trees.Groups.{Group};
ghost use Rattle.wasm_module_validator_section_order.specs.rules.Syntax.{ModuleTree};
ghost use Rattle.wasm_module_validator_section_order.specs.rules_in_order.Sections.{Section, place, IsUnread};
ghost use Rattle.wasm_module_validator_section_order.specs.rules_in_order.Adding.{Fits};
ghost use Rattle.wasm_module_validator_section_order.specs.rules_in_order.Texts.{ItemRead, AddsRead};
ghost use Rattle.wasm_module_validator_state.specs.invariant.Standing.{GrowsWith, Stands};
ghost use Rattle.wasm_module_validator_section_order.specs.sections.Sections.{Reading, AddsIn, RefusesIn, MayBegin};
ghost use Rattle.wasm_module_validator_section_order.specs.sections.Kinds.{WalksTell};
ghost use Rattle.wasm_module_validator_payloads.specs.Progress.{AddsShortIn, FullIn, Grows, IsOver, IsRead, Reads, TellsRead};
ghost use Rattle.wasm_module_validator_payloads.specs.laws.Growing.{grows_by_nothing, grows_further};

use crate::Collected;
use std::alloc::Global;
use wasm_module_validator_section_order::items::AddItem;
use wasm_module_validator_state::invariant::ModuleState;
use wasm_module_validator_type_list::TypeList;
use wasm_types::{Error, FromReader, Limits, Result};

/// An item of a section: what is asked where the section begins, and how an item is added.
pub trait SectionItem<'a>: FromReader<'a> {
    /// The section that it stands in.
    ghost section: { Section };

    /// What is read of it.
    ghost of: { Self → ItemRead section };

    /// The place of the section in the order of sections.
    fn place() -> u32
        ensures { result ≡ place section };

    /// Refuses a section of more items than there may be, or that no feature allows, at this offset.
    fn check_count(state: &ModuleState, count: u32, offset: u64) -> Result<()>
        ensures answer { (groups : List Group) (z : Settings) (m : ModuleTree) → Stands groups state.now z m
            → IsUnread section m
            → Tells result (MayBegin z section × Fits z section m count) }
        ensures refused { IfErr result (λ e. IsNotMemory e.kind × (e.offset ≡ offset)) };

    /// Checks an item that was read, which begins at this offset, and adds it.
    fn add_to(
        self,
        alloc: Global,
        state: &mut ModuleState,
        types: &mut TypeList,
        groups: &mut u32,
        offset: u64,
    ) -> Result<()>
        requires over { IsReadOver types.old.groups state.old.spaces }
        requires interning { types.old.can_intern ≡ true }
        requires ceilings { IsWithinCeilings state.old.spaces.settings.limits }
        requires read { (z : Settings) × (s : State) × (t : State)
            × (Self.FromReader.decoder z s ≡ Done (Self.FromReader.view self) t) }
        ensures answer { TellsRead section types.old.groups state.old groups.old (of self) result }
        ensures added { OnOk result ((z : Settings) (m n : ModuleTree)
            → Reads section types.old.groups state.old groups.old z m → AddsRead z section m (of self) n
            → Reads section types.new.groups state.new groups.new z n) }
        ensures over { OnOk result (IsReadOver types.new.groups state.new.spaces) }
        ensures interning { OnOk result (types.new.can_intern ≡ true) }
        ensures kept { state.new.spaces.settings ≡ state.old.spaces.settings }
        ensures limits { types.new.limits ≡ types.old.limits }
        ensures grown { OnOk result (GrowsWith types.old.groups state.old.spaces types.new.groups state.new.spaces) };

    /// Adds the item that begins at an offset of these bytes, if the bytes alone tell that it may be added, and answers where it ends.
    /// Else nothing has changed.
    fn add_short(
        alloc: Global,
        state: &mut ModuleState,
        types: &TypeList,
        bytes: &[u8],
        at: usize,
        limits: &Limits,
    ) -> Option<usize>
        requires over { IsReadOver types.now.groups state.old.spaces }
        requires inside { at ≤ length bytes.now }
        ensures added { IfSome result (AddsShortIn section Self.FromReader.view of Self.FromReader.grammar
            types.now.groups state.old
            state.new limits.now bytes.now at) }
        ensures stays { IfNone result (state.new ≡ state.old) }
        ensures over { IfSome result (λ _. IsReadOver types.now.groups state.new.spaces) }
        ensures settings { IfSome result (λ _. state.new.spaces.settings ≡ state.old.spaces.settings) }
        ensures grown { IfSome result (λ _. GrowsWith types.now.groups state.old.spaces types.now.groups
            state.new.spaces) };

    /// Items whose bytes are read alike are the same.
    ghost alike: { (x y : Self) → Self.FromReader.view x ≡ Self.FromReader.view y → of x ≡ of y };

    /// What a walk over the items of a section tells of the section.
    ghost tells: { WalksTell section Self.FromReader.view of Self.FromReader.decoder Self.FromReader.grammar };
}

// Adds an item. Where it is refused nothing is kept: the list may have grown without the module.
fn add_or_forget<'a, T: SectionItem<'a>>(
    item: T,
    alloc: Global,
    state: &mut ModuleState,
    types: &mut TypeList,
    groups: &mut u32,
    offset: u64,
) -> Result<()>
    requires over { IsOver types.old state.old.spaces }
    requires interning { types.old.can_intern ≡ true }
    requires read { (z : Settings) × (s : State) × (t : State)
        × (T.FromReader.decoder z s ≡ Done (T.FromReader.view item) t) }
    ensures answer { TellsRead T.section types.old.groups state.old groups.old (T.of item) result }
    ensures added { OnOk result ((z : Settings) (m n : ModuleTree)
        → Reads T.section types.old.groups state.old groups.old z m → AddsRead z T.section m (T.of item) n
        → Reads T.section types.new.groups state.new groups.new z n) }
    ensures kept { (types.new.can_intern ≡ true) × IsOver types.new state.new.spaces }
    ensures settings { OnOk result (state.new.spaces.settings ≡ state.old.spaces.settings) }
    ensures grown { OnOk result (GrowsWith types.old.groups state.old.spaces types.new.groups state.new.spaces) }
{
    match item.add_to(alloc, state, types, groups, offset) {
        Ok(()) => Ok(()),
        Err(error) => {
            let settings = state.settings();
            let limits = settings.limits();
            *state = ModuleState::new(alloc, settings.features(), limits);
            *types = TypeList::new(alloc, limits);
            Err(error)
        }
    }
}

impl<'a, T: SectionItem<'a>> AddItem<'a, T> for Collected {
    ghost Tree = { Reading };

    ghost Item = { ItemRead T.section };

    ghost of = { T.of };

    ghost reads = { λ k u. IsRead T.section k u };

    ghost adds = { λ u x v. AddsIn T.section u x v };

    ghost refuses = { λ u x p e. RefusesIn T.section u x p e };

    ghost grows = { λ k l. Grows k l };

    ghost full = { λ k x e. FullIn T.section k.groups k.items x e };

    fn add(&mut self, item: T, offset: u64) -> Result<()> {
        if self.state.lacks_memory() {
            return Err(Error::out_of_memory(offset));
        }
        add_or_forget(
            item,
            self.alloc,
            &mut self.state,
            &mut self.types,
            &mut self.groups,
            offset,
        )
    }

    fn add_short(&mut self, bytes: &[u8], at: usize, limits: &Limits) -> Option<usize> {
        T::add_short(self.alloc, &mut self.state, &self.types, bytes, at, limits)
    }

    ghost alike = { T.alike };

    ghost grows_by_nothing = { grows_by_nothing };

    ghost grows_further = { grows_further };
}
