//! The items of each kind of section.

ghost use Rattle.std.specs.Prelude.{◌≡◌, ◌≤◌, List, length, OnOk, IfErr, IfSome, IfNone, true};
ghost use Rattle.wasm_types.specs.decoding.Denials.{Tells};
ghost use Rattle.wasm_types.specs.reader.Reading.{IsNotMemory};
ghost use Rattle.wasm_types.specs.settings.Limits.{IsWithinCeilings};
ghost use Rattle.wasm_types.specs.settings.Settings.{Settings};
ghost use Rattle.wasm_module_validator_resources.specs.Named.{IsReadOver};
ghost use Rattle.wasm_module_validator_type_storage.specs.trees.Groups.{Group};
ghost use Rattle.wasm_module_validator_section_order.specs.rules.Syntax.{ModuleTree};
ghost use Rattle.wasm_module_validator_section_order.specs.rules_in_order.Sections as section;
ghost use Rattle.wasm_module_validator_section_order.specs.rules_in_order.Sections.{IsUnread, place};
ghost use Rattle.wasm_module_validator_section_order.specs.rules_in_order.Adding.{Fits};
ghost use Rattle.wasm_module_validator_section_order.specs.rules_in_order.Texts.{AddsRead};
ghost use Rattle.wasm_module_validator_state.specs.invariant.Standing.{GrowsWith, Stands};
ghost use Rattle.wasm_module_validator_section_order.specs.sections.Sections.{MayBegin};
ghost use Rattle.wasm_module_validator_section_order.specs.sections.Kinds.{table_read, global_read, export_read, element_read, data_read};
ghost use Rattle.wasm_operators_encoding.specs.ConstantDecoder.{ConstantText};
ghost use Rattle.wasm_sections_items.specs.imports.Spells.{SpelledExport};
ghost use Rattle.wasm_sections_items.specs.segments.Spells.{SpelledData, SpelledGlobalItem};
ghost use Rattle.wasm_sections_items.specs.segments.Tables.{SpelledTableItem};
ghost use Rattle.wasm_sections_items.specs.elements.Spells.{SpelledSegment};
ghost use Rattle.wasm_module_validator_payloads.specs.Progress.{AddsShortIn, Reads, TellsRead};

use crate::SectionItem;
use std::alloc::Global;
use wasm_module_validator_declarations::{
    add_export_item, add_function_item, add_group, add_memory_item, add_short_export,
    add_short_function, add_tag_item,
};
use wasm_module_validator_initialisers::adding::{
    add_element, add_global, add_short_global, add_table, check_data_item, check_short_data_item,
};
use wasm_module_validator_state::invariant::ModuleState;
use wasm_module_validator_type_list::TypeList;
use wasm_operators_bodies::ConstExpr;
use wasm_sections_items::elements::ElementOf;
use wasm_sections_items::imports::Export;
use wasm_sections_items::segments::{DataOf, GlobalOf, TableOf};
use wasm_types::{
    Error, Limits, MemoryType, ModuleWords, RecGroup, Result, TagType, WasmFeatures, Words,
};

impl<'a> SectionItem<'a> for RecGroup {
    ghost use Rattle.wasm_module_validator_section_order.specs.rules_in_order.Sections as section;
    ghost use Rattle.wasm_module_validator_section_order.specs.sections.Kinds.{group_read};
    ghost use Rattle.wasm_module_validator_section_order.specs.sections.laws.Kinds.{types_tell};
    ghost use Rattle.wasm_module_validator_section_order.specs.sections.laws.Groups.{groups_alike};

    ghost section = { section.types };

    ghost of = { group_read };

    fn place() -> u32 {
        1
    }

    fn check_count(state: &ModuleState, count: u32, offset: u64) -> Result<()> {
        state.check_type_count(count, offset)
    }

    fn add_to(
        self,
        alloc: Global,
        state: &mut ModuleState,
        types: &mut TypeList,
        groups: &mut u32,
        offset: u64,
    ) -> Result<()> {
        match add_group(state, types, *groups, self, offset) {
            Ok(()) => {
                *groups += 1;
                Ok(())
            }
            Err(error) => Err(error),
        }
    }

    fn add_short(
        _alloc: Global,
        _state: &mut ModuleState,
        _types: &TypeList,
        _bytes: &[u8],
        _at: usize,
        _limits: &Limits,
    ) -> Option<usize> {
        None
    }

    ghost alike = { groups_alike };

    ghost tells = { types_tell };
}

impl<'a> SectionItem<'a> for u32 {
    ghost use Rattle.wasm_module_validator_section_order.specs.rules_in_order.Sections as section;
    ghost use Rattle.wasm_module_validator_section_order.specs.sections.Kinds.{index_read};
    ghost use Rattle.wasm_module_validator_section_order.specs.sections.laws.Kinds.{functions_tell};

    ghost section = { section.functions };

    ghost of = { index_read };

    fn place() -> u32 {
        3
    }

    fn check_count(state: &ModuleState, count: u32, offset: u64) -> Result<()> {
        state.check_function_count(count, offset)
    }

    fn add_to(
        self,
        alloc: Global,
        state: &mut ModuleState,
        types: &mut TypeList,
        groups: &mut u32,
        offset: u64,
    ) -> Result<()> {
        add_function_item(state, types, self, offset)
    }

    fn add_short(
        _alloc: Global,
        state: &mut ModuleState,
        types: &TypeList,
        bytes: &[u8],
        at: usize,
        _limits: &Limits,
    ) -> Option<usize> {
        match add_short_function(state, types, bytes, at) {
            Some(end) => Some(end),
            None => None,
        }
    }

    ghost alike = { λ x y is. is };

    ghost tells = { functions_tell };
}

impl<'a> SectionItem<'a> for TableOf<ConstExpr<'a>> {
    ghost use Rattle.wasm_module_validator_section_order.specs.rules_in_order.Sections as section;
    ghost use Rattle.wasm_module_validator_section_order.specs.sections.Kinds.{table_read};
    ghost use Rattle.wasm_module_validator_section_order.specs.sections.laws.Kinds.{tables_tell};

    ghost section = { section.tables };

    ghost of = { table_read };

    fn place() -> u32
        ensures { result ≡ place section.tables }
    {
        4
    }

    fn check_count(state: &ModuleState, count: u32, offset: u64) -> Result<()>
        ensures answer { (groups : List Group) (z : Settings) (m : ModuleTree) → Stands groups state.now z m
            → IsUnread section.tables m
            → Tells result (MayBegin z section.tables × Fits z section.tables m count) }
        ensures refused { IfErr result (λ e. IsNotMemory e.kind × (e.offset ≡ offset)) }
    {
        state.check_table_count(count, offset)
    }

    fn add_to(
        self,
        alloc: Global,
        state: &mut ModuleState,
        types: &mut TypeList,
        groups: &mut u32,
        offset: u64,
    ) -> Result<()>
        requires over { IsReadOver types.old.groups state.old.spaces }
        requires interning { types.old.can_intern ≡ true }
        requires ceilings { IsWithinCeilings state.old.spaces.settings.limits }
        ensures answer { TellsRead section.tables types.old.groups state.old groups.old (table_read self.entry) result }
        ensures added { OnOk result ((z : Settings) (m n : ModuleTree)
            → Reads section.tables types.old.groups state.old groups.old z m
            → AddsRead z section.tables m (table_read self.entry) n
            → Reads section.tables types.new.groups state.new groups.new z n) }
        ensures over { OnOk result (IsReadOver types.new.groups state.new.spaces) }
        ensures interning { OnOk result (types.new.can_intern ≡ true) }
        ensures kept { state.new.spaces.settings ≡ state.old.spaces.settings }
        ensures limits { types.new.limits ≡ types.old.limits }
        ensures grown { OnOk result (GrowsWith types.old.groups state.old.spaces types.new.groups state.new.spaces) }
    {
        add_table(alloc, state, types, self, offset)
    }

    fn add_short(
        _alloc: Global,
        _state: &mut ModuleState,
        _types: &TypeList,
        _bytes: &[u8],
        _at: usize,
        _limits: &Limits,
    ) -> Option<usize>
        requires over { IsReadOver _types.now.groups _state.old.spaces }
        requires inside { _at ≤ length _bytes.now }
        ensures added { IfSome result (AddsShortIn section.tables table_read table_read
            (λ z. SpelledTableItem (ConstantText z))
            _types.now.groups _state.old _state.new _limits.now _bytes.now _at) }
        ensures stays { IfNone result (_state.new ≡ _state.old) }
        ensures over { IfSome result (λ _. IsReadOver _types.now.groups _state.new.spaces) }
        ensures settings { IfSome result (λ _. _state.new.spaces.settings ≡ _state.old.spaces.settings) }
        ensures grown { IfSome result (λ _. GrowsWith _types.now.groups _state.old.spaces _types.now.groups
            _state.new.spaces) }
    {
        None
    }

    ghost alike = { λ x y is. is };

    ghost tells = { tables_tell };
}

impl<'a> SectionItem<'a> for MemoryType {
    ghost use Rattle.wasm_module_validator_section_order.specs.rules_in_order.Sections as section;
    ghost use Rattle.wasm_module_validator_section_order.specs.sections.Kinds.{memory_read};
    ghost use Rattle.wasm_module_validator_section_order.specs.sections.laws.Kinds.{memories_tell};

    ghost section = { section.memories };

    ghost of = { memory_read };

    fn place() -> u32 {
        5
    }

    fn check_count(state: &ModuleState, count: u32, offset: u64) -> Result<()> {
        state.check_memory_count(count, offset)
    }

    fn add_to(
        self,
        alloc: Global,
        state: &mut ModuleState,
        types: &mut TypeList,
        groups: &mut u32,
        offset: u64,
    ) -> Result<()> {
        add_memory_item(state, self, offset)
    }

    fn add_short(
        _alloc: Global,
        _state: &mut ModuleState,
        _types: &TypeList,
        _bytes: &[u8],
        _at: usize,
        _limits: &Limits,
    ) -> Option<usize> {
        None
    }

    ghost alike = { λ x y is. is };

    ghost tells = { memories_tell };
}

impl<'a> SectionItem<'a> for TagType {
    ghost use Rattle.wasm_module_validator_section_order.specs.rules_in_order.Sections as section;
    ghost use Rattle.wasm_module_validator_section_order.specs.sections.Kinds.{tag_read};
    ghost use Rattle.wasm_module_validator_section_order.specs.sections.laws.Kinds.{tags_tell};

    ghost section = { section.tags };

    ghost of = { tag_read };

    fn place() -> u32 {
        6
    }

    fn check_count(state: &ModuleState, count: u32, offset: u64) -> Result<()> {
        if !state.settings().features().exceptions() {
            return Err(Error::missing_feature(
                WasmFeatures::EXCEPTIONS,
                Words::Module(ModuleWords::ExceptionsProposalNotEnabled),
                offset,
            ));
        }
        state.check_tag_count(count, offset)
    }

    fn add_to(
        self,
        alloc: Global,
        state: &mut ModuleState,
        types: &mut TypeList,
        groups: &mut u32,
        offset: u64,
    ) -> Result<()> {
        add_tag_item(state, types, self, offset)
    }

    fn add_short(
        _alloc: Global,
        _state: &mut ModuleState,
        _types: &TypeList,
        _bytes: &[u8],
        _at: usize,
        _limits: &Limits,
    ) -> Option<usize> {
        None
    }

    ghost alike = { λ x y is. is };

    ghost tells = { tags_tell };
}

impl<'a> SectionItem<'a> for GlobalOf<ConstExpr<'a>> {
    ghost use Rattle.wasm_module_validator_section_order.specs.rules_in_order.Sections as section;
    ghost use Rattle.wasm_module_validator_section_order.specs.sections.Kinds.{global_read};
    ghost use Rattle.wasm_module_validator_section_order.specs.sections.laws.Kinds.{globals_tell};

    ghost section = { section.globals };

    ghost of = { global_read };

    fn place() -> u32
        ensures { result ≡ place section.globals }
    {
        7
    }

    fn check_count(state: &ModuleState, count: u32, offset: u64) -> Result<()>
        ensures answer { (groups : List Group) (z : Settings) (m : ModuleTree) → Stands groups state.now z m
            → IsUnread section.globals m
            → Tells result (MayBegin z section.globals × Fits z section.globals m count) }
        ensures refused { IfErr result (λ e. IsNotMemory e.kind × (e.offset ≡ offset)) }
    {
        state.check_global_count(count, offset)
    }

    fn add_to(
        self,
        alloc: Global,
        state: &mut ModuleState,
        types: &mut TypeList,
        groups: &mut u32,
        offset: u64,
    ) -> Result<()>
        requires over { IsReadOver types.old.groups state.old.spaces }
        requires interning { types.old.can_intern ≡ true }
        requires ceilings { IsWithinCeilings state.old.spaces.settings.limits }
        ensures answer { TellsRead section.globals types.old.groups state.old groups.old
            (global_read self.entry) result }
        ensures added { OnOk result ((z : Settings) (m n : ModuleTree)
            → Reads section.globals types.old.groups state.old groups.old z m
            → AddsRead z section.globals m (global_read self.entry) n
            → Reads section.globals types.new.groups state.new groups.new z n) }
        ensures over { OnOk result (IsReadOver types.new.groups state.new.spaces) }
        ensures interning { OnOk result (types.new.can_intern ≡ true) }
        ensures kept { state.new.spaces.settings ≡ state.old.spaces.settings }
        ensures limits { types.new.limits ≡ types.old.limits }
        ensures grown { OnOk result (GrowsWith types.old.groups state.old.spaces types.new.groups state.new.spaces) }
    {
        add_global(alloc, state, types, self, offset)
    }

    fn add_short(
        alloc: Global,
        state: &mut ModuleState,
        types: &TypeList,
        bytes: &[u8],
        at: usize,
        _limits: &Limits,
    ) -> Option<usize>
        requires over { IsReadOver types.now.groups state.old.spaces }
        requires inside { at ≤ length bytes.now }
        ensures added { IfSome result (AddsShortIn section.globals global_read global_read
            (λ z. SpelledGlobalItem (ConstantText z))
            types.now.groups state.old state.new _limits.now bytes.now at) }
        ensures stays { IfNone result (state.new ≡ state.old) }
        ensures over { IfSome result (λ _. IsReadOver types.now.groups state.new.spaces) }
        ensures settings { IfSome result (λ _. state.new.spaces.settings ≡ state.old.spaces.settings) }
        ensures grown { IfSome result (λ _. GrowsWith types.now.groups state.old.spaces types.now.groups
            state.new.spaces) }
    {
        match add_short_global(alloc, state, types, bytes, at) {
            Some(end) => Some(end),
            None => None,
        }
    }

    ghost alike = { λ x y is. is };

    ghost tells = { globals_tell };
}

impl<'a> SectionItem<'a> for Export<'a> {
    ghost use Rattle.wasm_module_validator_section_order.specs.rules_in_order.Sections as section;
    ghost use Rattle.wasm_module_validator_section_order.specs.sections.Kinds.{export_read};
    ghost use Rattle.wasm_module_validator_section_order.specs.sections.laws.Kinds.{exports_tell};

    ghost section = { section.exports };

    ghost of = { export_read };

    fn place() -> u32
        ensures { result ≡ place section.exports }
    {
        8
    }

    fn check_count(state: &ModuleState, count: u32, offset: u64) -> Result<()>
        ensures answer { (groups : List Group) (z : Settings) (m : ModuleTree) → Stands groups state.now z m
            → IsUnread section.exports m
            → Tells result (MayBegin z section.exports × Fits z section.exports m count) }
        ensures refused { IfErr result (λ e. IsNotMemory e.kind × (e.offset ≡ offset)) }
    {
        state.check_export_count(count, offset)
    }

    fn add_to(
        self,
        alloc: Global,
        state: &mut ModuleState,
        types: &mut TypeList,
        groups: &mut u32,
        offset: u64,
    ) -> Result<()>
        requires over { IsReadOver types.old.groups state.old.spaces }
        requires interning { types.old.can_intern ≡ true }
        requires ceilings { IsWithinCeilings state.old.spaces.settings.limits }
        ensures answer { TellsRead section.exports types.old.groups state.old groups.old
            (export_read self.entry) result }
        ensures added { OnOk result ((z : Settings) (m n : ModuleTree)
            → Reads section.exports types.old.groups state.old groups.old z m
            → AddsRead z section.exports m (export_read self.entry) n
            → Reads section.exports types.new.groups state.new groups.new z n) }
        ensures over { OnOk result (IsReadOver types.new.groups state.new.spaces) }
        ensures interning { OnOk result (types.new.can_intern ≡ true) }
        ensures kept { state.new.spaces.settings ≡ state.old.spaces.settings }
        ensures limits { types.new.limits ≡ types.old.limits }
        ensures grown { OnOk result (GrowsWith types.old.groups state.old.spaces types.new.groups state.new.spaces) }
    {
        add_export_item(state, types, self, offset)
    }

    fn add_short(
        _alloc: Global,
        state: &mut ModuleState,
        types: &TypeList,
        bytes: &[u8],
        at: usize,
        limits: &Limits,
    ) -> Option<usize>
        requires over { IsReadOver types.now.groups state.old.spaces }
        requires inside { at ≤ length bytes.now }
        ensures added { IfSome result (AddsShortIn section.exports export_read export_read SpelledExport
            types.now.groups state.old state.new limits.now bytes.now at) }
        ensures stays { IfNone result (state.new ≡ state.old) }
        ensures over { IfSome result (λ _. IsReadOver types.now.groups state.new.spaces) }
        ensures settings { IfSome result (λ _. state.new.spaces.settings ≡ state.old.spaces.settings) }
        ensures grown { IfSome result (λ _. GrowsWith types.now.groups state.old.spaces types.now.groups
            state.new.spaces) }
    {
        match add_short_export(state, types, bytes, at, limits) {
            Some(end) => Some(end),
            None => None,
        }
    }

    ghost alike = { λ x y is. is };

    ghost tells = { exports_tell };
}

impl<'a> SectionItem<'a> for ElementOf<'a, ConstExpr<'a>> {
    ghost use Rattle.wasm_module_validator_section_order.specs.rules_in_order.Sections as section;
    ghost use Rattle.wasm_module_validator_section_order.specs.sections.Kinds.{element_read};
    ghost use Rattle.wasm_module_validator_section_order.specs.sections.laws.Kinds.{elements_tell};

    ghost section = { section.element_segments };

    ghost of = { element_read };

    fn place() -> u32
        ensures { result ≡ place section.element_segments }
    {
        10
    }

    fn check_count(state: &ModuleState, count: u32, offset: u64) -> Result<()>
        ensures answer { (groups : List Group) (z : Settings) (m : ModuleTree) → Stands groups state.now z m
            → IsUnread section.element_segments m
            → Tells result (MayBegin z section.element_segments × Fits z section.element_segments m count) }
        ensures refused { IfErr result (λ e. IsNotMemory e.kind × (e.offset ≡ offset)) }
    {
        state.check_element_segment_count(count, offset)
    }

    fn add_to(
        self,
        alloc: Global,
        state: &mut ModuleState,
        types: &mut TypeList,
        groups: &mut u32,
        offset: u64,
    ) -> Result<()>
        requires over { IsReadOver types.old.groups state.old.spaces }
        requires interning { types.old.can_intern ≡ true }
        requires ceilings { IsWithinCeilings state.old.spaces.settings.limits }
        ensures answer { TellsRead section.element_segments types.old.groups state.old groups.old
            (element_read self.entry) result }
        ensures added { OnOk result ((z : Settings) (m n : ModuleTree)
            → Reads section.element_segments types.old.groups state.old groups.old z m
            → AddsRead z section.element_segments m (element_read self.entry) n
            → Reads section.element_segments types.new.groups state.new groups.new z n) }
        ensures over { OnOk result (IsReadOver types.new.groups state.new.spaces) }
        ensures interning { OnOk result (types.new.can_intern ≡ true) }
        ensures kept { state.new.spaces.settings ≡ state.old.spaces.settings }
        ensures limits { types.new.limits ≡ types.old.limits }
        ensures grown { OnOk result (GrowsWith types.old.groups state.old.spaces types.new.groups state.new.spaces) }
    {
        add_element(alloc, state, types, self, offset)
    }

    fn add_short(
        _alloc: Global,
        _state: &mut ModuleState,
        _types: &TypeList,
        _bytes: &[u8],
        _at: usize,
        _limits: &Limits,
    ) -> Option<usize>
        requires over { IsReadOver _types.now.groups _state.old.spaces }
        requires inside { _at ≤ length _bytes.now }
        ensures added { IfSome result (AddsShortIn section.element_segments element_read element_read
            (λ z. SpelledSegment (ConstantText z))
            _types.now.groups _state.old _state.new _limits.now _bytes.now _at) }
        ensures stays { IfNone result (_state.new ≡ _state.old) }
        ensures over { IfSome result (λ _. IsReadOver _types.now.groups _state.new.spaces) }
        ensures settings { IfSome result (λ _. _state.new.spaces.settings ≡ _state.old.spaces.settings) }
        ensures grown { IfSome result (λ _. GrowsWith _types.now.groups _state.old.spaces _types.now.groups
            _state.new.spaces) }
    {
        None
    }

    ghost alike = { λ x y is. is };

    ghost tells = { elements_tell };
}

impl<'a> SectionItem<'a> for DataOf<'a, ConstExpr<'a>> {
    ghost use Rattle.wasm_module_validator_section_order.specs.rules_in_order.Sections as section;
    ghost use Rattle.wasm_module_validator_section_order.specs.sections.Kinds.{data_read};
    ghost use Rattle.wasm_module_validator_section_order.specs.sections.laws.Kinds.{segments_tell};

    ghost section = { section.data_segments };

    ghost of = { data_read };

    fn place() -> u32
        ensures { result ≡ place section.data_segments }
    {
        13
    }

    fn check_count(state: &ModuleState, count: u32, offset: u64) -> Result<()>
        ensures answer { (groups : List Group) (z : Settings) (m : ModuleTree) → Stands groups state.now z m
            → IsUnread section.data_segments m
            → Tells result (MayBegin z section.data_segments × Fits z section.data_segments m count) }
        ensures refused { IfErr result (λ e. IsNotMemory e.kind × (e.offset ≡ offset)) }
    {
        state.check_data_segment_count(count, offset)
    }

    fn add_to(
        self,
        alloc: Global,
        state: &mut ModuleState,
        types: &mut TypeList,
        groups: &mut u32,
        offset: u64,
    ) -> Result<()>
        requires over { IsReadOver types.old.groups state.old.spaces }
        requires interning { types.old.can_intern ≡ true }
        requires ceilings { IsWithinCeilings state.old.spaces.settings.limits }
        ensures answer { TellsRead section.data_segments types.old.groups state.old groups.old
            (data_read self.entry) result }
        ensures added { OnOk result ((z : Settings) (m n : ModuleTree)
            → Reads section.data_segments types.old.groups state.old groups.old z m
            → AddsRead z section.data_segments m (data_read self.entry) n
            → Reads section.data_segments types.new.groups state.new groups.new z n) }
        ensures over { OnOk result (IsReadOver types.new.groups state.new.spaces) }
        ensures interning { OnOk result (types.new.can_intern ≡ true) }
        ensures kept { state.new.spaces.settings ≡ state.old.spaces.settings }
        ensures limits { types.new.limits ≡ types.old.limits }
        ensures grown { OnOk result (GrowsWith types.old.groups state.old.spaces types.new.groups state.new.spaces) }
    {
        check_data_item(alloc, state, types, self, offset)
    }

    fn add_short(
        _alloc: Global,
        state: &mut ModuleState,
        types: &TypeList,
        bytes: &[u8],
        at: usize,
        _limits: &Limits,
    ) -> Option<usize>
        requires over { IsReadOver types.now.groups state.old.spaces }
        requires inside { at ≤ length bytes.now }
        ensures added { IfSome result (AddsShortIn section.data_segments data_read data_read
            (λ z. SpelledData (ConstantText z))
            types.now.groups state.old state.new _limits.now bytes.now at) }
        ensures stays { IfNone result (state.new ≡ state.old) }
        ensures over { IfSome result (λ _. IsReadOver types.now.groups state.new.spaces) }
        ensures settings { IfSome result (λ _. state.new.spaces.settings ≡ state.old.spaces.settings) }
        ensures grown { IfSome result (λ _. GrowsWith types.now.groups state.old.spaces types.now.groups
            state.new.spaces) }
    {
        match check_short_data_item(state, types, bytes, at) {
            Some(end) => Some(end),
            None => None,
        }
    }

    ghost alike = { λ x y is. is };

    ghost tells = { segments_tell };
}
