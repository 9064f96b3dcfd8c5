//! Laws of what is read of sections, each on the contract of a function that does nothing.

ghost use Rattle.std.specs.Prelude.{◌≡◌, ◌↔◌, ℕ, List, Some, false};
ghost use Rattle.wasm_types.specs.decoding.Decoder.{State, Done};
ghost use Rattle.wasm_types.specs.decoding.Leb.{u32 as u32_decoder, IsUnsigned, IsListed};
ghost use Rattle.wasm_types.specs.settings.Settings.{Settings};
ghost use Rattle.wasm_types.specs.externs.Decode.{memory_type, tag_type};
ghost use Rattle.wasm_types.specs.externs.Spells.{SpelledMemory, SpelledTag};
ghost use Rattle.wasm_types.specs.DecodeTypes.{rec_group};
ghost use Rattle.wasm_types.specs.SpellsTypes.{group_value, SpelledGroup};
ghost use Rattle.wasm_sections_parser.specs.Steps as frame;
ghost use Rattle.wasm_operators_encoding.specs.ConstantDecoder.{constant, ConstantText};
ghost use Rattle.wasm_sections.specs.Payloads.{only_number, is_unknown, front_of};
ghost use Rattle.wasm_sections_items.specs.imports.Decode.{import, export};
ghost use Rattle.wasm_sections_items.specs.imports.Spells.{SpelledImport, SpelledExport};
ghost use Rattle.wasm_sections_items.specs.segments.Decode.{global, data_segment};
ghost use Rattle.wasm_sections_items.specs.segments.Spells.{SpelledGlobalItem, SpelledData};
ghost use Rattle.wasm_sections_items.specs.segments.Tables.{table, SpelledTableItem};
ghost use Rattle.wasm_sections_items.specs.elements.Decode.{segment};
ghost use Rattle.wasm_sections_items.specs.elements.Spells.{SpelledSegment};
ghost use Rattle.wasm_module_validator_rules_in_order.specs.rules.Syntax.{ModuleTree};
ghost use Rattle.wasm_module_validator_rules_in_order.specs.Sections.{Section, Item, number, items};
ghost use Rattle.wasm_module_validator_rules_in_order.specs.Sections as section;
ghost use Rattle.wasm_module_validator_rules_in_order.specs.Texts.{ItemRead, StandsFor, AddsRead, SpelledSection};
ghost use Rattle.wasm_module_validator_rules_in_order.specs.Steps.{SoFar, JudgesSection, JudgesShape, IsJudged};
ghost use Rattle.wasm_module_validator_section_order.specs.sections.Grammars.{SpelledRead, SpelledItem};
ghost use Rattle.wasm_module_validator_section_order.specs.sections.Sections.{Reading, AddsIn, IsOfItems, MayBegin, AddsSection, AddsNumber};
ghost use Rattle.wasm_module_validator_section_order.specs.sections.Kinds.{group_read, import_read, index_read, table_read, memory_read, tag_read, global_read};
ghost use Rattle.wasm_module_validator_section_order.specs.sections.Kinds.{export_read, element_read, data_read, WalksTell};

/// What is read of an item stands for each item that its bytes spell, and for one item alone; and bytes that spell an item give what
/// stands for it. A section that is no number is spelled by a list of its items, where it may begin.
pub fn items_stand_for_trees()
    ensures over { (z : Settings) (s : Section) (t : ItemRead s) (x : Item s) (text : List ℕ)
        → SpelledRead z s t text → StandsFor z s t x → SpelledItem z s x text }
    ensures down { (z : Settings) (s : Section) (x : Item s) (text : List ℕ)
        → SpelledItem z s x text → (t : ItemRead s) × StandsFor z s t x × SpelledRead z s t text }
    ensures once { (z : Settings) (s : Section) (t : ItemRead s) (x y : Item s) → StandsFor z s t x
        → StandsFor z s t y → x ≡ y }
    ensures listed { (z : Settings) (s : Section) → IsOfItems s → (m : ModuleTree) (text : List ℕ)
        → SpelledSection z s m (Some text) ↔ (MayBegin z s × IsListed (SpelledItem z s) (items s m) text) }
{}

/// An item that is added to a tree is added under the settings that stay, and leads to one tree.
pub fn items_add_to_trees()
    ensures under { (s : Section) (u : Reading) (t : ItemRead s)
        → ((n : ModuleTree) × AddsRead u.settings s u.tree t n) ↔ ((v : Reading) × AddsIn s u t v) }
    ensures once { (s : Section) (u : Reading) (t : ItemRead s) (v w : Reading) → AddsIn s u t v
        → AddsIn s u t w → v ≡ w }
{}

/// Behind what was judged, a section whose count was read is judged exactly if its items lead, one by one, from what was read before
/// to what is read then; and a section that is one number exactly if this is added. Contents that are spelled begin with a count, or
/// are one number. A frame of the id of a section is judged as that section, and one of another id is not.
pub fn sections_are_judged_by_items()
    ensures items { (z : Settings) (s : Section) → IsOfItems s → (p : SoFar) (b r : State) (n : ℕ) → IsJudged z p
        → u32_decoder b ≡ Done n r
        → (q : SoFar) → JudgesSection z p s b.rest q ↔ AddsSection z s p n r.rest q }
    ensures start { (z : Settings) (p : SoFar) (b r : State) (n : ℕ) → IsJudged z p → only_number b ≡ Done n r
        → (q : SoFar) → JudgesSection z p section.start b.rest q ↔ AddsNumber z section.start p n q }
    ensures data_count { (z : Settings) (p : SoFar) (b r : State) (n : ℕ) → IsJudged z p → only_number b ≡ Done n r
        → (q : SoFar) → JudgesSection z p section.data_count b.rest q ↔ AddsNumber z section.data_count p n q }
    ensures fronts { (z : Settings) (s : Section) (m : ModuleTree) (b : State) → SpelledSection z s m (Some b.rest)
        → (n : ℕ) × (r : State) × (front_of (number s) b ≡ Done n r) }
    ensures shapes { (z : Settings) (s : Section) (p q : SoFar) (text : List ℕ)
        → JudgesShape z p (frame.section (number s) text) q ↔ JudgesSection z p s text q }
    ensures unknown { (z : Settings) (id : ℕ) (p q : SoFar) (text : List ℕ)
        → JudgesShape z p (frame.section id text) q → is_unknown id ≡ false }
{}

/// For each kind of section of items, what a walk over the items that its reader gives tells of the section.
pub fn walks_tell_of_sections()
    ensures types { WalksTell section.types group_value group_read rec_group SpelledGroup }
    ensures imports { WalksTell section.imports import_read import_read import SpelledImport }
    ensures functions { WalksTell section.functions index_read index_read (λ z. u32_decoder) (λ z. IsUnsigned 32) }
    ensures tables { WalksTell section.tables table_read table_read (λ z. table (constant z))
        (λ z. SpelledTableItem (ConstantText z)) }
    ensures memories { WalksTell section.memories memory_read memory_read (λ z. memory_type) (λ z. SpelledMemory) }
    ensures tags { WalksTell section.tags tag_read tag_read (λ z. tag_type) (λ z. SpelledTag) }
    ensures globals { WalksTell section.globals global_read global_read
        (λ z. global (constant z)) (λ z. SpelledGlobalItem (ConstantText z)) }
    ensures exports { WalksTell section.exports export_read export_read export SpelledExport }
    ensures elements { WalksTell section.element_segments element_read element_read
        (λ z. segment (constant z)) (λ z. SpelledSegment (ConstantText z)) }
    ensures segments { WalksTell section.data_segments data_read data_read
        (λ z. data_segment (constant z)) (λ z. SpelledData (ConstantText z)) }
{}
