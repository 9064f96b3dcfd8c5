//! Laws of the state of a module that stands for a tree, each on the contract of a function that does nothing.

ghost use Rattle.std.specs.Prelude.{◌≡◌, ◌↔◌, ◌+◌, ◌<◌, ◌≤◌, ◌++◌, ◌∷◌, ℕ, false, [], List, None, length};
ghost use Rattle.wasm_types.specs.settings.Settings.{Settings};
ghost use Rattle.wasm_types.specs.trees.declared.index.CoreTypeId.{CoreTypeId};
ghost use Rattle.wasm_types.specs.settings.Features.{BulkMemory};
ghost use Rattle.wasm_types.specs.trees.Gates.{Has};
ghost use Rattle.wasm_types.specs.trees.ValidGroup.{Written, types_of};
ghost use Rattle.wasm_types.specs.values.Reference.{Reference};
ghost use Rattle.wasm_types.specs.externs.declared.table.TableType.{TableType};
ghost use Rattle.wasm_types.specs.externs.declared.memory.MemoryType.{MemoryType};
ghost use Rattle.wasm_types.specs.externs.declared.global.GlobalType.{GlobalType};
ghost use Rattle.wasm_types.specs.externs.declared.tag.TagType.{TagType};
ghost use Rattle.wasm_operator_validator_stacks.specs.resources.Meaning.{table_in, global_in, reference_in};
ghost use Rattle.wasm_module_validator_type_storage.specs.trees.Groups.{Group};
ghost use Rattle.wasm_module_validator_type_groups.specs.adding.Interned.{AddsGroup, space_of};
ghost use Rattle.wasm_module_validator_resources.specs.Reading.{context_of};
ghost use Rattle.wasm_module_validator_state.specs.invariant.so_far.SoFar.{sizes_of, IsReadAs};
ghost use Rattle.wasm_module_validator_state.specs.Adding.{adding_function, adding_table, adding_memory, adding_global, adding_tag, adding_element, counting_data, exporting};
ghost use Rattle.wasm_module_validator_state.specs.Items.{Items, IsImportable, IsImported, IsExportable, no_items};
ghost use Rattle.wasm_sections_items.specs.imports.Spells.{ImportTree, ExportTree};
ghost use Rattle.wasm_sections_items.specs.segments.Spells.{GlobalTree, DataTree};
ghost use Rattle.wasm_sections_items.specs.segments.Tables.{TableTree};
ghost use Rattle.wasm_sections_items.specs.elements.Spells.{ElementTree};
ghost use Rattle.wasm_operators_encoding.specs.expressions.Code.{Code};
ghost use Rattle.wasm_module_validator_checks.specs.rules.Syntax.{ModuleTree};
ghost use Rattle.wasm_module_validator_checks.specs.rules.Spaces as tree;
ghost use Rattle.wasm_module_validator_checks.specs.rules.Spaces.{element_type, referred_in, referred_in_option, referred_in_mode, referred_in_items};
ghost use Rattle.wasm_module_validator_checks.specs.rules.Valid.{IsFunctionIndex, IsValidMemoryType, IsValidTagType, IsValidStart, IsValidTable, IsValidGlobal, IsValidElement, IsValidData, export_size, most_tables, most_memories};
ghost use Rattle.wasm_module_validator_resources.specs.rules_in_order.contexts.InOrder as tree_so_far;
ghost use Rattle.wasm_module_validator_resources.specs.rules_in_order.contexts.InOrder.{context_so_far};
ghost use Rattle.wasm_module_validator_resources.specs.rules_in_order.Sections as section;
ghost use Rattle.wasm_module_validator_resources.specs.rules_in_order.Sections.{Section, Item, IsUnread, adding, up_to};
ghost use Rattle.wasm_module_validator_resources.specs.rules_in_order.Adding.{Adds, Fits};
ghost use Rattle.wasm_module_validator_state.specs.invariant.Standing.{Stands, IsBefore, IsReading, MayGrow, constants_of, imports_by_name, marking};
ghost use Rattle.wasm_module_validator_state.specs.invariant.laws.Worked.{three_imports, three_names};

/// The context of constants, in which each function may be referred to, is that of the tree so far.
pub fn constants_see_the_tree()
    ensures { (groups : List Group) (s : Items) (m : ModuleTree) → IsReadAs groups s.spaces m
        → (constants_of groups s.spaces).«module» ≡ context_so_far m }
{}

/// What a call of the state decides of an item is what the rules ask of the tree with the item more.
pub fn items_are_decided_alike()
    ensures groups { (groups : List Group) (s : Items) (z : Settings) (m : ModuleTree) → Stands groups s z m
        → (many : ℕ) → many ≡ length m.types
        → (g : Written) (n : ℕ) → n ≡ length g.types → MayGrow groups s many n g
        ↔ ((k : ModuleTree) × Adds z section.types m g k) }
    ensures imports { (groups : List Group) (s : Items) (z : Settings) (m : ModuleTree) → Stands groups s z m
        → (i : ImportTree) → IsImportable groups s i.ty ↔ ((n : ModuleTree) × Adds z section.imports m i n) }
    ensures functions { (groups : List Group) (s : Items) (z : Settings) (m : ModuleTree)
        → Stands groups s z m → (x : ℕ)
        → (IsFunctionIndex (context_of groups s.spaces) x × (length s.spaces.functions
        < s.spaces.settings.limits.functions)) ↔ ((n : ModuleTree) × Adds z section.functions m x n) }
    ensures memories { (groups : List Group) (s : Items) (z : Settings) (m : ModuleTree) → Stands groups s z m
        → (t : MemoryType)
        → (IsValidMemoryType s.spaces.settings t × (length s.spaces.memories < most_memories s.spaces.settings))
        ↔ ((n : ModuleTree) × Adds z section.memories m t n) }
    ensures tags { (groups : List Group) (s : Items) (z : Settings) (m : ModuleTree) → Stands groups s z m
        → (t : TagType)
        → (IsValidTagType s.spaces.settings (context_of groups s.spaces) t
        × (length s.spaces.tags < s.spaces.settings.limits.tags)) ↔ ((n : ModuleTree) × Adds z section.tags m t n) }
    ensures exports { (groups : List Group) (s : Items) (z : Settings) (m : ModuleTree) → Stands groups s z m
        → (e : ExportTree)
        → IsExportable groups s e.name e.kind e.index false ↔ ((n : ModuleTree) × Adds z section.exports m e n) }
    ensures start { (groups : List Group) (s : Items) (z : Settings) (m : ModuleTree) → Stands groups s z m → (x : ℕ)
        → m.start ≡ None
        → IsValidStart (context_of groups s.spaces) x ↔ ((n : ModuleTree) × Adds z section.start m x n) }
    ensures data_count { (groups : List Group) (s : Items) (z : Settings) (m : ModuleTree) → Stands groups s z m
        → (n : ℕ) → m.data_count ≡ None
        → (Has s.spaces.settings.features BulkMemory × (n ≤ s.spaces.settings.limits.data_segments))
        ↔ ((k : ModuleTree) × Adds z section.data_count m n k) }
{}

/// The same of items with constants, which are judged where each function may be referred to.
pub fn items_with_constants_are_decided_alike()
    ensures tables { (groups : List Group) (s : Items) (z : Settings) (m : ModuleTree) → Stands groups s z m
        → (x : TableTree Code)
        → (IsValidTable s.spaces.settings (constants_of groups s.spaces).«module» s.spaces.imported_globals x
        × (length s.spaces.tables < most_tables s.spaces.settings))
        ↔ ((n : ModuleTree) × Adds z section.tables m x n) }
    ensures globals { (groups : List Group) (s : Items) (z : Settings) (m : ModuleTree) → Stands groups s z m
        → (x : GlobalTree Code)
        → (IsValidGlobal s.spaces.settings (constants_of groups s.spaces).«module» s.spaces.imported_globals
        (length (constants_of groups s.spaces).«module».globals) x
        × (length s.spaces.globals < s.spaces.settings.limits.globals))
        ↔ ((n : ModuleTree) × Adds z section.globals m x n) }
    ensures elements { (groups : List Group) (s : Items) (z : Settings) (m : ModuleTree) → Stands groups s z m
        → (x : ElementTree Code)
        → (IsValidElement s.spaces.settings (constants_of groups s.spaces).«module» s.spaces.imported_globals x
        × (length s.spaces.elements < s.spaces.settings.limits.element_segments))
        ↔ ((n : ModuleTree) × Adds z section.element_segments m x n) }
    ensures data { (groups : List Group) (s : Items) (z : Settings) (m : ModuleTree) → Stands groups s z m
        → (x : DataTree Code)
        → IsValidData s.spaces.settings (constants_of groups s.spaces).«module» s.spaces.imported_globals x.mode
        ↔ ((n : ModuleTree) × Adds z section.data_segments m x n) }
{}

/// Where nothing was read of a section, nothing was read behind it.
pub fn sections_begin()
    ensures last { (s : Section) (m : ModuleTree) → IsUnread s m → m ≡ up_to s m }
    ensures reading { (s : Section) (groups : List Group) (i : Items) (z : Settings) (m : ModuleTree)
        → IsBefore s groups i z m → IsReading s groups i z m }
{}

/// A section of so many items fits the state exactly if it fits the tree.
pub fn sections_fit_alike()
    ensures types { (groups : List Group) (s : Items) (z : Settings) (m : ModuleTree) → Stands groups s z m
        → IsUnread section.types m → (n : ℕ)
        → (length s.spaces.types + n ≤ s.spaces.settings.limits.types) ↔ Fits z section.types m n }
    ensures imports { (groups : List Group) (s : Items) (z : Settings) (m : ModuleTree) → Stands groups s z m → (n : ℕ)
        → (0 + n ≤ s.spaces.settings.limits.imports) ↔ Fits z section.imports m n }
    ensures functions { (groups : List Group) (s : Items) (z : Settings) (m : ModuleTree)
        → Stands groups s z m → (n : ℕ)
        → (length s.spaces.functions + n ≤ s.spaces.settings.limits.functions) ↔ Fits z section.functions m n }
    ensures tables { (groups : List Group) (s : Items) (z : Settings) (m : ModuleTree) → Stands groups s z m → (n : ℕ)
        → (length s.spaces.tables + n ≤ most_tables s.spaces.settings) ↔ Fits z section.tables m n }
    ensures memories { (groups : List Group) (s : Items) (z : Settings) (m : ModuleTree) → Stands groups s z m → (n : ℕ)
        → (length s.spaces.memories + n ≤ most_memories s.spaces.settings) ↔ Fits z section.memories m n }
    ensures tags { (groups : List Group) (s : Items) (z : Settings) (m : ModuleTree) → Stands groups s z m → (n : ℕ)
        → (length s.spaces.tags + n ≤ s.spaces.settings.limits.tags) ↔ Fits z section.tags m n }
    ensures globals { (groups : List Group) (s : Items) (z : Settings) (m : ModuleTree) → Stands groups s z m → (n : ℕ)
        → (length s.spaces.globals + n ≤ s.spaces.settings.limits.globals) ↔ Fits z section.globals m n }
    ensures exports { (groups : List Group) (s : Items) (z : Settings) (m : ModuleTree) → Stands groups s z m
        → IsUnread section.exports m → (n : ℕ)
        → (length s.exports + n ≤ s.spaces.settings.limits.exports) ↔ Fits z section.exports m n }
    ensures elements { (groups : List Group) (s : Items) (z : Settings) (m : ModuleTree) → Stands groups s z m
        → IsUnread section.element_segments m → (n : ℕ)
        → (length s.spaces.elements + n ≤ s.spaces.settings.limits.element_segments)
        ↔ Fits z section.element_segments m n }
    ensures data { (groups : List Group) (s : Items) (z : Settings) (m : ModuleTree) → Stands groups s z m → (n : ℕ)
        → (n ≤ s.spaces.settings.limits.data_segments) ↔ Fits z section.data_segments m n }
{}

/// What a call leaves stands for every tree with the item more. Sections before exports are added while nothing behind them was read.
pub fn items_stand()
    ensures last { (s : Section) (m : ModuleTree) (x : Item s) → m ≡ up_to s m → adding s m x ≡ up_to s (adding s m x) }
    ensures groups { (groups : List Group) (s : Items) (z : Settings) (m : ModuleTree) → Stands groups s z m
        → m ≡ up_to section.types m → (g : Written) (n : ModuleTree)
        → Adds z section.types m g n → (more : List Group) (ids : List CoreTypeId) (k : Group)
        → AddsGroup groups more s.spaces.types ids k
        → space_of more ids ≡ space_of groups s.spaces.types ++ types_of (space_of groups s.spaces.types) g
        → Stands more (record s { spaces = record s.spaces { types = ids } }) z n }
    ensures imports { (groups : List Group) (s : Items) (z : Settings) (m : ModuleTree) → Stands groups s z m
        → m ≡ up_to section.imports m → (i : ImportTree) (n : ModuleTree)
        → Adds z section.imports m i n → (after : Items) → IsImported groups i s after → Stands groups after z n }
    ensures functions { (groups : List Group) (s : Items) (z : Settings) (m : ModuleTree) → Stands groups s z m
        → m ≡ up_to section.functions m → (x : ℕ) (n : ModuleTree)
        → Adds z section.functions m x n → Stands groups (record s { spaces = adding_function x s.spaces }) z n }
    ensures memories { (groups : List Group) (s : Items) (z : Settings) (m : ModuleTree) → Stands groups s z m
        → m ≡ up_to section.memories m → (x : MemoryType) (n : ModuleTree)
        → Adds z section.memories m x n → Stands groups (record s { spaces = adding_memory x s.spaces }) z n }
    ensures tags { (groups : List Group) (s : Items) (z : Settings) (m : ModuleTree) → Stands groups s z m
        → m ≡ up_to section.tags m → (x : TagType) (n : ModuleTree)
        → Adds z section.tags m x n → Stands groups (record s { spaces = adding_tag x.func_type_idx s.spaces }) z n }
    ensures exports { (groups : List Group) (s : Items) (z : Settings) (m : ModuleTree) → Stands groups s z m
        → (e : ExportTree) (n : ModuleTree) → Adds z section.exports m e n
        → Stands groups (record s {
          spaces = exporting e.kind e.index s.spaces;
          exports = s.exports ++ e ∷ [];
          type_size = s.type_size + export_size (context_of groups s.spaces) e.kind e.index;
        }) z n }
    ensures start { (groups : List Group) (s : Items) (z : Settings) (m : ModuleTree) → Stands groups s z m
        → (x : ℕ) (n : ModuleTree) → Adds z section.start m x n → Stands groups s z n }
    ensures data_count { (groups : List Group) (s : Items) (z : Settings) (m : ModuleTree) → Stands groups s z m
        → (x : ℕ) (n : ModuleTree) → Adds z section.data_count m x n
        → Stands groups (record s { spaces = counting_data x s.spaces }) z n }
    ensures data { (groups : List Group) (s : Items) (z : Settings) (m : ModuleTree) → Stands groups s z m
        → (x : DataTree Code) (n : ModuleTree) → Adds z section.data_segments m x n → Stands groups s z n }
{}

/// The same of items with constants, which are kept by types over ids; code may refer to the functions that they name.
pub fn items_with_constants_stand()
    ensures tables { (groups : List Group) (s : Items) (z : Settings) (m : ModuleTree) → Stands groups s z m
        → m ≡ up_to section.tables m → (x : TableTree Code) (kept : TableType)
        → table_in (constants_of groups s.spaces) kept ≡ tree.table_in (context_of groups s.spaces).types x.ty
        → sizes_of kept ≡ sizes_of x.ty → (n : ModuleTree) → Adds z section.tables m x n
        → Stands groups (record s { spaces = marking (referred_in_option x.init) (adding_table kept s.spaces) }) z n }
    ensures globals { (groups : List Group) (s : Items) (z : Settings) (m : ModuleTree) → Stands groups s z m
        → m ≡ up_to section.globals m → (x : GlobalTree Code) (kept : GlobalType)
        → global_in (constants_of groups s.spaces) kept ≡ tree.global_in (context_of groups s.spaces).types x.ty
        → (n : ModuleTree) → Adds z section.globals m x n
        → Stands groups (record s { spaces = marking (referred_in x.init) (adding_global kept s.spaces) }) z n }
    ensures elements { (groups : List Group) (s : Items) (z : Settings) (m : ModuleTree) → Stands groups s z m
        → (x : ElementTree Code) (kept : Reference)
        → reference_in (constants_of groups s.spaces) kept ≡ element_type (context_of groups s.spaces).types x.items
        → (n : ModuleTree) → Adds z section.element_segments m x n
        → Stands groups (record s {
          spaces = marking (referred_in_mode x.mode ++ referred_in_items x.items) (adding_element kept s.spaces);
        }) z n }
{}

/// Worked states: a module of which nothing was read stands for nothing, whatever types of others the list has, and for no tree that exports
/// something; types may be read then,
/// and imports no longer where something is exported. Three imports by two pairs of names.
pub fn states_are_worked()
    ensures nothing { (groups : List Group) (z : Settings) → Stands groups (no_items z) z tree_so_far.no_items }
    ensures exported { (groups : List Group) (z : Settings) (e : ExportTree)
        → Stands groups (no_items z) z (record tree_so_far.no_items { exports = e ∷ [] }) → ⊥ }
    ensures begun { (groups : List Group) (z : Settings) → IsBefore section.types groups
        (no_items z) z tree_so_far.no_items }
    ensures names { (t : MemoryType) → imports_by_name (three_imports t) ≡ three_names }
    ensures late { (groups : List Group) (i : Items) (z : Settings) (e : ExportTree)
        → IsReading section.imports groups i z (record tree_so_far.no_items { exports = e ∷ [] }) → ⊥ }
{}
