//! Laws of modules that are being read, each on the contract of a function that does nothing.

ghost use Rattle.std.specs.Prelude.{◌≡◌, ◌↔◌, ◌<◌, ◌+◌, ◌++◌, ◌∷◌, ℕ, false, true, [], List, Some, None, length};
ghost use Rattle.wasm_types.specs.trees.declared.index.CoreTypeId.{CoreTypeId};
ghost use Rattle.wasm_types.specs.settings.Settings.{Settings};
ghost use Rattle.wasm_types.specs.trees.Each.{EachValue};
ghost use Rattle.wasm_types.specs.trees.ValidGroup.{Written, types_of};
ghost use Rattle.wasm_types.specs.values.Reference.{Reference};
ghost use Rattle.wasm_types.specs.values.Values.{value_of};
ghost use Rattle.wasm_types.specs.values.declared.value.ValType.{ValType as WrittenType};
ghost use Rattle.wasm_types.specs.values.declared.value.ValType.TheVariants as value;
ghost use Rattle.wasm_types.specs.externs.declared.table.TableType.{TableType};
ghost use Rattle.wasm_types.specs.externs.declared.memory.MemoryType.{MemoryType};
ghost use Rattle.wasm_types.specs.externs.declared.global.GlobalType.{GlobalType};
ghost use Rattle.wasm_types.specs.externs.declared.tag.TagType.{TagType};
ghost use Rattle.wasm_sections_items.specs.declared.imports.kind.ExternalKind.{ExternalKind};
ghost use Rattle.wasm_sections_items.specs.declared.imports.type_ref.TypeRef.{TypeRef};
ghost use Rattle.wasm_sections_items.specs.declared.imports.type_ref.TypeRef.TheVariants as import;
ghost use Rattle.wasm_sections_items.specs.imports.Spells.{ImportTree, ExportTree};
ghost use Rattle.wasm_sections_items.specs.segments.Spells.{GlobalTree};
ghost use Rattle.wasm_sections_items.specs.segments.Tables.{TableTree};
ghost use Rattle.wasm_sections_items.specs.elements.Spells.{ElementTree};
ghost use Rattle.wasm_operators_encoding.specs.expressions.Code.{Code};
ghost use Rattle.wasm_operator_validator_rules.specs.Context.{Module, IsType, IsTypeIndex};
ghost use Rattle.wasm_module_validator_checks.specs.rules.Syntax.{ModuleTree, Function as Body};
ghost use Rattle.wasm_module_validator_checks.specs.rules.Spaces as tree;
ghost use Rattle.wasm_module_validator_checks.specs.rules.Spaces.{types_behind, with_types, value_in, element_type, module_of, referred_in, referred_in_option, exported_function, referred_in_mode, referred_in_items, referenced_in};
ghost use Rattle.wasm_module_validator_checks.specs.rules.Valid.{SumsBelow, import_size, export_size, HasValidBody};
ghost use Rattle.wasm_module_validator_resources.specs.rules_in_order.contexts.Agreement.{AgreeOnTypes, AgreeForExports};
ghost use Rattle.wasm_module_validator_resources.specs.rules_in_order.contexts.InOrder.{no_items, places_from, context_so_far};
ghost use Rattle.wasm_operator_validator_stacks.specs.resources.Meaning.{type_in, reference_in, table_in, global_in};
ghost use Rattle.wasm_module_validator_type_storage.specs.trees.Groups.{Group};
ghost use Rattle.wasm_module_validator_type_groups.specs.adding.Interned.{space_of};
ghost use Rattle.wasm_module_validator_resources.specs.index_spaces.declared.module.Function.{Function};
ghost use Rattle.wasm_module_validator_resources.specs.index_spaces.Spaces.{Spaces, nothing_read, id_at, own_function, imported_function, referring_to};
ghost use Rattle.wasm_module_validator_resources.specs.Reading.{names_in, places, context_of, meaning_of};
ghost use Rattle.wasm_module_validator_state.specs.invariant.so_far.SoFar.{sizes_of, IsReadAs};
ghost use Rattle.wasm_module_validator_state.specs.invariant.so_far.Referring.{AreMarked, IsReferredAs, referring_to_each};
ghost use Rattle.wasm_module_validator_state.specs.invariant.so_far.Counts.{AreCounted, sum_with};
ghost use Rattle.wasm_module_validator_state.specs.invariant.so_far.laws.Adding.{types_alone};
ghost use Rattle.wasm_module_validator_state.specs.invariant.so_far.laws.Importing.{imports_alone};
ghost use Rattle.wasm_module_validator_state.specs.invariant.so_far.laws.Referring.{marked_function};

/// The context of a module that is being read is that of the tree, but for the functions that code may refer to. Where code may refer
/// to each function, it is the context in which the tree's next item is judged.
pub fn contexts_are_of_trees()
    ensures trees { (groups : List Group) (s : Spaces) (m : ModuleTree) → IsReadAs groups s m
        → context_of groups s ≡ record (module_of m) {
          referenced = places (λ (f : Function). f.is_referenced) 0 s.functions;
        } }
    ensures items { (groups : List Group) (s : Spaces) (m : ModuleTree) → IsReadAs groups s m
        → record (context_of groups s) { referenced = places_from 0 s.functions } ≡ context_so_far m }
{}

/// Nothing was read at first. A group of types is added while nothing but groups was read; each other item of the module itself, behind
/// what is imported. What is in no space changes none, and a function that code may refer to is what it was.
pub fn items_are_added()
    ensures nothing { (groups : List Group) (z : Settings) → IsReadAs groups (nothing_read z) no_items }
    ensures groups { (old new : List Group) (s : Spaces) (ids : List CoreTypeId) (gs : List Written) (g : Written)
        → IsReadAs old s (types_alone gs)
        → space_of new ids ≡ space_of old s.types ++ types_of (space_of old s.types) g
        → IsReadAs new (record s { types = ids }) (types_alone (gs ++ g ∷ [])) }
    ensures functions { (groups : List Group) (s : Spaces) (m : ModuleTree) → IsReadAs groups s m → (x : ℕ)
        → IsReadAs groups (record s { functions = s.functions ++ own_function x ∷ [] })
        (record m { functions = m.functions ++ x ∷ [] }) }
    ensures tables { (groups : List Group) (s : Spaces) (m : ModuleTree) → IsReadAs groups s m
        → (x : TableTree Code) (kept : TableType)
        → table_in (names_in groups s.types) kept ≡ tree.table_in (types_behind [] m.types) x.ty
        → sizes_of kept ≡ sizes_of x.ty
        → IsReadAs groups (record s { tables = s.tables ++ kept ∷ [] }) (record m { tables = m.tables ++ x ∷ [] }) }
    ensures memories { (groups : List Group) (s : Spaces) (m : ModuleTree) → IsReadAs groups s m → (x : MemoryType)
        → IsReadAs groups (record s { memories = s.memories ++ x ∷ [] })
        (record m { memories = m.memories ++ x ∷ [] }) }
    ensures tags { (groups : List Group) (s : Spaces) (m : ModuleTree) → IsReadAs groups s m → (x : TagType)
        → x.func_type_idx < length s.types → IsReadAs groups (record s
        { tags = s.tags ++ id_at s.types x.func_type_idx ∷ [] }) (record m { tags = m.tags ++ x ∷ [] }) }
    ensures globals { (groups : List Group) (s : Spaces) (m : ModuleTree) → IsReadAs groups s m
        → (x : GlobalTree Code) (kept : GlobalType) → global_in (names_in groups s.types) kept ≡ tree.global_in
        (types_behind [] m.types) x.ty → IsReadAs groups (record s { globals = s.globals ++ kept ∷ [] })
        (record m { globals = m.globals ++ x ∷ [] }) }
    ensures elements { (groups : List Group) (s : Spaces) (m : ModuleTree) → IsReadAs groups s m
        → (x : ElementTree Code) (kept : Reference) → reference_in (names_in groups s.types) kept ≡ element_type
        (types_behind [] m.types) x.items → IsReadAs groups (record s { elements = s.elements ++ kept ∷ [] })
        (record m { element_segments = m.element_segments ++ x ∷ [] }) }
    ensures data_count { (groups : List Group) (s : Spaces) (m : ModuleTree) → IsReadAs groups s m → (n : ℕ)
        → IsReadAs groups (record s { data_count = Some n }) (record m { data_count = Some n }) }
    ensures others { (groups : List Group) (s : Spaces) (m : ModuleTree) → IsReadAs groups s m → (n : ModuleTree)
        → n ≡ record m { exports = n.exports; start = n.start; code = n.code; data_segments = n.data_segments }
        → IsReadAs groups s n }
    ensures referring { (groups : List Group) (s : Spaces) (m : ModuleTree) → IsReadAs groups s m → (n : ℕ)
        → IsReadAs groups (record s { functions = referring_to n s.functions }) m }
{}

/// An import is added while nothing but types and imports was read.
pub fn imports_are_added()
    ensures functions { (groups : List Group) (s : Spaces) (gs : List Written) (is : List ImportTree)
        → IsReadAs groups s (imports_alone gs is) → (i : ImportTree) → (x : ℕ) → i.ty ≡ import.Func x
        → IsReadAs groups (record s {
          functions = s.functions ++ imported_function false x ∷ [];
          imported_functions = s.imported_functions + 1;
        }) (imports_alone gs (is ++ i ∷ [])) }
    ensures exact_functions { (groups : List Group) (s : Spaces) (gs : List Written) (is : List ImportTree)
        → IsReadAs groups s (imports_alone gs is) → (i : ImportTree) → (x : ℕ) → i.ty ≡ import.FuncExact x
        → IsReadAs groups (record s {
          functions = s.functions ++ imported_function true x ∷ [];
          imported_functions = s.imported_functions + 1;
        }) (imports_alone gs (is ++ i ∷ [])) }
    ensures tables { (groups : List Group) (s : Spaces) (gs : List Written) (is : List ImportTree)
        → IsReadAs groups s (imports_alone gs is) → (i : ImportTree) → (t kept : TableType) → i.ty ≡ import.Table t
        → table_in (names_in groups s.types) kept ≡ tree.table_in (types_behind [] gs) t → sizes_of kept ≡ sizes_of t
        → IsReadAs groups (record s { tables = s.tables ++ kept ∷ [] }) (imports_alone gs (is ++ i ∷ [])) }
    ensures memories { (groups : List Group) (s : Spaces) (gs : List Written) (is : List ImportTree)
        → IsReadAs groups s (imports_alone gs is) → (i : ImportTree) → (t : MemoryType) → i.ty ≡ import.Memory t
        → IsReadAs groups (record s { memories = s.memories ++ t ∷ [] }) (imports_alone gs (is ++ i ∷ [])) }
    ensures globals { (groups : List Group) (s : Spaces) (gs : List Written) (is : List ImportTree)
        → IsReadAs groups s (imports_alone gs is) → (i : ImportTree) → (t kept : GlobalType) → i.ty ≡ import.Global t
        → global_in (names_in groups s.types) kept ≡ tree.global_in (types_behind [] gs) t
        → IsReadAs groups (record s { globals = s.globals ++ kept ∷ []; imported_globals = s.imported_globals + 1 })
        (imports_alone gs (is ++ i ∷ [])) }
    ensures tags { (groups : List Group) (s : Spaces) (gs : List Written) (is : List ImportTree)
        → IsReadAs groups s (imports_alone gs is) → (i : ImportTree) → (t : TagType) → i.ty ≡ import.Tag t
        → t.func_type_idx < length s.types → IsReadAs groups (record s
        { tags = s.tags ++ id_at s.types t.func_type_idx ∷ [] }) (imports_alone gs (is ++ i ∷ [])) }
{}

/// A type that is kept as the module writes it, by its own indices, means what is written.
pub fn types_are_kept_as_written()
    ensures values { (groups : List Group) (ids : List CoreTypeId) (v : WrittenType)
        → EachValue (IsTypeIndex (with_types (space_of groups ids))) (value_of v)
        → type_in (names_in groups ids) v ≡ value_in (space_of groups ids) v }
    ensures references { (groups : List Group) (ids : List CoreTypeId) (r : Reference)
        → EachValue (IsTypeIndex (with_types (space_of groups ids))) (value_of (value.Ref r))
        → reference_in (names_in groups ids) r ≡ value_in (space_of groups ids) (value.Ref r) }
    ensures tables { (groups : List Group) (ids : List CoreTypeId) (t : TableType)
        → EachValue (IsTypeIndex (with_types (space_of groups ids))) (value_of (value.Ref t.element_type))
        → table_in (names_in groups ids) t ≡ tree.table_in (space_of groups ids) t }
    ensures globals { (groups : List Group) (ids : List CoreTypeId) (t : GlobalType)
        → EachValue (IsTypeIndex (with_types (space_of groups ids))) (value_of t.content_type)
        → global_in (names_in groups ids) t ≡ tree.global_in (space_of groups ids) t }
{}

/// A type that is kept by ids means what is written, where look-ups in the module say that it does: as a valid value type, as the type of a
/// table, of a global, and of the elements of a segment.
pub fn types_are_kept_by_ids()
    ensures values { (groups : List Group) (s : Spaces) (m : ModuleTree) → IsReadAs groups s m
        → (bits : ℕ) (written kept : WrittenType)
        → IsType bits (context_of groups s) written (type_in (meaning_of groups s) kept)
        → type_in (names_in groups s.types) kept ≡ value_in (types_behind [] m.types) written }
    ensures references { (groups : List Group) (s : Spaces) (m : ModuleTree) → IsReadAs groups s m
        → (written : WrittenType) (kept : Reference)
        → reference_in (meaning_of groups s) kept ≡ value_in (context_of groups s).types written
        → reference_in (names_in groups s.types) kept ≡ value_in (types_behind [] m.types) written }
    ensures tables { (groups : List Group) (s : Spaces) (m : ModuleTree) → IsReadAs groups s m
        → (written kept : TableType)
        → table_in (meaning_of groups s) kept ≡ tree.table_in (context_of groups s).types written
        → table_in (names_in groups s.types) kept ≡ tree.table_in (types_behind [] m.types) written }
    ensures globals { (groups : List Group) (s : Spaces) (m : ModuleTree) → IsReadAs groups s m
        → (written kept : GlobalType)
        → global_in (meaning_of groups s) kept ≡ tree.global_in (context_of groups s).types written
        → global_in (names_in groups s.types) kept ≡ tree.global_in (types_behind [] m.types) written }
{}

/// The functions that are marked are those that the tree refers to: none at first; none more while nothing refers to a function; and by
/// each table, global, export and element segment those that it names. What names none changes nothing.
pub fn functions_are_referred_to()
    ensures nothing { (z : Settings) → IsReferredAs (nothing_read z) no_items }
    ensures functions { (s t : Spaces) (m n : ModuleTree) (f : Function) → IsReferredAs s m → referenced_in m ≡ []
        → referenced_in n ≡ [] → f.is_referenced ≡ false
        → t.functions ≡ s.functions ++ f ∷ [] → IsReferredAs t n }
    ensures others { (s t : Spaces) (m n : ModuleTree) → IsReferredAs s m → t.functions ≡ s.functions
        → referenced_in n ≡ referenced_in m → IsReferredAs t n }
    ensures tables { (s : Spaces) (m : ModuleTree) → IsReferredAs s m → (t : Spaces) (x : TableTree Code)
        → t.functions ≡ referring_to_each (referred_in_option x.init) s.functions
        → IsReferredAs t (record m { tables = m.tables ++ x ∷ [] }) }
    ensures globals { (s : Spaces) (m : ModuleTree) → IsReferredAs s m → (t : Spaces) (x : GlobalTree Code)
        → t.functions ≡ referring_to_each (referred_in x.init) s.functions
        → IsReferredAs t (record m { globals = m.globals ++ x ∷ [] }) }
    ensures exports { (s : Spaces) (m : ModuleTree) → IsReferredAs s m → (t : Spaces) (x : ExportTree)
        → t.functions ≡ referring_to_each (exported_function x.kind x.index) s.functions
        → IsReferredAs t (record m { exports = m.exports ++ x ∷ [] }) }
    ensures elements { (s : Spaces) (m : ModuleTree) → IsReferredAs s m → (t : Spaces) (x : ElementTree Code)
        → t.functions ≡ referring_to_each (referred_in_mode x.mode ++ referred_in_items x.items) s.functions
        → IsReferredAs t (record m { element_segments = m.element_segments ++ x ∷ [] }) }
{}

/// A body is valid in the context of a module that is being read exactly if it is valid in that of the tree.
pub fn bodies_are_judged_alike()
    ensures { (groups : List Group) (s : Spaces) (m : ModuleTree) → IsReadAs groups s m → IsReferredAs s m
        → (z : Settings) (x : ℕ) (f : Body) → HasValidBody z (context_of groups s) x f
        ↔ HasValidBody z (module_of m) x f }
{}

/// Limits are those of the spaces: each holds as much as its space of the tree. Sizes are summed over one section and then over the
/// next, and the size of an item is the same in each context that has what it names.
pub fn limits_are_of_spaces()
    ensures counts { (groups : List Group) (s : Spaces) (m : ModuleTree) → IsReadAs groups s m
        → AreCounted (module_of m) s }
    ensures sums { (limit sum : ℕ) (ns more : List ℕ) → SumsBelow limit sum (ns ++ more)
        ↔ (SumsBelow limit sum ns × SumsBelow limit (sum_with sum ns) more) }
    ensures imports { (g h : Module) → AgreeOnTypes g h → (t : TypeRef) → import_size g t ≡ import_size h t }
    ensures exports { (g h : Module) → AgreeForExports g h → (k : ExternalKind) (x : ℕ)
        → export_size g k x ≡ export_size h k x }
{}

/// Worked functions: of those that are marked and those that are named exactly the same there are, or not.
pub fn marks_are_worked()
    ensures marked { AreMarked (marked_function ∷ own_function 0 ∷ []) (5 ∷ 0 ∷ []) }
    ensures unmarked { AreMarked (own_function 0 ∷ []) (0 ∷ []) → ⊥ }
    ensures unnamed { AreMarked (marked_function ∷ []) [] → ⊥ }
    ensures each { referring_to_each (1 ∷ 7 ∷ []) (own_function 0 ∷ own_function 0 ∷ [])
        ≡ own_function 0 ∷ marked_function ∷ [] }
    ensures none { referring_to_each [] (own_function 0 ∷ []) ≡ own_function 0 ∷ [] }
{}

/// Worked tables: a table has the sizes that are written, and a module is not read as one whose table has others.
pub fn table_sizes_are_worked()
    ensures sizes { (t : TableType) → sizes_of (record t { initial = 1; maximum = Some 2 }) ≡ (1, Some 2) }
    ensures initial { (groups : List Group) (z : Settings) (t : TableType) (x : TableTree Code) → t.initial ≡ 0
        → x.ty.initial ≡ 1
        → IsReadAs groups (record (nothing_read z) { tables = t ∷ [] }) (record no_items { tables = x ∷ [] }) → ⊥ }
    ensures maximum { (groups : List Group) (z : Settings) (t : TableType) (x : TableTree Code) → t.maximum ≡ None
        → x.ty.maximum ≡ Some 1
        → IsReadAs groups (record (nothing_read z) { tables = t ∷ [] }) (record no_items { tables = x ∷ [] }) → ⊥ }
{}
