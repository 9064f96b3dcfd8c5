//! Laws of a module and its context with an item more, on the contract of a function that does nothing.

ghost use Rattle.std.specs.Prelude.{◌≡◌, ◌<◌, ℕ, Bool, List, length, true};
ghost use Rattle.wasm_types.specs.values.Reference.{Reference};
ghost use Rattle.wasm_types.specs.externs.declared.table.TableType.{TableType as Table};
ghost use Rattle.wasm_types.specs.externs.declared.memory.MemoryType.{MemoryType as Memory};
ghost use Rattle.wasm_types.specs.externs.declared.global.GlobalType.{GlobalType as Global};
ghost use Rattle.wasm_operator_validator_stacks.specs.resources.Meaning.{table_in, global_in, reference_in};
ghost use Rattle.wasm_module_validator_checks.specs.rules.Spaces.{table_in as table_written, global_in as global_written};
ghost use Rattle.wasm_module_validator_type_storage.specs.trees.Groups.{Group};
ghost use Rattle.wasm_module_validator_resources.specs.index_spaces.Spaces.{Spaces};
ghost use Rattle.wasm_module_validator_resources.specs.Reading.{context_of, meaning_of};
ghost use Rattle.wasm_module_validator_state.specs.Adding.{adding_function, importing_function, adding_table, adding_memory, adding_global, importing_global, adding_tag, adding_element, counting_data, referring};
ghost use Rattle.wasm_module_validator_state.specs.Contexts.{with_function, with_table, with_memory, with_global, with_tag, with_element, with_data_count, AlsoRefers};

/// The context with an item more is the context before with that item, and nothing else of it changes; types by ids stand for those
/// that the module writes.
pub fn contexts_grow()
    ensures functions { (groups : List Group) (s : Spaces) (x : ℕ)
        → context_of groups (adding_function x s) ≡ with_function true x (context_of groups s) }
    ensures imported_functions { (groups : List Group) (s : Spaces) (exact : Bool) (x : ℕ)
        → context_of groups (importing_function exact x s) ≡ with_function exact x (context_of groups s) }
    ensures tables { (groups : List Group) (s : Spaces) (t u : Table)
        → table_in (meaning_of groups s) u ≡ table_written (context_of groups s).types t
        → context_of groups (adding_table u s) ≡ with_table t (context_of groups s) }
    ensures memories { (groups : List Group) (s : Spaces) (t : Memory)
        → context_of groups (adding_memory t s) ≡ with_memory t (context_of groups s) }
    ensures globals { (groups : List Group) (s : Spaces) (t u : Global)
        → global_in (meaning_of groups s) u ≡ global_written (context_of groups s).types t
        → context_of groups (adding_global u s) ≡ with_global t (context_of groups s) }
    ensures imported_globals { (groups : List Group) (s : Spaces) (t u : Global)
        → global_in (meaning_of groups s) u ≡ global_written (context_of groups s).types t
        → context_of groups (importing_global u s) ≡ with_global t (context_of groups s) }
    ensures tags { (groups : List Group) (s : Spaces) (x : ℕ) → x < length s.types
        → context_of groups (adding_tag x s) ≡ with_tag x (context_of groups s) }
    ensures elements { (groups : List Group) (s : Spaces) (r : Reference)
        → context_of groups (adding_element r s) ≡ with_element (reference_in (meaning_of groups s) r)
        (context_of groups s) }
    ensures data_count { (groups : List Group) (s : Spaces) (n : ℕ)
        → context_of groups (counting_data n s) ≡ with_data_count n (context_of groups s) }
    ensures references { (groups : List Group) (s : Spaces) (x : ℕ)
        → AlsoRefers x (context_of groups s) (context_of groups (referring x s)) }
{}
