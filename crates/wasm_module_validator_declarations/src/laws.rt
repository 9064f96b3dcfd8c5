//! Laws of groups as they are read, and of the total of types, each on the contract of a function that does nothing.

ghost use Rattle.std.specs.Prelude.{◌≡◌, ◌+◌, ◌≤◌, ℕ, [], List, codes, length};
ghost use Rattle.wasm_types.specs.decoding.Decoder.{State, Done};
ghost use Rattle.wasm_types.specs.decoding.ErrorValue.{ErrorValue};
ghost use Rattle.wasm_types.specs.decoding.declared.error.ErrorKind.TheVariants.{Failed, Other};
ghost use Rattle.wasm_types.specs.settings.Limits.{IsWithinCeilings};
ghost use Rattle.wasm_types.specs.settings.Settings.{Settings};
ghost use Rattle.wasm_types.specs.trees.Trees.{TypeTree};
ghost use Rattle.wasm_types.specs.declared.rec_group.RecGroup.{RecGroup as Group};
ghost use Rattle.wasm_types.specs.Entries.{declared_types};
ghost use Rattle.wasm_types.specs.SpellsTypes.{group_value};
ghost use Rattle.wasm_types.specs.DecodeTypes.{rec_group};
ghost use Rattle.wasm_module_validator_type_list.specs.List.{max_types};
ghost use Rattle.wasm_module_validator_canonical_types.specs.Written.{AreModuleIndices};
ghost use Rattle.wasm_module_validator_type_groups.specs.adding.Interned.{written_group};
ghost use Rattle.wasm_module_validator_type_groups.specs.composites.Composites.{WhereCanonical};
ghost use Rattle.wasm_module_validator_state.specs.Items.{Items, no_items};
ghost use Rattle.wasm_module_validator_type_storage.specs.trees.Groups.{Group as Interned, count};
ghost use Rattle.wasm_module_validator_declarations.specs.Total.{HasEachOnce, IsPastTotal, OneGroup};

/// Groups whose bytes are read alike are the same groups for the rules, and have indices of their module alone, as [`crate::add_group`]
/// asks for.
pub fn groups_are_read_alike()
    ensures alike { (x y : Group) → group_value x ≡ group_value y → written_group x ≡ written_group y }
    ensures indices { (z : Settings) (s t : State) (g : Group) → rec_group z s ≡ Done (group_value g) t
        → AreModuleIndices (declared_types g) }
{}

/// The total of types: over a list that is full a module may pass it with its first group, of one type, and a module whose group the list
/// has room for may not, nor any module over a list with none; and no refusal of another kind or text is of it.
pub fn totals_are_worked()
    ensures full { (groups : List Interned) (z : Settings) → count groups ≡ max_types → 1 ≤ z.limits.types
        → WhereCanonical z.features (HasEachOnce groups)
        → IsPastTotal groups (no_items z) (OneGroup [] 1)
        (record { kind = Other; offset = 7; message = codes "implementation limit: too many core types" }) }
    ensures room { (groups : List Interned) (z : Settings) (b : List TypeTree) (n : ℕ) (e : ErrorValue)
        → count groups + length b + n ≤ max_types
        → IsPastTotal groups (no_items z) (OneGroup b n) e → ⊥ }
    ensures none { (z : Settings) → IsWithinCeilings z.limits → (b : List TypeTree) (n : ℕ) (e : ErrorValue)
        → IsPastTotal [] (no_items z) (OneGroup b n) e → ⊥ }
    ensures otherwise { (groups : List Interned) (s : Items) (b : List TypeTree) (n : ℕ) (e : ErrorValue) → e.kind ≡ Failed
        → IsPastTotal groups s (OneGroup b n) e → ⊥ }
    ensures unsaid { (groups : List Interned) (s : Items) (b : List TypeTree) (n : ℕ) (e : ErrorValue) → e.message ≡ []
        → IsPastTotal groups s (OneGroup b n) e → ⊥ }
{}
