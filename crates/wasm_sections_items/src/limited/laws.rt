//! Laws of sections, each the contract of a function that does nothing.

ghost use Rattle.std.specs.Prelude.{◌≡◌, ℕ, List, length, map, true, Result, Ok};
ghost use Rattle.std.specs.Iterator.{Drains};
ghost use Rattle.wasm_types.specs.settings.Settings.{Settings};
ghost use Rattle.wasm_types.specs.decoding.Decoder.{State, Done, IsLawful, Decides};
ghost use Rattle.wasm_types.specs.decoding.Leb.{u32 as u32_decoder, IsListed};
ghost use Rattle.wasm_types.specs.decoding.ErrorValue.{ErrorValue};
ghost use Rattle.wasm_sections_items.specs.limited.Walking.{Walk, fresh, plainly, NeverLacksMemory, ok};
ghost use Rattle.wasm_sections_items.specs.limited.Runs.{place_in, place_with_offsets, place_of_functions, told, plain, with_offset, Steps, seen};
ghost use Rattle.wasm_sections_items.specs.limited.Functions.{SpelledAlone, function_alone};
ghost use Rattle.wasm_sections_items.specs.declared.limited.func_types.FuncTypesIntoIter.{FuncTypesIntoIter};
ghost use Rattle.wasm_types.specs.fields.Signatures.{Signature};
ghost use Rattle.wasm_types.specs.fields.declared.func.FuncType.{FuncType};
ghost use Rattle.wasm_sections_items.specs.declared.limited.walk.SectionLimitedIntoIter.{SectionLimitedIntoIter};
ghost use Rattle.wasm_sections_items.specs.declared.limited.walk.SectionLimitedIntoIterWithOffsets.{SectionLimitedIntoIterWithOffsets};
ghost use Rattle.wasm_sections_items.specs.limited.Worked.{WalkRows, FunctionRows};

use wasm_types::FromReader;

/// A walk over the items behind the count. Where it ends without an error, the contents spell the count and the items that
/// it gave, and no byte after them. Where they do, the count is that of the items, and a walk gives these and no error, out
/// of memory aside.
pub fn sections_are_exact<'a, T: FromReader<'a>>()
    ensures sound { (z : Settings) (s t : State) (n : ℕ) (xs : List T.Value) → u32_decoder s ≡ Done n t
        → Drains (plainly (T.decoder z)) (fresh n t) (map ok xs) → IsListed (T.grammar z) xs s.rest }
    ensures complete { (z : Settings) (s : State) (xs : List T.Value) → IsListed (T.grammar z) xs s.rest
        → (t : State) × (u32_decoder s ≡ Done (length xs) t)
        × ((items : List (Result T.Value ErrorValue)) → Drains (plainly (T.decoder z)) (fresh (length xs) t) items
        → NeverLacksMemory items → items ≡ map ok xs) }
{}

/// A run of an iterator over a section's items, from its first call to `None`. Where it gave no error, the contents spell the
/// count and the items that it gave, and no byte after them. Where they do, it gives these and no error, out of memory aside.
pub fn runs_are_exact<'a, T: FromReader<'a>>()
    ensures sound { (b t : State) (n : ℕ) (it : SectionLimitedIntoIter T) (xs : List T) → u32_decoder b ≡ Done n t
        → place_in it ≡ fresh n t
        → Drains (Steps T.decoder place_in (told T.takes_memory) (plain T.view T.decoder)) it (map ok xs)
        → IsListed (T.grammar t.settings) (map T.view xs) b.rest }
    ensures complete { (b t : State) (n : ℕ) (it : SectionLimitedIntoIter T) (xs : List T.Value)
        (items : List (Result T ErrorValue)) → u32_decoder b ≡ Done n t
        → place_in it ≡ fresh n t → IsListed (T.grammar t.settings) xs b.rest
        → Drains (Steps T.decoder place_in (told T.takes_memory) (plain T.view T.decoder)) it items
        → NeverLacksMemory items → map (seen T.view) items ≡ map ok xs }
    ensures sound_with_offsets { (b t : State) (n : ℕ) (it : SectionLimitedIntoIterWithOffsets T) (xs : List (ℕ × T))
        → u32_decoder b ≡ Done n t → place_with_offsets it ≡ fresh n t
        → Drains (Steps T.decoder place_with_offsets (told T.takes_memory) (with_offset T.view T.decoder)) it
        (map ok xs) → IsListed (T.grammar t.settings) (map (λ x. T.view x.1) xs) b.rest }
    ensures complete_with_offsets { (b t : State) (n : ℕ) (it : SectionLimitedIntoIterWithOffsets T) (xs : List T.Value)
        (items : List (Result (ℕ × T) ErrorValue))
        → u32_decoder b ≡ Done n t → place_with_offsets it ≡ fresh n t → IsListed (T.grammar t.settings) xs b.rest
        → Drains (Steps T.decoder place_with_offsets (told T.takes_memory) (with_offset T.view T.decoder)) it items
        → NeverLacksMemory items → map (seen (λ x. T.view x.1)) items ≡ map ok xs }
{}

/// A run over the function types of a type section, from its first call to `None`. Where it gave no error, the contents spell the
/// count and as many groups, each one function type alone, and no byte after them. Where they do, it gives these function types
/// and no error, out of memory aside. What is read so is lawful, and exact.
pub const fn function_types_are_exact()
    ensures lawful { (z : Settings) → IsLawful (function_alone z) }
    ensures exact { (z : Settings) → Decides (function_alone z) (SpelledAlone z) }
    ensures sound { (b t : State) (n : ℕ) (it : FuncTypesIntoIter) (xs : List FuncType) → u32_decoder b ≡ Done n t
        → place_of_functions it ≡ fresh n t
        → Drains (Steps function_alone place_of_functions (told true) (plain (λ f. f) function_alone)) it (map ok xs)
        → IsListed (SpelledAlone t.settings) xs b.rest }
    ensures complete { (b t : State) (n : ℕ) (it : FuncTypesIntoIter) (xs : List Signature)
        (items : List (Result FuncType ErrorValue)) → u32_decoder b ≡ Done n t
        → place_of_functions it ≡ fresh n t → IsListed (SpelledAlone t.settings) xs b.rest
        → Drains (Steps function_alone place_of_functions (told true) (plain (λ f. f) function_alone)) it items
        → NeverLacksMemory items → items ≡ map ok xs }
{}

/// Walks that were worked by hand, over one-byte items: none, all of two, one too few, and a byte too many. And groups that are
/// one function type, and those that are not.
#[tactic(auto, using(crate::specs::limited::Worked::walk_rows, crate::specs::limited::Worked::function_rows))]
pub const fn walks_are_worked()
    ensures walks { WalkRows }
    ensures functions { FunctionRows }
{}
