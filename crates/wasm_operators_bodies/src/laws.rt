//! Laws of groups of locals and of constant expressions, each the contract of a function that does nothing.

ghost use Rattle.std.specs.Prelude.{◌≡◌, ◌↔◌, ◌<◌, ℕ, List, IsTrue};
ghost use Rattle.wasm_types.specs.decoding.Decoder.{State, Done, IsLawful, Decides};
ghost use Rattle.wasm_types.specs.settings.Settings.{Settings};
ghost use Rattle.wasm_types.specs.decoding.ErrorValue.{ErrorValue};
ghost use Rattle.wasm_types.specs.reader.Reading.{Fails};
ghost use Rattle.wasm_operators_encoding.specs.Locals.{LocalGroup, SpelledLocals, group_within, locals};
ghost use Rattle.wasm_operators_bodies.specs.Groups.{LocalsLeft, counted_groups, ReadsGroups};
ghost use Rattle.wasm_operators_bodies.specs.Constants.{same_bytes};

/// The decoder of locals is lawful, and reads groups exactly if a front of the bytes spells them.
pub const fn locals_are_lawful()
    ensures lawful { (settings : Settings) → IsLawful (locals settings) }
    ensures exact { (settings : Settings) → Decides (locals settings) (SpelledLocals settings) }
{}

/// Groups that are read one by one to the last that was counted are those that the decoder answers, and the reader then
/// stands where the operators begin. A refusal on the way is that of the decoder. What the decoder answers can be read so.
pub const fn locals_are_read_one_by_one()
    ensures sound { (settings : Settings) (s u : State) (l t : LocalsLeft) (gs : List LocalGroup)
        → counted_groups settings s ≡ Done l u → ReadsGroups l gs t → t.groups ≡ 0
        → locals settings s ≡ Done gs t.bytes }
    ensures refused { (settings : Settings) (s u : State) (l t : LocalsLeft) (gs : List LocalGroup) (e : ErrorValue)
        → counted_groups settings s ≡ Done l u → ReadsGroups l gs t → 0 < t.groups
        → Fails e (group_within t.room t.bytes) → Fails e (locals settings s) }
    ensures complete { (settings : Settings) (s b : State) (gs : List LocalGroup) → locals settings s ≡ Done gs b
        → (l t : LocalsLeft) × (u : State) × (counted_groups settings s ≡ Done l u) × ReadsGroups l gs t
        × (t.groups ≡ 0) × (t.bytes ≡ b) }
{}

/// `==` of constant expressions holds of those of the same bytes, and of no others.
pub const fn equality_is_of_bytes()
    ensures { (a b : State) → IsTrue (same_bytes a b) ↔ (a.rest ≡ b.rest) }
{}
