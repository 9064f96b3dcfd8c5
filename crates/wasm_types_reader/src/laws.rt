//! What holds of what is read, as contracts of functions that do nothing.

ghost use Rattle.std.specs.Prelude.{◌≡◌, ℕ, ◌-◌, ◌<◌, ◌≤◌, List, length};
ghost use Rattle.wasm_types_decoding.specs.declared.Refusal.{Refusal};
ghost use Rattle.wasm_types_decoding.specs.Decoder.{State, Done, Short, Fault, extended, IsBeyond, IsLawful, Decides, Takes};
ghost use Rattle.wasm_types_decoding.specs.Lists.{size_within, listed_within, IsSizeWithin, IsListedWithin};
ghost use Rattle.wasm_types_decoding.specs.Text.{word, name, any_name, skipped_name, IsWord, IsName, IsAnyName};
ghost use Rattle.wasm_types_decoding.specs.settings.Settings.{Settings};
ghost use Rattle.wasm_types_reader.specs.Parts.{counted_part};
ghost use Rattle.wasm_types_reader.specs.Words.{u7, IsSmallByte};
ghost use Rattle.wasm_types_reader.specs.Rows.{PartRows, AnswerRows, ItemRows, RoomRows, MessageRows};

use crate::FromReader;

/// What holds of each type that is read, by its decoder. A value and a fault stay, whatever bytes follow. Where the bytes
/// end too early, they still do at this offset with fewer bytes than were needed, and no longer with as many. A value is
/// read exactly where a front of the bytes is one of its spellings.
pub fn reading_is_lawful<'a, T: FromReader<'a>>()
    ensures value { (z : Settings) (s t : State) (more : List ℕ) (x : T.Value) → T.decoder z s ≡ Done x t
        → T.decoder z (extended s more) ≡ Done x (extended t more) }
    ensures fault { (z : Settings) (s : State) (more : List ℕ) (k : Refusal) (p : ℕ) → T.decoder z s ≡ Fault k p
        → T.decoder z (extended s more) ≡ Fault k p }
    ensures fewer { (z : Settings) (s : State) (more : List ℕ) (p h : ℕ) → T.decoder z s ≡ Short p h → length more < h
        → T.decoder z (extended s more) ≡ Short p (h - length more) }
    ensures enough { (z : Settings) (s : State) (more : List ℕ) (p h : ℕ) → T.decoder z s ≡ Short p h → h ≤ length more
        → IsBeyond p (T.decoder z (extended s more)) }
    ensures sound { (z : Settings) (s t : State) (x : T.Value) → T.decoder z s ≡ Done x t
        → (text : List ℕ) × Takes s text t × T.grammar z x text }
    ensures complete { (z : Settings) (s t : State) (x : T.Value) (text : List ℕ) → Takes s text t → T.grammar z x text
        → T.decoder z s ≡ Done x t }
{}

/// The same of lists that are counted within a limit, of any type that is read.
pub fn lists_are_lawful<'a, T: FromReader<'a>>()
    ensures lawful { (z : Settings) (limit : ℕ) → IsLawful (listed_within limit (T.decoder z)) }
    ensures exact { (z : Settings) (limit : ℕ) → Decides (listed_within limit (T.decoder z))
        (IsListedWithin limit (T.grammar z)) }
{}

/// The same of numbers of a fixed length, bytes below 128, sizes with a limit and texts; and of what has no spelling of its
/// own, skipped texts and parts, that it is lawful.
pub fn texts_and_words_are_lawful()
    ensures words { (k : ℕ) → IsLawful (word k) × Decides (word k) (IsWord k) }
    ensures small_bytes { IsLawful u7 × Decides u7 IsSmallByte }
    ensures sizes { (limit : ℕ) → IsLawful (size_within limit) × Decides (size_within limit) (IsSizeWithin limit) }
    ensures strings { (limit : ℕ) → IsLawful (name limit) × Decides (name limit) (IsName limit) }
    ensures unlimited_strings { IsLawful any_name × Decides any_name IsAnyName }
    ensures skipped_strings { (limit : ℕ) → IsLawful (skipped_name limit) }
    ensures parts { IsLawful counted_part }
{}

/// Readings that were worked by hand: parts, what an answer tells of an outcome, values one by one, which lists take memory,
/// and which message a refusal has.
#[tactic(auto, using(crate::specs::RowLaws::part_rows, crate::specs::RowLaws::answer_rows, crate::specs::RowLaws::item_rows, crate::specs::RowLaws::room_rows, crate::specs::RowLaws::message_rows))]
pub fn worked_readings()
    ensures parts { PartRows }
    ensures answers { AnswerRows }
    ensures items { ItemRows }
    ensures memory { RoomRows }
    ensures messages { MessageRows }
{}
