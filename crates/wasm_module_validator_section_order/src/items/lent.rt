//! Items lent and added one by one.

ghost use Rattle.std.specs.Prelude.{◌≡◌, ◌≤◌, ℕ, length, OnOk, IfErr, IfSome, IfNone};
ghost use Rattle.wasm_types.specs.settings.Settings.{Settings};
ghost use Rattle.wasm_types.specs.decoding.Decoder.{State, Done};
ghost use Rattle.wasm_types.specs.decoding.Denials.{Tells};
ghost use Rattle.wasm_types.specs.decoding.ErrorValue.{ErrorValue};
ghost use Rattle.wasm_module_validator_section_order.specs.items.Adding.{AddsShort, AreAdded, Spelled, StopsAdding};
ghost use Rattle.wasm_module_validator_section_order.specs.items.AddingLaws.{StandsOn, behind};
ghost use Rattle.wasm_sections_items.specs.limited.Walking.{Walk};
ghost use Rattle.wasm_sections_items.specs.limited.Runs.{place_with_offsets};

use wasm_sections_items::limited::{SectionLimited, SectionLimitedIntoIterWithOffsets};
use wasm_types::{FromReader, Limits, Result};

/// What items of this kind are added to.
pub trait AddLent<'a, T: FromReader<'a>> {
    /// What was read.
    ghost Tree: { Type 0 };

    /// What an item is for it.
    ghost Item: { Type 0 };

    /// That of an item.
    ghost of: { T → Item };

    /// The state stands for what was read.
    ghost reads: { Self → Tree → Type 0 };

    /// What was read, an item, and what is read with it. An item that may not be added has no third.
    ghost adds: { Tree → Item → Tree → Type 0 };

    /// With what an item that begins at an offset is refused.
    ghost refuses: { Tree → Item → ℕ → ErrorValue → Type 0 };

    /// What a state with items more has to do with it before.
    ghost grows: { Self → Self → Type 0 };

    /// Checks an item that was read, which begins at this offset, and adds it.
    fn add_lent(&mut self, item: &T, offset: u64) -> Result<()>
        requires read { (z : Settings) × (s : State) × (t : State) × (T.decoder z s ≡ Done (T.view item.now) t) }
        ensures answer { (m : Tree) → reads self.old m → Tells result ((n : Tree) × adds m (of item.now) n) }
        ensures added { OnOk result ((m n : Tree) → reads self.old m → adds m (of item.now) n → reads self.new n) }
        ensures refused { IfErr result (λ e. (m : Tree) → reads self.old m → refuses m (of item.now) offset e) }
        ensures grown { OnOk result (grows self.old self.new) };

    /// Adds the item that begins at an offset of these bytes, if the bytes alone tell that it may be added, and answers where it ends.
    /// Else nothing has changed.
    fn add_lent_short(&mut self, bytes: &[u8], at: usize, limits: &Limits) -> Option<usize>
        requires inside { at ≤ length bytes.now }
        ensures added { IfSome result (AddsShort T.view of T.grammar adds reads self.old self.new limits.now
            bytes.now at) }
        ensures stays { IfNone result (self.new ≡ self.old) }
        ensures grown { IfSome result (λ _. grows self.old self.new) };

    /// Items whose bytes are read alike are the same.
    ghost alike: { (x y : T) → T.view x ≡ T.view y → of x ≡ of y };

    /// A state that stays has it to do with itself.
    ghost grows_by_nothing: { (s : Self) → grows s s };

    /// And over what lies between.
    ghost grows_further: { (r s t : Self) → grows r s → grows s t → grows r t };
}

/// Adds the items at the front of these bytes that the bytes alone tell, at most so many: how many are left, and where those end.
fn add_lent_front<'a, T: FromReader<'a>, S: AddLent<'a, T>>(
    state: &mut S,
    bytes: &[u8],
    limits: &Limits,
    most: u32,
) -> (u32, usize)
    ensures left { result.0 ≤ most }
    ensures inside { result.1 ≤ length bytes.now }
    ensures stands { (w : Walk) → w.reader.rest ≡ bytes.now → w.left ≡ most
        → StandsOn T.view S.of T.decoder T.grammar S.adds S.reads limits.now w
        (behind w result.1 result.0) state.old state.new }
    ensures grown { S.grows state.old state.new }
{
    let mut at = 0;
    for passed in 0..most {
        let Some(end) = state.add_lent_short(bytes, at, limits) else {
            return (most - passed, at);
        };
        at = end;
    }
    (0, at)
}

/// Adds the items that come next and that their bytes alone tell, and goes past them.
fn pass_lent_front<'a, T: FromReader<'a>, S: AddLent<'a, T>>(
    state: &mut S,
    items: &mut SectionLimitedIntoIterWithOffsets<'a, T>,
    limits: &Limits,
)
    ensures left { items.new.remaining ≤ items.old.remaining }
    ensures over { items.new.end ≡ items.old.end }
    ensures stands { StandsOn T.view S.of T.decoder T.grammar S.adds S.reads limits.now (place_with_offsets items.old)
        (place_with_offsets items.new) state.old state.new }
    ensures grown { S.grows state.old state.new }
{
    let (left, at) = add_lent_front::<T, S>(state, items.bytes(), limits, items.left());
    items.pass(at, left);
}

/// Reads the items of a section and adds each.
///
/// # Errors
///
/// An item cannot be read, a byte is left behind the last, or an item is refused: the first of these.
pub fn add_lent_items<'a, T: FromReader<'a>, S: AddLent<'a, T>>(
    state: &mut S,
    section: SectionLimited<'a, T>,
) -> Result<()>
    ensures answer { (m : S.Tree) → S.reads state.old m
        → Tells result ((t : S.Tree) × AreAdded (Spelled T.view S.of
        (T.grammar section.entry.reader.settings)) S.adds section.entry.count section.entry.reader.rest m t) }
    ensures added { OnOk result ((m t : S.Tree) → S.reads state.old m
        → AreAdded (Spelled T.view S.of (T.grammar section.entry.reader.settings)) S.adds section.entry.count
        section.entry.reader.rest m t → S.reads state.new t) }
    ensures refused { (m : S.Tree) → S.reads state.old m
        → IfErr result (λ e. StopsAdding T.view S.of (T.decoder section.entry.reader.settings) S.adds S.refuses
        section.entry.count section.entry.reader m e) }
    ensures grown { OnOk result (S.grows state.old state.new) }
{
    let limits = section.get_binary_reader().limits();
    let mut items = section.into_iter_with_offsets();
    'items: loop {
        pass_lent_front(state, &mut items, &limits);
        let item = match items.next() {
            None => return Ok(()),
            Some(Ok(item)) => item,
            Some(Err(error)) => return Err(error),
        };
        match state.add_lent(&item.1, item.0) {
            Ok(()) => (),
            Err(error) => return Err(error),
        }
    }
}
