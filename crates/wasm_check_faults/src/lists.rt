//! Lists of words between commas.
ghost use Rattle.std.specs.Prelude.{◌≡◌, ◌∷◌, ◌+◌, ◌≤◌, length, take, drop, option_map, IfSome};
ghost use Rattle.wasm_check_faults.specs.Lists.{words_of, words_after};

/// A word of a list.
#[derive(Clone, Copy, Debug)]
pub struct ListedWord<'a> {
    /// The word itself.
    pub word: &'a str,
    /// The place of its first byte.
    pub start: usize,
}

/// The first word of a list, and what follows the comma after it, if there is one.
pub fn first_word(list: &str) -> (&str, Option<&str>)
    ensures words { words_of list.now ≡ result.0.now ∷ words_after (option_map (λ r. r.now) result.1) }
    ensures front { (length result.0.now ≤ length list.now) × (result.0.now ≡ take (length result.0.now) list.now) }
    ensures shorter { IfSome result.1 (λ r. (length result.0.now + 1 + length r.now ≡ length list.now)
        × (r.now ≡ drop (length result.0.now + 1) list.now)) }
{
    match list.split_once(',') {
        Some((word, rest)) => (word, Some(rest)),
        None => (list, None),
    }
}
