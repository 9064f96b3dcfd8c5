//! What a message keeps of a text.

ghost use Rattle.std.specs.Prelude.{◌≡◌, ◌≤◌, ◌<◌, [], ◌∷◌, ◌++◌, List, ℕ, Some, false, length, decimal};
ghost use Rattle.std.specs.Fmt.{digit_glyph};
ghost use Rattle.wasm_types_decoding.specs.Texts.{hexadecimal, hex_digits, bits, number_text};
ghost use Rattle.wasm_types_decoding.specs.Words.{words_text};
ghost use Rattle.wasm_types_decoding.specs.ErrorText.{cut_to, Keeps};

use crate::words::Words;
use arrayvec::ArrayString;
use itoa::Buffer;
use std::fmt;
use std::ops::DerefStr;

/// How many bytes a message has at most.
pub(crate) const ROOM: usize = 256;

/// The front of all that was written, as far as a message has room for it: up to the end of a character.
#[derive(Drop)]
pub struct Message {
    pub(crate) kept: ArrayString<{ ROOM }>,
    is_full: bool,
}

impl Message {
    /// The text, of at most 256 bytes.
    pub fn as_str(&self) -> &str
        ensures value { result.now ≡ self.now.kept.bytes }
        ensures fits { length result.now ≤ 256 }
    {
        self.kept.as_str()
    }

    // What there is room for of these words.
    pub(crate) fn push(&mut self, words: &str)
        ensures { (text : List ℕ) → Keeps text self.old.kept.bytes self.old.is_full
            → Keeps (text ++ words.now) self.new.kept.bytes self.new.is_full }
    {
        if self.is_full {
            return;
        }
        let room = ROOM - self.kept.len();
        self.kept.push_str(front(words, room));
        self.is_full = room < words.len();
    }

    // What there is room for of the words of a table.
    pub(crate) fn push_words(&mut self, words: Words)
        ensures { (text : List ℕ) → Keeps text self.old.kept.bytes self.old.is_full
            → Keeps (text ++ words_text words) self.new.kept.bytes self.new.is_full }
    {
        self.push(words.text());
    }

    // A number in decimal.
    pub(crate) fn number(&mut self, number: u64)
        ensures { (text : List ℕ) → Keeps text self.old.kept.bytes self.old.is_full
            → Keeps (text ++ decimal number) self.new.kept.bytes self.new.is_full }
    {
        let mut digits = Buffer::new();
        self.push(digits.format(number));
    }

    // A number in decimal, if there is one.
    pub(crate) fn number_if_any(&mut self, number: Option<u32>)
        ensures { (text : List ℕ) → Keeps text self.old.kept.bytes self.old.is_full
            → Keeps (text ++ number_text number) self.new.kept.bytes self.new.is_full }
    {
        match number {
            Some(number) => self.number(number as u64),
            None => self.push(""),
        }
    }

    // A number in hexadecimal.
    pub(crate) fn hex(&mut self, number: u64)
        ensures { (text : List ℕ) → Keeps text self.old.kept.bytes self.old.is_full
            → Keeps (text ++ hexadecimal number) self.new.kept.bytes self.new.is_full }
    {
        self.last_of_hex(number, 16);
    }

    // The last digits of a number in hexadecimal, so many at most.
    fn last_of_hex(&mut self, number: u64, most: u32)
        ensures { (text : List ℕ) → Keeps text self.old.kept.bytes self.old.is_full
            → Keeps (text ++ hex_digits most number) self.new.kept.bytes self.new.is_full }
    {
        if most == 0 {
            return;
        }
        if number >= 16 {
            self.last_of_hex(number / 16, most - 1);
        }
        self.push(hex_digit((number % 16) as u8));
    }

    // A byte in binary.
    pub(crate) fn binary(&mut self, byte: u8)
        ensures { (text : List ℕ) → Keeps text self.old.kept.bytes self.old.is_full
            → Keeps (text ++ bits 8 byte) self.new.kept.bytes self.new.is_full }
    {
        self.last_bits(byte, 8);
    }

    // So many bits of a byte, the last ones.
    fn last_bits(&mut self, byte: u8, count: u32)
        ensures { (text : List ℕ) → Keeps text self.old.kept.bytes self.old.is_full
            → Keeps (text ++ bits count byte) self.new.kept.bytes self.new.is_full }
    {
        if count == 0 {
            return;
        }
        self.last_bits(byte / 2, count - 1);
        self.push(hex_digit(byte % 2));
    }

    /// A message to which nothing was written.
    pub(crate) fn new() -> Message
        ensures kept { result.kept.bytes ≡ [] }
        ensures open { result.is_full ≡ false }
    {
        Message {
            kept: ArrayString::new(),
            is_full: false,
        }
    }
}

/// It reads as its text.
impl DerefStr for Message {
    ghost deref_gives = { λ m text. text ≡ m.kept.bytes };

    fn deref(&self) -> &str {
        self.as_str()
    }
}

impl fmt::Display for Message {
    ghost output = { λ m. Some m.kept.bytes };

    fn fmt<W: fmt::Write>(&self, f: &mut fmt::Formatter<W>) -> fmt::Result {
        f.write_str(self.as_str())
    }
}

// A digit in hexadecimal.
fn hex_digit(value: u8) -> &'static str
    requires { value < 16 }
    ensures { result.now ≡ digit_glyph false value ∷ [] }
{
    match value {
        0 => "0",
        1 => "1",
        2 => "2",
        3 => "3",
        4 => "4",
        5 => "5",
        6 => "6",
        7 => "7",
        8 => "8",
        9 => "9",
        10 => "a",
        11 => "b",
        12 => "c",
        13 => "d",
        14 => "e",
        _ => "f",
    }
}

/// Every write succeeds: what there is no room for is left out.
impl fmt::Write for Message {
    ghost write_str_gives = { λ before more after. (text : List ℕ) → Keeps text before.kept.bytes before.is_full
        → Keeps (text ++ more) after.kept.bytes after.is_full };

    fn write_str(&mut self, s: &str) -> fmt::Result {
        if self.is_full {
            return Ok(());
        }
        let room = ROOM - self.kept.len();
        self.kept.push_str(front(s, room));
        self.is_full = room < s.len();
        Ok(())
    }
}

/// The longest front of a text that has room and ends where a character does.
pub(crate) fn front(text: &str, room: usize) -> &str
    ensures value { result.now ≡ cut_to room text.now }
    ensures fits { length result.now ≤ room }
{
    if text.len() <= room {
        return text;
    }
    &text[..text.floor_char_boundary(room)]
}
