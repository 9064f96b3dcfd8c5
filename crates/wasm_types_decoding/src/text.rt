//! What a message is made of, in few bytes. It is written out only when it is asked for.

ghost use Rattle.std.specs.Prelude.{◌≡◌, ◌++◌, List, ℕ};
ghost use Rattle.wasm_types_decoding.specs.ErrorText.{Keeps};
ghost use Rattle.wasm_types_decoding.specs.Texts.{text_of, named_text};

use crate::message::{Message, front};
use crate::words::Words;
use arrayvec::ArrayString;

/// How many bytes of an operator's name are kept.
pub(crate) const NAME: usize = 48;

/// The text of a message, in few bytes: words, and what stands between them.
#[derive(Drop, Debug)]
pub enum Text {
    /// These words.
    Words(Words),
    /// Words, and a word behind them.
    Word(Words, Words),
    /// An operator that is not constant, by its name.
    NonConstant(ArrayString<{ NAME }>),
    /// Words, a number in decimal, and words.
    Number(Words, u32, Words),
    /// Words, a number in hexadecimal, and words.
    Hex(Words, u32, Words),
    /// More things of this name than a limit allows.
    PastLimit(Words, u32),
    /// A size of things of this name above its limit.
    SizeOf(Words),
    /// A type that is so deep, where less is allowed.
    TooDeep(u64, u32),
    /// A table of more entries than this.
    Entries(u64),
    /// A memory of more pages than this, of so many bytes.
    Pages(u64, u64),
    /// A code behind a prefix that is no operator's.
    Subopcode(u8, u32),
    /// Flags of a cast, by their bits.
    CastFlags(u8),
    /// An export of what there is not in this index space.
    UnknownExport(Words, u32),
    /// An operator that is not constant, by the name of its visit.
    NoVisitOfConstants(ArrayString<{ NAME }>),
    /// Words, a type, words, and another type.
    Types(Words, Named, Words, Named),
    /// A type is expected, and another found.
    Mismatch(Words, Words),
    /// A type below one is expected, and another found.
    SubtypeMismatch(Words, Words),
    /// A type is expected, and no operand is left.
    EmptyStack(Words),
    /// The type of elements, and that of a table that does not take them.
    ElementMismatch(Words, Words),
    /// A name that a module exports twice.
    DuplicateExport(String),
}

/// What a type is called, with its index if it has one.
#[derive(Clone, Copy, Debug)]
pub struct Named {
    /// What stands first.
    pub before: Words,
    /// Of what the index is one.
    pub space: Words,
    /// The index.
    pub number: Option<u32>,
    /// What stands behind.
    pub behind: Words,
}

impl Named {
    // Writes it behind what was written, as far as there is room.
    fn write_to(&self, message: &mut Message)
        ensures { (text : List ℕ) → Keeps text message.old.kept.bytes message.old.is_full
            → Keeps (text ++ named_text self.now) message.new.kept.bytes message.new.is_full }
    {
        message.push_words(self.before);
        message.push_words(self.space);
        message.number_if_any(self.number);
        message.push_words(self.behind);
    }
}

impl Text {
    /// Writes it behind what was written, as far as there is room.
    pub(crate) fn write_to(&self, message: &mut Message)
        ensures { (text : List ℕ) → Keeps text message.old.kept.bytes message.old.is_full
            → Keeps (text ++ text_of self.now) message.new.kept.bytes message.new.is_full }
    {
        match self {
            Text::Words(words) => message.push_words(*words),
            Text::Word(before, word) => {
                message.push_words(*before);
                message.push_words(*word);
            }
            Text::NonConstant(name) => {
                message.push("constant expression required: non-constant operator: ");
                message.push(name.as_str());
            }
            Text::Number(before, number, behind) => {
                message.push_words(*before);
                message.number(*number as u64);
                message.push_words(*behind);
            }
            Text::Hex(before, number, behind) => {
                message.push_words(*before);
                message.hex(*number as u64);
                message.push_words(*behind);
            }
            Text::PastLimit(things, most) => {
                message.push_words(*things);
                message.push(" count exceeds limit of ");
                message.number(*most as u64);
            }
            Text::SizeOf(things) => {
                message.push_words(*things);
                message.push(" size is out of bounds");
            }
            Text::TooDeep(depth, most) => {
                message.push("sub type hierarchy too deep: found depth ");
                message.number(*depth);
                message.push(", cannot exceed depth ");
                message.number(*most as u64);
            }
            Text::Entries(most) => {
                message.push("table size must be at most 0x");
                message.hex(*most);
                message.push(" entries");
            }
            Text::Pages(most, page_size) => {
                message.push("memory size must be at most 0x");
                message.hex(*most);
                message.push(" ");
                message.number(*page_size);
                message.push("-byte pages");
            }
            Text::Subopcode(prefix, code) => {
                message.push("unknown 0x");
                message.hex(*prefix as u64);
                message.push(" subopcode: 0x");
                message.hex(*code as u64);
            }
            Text::CastFlags(flags) => {
                message.push("invalid cast flags: ");
                message.binary(*flags);
            }
            Text::UnknownExport(space, index) => {
                message.push("unknown ");
                message.push_words(*space);
                message.push(" ");
                message.number(*index as u64);
                message.push(": exported ");
                message.push_words(*space);
                message.push(" index out of bounds");
            }
            Text::NoVisitOfConstants(name) => {
                message.push("constant expression required: non-constant operator: visit_");
                message.push(name.as_str());
            }
            Text::Types(before, first, between, second) => {
                message.push_words(*before);
                first.write_to(message);
                message.push_words(*between);
                second.write_to(message);
            }
            Text::Mismatch(expected, found) => {
                message.push("type mismatch: expected ");
                message.push_words(*expected);
                message.push(", found ");
                message.push_words(*found);
            }
            Text::SubtypeMismatch(expected, found) => {
                message.push("type mismatch: expected subtype of ");
                message.push_words(*expected);
                message.push(", found ");
                message.push_words(*found);
            }
            Text::EmptyStack(expected) => {
                message.push("type mismatch: expected ");
                message.push_words(*expected);
                message.push(" but nothing on stack");
            }
            Text::ElementMismatch(elements, table) => {
                message.push("type mismatch: invalid element type `");
                message.push_words(*elements);
                message.push("` for table type `");
                message.push_words(*table);
                message.push("`");
            }
            Text::DuplicateExport(name) => {
                message.push("duplicate export name `");
                message.push(name.as_str());
                message.push("` already defined");
            }
        }
    }

    /// An operator that is not constant, by its name.
    pub fn non_constant(name: &str) -> Text {
        let mut kept = ArrayString::new();
        kept.push_str(front(name, NAME));
        Text::NonConstant(kept)
    }

    /// An operator that is not constant, by the name of its visit: the operator's name with `_` for each `.`.
    pub fn no_visit_of_constants(name: &str) -> Text {
        let mut kept = ArrayString::new();
        for c in name.chars() {
            let written = if c == '.' { '_' } else { c };
            if kept.try_push(written).is_err() {
                break;
            }
        }
        Text::NoVisitOfConstants(kept)
    }

    /// The same again. A name is left out where there is no memory for it.
    pub(crate) fn again(&self) -> Text {
        match self {
            Text::Words(words) => Text::Words(*words),
            Text::Word(before, word) => Text::Word(*before, *word),
            Text::NonConstant(name) => Text::NonConstant(*name),
            Text::Number(before, number, behind) => Text::Number(*before, *number, *behind),
            Text::Hex(before, number, behind) => Text::Hex(*before, *number, *behind),
            Text::PastLimit(things, most) => Text::PastLimit(*things, *most),
            Text::SizeOf(things) => Text::SizeOf(*things),
            Text::TooDeep(depth, most) => Text::TooDeep(*depth, *most),
            Text::Entries(most) => Text::Entries(*most),
            Text::Pages(most, page_size) => Text::Pages(*most, *page_size),
            Text::Subopcode(prefix, code) => Text::Subopcode(*prefix, *code),
            Text::CastFlags(flags) => Text::CastFlags(*flags),
            Text::UnknownExport(space, index) => Text::UnknownExport(*space, *index),
            Text::NoVisitOfConstants(name) => Text::NoVisitOfConstants(*name),
            Text::Types(before, first, between, second) => Text::Types(
                *before, *first, *between, *second,
            ),
            Text::Mismatch(expected, found) => Text::Mismatch(*expected, *found),
            Text::SubtypeMismatch(expected, found) => Text::SubtypeMismatch(*expected, *found),
            Text::EmptyStack(expected) => Text::EmptyStack(*expected),
            Text::ElementMismatch(elements, table) => Text::ElementMismatch(*elements, *table),
            Text::DuplicateExport(name) => match name.clone() {
                Ok(name) => Text::DuplicateExport(name),
                Err(_) => Text::Words(Words::DuplicateExportName),
            },
        }
    }
}
