//! A function's body: groups of locals, and operators behind them.

ghost use Rattle.std.specs.Prelude.{◌≡◌, ◌+◌, length, IfOk, MatchResult};
ghost use Rattle.wasm_types.specs.decoding.Decoder.{State, Reaches};
ghost use Rattle.wasm_types.specs.reader.Parts.{counted_part};
ghost use Rattle.wasm_types.specs.reader.Reading.{Collects, Fails, Gives, NeedsNoMemory};
ghost use Rattle.wasm_operators_reader.specs.Standing.{at_start};
ghost use Rattle.wasm_operators_encoding.specs.Locals.{locals};
ghost use Rattle.wasm_operators_bodies.specs.Groups.{counted_groups};
ghost use Rattle.wasm_operators_bodies.specs.Bodies.{body_bytes, OperatorsBegin};

use crate::LocalsReader;
use std::alloc::Global;
use std::marker::Model;
use std::ops::Range;
use wasm_operators_reader::OperatorsReader;
use wasm_types::{BinaryReader, FromReader, Result};

/// The bytes of a function's body: its groups of locals, and an expression (WebAssembly 3.0, binary format, modules, code
/// section). None of them was judged.
#[derive(Drop)]
pub struct FunctionBody<'a> {
    reader: BinaryReader<'a>,
    alloc: Global,
}

impl<'a> Model for FunctionBody<'a> {
    ghost use Rattle.wasm_types.specs.decoding.Decoder.{State};

    ghost Value = { State };

    ghost view = { λ b. b.reader };
}

impl<'a> FunctionBody<'a> {
    /// The body whose bytes are those that are left to `reader`. Reading from it takes memory of `alloc` only for operators.
    pub fn new(alloc: Global, reader: BinaryReader<'a>) -> FunctionBody<'a>
        ensures { result ≡ reader.entry }
    {
        FunctionBody { reader, alloc }
    }

    /// A reader of the body's bytes.
    pub fn get_binary_reader(&self) -> BinaryReader<'a>
        ensures { result ≡ self.now }
    {
        self.reader.clone()
    }

    /// A reader of the groups of locals at the front of the body.
    ///
    /// # Errors
    ///
    /// The bytes spell no count of groups.
    pub fn get_locals_reader(&self) -> Result<LocalsReader<'a>>
        ensures answer { Collects (λ l. l) result (counted_groups self.now.settings self.now) }
        ensures no_memory { NeedsNoMemory result }
    {
        LocalsReader::new(self.alloc, self.reader.clone())
    }

    /// A reader of bytes that stands behind the groups of locals, where the operators begin. It takes no memory.
    ///
    /// # Errors
    ///
    /// The bytes spell no groups of locals, or more than 50,000 locals.
    pub fn get_binary_reader_for_operators(&self) -> Result<BinaryReader<'a>>
        ensures answer { MatchResult result (λ reader. OperatorsBegin self.now reader)
            (λ e. Fails e (locals self.now.settings self.now)) }
        ensures no_memory { NeedsNoMemory result }
    {
        let mut groups = self.get_locals_reader()?;
        groups.pass()?;
        Ok(groups.get_binary_reader())
    }

    /// A reader of the operators behind the groups of locals.
    ///
    /// # Errors
    ///
    /// As `get_binary_reader_for_operators`.
    pub fn get_operators_reader(&self) -> Result<OperatorsReader<'a>>
        ensures answer { MatchResult result (λ operators. (t : State) × OperatorsBegin self.now t
            × (operators ≡ at_start t)) (λ e. Fails e (locals self.now.settings self.now)) }
        ensures no_memory { NeedsNoMemory result }
    {
        match self.get_binary_reader_for_operators() {
            Ok(reader) => Ok(OperatorsReader::new(self.alloc, reader)),
            Err(error) => Err(error),
        }
    }

    /// The offsets of all bytes of the reader that the body was made of, those before the body too.
    #[inline]
    pub fn range(&self) -> Range<u64>
        ensures { result ≡ record { start = self.now.start; end = self.now.place + length self.now.rest } }
    {
        self.reader.range()
    }

    /// The body's bytes, those of the locals first.
    pub fn as_bytes(&self) -> &'a [u8]
        ensures { result.now ≡ self.now.rest }
    {
        let mut reader = self.reader.clone();
        let Ok(bytes) = reader.read_bytes(reader.bytes_remaining()) else {
            unreachable!()
        };
        bytes
    }
}

impl<'a> FromReader<'a> for FunctionBody<'a> {
    ghost use Rattle.std.specs.Prelude.{ℕ, List, false};
    ghost use Rattle.wasm_operators_bodies.specs.Bodies.{SpelledBody};
    ghost use Rattle.wasm_operators_bodies.specs.BodyLaws.{lawful-body, decides-body};

    ghost Value = { List ℕ };

    ghost view = { λ b. b.rest };

    ghost decoder = { λ z. body_bytes };

    ghost grammar = { λ z. SpelledBody };

    ghost takes_memory = { false };

    ghost lawful = { λ z. lawful-body };

    ghost exact = { λ z. decides-body };

    #[tactic(auto, using(wasm_types::specs::Laws::reaches_self, wasm_types::specs::Laws::reaches_then), unfolding(crate::specs::Bodies::body_bytes))]
    fn from_reader(alloc: Global, reader: &mut BinaryReader<'a>) -> Result<FunctionBody<'a>>
        ensures part { Gives (λ b. b) result reader.new (counted_part reader.old) }
        ensures answer { Gives (λ b. b.rest) result reader.new (body_bytes reader.old) }
        ensures forward { Reaches reader.old reader.new }
        ensures no_memory { NeedsNoMemory result }
    {
        let part = reader.read_reader()?;
        Ok(FunctionBody::new(alloc, part))
    }
}
