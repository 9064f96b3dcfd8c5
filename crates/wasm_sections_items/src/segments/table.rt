//! Tables.

ghost use Rattle.wasm_types.specs.decoding.Decoder.{Reaches};
ghost use Rattle.wasm_types.specs.reader.Reading.{Gives, MemoryOnlyIf};
ghost use Rattle.wasm_sections_items.specs.segments.Tables.{init_of, behind_mark, initialised, table};

use std::alloc::Global;
use wasm_types::{BinaryReader, Error, FromReader, Result, TableType, Words};

/// What the elements of a table are at first, where that is a constant expression of this type.
#[derive(Drop)]
pub enum TableInitOf<E: Drop> {
    /// Null references.
    RefNull,
    /// The value of an expression.
    Expr(E),
}

/// A table (WebAssembly 3.0, binary format, table section).
#[derive(Drop)]
pub struct TableOf<E: Drop> {
    /// Its type.
    pub ty: TableType,
    /// What its elements are at first.
    pub init: TableInitOf<E>,
}

// A type and an expression, behind a byte that is zero.
#[tactic(auto, using(wasm_types::specs::Laws::reaches_self, wasm_types::specs::Laws::reaches_then), unfolding(crate::specs::segments::Tables::behind_mark))]
fn read_behind_mark<'a, E: FromReader<'a>>(
    alloc: Global,
    reader: &mut BinaryReader<'a>,
) -> Result<TableOf<E>>
    ensures answer { Gives (λ x. record { ty = x.ty; init = init_of E.view x.init }) result reader.new
        (behind_mark (E.decoder reader.old.settings) reader.old) }
    ensures memory { MemoryOnlyIf E.takes_memory result }
    ensures forward { Reaches reader.old reader.new }
{
    let offset = reader.original_position();
    let zero = reader.read_u8()?;
    if zero != 0 {
        return Err(Error::new(Words::InvalidTableEncoding, offset));
    }
    let ty = TableType::from_reader(alloc, reader)?;
    let expression = E::from_reader(alloc, reader)?;
    Ok(TableOf {
        ty,
        init: TableInitOf::Expr(expression),
    })
}

// The byte 0x40, and what it announces.
#[tactic(auto, using(wasm_types::specs::Laws::reaches_self, wasm_types::specs::Laws::reaches_then), unfolding(crate::specs::segments::Tables::initialised))]
fn read_initialised<'a, E: FromReader<'a>>(
    alloc: Global,
    reader: &mut BinaryReader<'a>,
) -> Result<TableOf<E>>
    ensures answer { Gives (λ x. record { ty = x.ty; init = init_of E.view x.init }) result reader.new
        (initialised (E.decoder reader.old.settings) reader.old) }
    ensures memory { MemoryOnlyIf E.takes_memory result }
    ensures forward { Reaches reader.old reader.new }
{
    let offset = reader.original_position();
    let mark = reader.read_u8()?;
    if mark != 0x40 {
        return Err(Error::new(Words::InvalidTableEncoding, offset));
    }
    read_behind_mark(alloc, reader)
}

/// A type alone; or the bytes 0x40 and 0x00, a type and a constant expression. Another byte behind 0x40 is refused at its
/// offset.
impl<'a, E: FromReader<'a>> FromReader<'a> for TableOf<E> {
    ghost use Rattle.wasm_sections_items.specs.segments.Tables.{TableTree, SpelledTableItem};
    ghost use Rattle.wasm_sections_items.specs.segments.TableLaws.{lawful-table, decides-table};

    ghost Value = { TableTree E.Value };

    ghost view = { λ x. record { ty = x.ty; init = init_of E.view x.init } };

    ghost decoder = { λ z. table (E.decoder z) };

    ghost grammar = { λ z. SpelledTableItem (E.grammar z) };

    ghost takes_memory = { E.takes_memory };

    ghost lawful = { λ z. lawful-table (E.decoder z) (E.lawful z) };

    ghost exact = { λ z. decides-table (E.decoder z) (E.grammar z) (E.exact z) };

    #[tactic(auto, using(wasm_types::specs::Laws::reaches_self, wasm_types::specs::Laws::reaches_then), unfolding(crate::specs::segments::Tables::table, crate::specs::segments::Tables::plain))]
    fn from_reader(alloc: Global, reader: &mut BinaryReader<'a>) -> Result<TableOf<E>> {
        let first = reader.peek()?;
        if first == 0x40 {
            return read_initialised(alloc, reader);
        }
        let ty = TableType::from_reader(alloc, reader)?;
        Ok(TableOf {
            ty,
            init: TableInitOf::RefNull,
        })
    }
}
