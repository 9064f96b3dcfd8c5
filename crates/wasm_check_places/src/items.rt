//! Which item of a section has an offset.
ghost use Rattle.wasm_types.specs.settings.Limits.{IsWithinCeilings};
ghost use Rattle.wasm_check_places.specs.Places.{IsAnItem};

use crate::judged::Judged;
use crate::place::{Item, Offsets};
use crate::sections::Part;
use std::alloc::Global;
use wasm_sections::{Data, Element, Export, Global as GlobalItem, Import, SectionLimited, Table};
use wasm_types::{BinaryReader, FromReader, MemoryType, RecGroup, TagType};

/// What is at an offset in a section.
#[derive(Clone, Copy)]
pub struct Spot {
    /// The item, if there is one.
    pub item: Option<Item>,
    /// Whether it cannot be read.
    pub is_unread: bool,
}

/// No item.
const NOWHERE: Spot = Spot {
    item: None,
    is_unread: false,
};

/// The last item that begins at this offset or before it; or the one that cannot be read, by an error at this offset.
fn item_at<'a, T: FromReader<'a> + Drop + 'a>(
    alloc: Global,
    reader: BinaryReader<'a>,
    offset: u64,
) -> Spot
    ensures { IsAnItem result.item }
{
    let Ok(section) = SectionLimited::<'a, T>::new(alloc, reader) else {
        return NOWHERE;
    };
    let count = section.count();
    let mut begun = 0;
    for item in section.into_iter_with_offsets() {
        match item {
            Ok(pair) => {
                if pair.0 > offset {
                    break;
                }
            }
            Err(error) => {
                if error.offset() == offset {
                    return unread(begun, count);
                }
                break;
            }
        }
        if begun < u32::MAX {
            begun += 1;
        }
    }
    if begun == 0 {
        return NOWHERE;
    }
    Spot {
        item: item_of_count(begun - 1, count),
        is_unread: false,
    }
}

/// The item of this number, which cannot be read.
fn unread(number: u32, count: u32) -> Spot
    ensures { IsAnItem result.item }
{
    Spot {
        item: item_of_count(number, count),
        is_unread: true,
    }
}

/// An item, if there is one of this number.
fn item_of_count(number: u32, count: u32) -> Option<Item>
    ensures { IsAnItem result }
{
    if number < count {
        return Some(Item { number, count });
    }
    None
}

/// A reader of what is between these offsets, if all of it is there.
fn reader_between(judged: Judged<'_>, range: Offsets) -> Option<BinaryReader<'_>>
    requires within { IsWithinCeilings judged.limits }
{
    let contents = judged.bytes.get(range.start as usize..range.end as usize)?;
    if range.start >= 0x1_0000_0000 || contents.len() >= 0x1_0000_0000 {
        return None;
    }
    let reader = BinaryReader::new_limited(contents, range.start, judged.features, judged.limits);
    Some(reader)
}

/// Which item of a part between these offsets has this one, if the part has items.
pub fn spot_of(judged: Judged<'_>, part: Part, range: Offsets, offset: u64) -> Spot
    requires within { IsWithinCeilings judged.limits }
    ensures { IsAnItem result.item }
{
    let Some(reader) = reader_between(judged, range) else {
        return NOWHERE;
    };
    spot_in(judged.alloc, part, reader, offset)
}

/// Which item of a part, of which this is a reader, has this offset, if the part has items.
fn spot_in(alloc: Global, part: Part, reader: BinaryReader<'_>, offset: u64) -> Spot
    ensures { IsAnItem result.item }
{
    match part {
        Part::Types => item_at::<RecGroup>(alloc, reader, offset),
        Part::Imports => item_at::<Import<'_>>(alloc, reader, offset),
        Part::Functions => item_at::<u32>(alloc, reader, offset),
        Part::Tables => item_at::<Table<'_>>(alloc, reader, offset),
        Part::Memories => item_at::<MemoryType>(alloc, reader, offset),
        Part::Tags => item_at::<TagType>(alloc, reader, offset),
        Part::Globals => item_at::<GlobalItem<'_>>(alloc, reader, offset),
        Part::Exports => item_at::<Export<'_>>(alloc, reader, offset),
        Part::Elements => item_at::<Element<'_>>(alloc, reader, offset),
        Part::Data => item_at::<Data<'_>>(alloc, reader, offset),
        _ => NOWHERE,
    }
}
