//! Reading what comes next.

ghost use Rattle.std.specs.Prelude.{◌≡◌, ◌+◌, ◌≤◌, length, take, drop, IfOk};
ghost use Rattle.wasm_types.specs.decoding.Decoder.{Reaches};
ghost use Rattle.wasm_types.specs.decoding.declared.error.ErrorKind.TheVariants.{Other};
ghost use Rattle.wasm_types.specs.decoding.Text.{name};
ghost use Rattle.wasm_types.specs.reader.Reading.{Gives, NeedsNoMemory};
ghost use Rattle.wasm_types.specs.reader.Parts.{next_part};
ghost use Rattle.wasm_sections_items.specs.frames.Decode.{is_magic, header_of};
ghost use Rattle.wasm_types.specs.decoding.Text.{little_endian};
ghost use Rattle.wasm_sections_parser.specs.Steps.{in_part, custom_next, counted_next, contents, code_start, next_section, body, next_entry, behind_code, next_header, step};
ghost use Rattle.wasm_sections_parser.specs.Parsing.{shape_of, layer_of};
ghost use Rattle.wasm_sections_parser.specs.Places.{IsPlacedBy, IsPlaced};

use crate::numbers::{read_number_before, settled};
use crate::progress::{begun, counted, in_code, is_announced, is_late, one_less};
use crate::{CustomSectionReader, Encoding, Frame, Progress, Stage};
use std::ops::Range;
use wasm_types::{BinaryReader, Error, Result, Words};

/// A frame, and where the parser stands behind it.
#[derive(Drop)]
pub(crate) struct Read<'a> {
    pub(crate) frame: Frame<'a>,
    pub(crate) progress: Progress,
}

// A reader over these bytes, which stand from `place` to `end`, as the reader behind them reads.
pub(crate) fn part_between<'a>(
    text: &'a [u8],
    place: u64,
    end: u64,
    reader: &BinaryReader<'a>,
) -> BinaryReader<'a>
    requires { place + length text.now ≡ end }
    ensures { result ≡ record { rest = text.now; place = place; settings = reader.now.settings; start = place } }
{
    BinaryReader::new_limited(text, place, reader.features(), reader.limits())
}

// The next `size` bytes, as a reader of their own.
#[tactic(auto, using(wasm_types::specs::Laws::reaches_self, wasm_types::specs::Laws::reaches_then))]
fn read_part<'a>(size: u32, reader: &mut BinaryReader<'a>) -> Result<BinaryReader<'a>>
    ensures answer { Gives (λ r. r) result reader.new (next_part size reader.old) }
    ensures ends { IfOk result (λ r. r.place + length r.rest ≡ reader.new.place) }
    ensures begins { IfOk result (λ r. r.start ≡ reader.old.place) }
    ensures place { IfOk result (λ r. r.place ≡ reader.old.place) }
    ensures settings { IfOk result (λ r. r.settings ≡ reader.old.settings) }
    ensures no_memory { NeedsNoMemory result }
    ensures forward { Reaches reader.old reader.new }
{
    let place = reader.original_position();
    let text = reader.read_bytes(size as usize)?;
    let end = reader.original_position();
    Ok(part_between(text, place, end, reader))
}

// A custom section of these contents, behind which the reader stands.
fn read_custom<'a>(
    progress: Progress,
    part: BinaryReader<'a>,
    _reader: &BinaryReader<'a>,
) -> Result<Read<'a>>
    ensures answer { Gives (λ x. (shape_of x.frame, x.progress)) result _reader.now
        (in_part (name part.entry.settings.limits.string_bytes) (custom_next progress) part.entry _reader.now) }
    ensures placed { IfOk result (λ x. IsPlacedBy (λ n. n ≡ part.entry.start) part.entry.settings x.frame x.progress
        (part.entry.place + length part.entry.rest)) }
    ensures no_memory { NeedsNoMemory result }
{
    let mut part = part;
    let range = part.range();
    let name = match part.read_string() {
        Ok(name) => name,
        Err(error) => return Err(settled(error)),
    };
    let data_offset = part.original_position();
    let data = part.read_bytes(part.bytes_remaining())?;
    Ok(Read {
        frame: Frame::Custom(CustomSectionReader {
            name,
            data,
            data_offset,
            range,
        }),
        progress: counted(progress, 0, 0),
    })
}

// A section of these contents, which begin with a count, and behind which the reader stands.
fn read_counted<'a>(
    progress: Progress,
    id: u8,
    part: BinaryReader<'a>,
    reader: &BinaryReader<'a>,
) -> Result<Read<'a>>
    ensures answer { Gives (λ x. (shape_of x.frame, x.progress)) result reader.now
        (counted_next progress id part.entry reader.now) }
    ensures placed { IfOk result (λ x. part.entry.start ≡ part.entry.place
        → IsPlacedBy (λ n. n ≡ part.entry.start) part.entry.settings x.frame x.progress
        (part.entry.place + length part.entry.rest)) }
    ensures no_memory { NeedsNoMemory result }
{
    let mut ahead = part.clone();
    let count = match ahead.read_var_u32() {
        Ok(count) => count,
        Err(error) => return Err(settled(error)),
    };
    let behind = counted(progress, id, count);
    if !is_announced(&behind, id) {
        return Err(segments_error(reader.original_position()));
    }
    Ok(Read {
        frame: Frame::Section { id, reader: part },
        progress: behind,
    })
}

// That there are other than as many bodies as functions, so many of which were declared.
#[cold]
fn bodies_error(functions: u32, offset: u64) -> Error
    ensures kind { result.kind ≡ Other }
    ensures offset { result.offset ≡ offset }
{
    if functions == 0 {
        return Error::new(
            Words::FunctionSectionIsAbsentButCodeSectionHasNonZeroCount,
            offset,
        );
    }
    Error::new(Words::FunctionAndCodeSectionHaveInconsistentLengths, offset)
}

// That there are other than as many data segments as were announced.
#[cold]
fn segments_error(offset: u64) -> Error
    ensures kind { result.kind ≡ Other }
    ensures offset { result.offset ≡ offset }
{
    Error::new(
        Words::DataCountAndDataSectionHaveInconsistentLengths,
        offset,
    )
}

// A whole section, behind its id and size.
#[tactic(auto, using(wasm_types::specs::Laws::reaches_self, wasm_types::specs::Laws::reaches_then), unfolding(crate::specs::Steps::contents))]
fn read_contents<'a>(
    progress: Progress,
    id: u8,
    size: u32,
    reader: &mut BinaryReader<'a>,
) -> Result<Read<'a>>
    ensures answer { Gives (λ x. (shape_of x.frame, x.progress)) result reader.new
        (contents reader.old.settings progress id size reader.old) }
    ensures placed { IfOk result (λ x. IsPlacedBy (λ n. n ≡ reader.old.place) reader.old.settings x.frame x.progress
        reader.new.place) }
    ensures no_memory { NeedsNoMemory result }
    ensures forward { Reaches reader.old reader.new }
{
    let part = read_part(size, reader)?;
    if id == 0 {
        return read_custom(progress, part, reader);
    }
    if id == 3 || id == 11 || id == 12 {
        return read_counted(progress, id, part, reader);
    }
    Ok(Read {
        frame: Frame::Section { id, reader: part },
        progress: counted(progress, id, 0),
    })
}

// The start of the code section, behind its id and size.
#[tactic(auto, using(wasm_types::specs::Laws::reaches_self, wasm_types::specs::Laws::reaches_then), unfolding(crate::specs::Steps::code_start))]
fn read_code_start<'a>(
    progress: Progress,
    size: u32,
    reader: &mut BinaryReader<'a>,
) -> Result<Read<'a>>
    ensures answer { Gives (λ x. (shape_of x.frame, x.progress)) result reader.new
        (code_start progress size reader.old) }
    ensures placed { IfOk result (λ x. IsPlacedBy (λ n. n ≡ reader.old.place) reader.old.settings x.frame x.progress
        reader.new.place) }
    ensures no_memory { NeedsNoMemory result }
    ensures forward { Reaches reader.old reader.new }
{
    let place = reader.original_position();
    if place > u64::MAX - u64::from(size) {
        return Err(Error::new(Words::CodeSectionOutOfRange, place));
    }
    let end = place + u64::from(size);
    let count = read_number_before(end, reader)?;
    if count != progress.functions {
        return Err(bodies_error(progress.functions, place));
    }
    Ok(Read {
        frame: Frame::CodeStart {
            count,
            range: Range { start: place, end },
            size,
        },
        progress: in_code(progress, count, end),
    })
}

// A section: its id, its size and what follows.
#[tactic(auto, using(wasm_types::specs::Laws::reaches_self, wasm_types::specs::Laws::reaches_then), unfolding(crate::specs::Steps::next_section))]
fn read_section<'a>(progress: Progress, reader: &mut BinaryReader<'a>) -> Result<Read<'a>>
    ensures answer { Gives (λ x. (shape_of x.frame, x.progress)) result reader.new
        (next_section reader.old.settings progress reader.old) }
    ensures placed { IfOk result (λ x. IsPlaced x.frame x.progress reader.old reader.new.place) }
    ensures no_memory { NeedsNoMemory result }
    ensures forward { Reaches reader.old reader.new }
{
    let id = reader.read_u8()?;
    let size = reader.read_var_u32()?;
    if is_late(&progress, id) {
        return Err(Error::new(Words::SectionOutOfOrder, reader.original_position()));
    }
    if id == 10 {
        return read_code_start(progress, size, reader);
    }
    read_contents(progress, id, size, reader)
}

// A body of `size` bytes, one of `left` in a code section that ends at `end`.
#[tactic(auto, using(wasm_types::specs::Laws::reaches_self, wasm_types::specs::Laws::reaches_then))]
fn read_body<'a>(
    progress: Progress,
    left: u32,
    end: u64,
    size: u32,
    reader: &mut BinaryReader<'a>,
) -> Result<Read<'a>>
    ensures answer { Gives (λ x. (shape_of x.frame, x.progress)) result reader.new
        (body progress left end size reader.old) }
    ensures placed { IfOk result (λ x. IsPlacedBy (λ n. ⊥) reader.old.settings x.frame x.progress reader.new.place) }
    ensures no_memory { NeedsNoMemory result }
    ensures forward { Reaches reader.old reader.new }
{
    let place = reader.original_position();
    if u64::from(size) > end.saturating_sub(place) {
        return Err(Error::new(Words::UnexpectedEndOfFile, place));
    }
    let text = reader.read_bytes(size as usize)?;
    let part = BinaryReader::new_limited(text, place, reader.features(), reader.limits());
    Ok(Read {
        frame: Frame::CodeEntry(part),
        progress: one_less(progress, left, end),
    })
}

// A body with its size, one of `left` in a code section that ends at `end`.
#[tactic(auto, using(wasm_types::specs::Laws::reaches_self, wasm_types::specs::Laws::reaches_then), unfolding(crate::specs::Steps::next_entry))]
fn read_entry<'a>(
    progress: Progress,
    left: u32,
    end: u64,
    reader: &mut BinaryReader<'a>,
) -> Result<Read<'a>>
    ensures answer { Gives (λ x. (shape_of x.frame, x.progress)) result reader.new
        (next_entry progress left end reader.old) }
    ensures placed { IfOk result (λ x. IsPlaced x.frame x.progress reader.old reader.new.place) }
    ensures no_memory { NeedsNoMemory result }
    ensures forward { Reaches reader.old reader.new }
{
    let size = read_number_before(end, reader)?;
    read_body(progress, left, end, size, reader)
}

// What follows the last body of a code section that ends at `end`.
#[tactic(auto, using(wasm_types::specs::Laws::reaches_self, wasm_types::specs::Laws::reaches_then), unfolding(crate::specs::Steps::behind_code))]
fn read_behind_code<'a>(
    progress: Progress,
    end: u64,
    reader: &mut BinaryReader<'a>,
) -> Result<Read<'a>>
    ensures answer { Gives (λ x. (shape_of x.frame, x.progress)) result reader.new
        (behind_code reader.old.settings progress end reader.old) }
    ensures placed { IfOk result (λ x. IsPlaced x.frame x.progress reader.old reader.new.place) }
    ensures no_memory { NeedsNoMemory result }
    ensures forward { Reaches reader.old reader.new }
{
    let place = reader.original_position();
    if place < end {
        return Err(Error::new(Words::TrailingBytesAtEndOfSection, place));
    }
    read_section(progress, reader)
}

// Whether four bytes are the magic number.
fn is_magic(text: &[u8]) -> bool
    requires { length text.now ≡ 4 }
    ensures { result ≡ is_magic text.now }
{
    match text {
        [a, b, c, d] => *a == 0x00 && *b == 0x61 && *c == 0x73 && *d == 0x6d,
        _ => false,
    }
}

// The version in four bytes of the version and the layer.
fn version_in(text: &[u8]) -> u16
    requires { length text.now ≡ 4 }
    ensures { result ≡ little_endian (take 2 text.now) }
{
    match text {
        [a, b, _, _] => *a as u16 + 256 * (*b as u16),
        _ => 0,
    }
}

// The layer in the same.
fn layer_in(text: &[u8]) -> u16
    requires { length text.now ≡ 4 }
    ensures { result ≡ little_endian (drop 2 text.now) }
{
    match text {
        [_, _, c, d] => *c as u16 + 256 * (*d as u16),
        _ => 0,
    }
}

// The magic number, the version and the layer.
#[tactic(auto, using(wasm_types::specs::Laws::reaches_self, wasm_types::specs::Laws::reaches_then), unfolding(crate::specs::Steps::next_header, wasm_sections_items::specs::frames::Decode::header))]
fn read_header<'a>(progress: Progress, reader: &mut BinaryReader<'a>) -> Result<Read<'a>>
    ensures answer { Gives (λ x. (shape_of x.frame, x.progress)) result reader.new (next_header progress reader.old) }
    ensures placed { IfOk result (λ x. IsPlaced x.frame x.progress reader.old reader.new.place) }
    ensures no_memory { NeedsNoMemory result }
    ensures forward { Reaches reader.old reader.new }
{
    let start = reader.original_position();
    let magic = reader.read_bytes(4)?;
    if !is_magic(magic) {
        return Err(Error::new(Words::MagicHeaderNotDetectedBadMagicNumber, start));
    }
    let place = reader.original_position();
    let fields = reader.read_bytes(4)?;
    let layer = layer_in(fields);
    if layer > 1 {
        return Err(Error::new(Words::UnknownBinaryVersionAndEncodingCombination, place));
    }
    Ok(Read {
        frame: Frame::Version {
            num: version_in(fields),
            encoding: encoding_of(layer),
            range: Range {
                start,
                end: reader.original_position(),
            },
        },
        progress: begun(progress),
    })
}

// The encoding of a layer.
fn encoding_of(layer: u16) -> Encoding
    requires { layer ≤ 1 }
    ensures { layer_of result ≡ layer }
{
    if layer == 0 {
        return Encoding::Module;
    }
    Encoding::Component
}

/// What comes next; nothing behind the end and behind a refusal.
#[tactic(auto, using(wasm_types::specs::Laws::reaches_self, wasm_types::specs::Laws::reaches_then), unfolding(crate::specs::Steps::step))]
pub(crate) fn read_frame<'a>(progress: Progress, reader: &mut BinaryReader<'a>) -> Result<Read<'a>>
    ensures answer { Gives (λ x. (shape_of x.frame, x.progress)) result reader.new
        (step reader.old.settings progress reader.old) }
    ensures placed { IfOk result (λ x. IsPlaced x.frame x.progress reader.old reader.new.place) }
    ensures no_memory { NeedsNoMemory result }
    ensures forward { Reaches reader.old reader.new }
{
    let place = reader.original_position();
    match progress.stage {
        Stage::Header => read_header(progress, reader),
        Stage::Sections => read_section(progress, reader),
        Stage::Code { left, end } => {
            if left == 0 {
                return read_behind_code(progress, end, reader);
            }
            read_entry(progress, left, end, reader)
        }
        Stage::Ended => Err(Error::new(Words::NothingFollowsTheEnd, place)),
        Stage::Failed => Err(Error::new(Words::NothingFollowsARefusal, place)),
    }
}
