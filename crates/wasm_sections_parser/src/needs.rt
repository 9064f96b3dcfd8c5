//! How many more bytes can bring a frame or a refusal.

ghost use Rattle.std.specs.Prelude.{◌≡◌, ◌+◌, ◌-◌, ◌^◌, ◌<◌, ◌≤◌, length};
ghost use Rattle.wasm_sections_parser.specs.Needs.{wanted, is_cut, are_not_last, low_of, least_within, needed_within, measured_section, needed_of_section, needed_of_body, needed};

use crate::progress::is_late;
use crate::{Progress, Stage};

/// What a size is of.
#[derive(Clone, Copy)]
pub enum Measured {
    /// A section that may not come here: it is refused behind its size.
    Late,
    /// A section that is read whole.
    Section,
    /// The code section, of which the count of bodies is read.
    Code,
    /// A body.
    Body,
}

// How many bytes are needed behind a size, behind which there is so much room.
fn wanted(measured: Measured, room: u64, size: u64) -> u64
    ensures { result ≡ wanted measured room size }
{
    match measured {
        Measured::Late => 0,
        Measured::Section => size,
        Measured::Code => {
            if room < size {
                return 0;
            }
            if size == 0 { 0 } else { 1 }
        }
        Measured::Body => {
            if room < size {
                return 0;
            }
            size
        }
    }
}

// How many bytes are needed within a size, of which `left` may come before the fifth, and whose next byte counts so many units.
fn least_within(measured: Measured, left: u64, low: u64, high: u64, unit: u64, room: u64) -> u64
    requires left { left ≤ 4 }
    requires unit { unit ≡ 128 ^ (4 - left) }
    requires high { high < unit }
    ensures answer { result ≡ least_within measured left low high unit room }
    ensures few { result ≤ left + 1 }
{
    if left == 0 {
        return 1;
    }
    let behind = room.saturating_sub(1);
    let top = high + 127 * unit;
    let now = wanted(measured, behind, low).min(wanted(measured, behind, top));
    let later = least_within(measured, left - 1, low, top, 128 * unit, behind);
    1 + now.min(later)
}

// Whether none of these bytes is the last of a number.
fn are_not_last(size: &[u8]) -> bool
    ensures { result ≡ are_not_last size.now }
{
    for i in 0..size.len() {
        if size[i] < 128 {
            return false;
        }
    }
    true
}

// What a byte of a number counts that is not its last.
fn bits(byte: u8) -> u64
    ensures value { result ≡ byte - 128 }
    ensures few { result < 128 }
{
    u64::from(byte).saturating_sub(128)
}

// The least number that begins with these bytes.
fn low_of(size: &[u8]) -> u64
    requires { length size.now ≤ 4 }
    ensures value { result ≡ low_of size.now }
    ensures few { result < 128 ^ length size.now }
{
    match size {
        [] => 0,
        [a] => bits(*a),
        [a, b] => bits(*a) + 128 * bits(*b),
        [a, b, c] => bits(*a) + 128 * (bits(*b) + 128 * bits(*c)),
        [a, b, c, d] => bits(*a) + 128 * (bits(*b) + 128 * (bits(*c) + 128 * bits(*d))),
        _ => 0,
    }
}

// What a byte counts that follows so many of a number.
fn unit_behind(count: usize) -> u64
    requires { count ≤ 4 }
    ensures { result ≡ 128 ^ count }
{
    match count {
        0 => 1,
        1 => 128,
        2 => 16384,
        3 => 2097152,
        _ => 268435456,
    }
}

// Where these bytes of a size are there, and so many of room behind them; elsewhere `lacking`.
fn needed_within(measured: Measured, room: u64, size: &[u8], lacking: usize) -> usize
    ensures { result ≡ needed_within measured room size.now lacking }
{
    let count = size.len();
    if count > 4 || !are_not_last(size) {
        return lacking;
    }
    let low = low_of(size);
    least_within(
        measured,
        4 - count as u64,
        low,
        low,
        unit_behind(count),
        room,
    ) as usize
}

// What a section of this id is, by its size.
fn measured_section(progress: &Progress, id: u8) -> Measured
    ensures { result ≡ measured_section progress.now id }
{
    if is_late(progress, id) {
        return Measured::Late;
    }
    if id == 10 {
        return Measured::Code;
    }
    Measured::Section
}

// The same of a section whose first byte stands at `place`.
fn needed_of_section(progress: &Progress, place: u64, text: &[u8], lacking: usize) -> usize
    requires { place + length text.now < 2 ^ 64 }
    ensures { result ≡ needed_of_section progress.now place text.now lacking }
{
    match text.split_first() {
        Some((id, size)) => {
            let room = u64::MAX - (place + 1 + size.len() as u64);
            needed_within(measured_section(progress, *id), room, size, lacking)
        }
        None => lacking,
    }
}

// The same of a body in a code section that ends there.
fn needed_of_body(end: u64, place: u64, size: &[u8], lacking: usize) -> usize
    requires { place + length size.now < 2 ^ 64 }
    ensures { result ≡ needed_of_body end place size.now lacking }
{
    let room = end.saturating_sub(place + size.len() as u64);
    needed_within(Measured::Body, room, size, lacking)
}

/// How many bytes are needed behind these, the first of which stands at `place`, where so many are lacking.
#[tactic(auto, unfolding(crate::specs::Needs::needed))]
pub(crate) fn needed(progress: &Progress, place: u64, text: &[u8], lacking: usize) -> usize
    requires { place + length text.now < 2 ^ 64 }
    ensures { result ≡ needed progress.now place text.now lacking }
{
    match progress.stage {
        Stage::Header => lacking,
        Stage::Sections => needed_of_section(progress, place, text, lacking),
        Stage::Code { left, end } => {
            if left == 0 {
                return needed_of_section(progress, place, text, lacking);
            }
            needed_of_body(end, place, text, lacking)
        }
        Stage::Ended => lacking,
        Stage::Failed => lacking,
    }
}
