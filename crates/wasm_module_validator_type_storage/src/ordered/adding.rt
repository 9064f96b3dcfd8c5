//! Adding a number to chunks.

ghost use Rattle.std.specs.Prelude.{◌≡◌, ◌↔◌, ◌<◌, ◌++◌, ◌∷◌, [], length, take, IsTrue, IfOk, OnOk, OnErr};
ghost use Rattle.std.specs.List.{concat};
ghost use Rattle.wasm_module_validator_type_storage.specs.ordered.Chunks.{AreChunks, Belongs, IsInside, Takes, chunk_at, halved_at, half, most, numbers_of};
ghost use Rattle.wasm_module_validator_type_storage.specs.ordered.Order.{Ascends, Misses, IsPlace, IsPut};

use crate::ordered::finding::{chunk_for, is_passed, place_in};
use crate::ordered::{Compare, SearchEnd};
use std::alloc::AllocError;
use std::cmp::Ordering;

// How many numbers a chunk has at most: to put one more into it moves two kilobytes at most.
const CHUNK: usize = 512;

const HALF: usize = 256;

// Whether a chunk has room for a number more.
fn has_room(chunks: &[Vec<u32>], at: usize) -> bool
    requires { at < length chunks.now }
    ensures { IsTrue result ↔ (length (chunk_at (numbers_of chunks.now) at) < most) }
{
    chunks[at].as_slice().len() < CHUNK
}

// Puts a number into a chunk.
fn put_in<C: Compare>(chunk: &mut Vec<u32>, sought: &C, number: u32) -> Result<(), AllocError>
    requires ascends { Ascends (C.order sought.now) chunk.old.items }
    requires misses { Misses (C.order sought.now) chunk.old.items }
    ensures ok { OnOk result (IsPut (C.order sought.now) number chunk.old.items chunk.new.items) }
    ensures err { OnErr result (chunk.new.items ≡ chunk.old.items) }
{
    let at = place_in(chunk.as_slice(), sought);
    chunk.insert(at, number)?;
    Ok(())
}

// Puts a number into a chunk that has room for it.
fn put_into<C: Compare>(
    chunks: &mut Vec<Vec<u32>>,
    at: usize,
    sought: &C,
    number: u32,
) -> Result<(), AllocError>
    requires takes { Takes (C.order sought.now) (numbers_of chunks.old.items) at }
    requires ascends { Ascends (C.order sought.now) (concat (numbers_of chunks.old.items)) }
    requires misses { Misses (C.order sought.now) (concat (numbers_of chunks.old.items)) }
    ensures ok { OnOk result (IsPut (C.order sought.now) number (concat (numbers_of chunks.old.items))
        (concat (numbers_of chunks.new.items))) }
    ensures err { OnErr result (concat (numbers_of chunks.new.items) ≡ concat (numbers_of chunks.old.items)) }
    ensures sized { AreChunks (numbers_of chunks.new.items) }
{
    put_in(&mut chunks[at], sought, number)
}

// Appends a number to a chunk.
fn push_in(chunk: &mut Vec<u32>, number: u32) -> Result<(), AllocError>
    ensures ok { OnOk result (chunk.new.items ≡ chunk.old.items ++ number ∷ []) }
    ensures err { OnErr result (chunk.new.items ≡ chunk.old.items) }
{
    chunk.push(number)?;
    Ok(())
}

// Appends a chunk of one number.
fn begin_chunk(chunks: &mut Vec<Vec<u32>>, number: u32) -> Result<(), AllocError>
    ensures ok { OnOk result (numbers_of chunks.new.items ≡ numbers_of chunks.old.items ++ (number ∷ []) ∷ []) }
    ensures err { OnErr result (numbers_of chunks.new.items ≡ numbers_of chunks.old.items) }
{
    let mut chunk = Vec::new(*chunks.allocator());
    chunk.push(number)?;
    chunks.push(chunk)?;
    Ok(())
}

// Adds a number behind all others.
fn append(chunks: &mut Vec<Vec<u32>>, number: u32) -> Result<(), AllocError>
    requires { AreChunks (numbers_of chunks.old.items) }
    ensures ok { OnOk result (concat (numbers_of chunks.new.items) ≡ concat
        (numbers_of chunks.old.items) ++ number ∷ []) }
    ensures err { OnErr result (concat (numbers_of chunks.new.items) ≡ concat (numbers_of chunks.old.items)) }
    ensures sized { AreChunks (numbers_of chunks.new.items) }
{
    let count = chunks.as_slice().len();
    if count > 0 && has_room(chunks.as_slice(), count - 1) {
        return push_in(&mut chunks[count - 1], number);
    }
    begin_chunk(chunks, number)
}

// Leaves the lower half of a chunk, and no room: it may never be filled again.
fn shorten(chunk: &mut Vec<u32>)
    ensures { chunk.new.items ≡ take half chunk.old.items }
{
    chunk.truncate(HALF);
    chunk.shrink_to_fit();
}

// Cuts a chunk in two halves.
fn halve(chunks: &mut Vec<Vec<u32>>, at: usize) -> Result<(), AllocError>
    requires within { at < length chunks.old.items }
    requires long { half < length (chunk_at (numbers_of chunks.old.items) at) }
    requires sized { AreChunks (numbers_of chunks.old.items) }
    ensures ok { OnOk result (numbers_of chunks.new.items ≡ halved_at at (numbers_of chunks.old.items)) }
    ensures same { concat (numbers_of chunks.new.items) ≡ concat (numbers_of chunks.old.items) }
    ensures sized { AreChunks (numbers_of chunks.new.items) }
{
    let alloc = *chunks.allocator();
    let upper = Vec::from_slice(alloc, &chunks[at].as_slice()[HALF..])?;
    chunks.insert(at + 1, upper)?;
    shorten(&mut chunks[at]);
    Ok(())
}

// Makes room where what is sought belongs, and answers in which chunk that is.
fn with_room<C: Compare>(
    chunks: &mut Vec<Vec<u32>>,
    at: usize,
    sought: &C,
) -> Result<usize, AllocError>
    requires within { at < length chunks.old.items }
    requires sized { AreChunks (numbers_of chunks.old.items) }
    requires ascends { Ascends (C.order sought.now) (concat (numbers_of chunks.old.items)) }
    requires belongs { Belongs (C.order sought.now) (numbers_of chunks.old.items) at }
    ensures takes { IfOk result (λ k. Takes (C.order sought.now) (numbers_of chunks.new.items) k) }
    ensures same { concat (numbers_of chunks.new.items) ≡ concat (numbers_of chunks.old.items) }
    ensures sized { AreChunks (numbers_of chunks.new.items) }
{
    if has_room(chunks.as_slice(), at) {
        return Ok(at);
    }
    halve(chunks, at)?;
    if is_passed(chunks.as_slice(), at, sought) {
        Ok(at + 1)
    } else {
        Ok(at)
    }
}

// Adds a number where what is sought belongs.
fn insert_among<C: Compare>(
    chunks: &mut Vec<Vec<u32>>,
    sought: &C,
    number: u32,
) -> Result<(), AllocError>
    requires sized { AreChunks (numbers_of chunks.old.items) }
    requires ascends { Ascends (C.order sought.now) (concat (numbers_of chunks.old.items)) }
    requires misses { Misses (C.order sought.now) (concat (numbers_of chunks.old.items)) }
    ensures ok { OnOk result (IsPut (C.order sought.now) number (concat (numbers_of chunks.old.items))
        (concat (numbers_of chunks.new.items))) }
    ensures err { OnErr result (concat (numbers_of chunks.new.items) ≡ concat (numbers_of chunks.old.items)) }
    ensures sized { AreChunks (numbers_of chunks.new.items) }
{
    let at = chunk_for(chunks.as_slice(), sought);
    if at == chunks.as_slice().len() {
        return append(chunks, number);
    }
    let at = with_room(chunks, at, sought)?;
    put_into(chunks, at, sought, number)
}

// Whether this place is inside a chunk, which has room, and what is sought belongs there.
fn is_inside<C: Compare>(numbers: &[u32], place: usize, sought: &C) -> bool
    ensures inside { IsTrue result → IsInside (C.order sought.now) numbers.now place }
    ensures room { IsTrue result → length numbers.now < most }
{
    if place == 0 || place >= numbers.len() || numbers.len() >= CHUNK {
        return false;
    }
    match sought.compare(numbers[place - 1]) {
        Ordering::Less => (),
        Ordering::Equal => return false,
        Ordering::Greater => return false,
    }
    match sought.compare(numbers[place]) {
        Ordering::Less => false,
        Ordering::Equal => false,
        Ordering::Greater => true,
    }
}

// Whether a search for what is sought ended where that belongs, inside a chunk that has room.
fn is_there<C: Compare>(chunks: &[Vec<u32>], end: SearchEnd, sought: &C) -> bool
    requires sized { AreChunks (numbers_of chunks.now) }
    requires ascends { Ascends (C.order sought.now) (concat (numbers_of chunks.now)) }
    ensures takes { IsTrue result → Takes (C.order sought.now) (numbers_of chunks.now) end.chunk }
    ensures place { IsTrue result → IsPlace (C.order sought.now) (chunk_at (numbers_of chunks.now) end.chunk)
        end.place }
{
    if end.chunk >= chunks.len() {
        return false;
    }
    is_inside(chunks[end.chunk].as_slice(), end.place, sought)
}

// Puts a number at a place of a chunk, where what is sought belongs.
fn put_at<C: Compare>(
    chunk: &mut Vec<u32>,
    place: usize,
    _sought: &C,
    number: u32,
) -> Result<(), AllocError>
    requires { IsPlace (C.order _sought.now) chunk.old.items place }
    ensures ok { OnOk result (IsPut (C.order _sought.now) number chunk.old.items chunk.new.items) }
    ensures err { OnErr result (chunk.new.items ≡ chunk.old.items) }
{
    chunk.insert(place, number)?;
    Ok(())
}

// Puts a number at a place of a chunk that has room for it.
fn put_there<C: Compare>(
    chunks: &mut Vec<Vec<u32>>,
    end: SearchEnd,
    sought: &C,
    number: u32,
) -> Result<(), AllocError>
    requires takes { Takes (C.order sought.now) (numbers_of chunks.old.items) end.chunk }
    requires place { IsPlace (C.order sought.now) (chunk_at (numbers_of chunks.old.items) end.chunk) end.place }
    ensures ok { OnOk result (IsPut (C.order sought.now) number (concat (numbers_of chunks.old.items))
        (concat (numbers_of chunks.new.items))) }
    ensures err { OnErr result (concat (numbers_of chunks.new.items) ≡ concat (numbers_of chunks.old.items)) }
    ensures sized { AreChunks (numbers_of chunks.new.items) }
{
    put_at(&mut chunks[end.chunk], end.place, sought, number)
}

// Adds a number where what is sought belongs: where a search ended, if it is there.
pub(crate) fn insert_near<C: Compare>(
    chunks: &mut Vec<Vec<u32>>,
    sought: &C,
    number: u32,
    end: SearchEnd,
) -> Result<(), AllocError>
    requires sized { AreChunks (numbers_of chunks.old.items) }
    requires ascends { Ascends (C.order sought.now) (concat (numbers_of chunks.old.items)) }
    requires misses { Misses (C.order sought.now) (concat (numbers_of chunks.old.items)) }
    ensures ok { OnOk result (IsPut (C.order sought.now) number (concat (numbers_of chunks.old.items))
        (concat (numbers_of chunks.new.items))) }
    ensures err { OnErr result (concat (numbers_of chunks.new.items) ≡ concat (numbers_of chunks.old.items)) }
    ensures sized { AreChunks (numbers_of chunks.new.items) }
{
    if is_there(chunks.as_slice(), end, sought) {
        return put_there(chunks, end, sought, number);
    }
    insert_among(chunks, sought, number)
}
