//! Looking for a place in a chunk, and for a chunk.

ghost use Rattle.std.specs.Prelude.{◌≡◌, ◌≢◌, ◌<◌, ◌≤◌, length, take, drop, All, MatchOption, IfOk, IfErr};
ghost use Rattle.std.specs.List.{concat};
ghost use Rattle.std.specs.Ordering.{is_lt};
ghost use Rattle.std.specs.declared.cmp.Ordering.TheVariants.{Less};
ghost use Rattle.wasm_module_validator_type_storage.specs.ordered.Chunks.{AreChunks, Belongs, chunk_at, last_of, numbers_of};
ghost use Rattle.wasm_module_validator_type_storage.specs.ordered.Order.{Ascends, Misses, Finds, IsPlace};

use crate::ordered::{Compare, SearchEnd};
use std::cmp::Ordering;

// Where the numbers that are not less begin.
pub(crate) fn place_in<C: Compare>(numbers: &[u32], sought: &C) -> usize
    requires { Ascends (C.order sought.now) numbers.now }
    ensures within { result ≤ length numbers.now }
    ensures less { All (λ n. C.order sought.now n ≡ Less) (take result numbers.now) }
    ensures rest { All (λ n. C.order sought.now n ≢ Less) (drop result numbers.now) }
{
    let mut low = 0;
    let mut high = numbers.len();
    'search: while low < high {
        let middle = low + (high - low) / 2;
        match sought.compare(numbers[middle]) {
            Ordering::Less => low = middle + 1,
            Ordering::Equal => high = middle,
            Ordering::Greater => high = middle,
        }
    }
    low
}

// The number that is equal to what is sought, or else the place where that belongs.
fn search_in<C: Compare>(numbers: &[u32], sought: &C) -> Result<u32, usize>
    requires { Ascends (C.order sought.now) numbers.now }
    ensures found { IfOk result (λ n. Finds (C.order sought.now) numbers.now n) }
    ensures place { IfErr result (λ at. IsPlace (C.order sought.now) numbers.now at) }
{
    let mut low = 0;
    let mut high = numbers.len();
    'search: while low < high {
        let middle = low + (high - low) / 2;
        let number = numbers[middle];
        match sought.compare(number) {
            Ordering::Less => low = middle + 1,
            Ordering::Equal => return Ok(number),
            Ordering::Greater => high = middle,
        }
    }
    Err(low)
}

// The number that is equal to what is sought, if there is one, and the place where the search ended.
fn find_in<C: Compare>(numbers: &[u32], sought: &C) -> (Option<u32>, usize)
    requires { Ascends (C.order sought.now) numbers.now }
    ensures { MatchOption result.0 (Misses (C.order sought.now) numbers.now)
        (λ n. Finds (C.order sought.now) numbers.now n) }
{
    match search_in(numbers, sought) {
        Ok(number) => (Some(number), 0),
        Err(place) => (None, place),
    }
}

// Whether all of a chunk is less than what is sought: its last number tells.
pub(crate) fn is_passed<C: Compare>(chunks: &[Vec<u32>], at: usize, sought: &C) -> bool
    requires within { at < length chunks.now }
    requires sized { AreChunks (numbers_of chunks.now) }
    ensures { result ≡ is_lt (C.order sought.now (last_of (chunk_at (numbers_of chunks.now) at))) }
{
    let chunk = chunks[at].as_slice();
    sought.compare(chunk[chunk.len() - 1]).is_lt()
}

// A chunk where what is sought belongs: all before it are less, and all behind it greater. The number of chunks where all are less.
pub(crate) fn chunk_for<C: Compare>(chunks: &[Vec<u32>], sought: &C) -> usize
    requires sized { AreChunks (numbers_of chunks.now) }
    requires ascends { Ascends (C.order sought.now) (concat (numbers_of chunks.now)) }
    ensures within { result ≤ length chunks.now }
    ensures belongs { Belongs (C.order sought.now) (numbers_of chunks.now) result }
{
    let mut low = 0;
    let mut high = chunks.len();
    'search: while low < high {
        let middle = low + (high - low) / 2;
        if is_passed(chunks, middle, sought) {
            low = middle + 1;
        } else {
            high = middle;
        }
    }
    low
}

// The same: a chunk that is the only one needs no look.
fn chunk_to_search<C: Compare>(chunks: &[Vec<u32>], sought: &C) -> usize
    requires sized { AreChunks (numbers_of chunks.now) }
    requires ascends { Ascends (C.order sought.now) (concat (numbers_of chunks.now)) }
    ensures within { result ≤ length chunks.now }
    ensures belongs { Belongs (C.order sought.now) (numbers_of chunks.now) result }
{
    if chunks.len() == 1 {
        return 0;
    }
    chunk_for(chunks, sought)
}

// The number that is equal to what is sought, if there is one in these chunks, and where the search ended.
pub(crate) fn find_among<C: Compare>(chunks: &[Vec<u32>], sought: &C) -> (Option<u32>, SearchEnd)
    requires sized { AreChunks (numbers_of chunks.now) }
    requires ascends { Ascends (C.order sought.now) (concat (numbers_of chunks.now)) }
    ensures { MatchOption result.0 (Misses (C.order sought.now) (concat (numbers_of chunks.now)))
        (λ n. Finds (C.order sought.now) (concat (numbers_of chunks.now)) n) }
{
    let at = chunk_to_search(chunks, sought);
    if at == chunks.len() {
        return (
            None,
            SearchEnd {
                chunk: at,
                place: 0,
            },
        );
    }
    let (found, place) = find_in(chunks[at].as_slice(), sought);
    (found, SearchEnd { chunk: at, place })
}
