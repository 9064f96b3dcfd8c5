//! Bytes of a reader, taken as they come.

ghost use Rattle.std.specs.Prelude.{◌≡◌, ◌≤◌, ◌<◌, ◌+◌, ◌-◌, min, ◌++◌, ◌^◌, ℕ, List, [], length, false, true, vec_len, drop, IfErr, IfOk, OnOk};
ghost use Rattle.wasm_types.specs.decoding.declared.error.ErrorKind.TheVariants.{OutOfMemory};
ghost use Rattle.wasm_module_validator_streaming.specs.Taking.{IsMidst, IsPending, IsPassed, Carries, DeniesFrom};
ghost use Rattle.wasm_module_validator_streaming.specs.Pieces.{Concludes, Answers, Stops, fails};

use crate::handing::{PieceError, take_handed};
use crate::taking::{Advanced, TakesBytes, take_items};
use crate::watched::WatchedReader;
use std::alloc::Global;
use std::io::Read;
use wasm_types::Error;

/// Why the bytes of a reader are not accepted.
#[derive(Debug, Drop)]
pub enum ReadError {
    /// They are refused, or there is no memory (kind 3).
    Refused(Error),
    /// A read failed.
    Read,
    /// There were more bytes than are allowed before a verdict.
    TooLong,
}

/// Bytes that came and were not taken yet: fewer than can bring an item or a refusal (`IsPending`). So they are of the item that is being
/// read, and none of the bytes behind it is held (`few`): in whatever item a call stops, it has read no more than a piece behind the end of
/// it (`StopsWithin` of `specs/Pieces.antt`).
#[derive(Drop)]
pub(crate) struct Pending {
    pub(crate) bytes: Vec<u8>,
    /// With fewer bytes nothing more can be taken.
    pub(crate) needed: usize,
    ghost few: { vec_len bytes < needed },
}

impl Pending {
    /// None yet.
    pub(crate) fn none(alloc: Global) -> Pending
        ensures bytes { result.bytes.items ≡ [] }
        ensures needed { result.needed ≡ 1 }
    {
        Pending {
            bytes: Vec::new(alloc),
            needed: 1,
        }
    }
}

/// Drops so many bytes at the front.
fn drop_front(bytes: &mut Vec<u8>, count: usize)
    requires { count ≤ vec_len bytes.old }
    ensures { bytes.new.items ≡ drop count bytes.old.items }
{
    let left = bytes.len() - count;
    bytes.copy_within(count.., 0);
    bytes.truncate(left);
}

/// Puts a piece behind the bytes.
pub(crate) fn append(bytes: &mut Vec<u8>, piece: &[u8]) -> Result<(), Error>
    ensures ok { OnOk result (bytes.new.items ≡ bytes.old.items ++ piece.now) }
    ensures err { IfErr result (λ e. e.kind ≡ OutOfMemory) }
{
    match bytes.extend_from_slice(piece) {
        Ok(()) => Ok(()),
        Err(_error) => Err(Error::out_of_memory(0)),
    }
}

/// Takes all whole items of the bytes that came, and gives what is left of them.
fn take_pending<T: TakesBytes>(taker: &mut T, bytes: Vec<u8>) -> Result<Pending, Error>
    requires { IsMidst T.stands false bytes.items taker.old }
    ensures ok { IfOk result (λ p. Carries T.stands false bytes.items taker.old p.bytes.items taker.new) }
    ensures pending { IfOk result (λ p. IsPending T.waits p.needed p.bytes.items taker.new) }
    ensures held { IfOk result (λ p. vec_len p.bytes ≤ vec_len bytes) }
    ensures err { IfErr result (DeniesFrom T.stands T.denied false bytes.items taker.old) }
{
    match take_items(taker, bytes.as_slice(), false) {
        Advanced::Waits { passed, needed } => Ok(left_behind(bytes, passed, needed)),
        Advanced::Ended(_done) => unreachable!(),
        Advanced::Refused(error) => Err(error),
    }
}

/// What is left behind so many bytes, where so many more than that are needed.
fn left_behind(bytes: Vec<u8>, passed: usize, more: usize) -> Pending
    requires passed { passed ≤ vec_len bytes }
    requires more { 0 < more }
    ensures left { result.bytes.items ≡ drop passed bytes.items }
    ensures needed { result.needed ≤ length result.bytes.items + more }
{
    let mut left = bytes;
    drop_front(&mut left, passed);
    let count = left.as_slice().len();
    Pending {
        bytes: left,
        needed: count.saturating_add(more),
    }
}

/// Puts a piece behind the bytes that came, and takes all items that are whole then.
pub(crate) fn take_piece<T: TakesBytes>(
    alloc: Global,
    taker: &mut T,
    pending: &mut Pending,
    piece: &[u8],
) -> Result<(), Error>
    requires midst { IsMidst T.stands false (pending.old.bytes.items ++ piece.now) taker.old }
    requires pending { IsPending T.waits pending.old.needed pending.old.bytes.items taker.old }
    ensures ok { OnOk result (Carries T.stands false (pending.old.bytes.items ++ piece.now) taker.old
        pending.new.bytes.items taker.new) }
    ensures pending { OnOk result (IsPending T.waits pending.new.needed pending.new.bytes.items taker.new) }
    ensures held { vec_len pending.new.bytes ≤ vec_len pending.old.bytes + length piece.now }
    ensures err { IfErr result (DeniesFrom T.stands T.denied false (pending.old.bytes.items ++ piece.now) taker.old) }
{
    let mut bytes = std::mem::replace(&mut pending.bytes, Vec::new(alloc));
    match append(&mut bytes, piece) {
        Ok(()) => (),
        Err(error) => return Err(error),
    }
    if bytes.as_slice().len() < pending.needed {
        pending.bytes = bytes;
        return Ok(());
    }
    match take_pending(taker, bytes) {
        Ok(left) => {
            *pending = left;
            Ok(())
        }
        Err(error) => Err(error),
    }
}

/// The verdict on the bytes that came, behind which none follow.
fn take_last<T: TakesBytes>(taker: &mut T, bytes: &[u8]) -> Result<T::Done, ReadError>
    requires { IsMidst T.stands true bytes.now taker.old }
    ensures { (first : T) (got : List ℕ) → T.stands first got true bytes.now taker.old → length got < 2 ^ 64
        → Concludes T.shown T.denied first got result }
{
    match take_items(taker, bytes, true) {
        Advanced::Waits {
            passed: _,
            needed: _,
        } => unreachable!(),
        Advanced::Ended(done) => Ok(done),
        Advanced::Refused(error) => Err(ReadError::Refused(error)),
    }
}

/// Takes the bytes of a reader as they come, with at most as many bytes a read as the chunk has.
fn take_chunks<T: TakesBytes, R: Read>(
    alloc: Global,
    taker: &mut T,
    reader: &mut WatchedReader<R>,
    chunk: &mut [u8],
    max_bytes: u64,
) -> Result<T::Done, ReadError>
    requires begins { T.stands taker.old [] false [] taker.old }
    requires waits { T.waits taker.old [] }
    requires reads { reader.old.has_failed ≡ false }
    requires chunk { 1 ≤ length chunk.old }
    requires most { max_bytes < 2 ^ 64 - 1 }
    ensures answer { Answers (T.shown taker.old) (T.denied taker.old) max_bytes (R.remaining reader.old.reader)
        (R.remaining reader.new.reader) result }
    ensures stops { Stops (IsPassed T.stands T.waits taker.old) max_bytes (length chunk.old)
        (R.remaining reader.old.reader) (R.remaining reader.new.reader) result }
    ensures failed { reader.new.has_failed ≡ fails result }
    ensures count { reader.new.reads ≤ reader.old.reads + (max_bytes + 1) }
    ensures counted { reader.old.reads ≤ reader.new.reads }
{
    let mut pending = Pending::none(alloc);
    let mut room = max_bytes;
    for _turn in 0..=max_bytes {
        let Some(count) = reader.read_once(chunk) else {
            return Err(ReadError::Read);
        };
        if count == 0 {
            return take_last(taker, pending.bytes.as_slice());
        }
        let kept = within(count, room);
        match take_handed(alloc, taker, &mut pending, &chunk[..kept], usize::MAX) {
            Ok(()) => (),
            Err(PieceError::Refused(error)) => return Err(ReadError::Refused(error)),
            // no list has so many bytes
            Err(PieceError::TooLong) => return Err(ReadError::Refused(Error::out_of_memory(0))),
        }
        if kept < count {
            return Err(ReadError::TooLong);
        }
        room -= kept as u64;
    }
    unreachable!()
}

/// Takes the bytes of a reader as they come, piece by piece, and says whether they are accepted.
pub(crate) fn take_reader<T: TakesBytes, R: Read>(
    alloc: Global,
    taker: &mut T,
    reader: &mut WatchedReader<R>,
    piece: usize,
    max_bytes: u64,
) -> Result<T::Done, ReadError>
    requires begins { T.stands taker.old [] false [] taker.old }
    requires waits { T.waits taker.old [] }
    requires reads { reader.old.has_failed ≡ false }
    requires piece { 1 ≤ piece }
    requires most { max_bytes < 2 ^ 64 - 1 }
    ensures answer { Answers (T.shown taker.old) (T.denied taker.old) max_bytes (R.remaining reader.old.reader)
        (R.remaining reader.new.reader) result }
    ensures stops { Stops (IsPassed T.stands T.waits taker.old) max_bytes piece (R.remaining reader.old.reader)
        (R.remaining reader.new.reader) result }
    ensures failed { reader.new.has_failed ≡ fails result }
    ensures count { reader.new.reads ≤ reader.old.reads + (max_bytes + 1) }
    ensures counted { reader.old.reads ≤ reader.new.reads }
{
    let Ok(mut chunk) = vec![in alloc; 0u8; piece] else {
        return Err(ReadError::Refused(Error::out_of_memory(0)));
    };
    take_chunks(alloc, taker, reader, &mut chunk, max_bytes)
}

/// So many, and no more than there is room for.
fn within(count: usize, room: u64) -> usize
    ensures { result ≡ min count room }
{
    if count as u64 <= room {
        return count;
    }
    room as usize
}
