//! Bytes that are handed over, taken as they come, with at most so many held.

ghost use Rattle.std.specs.Prelude.{◌≡◌, ◌≤◌, ◌<◌, ◌+◌, ◌^◌, ℕ, List, [], false, length, take, vec_len, IfErr, IfOk, OnOk};
ghost use Rattle.wasm_types.specs.decoding.declared.error.ErrorKind.TheVariants.{OutOfMemory};
ghost use Rattle.wasm_module_validator_streaming.specs.Taking.{IsMidst, IsPending, Carries, DeniesFrom};
ghost use Rattle.wasm_module_validator_streaming.specs.Handing.{HasRoom, Follows, DeniesBehind, LongBehind, LongFrom, Says, TellsLast};

use crate::reading::{Pending, append, take_piece};
use crate::taking::{Advanced, TakesBytes, take_items};
use std::alloc::Global;
use wasm_types::Error;

/// Why bytes that are handed over are not taken.
#[derive(Debug, Drop)]
pub enum PieceError {
    /// They are refused, or there is no memory (kind 3).
    Refused(Error),
    /// An item of them that came in several pieces is longer than may be held.
    TooLong,
}

/// Holds bytes that are in no whole item, if they are no more than may be held; with so many more there may be a whole one.
fn hold(
    alloc: Global,
    pending: &mut Pending,
    bytes: &[u8],
    more: usize,
    most: usize,
) -> Result<(), PieceError>
    requires empty { pending.old.bytes.items ≡ [] }
    requires more { 0 < more }
    ensures bytes { OnOk result (pending.new.bytes.items ≡ bytes.now) }
    ensures needed { OnOk result (pending.new.needed ≤ length pending.new.bytes.items + more) }
    ensures held { vec_len pending.new.bytes ≤ most }
    ensures err { IfErr result (Says (λ e. e.kind ≡ OutOfMemory) (most < length bytes.now)) }
{
    if bytes.len() > most {
        return Err(PieceError::TooLong);
    }
    let mut held = std::mem::replace(&mut pending.bytes, Vec::new(alloc));
    match append(&mut held, bytes) {
        Ok(()) => (),
        Err(error) => return Err(PieceError::Refused(error)),
    }
    let count = held.as_slice().len();
    *pending = Pending {
        bytes: held,
        needed: count.saturating_add(more),
    };
    Ok(())
}

/// Takes all whole items of bytes before which none are held, each in its place, and holds what is left.
fn take_at_hand<T: TakesBytes>(
    alloc: Global,
    taker: &mut T,
    pending: &mut Pending,
    bytes: &[u8],
    most: usize,
) -> Result<(), PieceError>
    requires midst { IsMidst T.stands false bytes.now taker.old }
    requires empty { pending.old.bytes.items ≡ [] }
    ensures ok { OnOk result (Carries T.stands false bytes.now taker.old pending.new.bytes.items taker.new) }
    ensures pending { OnOk result (IsPending T.waits pending.new.needed pending.new.bytes.items taker.new) }
    ensures held { vec_len pending.new.bytes ≤ most }
    ensures err { IfErr result (Says (DeniesFrom T.stands T.denied false bytes.now taker.old)
        (LongFrom T.stands T.waits most bytes.now taker.old)) }
{
    match take_items(taker, bytes, false) {
        Advanced::Waits { passed, needed } => hold(alloc, pending, &bytes[passed..], needed, most),
        Advanced::Ended(_done) => unreachable!(),
        Advanced::Refused(error) => Err(PieceError::Refused(error)),
    }
}

/// Takes some of the bytes, and says how many: all of them if none are held, else as many as the item asks for that is held.
fn take_some<T: TakesBytes>(
    alloc: Global,
    taker: &mut T,
    pending: &mut Pending,
    bytes: &[u8],
    most: usize,
) -> Result<usize, PieceError>
    requires room { HasRoom T.stands pending.old.bytes.items taker.old (length bytes.now) }
    requires pending { IsPending T.waits pending.old.needed pending.old.bytes.items taker.old }
    requires held { vec_len pending.old.bytes ≤ most }
    ensures ok { IfOk result (λ n. Follows T.stands pending.old.bytes.items taker.old (take n bytes.now)
        pending.new.bytes.items taker.new) }
    ensures count { IfOk result (λ n. n ≤ length bytes.now) }
    ensures some { IfOk result (λ n. n < length bytes.now → 0 < n) }
    ensures pending { IfOk result (λ _. IsPending T.waits pending.new.needed pending.new.bytes.items taker.new) }
    ensures held { vec_len pending.new.bytes ≤ most }
    ensures err { IfErr result (Says (DeniesBehind T.stands T.denied pending.old.bytes.items taker.old bytes.now)
        (LongBehind T.stands T.waits most pending.old.bytes.items taker.old bytes.now)) }
{
    let held = pending.bytes.as_slice().len();
    if held == 0 {
        return match take_at_hand(alloc, taker, pending, bytes, most) {
            Ok(()) => Ok(bytes.len()),
            Err(error) => Err(error),
        };
    }
    let count = (pending.needed - held).min(bytes.len());
    if count > most - held {
        return Err(PieceError::TooLong);
    }
    match take_piece(alloc, taker, pending, &bytes[..count]) {
        Ok(()) => Ok(count),
        Err(error) => Err(PieceError::Refused(error)),
    }
}

/// Takes the next bytes: all whole items of those that are held and of these, and holds what is left of them, at most so many at once.
pub(crate) fn take_handed<T: TakesBytes>(
    alloc: Global,
    taker: &mut T,
    pending: &mut Pending,
    bytes: &[u8],
    most: usize,
) -> Result<(), PieceError>
    requires room { HasRoom T.stands pending.old.bytes.items taker.old (length bytes.now) }
    requires pending { IsPending T.waits pending.old.needed pending.old.bytes.items taker.old }
    requires held { vec_len pending.old.bytes ≤ most }
    ensures ok { OnOk result (Follows T.stands pending.old.bytes.items taker.old bytes.now
        pending.new.bytes.items taker.new) }
    ensures pending { OnOk result (IsPending T.waits pending.new.needed pending.new.bytes.items taker.new) }
    ensures held { vec_len pending.new.bytes ≤ most }
    ensures err { IfErr result (Says (DeniesBehind T.stands T.denied pending.old.bytes.items taker.old bytes.now)
        (LongBehind T.stands T.waits most pending.old.bytes.items taker.old bytes.now)) }
{
    let mut from = 0;
    for _turn in 0..=bytes.len() {
        match take_some(alloc, taker, pending, &bytes[from..], most) {
            Ok(count) => from += count,
            Err(error) => return Err(error),
        }
        if from == bytes.len() {
            return Ok(());
        }
    }
    unreachable!()
}

/// The verdict on the bytes that came, if these are held of them and none follow.
pub(crate) fn conclude<T: TakesBytes>(taker: &mut T, bytes: &[u8]) -> Result<T::Done, Error>
    requires { IsMidst T.stands false bytes.now taker.old }
    ensures { (first : T) (got : List ℕ) → T.stands first got false bytes.now taker.old → length got < 2 ^ 64
        → TellsLast T.shown T.denied first got result }
{
    match take_items(taker, bytes, true) {
        Advanced::Waits {
            passed: _,
            needed: _,
        } => unreachable!(),
        Advanced::Ended(done) => Ok(done),
        Advanced::Refused(error) => Err(error),
    }
}
