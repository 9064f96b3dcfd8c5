//! Reads and writes that a signal does not stop.
//!
//! A signal may stop a call of the system before it did anything. Such a call is made again, but no more often than any loop over an input
//! goes round: as often as the longest input has bytes, and once more. So a program that is interrupted without end stops too.
ghost use Rattle.std.specs.Prelude.{◌≡◌, ◌≤◌, length, IfOk};
ghost use Rattle.std.specs.Io.KnownBytes.{ReadConsumes, WriteAppends};

use crate::judging::MAX_BYTES;
use std::io::{self, Read, Write};

/// One read, which is repeated if it is interrupted: 2^30 times at most.
///
/// # Errors
///
/// The read failed, or it was interrupted each time. Nothing was read.
pub(crate) fn read_steadily<R: Read>(reader: &mut R, room: &mut [u8]) -> io::Result<usize>
    ensures gives { ReadConsumes (R.remaining reader.old) (R.remaining reader.new) result room.new }
    ensures within { IfOk result (λ count. count ≤ length room.new) }
    ensures same { length room.new ≡ length room.old }
{
    for _turn in 0..MAX_BYTES {
        match reader.read(room) {
            Ok(count) => return Ok(count),
            Err(error) => {
                if error.kind() != io::ErrorKind::Interrupted {
                    return Err(error);
                }
            }
        }
    }
    reader.read(room)
}

/// One write of a text, or of some bytes at its front, which is repeated if it is interrupted: 2^30 times at most.
///
/// # Errors
///
/// The write failed, or it was interrupted each time. Nothing was written.
pub(crate) fn write_steadily<W: Write>(out: &mut W, text: &[u8]) -> io::Result<usize>
    ensures gives { WriteAppends (W.contents out.old) (W.contents out.new) result text.now }
    ensures within { IfOk result (λ count. count ≤ length text.now) }
{
    for _turn in 0..MAX_BYTES {
        match out.write(text) {
            Ok(count) => return Ok(count),
            Err(error) => {
                if error.kind() != io::ErrorKind::Interrupted {
                    return Err(error);
                }
            }
        }
    }
    out.write(text)
}
