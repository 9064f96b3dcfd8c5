//! The words of the command line, those too that are no UTF-8.
//!
//! A word is a text here, and the system's calls take names as texts. A file whose name is no UTF-8 cannot be opened by them, but it need not
//! stop the others: such a word becomes a text that no file has for a name. A word of the system never has the byte 0, so a text with it stands
//! for no other word, and opening a file of that name fails.
use std::alloc::{AllocError, Global};
use std::env::{Env, FillError};
use wasm_check_command::word_text;

/// How many bytes of a word there is room for at first.
const ROOM: usize = 256;

/// How often the room is doubled: more bytes than a word can have.
const DOUBLINGS: usize = 40;

/// How long the word at this place is, which the room then begins with; None if there is no such word.
fn fill<R: Env>(rt: &R, place: usize, room: &mut Vec<u8>) -> Result<Option<usize>, AllocError> {
    for _turn in 0..DOUBLINGS {
        match rt.arg(place, room.as_mut_slice()) {
            Ok(length) => return Ok(Some(length)),
            Err(FillError::NotPresent) => return Ok(None),
            Err(FillError::TooLong) => {
                let more = room.len().saturating_mul(2);
                room.resize(more, 0)?;
            }
        }
    }
    Err(AllocError)
}

/// The words of the command line, of which the first is the program's own name. One that is no UTF-8 has the byte 0 and two hexadecimal digits
/// for each byte that is not ASCII.
///
/// # Errors
///
/// Memory ran out.
pub fn words<R: Env + AllocGlobal>(rt: &R) -> Result<Vec<String>, AllocError> {
    let alloc = rt.alloc();
    let mut words = Vec::new(alloc);
    let mut room = vec![in alloc; 0u8; ROOM]?;
    for place in 0..usize::MAX {
        let Some(length) = fill(rt, place, &mut room)? else {
            return Ok(words);
        };
        let text = word_text(alloc, &room[..length.min(room.len())])?;
        words.push(text)?;
    }
    Ok(words)
}
