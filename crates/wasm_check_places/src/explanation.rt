//! A place as it is told.

use crate::lines::lines_of;
use crate::members::members_of;
use crate::place::Place;
use std::alloc::{AllocError, Global};
use wasm_check_lines::Explanation;

/// The explanation that tells a place: its lines and its members say the same.
///
/// # Errors
///
/// Memory ran out.
pub fn told(alloc: Global, place: Place) -> Result<Explanation, AllocError> {
    let chapter = place.chapter;
    let lines = lines_of(alloc, &place)?;
    let members = members_of(alloc, place)?;
    Ok(Explanation {
        lines,
        members,
        chapter,
    })
}
