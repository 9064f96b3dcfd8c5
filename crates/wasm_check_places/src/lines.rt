//! The lines for people, of the parts of a place.

use crate::place::{CUT, Function, Note, OpenFrame, Operands, OperatorAt, Place, Signature};
use crate::sections::Part;
use std::alloc::{AllocError, Global};

/// How many bytes of a name are told.
const MOST_BYTES: usize = 256;

/// Words, each after a space; or this one if there are none.
fn spaced(alloc: Global, words: &[String], none: &str) -> Result<String, AllocError> {
    let mut text = String::new(alloc);
    for word in words {
        text.push_str(" ")?;
        text.push_str(word.as_str())?;
    }
    if text.is_empty() {
        text.push_str(none)?;
    }
    Ok(text)
}

/// A function, by its name if it has one.
fn function_line(alloc: Global, function: &Function) -> Result<String, AllocError> {
    let (code, index) = (Part::Code.name(), function.index);
    let Some(name) = &function.name else {
        return format!(in alloc; "in {code}, function {index}");
    };
    let name = name.as_str();
    if name.len() <= MOST_BYTES {
        return format!(in alloc; "in {code}, function {index} `{name}`");
    }
    let front = &name[..name.floor_char_boundary(MOST_BYTES)];
    format!(in alloc; "in {code}, function {index} `{front}`{CUT}")
}

/// A part and its offsets, and the item.
fn part_line(alloc: Global, place: &Place, part: Part) -> Result<String, AllocError> {
    let name = part.name();
    let Some(range) = place.range else {
        let word = if place.is_after { "after" } else { "in" };
        return format!(in alloc; "{word} {name}");
    };
    let (start, end) = (range.start, range.end);
    if let Part::End = part {
        return format!(in alloc; "at {name} (0x{end:x})");
    }
    let Some(item) = place.item else {
        return format!(in alloc; "in {name} (0x{start:x} to 0x{end:x})");
    };
    let (number, count) = (item.number, item.count);
    format!(in alloc;
        "in {name} (0x{start:x} to 0x{end:x}), item {number} of {count}, counted from 0"
    )
}

/// The type of a function.
fn signature_line(alloc: Global, signature: &Signature) -> Result<String, AllocError> {
    let (params, results) = (signature.params.as_slice(), signature.results.as_slice());
    let taken = spaced(alloc, params, "")?;
    let given = spaced(alloc, results, "")?;
    if params.is_empty() && results.is_empty() {
        return format!(in alloc; "of type (func)");
    }
    if params.is_empty() {
        return format!(in alloc; "of type (result{given})");
    }
    if results.is_empty() {
        return format!(in alloc; "of type (param{taken})");
    }
    format!(in alloc; "of type (param{taken}) (result{given})")
}

/// What is wrong with a body beside its operators.
fn note_line(alloc: Global, note: Note) -> Result<String, AllocError> {
    match note {
        Note::ParamsRefused => {
            String::from_str(alloc, "its parameters are more than it may have locals")
        }
        Note::LocalsUnread => String::from_str(alloc, "its locals are misspelt or too many"),
        Note::LocalsRefused => String::from_str(
            alloc,
            "its locals are too many, or of types that may not be there",
        ),
        Note::EndsWithin(name) => format!(in alloc; "the body ends within the {name}"),
    }
}

/// An operator, by its name if it has one.
fn operator_line(alloc: Global, operator: &OperatorAt) -> Result<String, AllocError> {
    let (number, offset) = (operator.number, operator.offset);
    match operator.name {
        Some(name) => format!(in alloc; "operator {number} of the body, {name} at 0x{offset:x}"),
        None => format!(in alloc;
            "operator {number} of the body, at 0x{offset:x}, is misspelt or out of place"
        ),
    }
}

/// What an operator takes and gives.
fn operands_line(alloc: Global, takes: &Operands, gives: &Operands) -> Result<String, AllocError> {
    let (taken, given) = (takes.count, gives.count);
    let noun = if taken == 1 { "operand" } else { "operands" };
    let Some(types) = &takes.types else {
        return format!(in alloc; "it takes {taken} {noun}; gives {given}");
    };
    if types.is_empty() {
        return format!(in alloc; "it takes {taken} {noun}; gives {given}");
    }
    let words = spaced(alloc, types.as_slice(), "")?;
    format!(in alloc; "it takes {taken} {noun}, top first:{words}; gives {given}")
}

/// An open frame and its operands.
fn frame_line(alloc: Global, frame: &OpenFrame) -> Result<String, AllocError> {
    let (name, below) = (frame.name, frame.below);
    let reached = if frame.is_unreachable {
        " (unreachable)"
    } else {
        ""
    };
    let operands = spaced(alloc, frame.stack.as_slice(), " nothing")?;
    if below == 0 {
        return format!(in alloc; "on the stack of the {name}{reached}, top first:{operands}");
    }
    format!(in alloc;
        "on the stack of the {name}{reached}, top first:{operands}; below the {name}: {below} more"
    )
}

/// Adds a line.
fn add(line: String, lines: &mut Vec<String>) -> Result<(), AllocError> {
    lines.push(line)?;
    Ok(())
}

/// Adds where the fault is.
fn add_where(alloc: Global, place: &Place, lines: &mut Vec<String>) -> Result<(), AllocError> {
    if let Some(function) = &place.function {
        add(function_line(alloc, function)?, lines)?;
        return match &function.signature {
            Some(signature) => add(signature_line(alloc, signature)?, lines),
            None => Ok(()),
        };
    }
    match place.part {
        Some(part) => add(part_line(alloc, place, part)?, lines),
        None => Ok(()),
    }
}

/// Adds the operator, and what it takes and gives.
fn add_operator(
    alloc: Global,
    operator: &OperatorAt,
    lines: &mut Vec<String>,
) -> Result<(), AllocError> {
    add(operator_line(alloc, operator)?, lines)?;
    let Some(takes) = &operator.takes else {
        return Ok(());
    };
    let Some(gives) = &operator.gives else {
        return Ok(());
    };
    add(operands_line(alloc, takes, gives)?, lines)
}

/// The lines of a place, except for the last, which has the chapter.
pub(crate) fn lines_of(alloc: Global, place: &Place) -> Result<Vec<String>, AllocError> {
    let mut lines = Vec::new(alloc);
    add_where(alloc, place, &mut lines)?;
    if let Some(note) = place.note {
        add(note_line(alloc, note)?, &mut lines)?;
    }
    if let Some(operator) = &place.operator {
        add_operator(alloc, operator, &mut lines)?;
    }
    if let Some(frame) = &place.frame {
        add(frame_line(alloc, frame)?, &mut lines)?;
    }
    Ok(lines)
}
