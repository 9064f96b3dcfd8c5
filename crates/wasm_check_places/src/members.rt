//! The members for programs, of the parts of a place: each only if it is known.

use crate::place::{Function, Note, OpenFrame, Operands, OperatorAt, Place, Signature};
use std::alloc::{AllocError, Global};
use wasm_check_lines::{Member, Value};

/// Adds a member.
fn add(name: &'static str, value: Value, members: &mut Vec<Member>) -> Result<(), AllocError> {
    members.push(Member { name, value })?;
    Ok(())
}

/// Adds a number.
fn add_number(
    name: &'static str,
    number: u64,
    members: &mut Vec<Member>,
) -> Result<(), AllocError> {
    add(name, Value::Number(number), members)
}

/// Adds a word.
fn add_word(
    alloc: Global,
    name: &'static str,
    word: &str,
    members: &mut Vec<Member>,
) -> Result<(), AllocError> {
    let text = String::from_str(alloc, word)?;
    add(name, Value::Text(text), members)
}

/// Adds the part, its offsets and the item.
fn add_part(alloc: Global, place: &Place, members: &mut Vec<Member>) -> Result<(), AllocError> {
    if let Some(part) = place.part {
        let name = if place.is_after { "after" } else { "section" };
        add_word(alloc, name, part.word(), members)?;
    }
    if let Some(range) = place.range {
        add_number("section_offset", range.start, members)?;
        add_number("section_end", range.end, members)?;
    }
    if let Some(item) = place.item {
        add_number("item", item.number as u64, members)?;
        add_number("items", item.count as u64, members)?;
    }
    Ok(())
}

/// Adds the type of a function.
fn add_signature(signature: Signature, members: &mut Vec<Member>) -> Result<(), AllocError> {
    let Signature { params, results } = signature;
    add("params", Value::Texts(params), members)?;
    add("results", Value::Texts(results), members)
}

/// Adds a function: its index, its name and its type.
fn add_function(function: Function, members: &mut Vec<Member>) -> Result<(), AllocError> {
    let Function {
        index,
        name,
        signature,
    } = function;
    add_number("function", index as u64, members)?;
    if let Some(name) = name {
        add("name", Value::Text(name), members)?;
    }
    match signature {
        Some(signature) => add_signature(signature, members),
        None => Ok(()),
    }
}

/// Adds what an operator takes or gives: the types, if all are known, and how many.
fn add_operands(
    names: (&'static str, &'static str),
    operands: Option<Operands>,
    members: &mut Vec<Member>,
) -> Result<(), AllocError> {
    let Some(Operands { count, types }) = operands else {
        return Ok(());
    };
    if let Some(types) = types {
        add(names.0, Value::Texts(types), members)?;
    }
    add_number(names.1, count as u64, members)
}

/// Adds an operator: its name, its number, its offset, and what it takes and gives.
fn add_operator(
    alloc: Global,
    operator: OperatorAt,
    members: &mut Vec<Member>,
) -> Result<(), AllocError> {
    let OperatorAt {
        number,
        offset,
        name,
        takes,
        gives,
    } = operator;
    if let Some(name) = name {
        add_word(alloc, "operator", name, members)?;
    }
    add_number("operator_number", number as u64, members)?;
    add_number("operator_offset", offset, members)?;
    add_operands(("takes", "takes_count"), takes, members)?;
    add_operands(("gives", "gives_count"), gives, members)
}

/// Adds the innermost open frame and its operands.
fn add_frame(alloc: Global, frame: OpenFrame, members: &mut Vec<Member>) -> Result<(), AllocError> {
    let OpenFrame {
        name,
        is_unreachable,
        stack,
        height,
        below,
    } = frame;
    add_word(alloc, "frame", name, members)?;
    add("unreachable", Value::Flag(is_unreachable), members)?;
    add("stack", Value::Texts(stack), members)?;
    add_number("stack_height", height as u64, members)?;
    add_number("stack_below", below as u64, members)
}

/// Adds what is wrong with a body beside its operators.
fn add_note(alloc: Global, note: Note, members: &mut Vec<Member>) -> Result<(), AllocError> {
    match note {
        Note::ParamsRefused => add_word(alloc, "body", "params refused", members),
        Note::LocalsUnread => add_word(alloc, "body", "locals unread", members),
        Note::LocalsRefused => add_word(alloc, "body", "locals refused", members),
        Note::EndsWithin(name) => {
            add_word(alloc, "body", "not ended", members)?;
            add_word(alloc, "frame", name, members)
        }
    }
}

/// Adds what is known within a body.
fn add_inside(
    alloc: Global,
    operator: Option<OperatorAt>,
    frame: Option<OpenFrame>,
    note: Option<Note>,
    members: &mut Vec<Member>,
) -> Result<(), AllocError> {
    if let Some(note) = note {
        add_note(alloc, note, members)?;
    }
    if let Some(operator) = operator {
        add_operator(alloc, operator, members)?;
    }
    match frame {
        Some(frame) => add_frame(alloc, frame, members),
        None => Ok(()),
    }
}

/// The members of a place, except for the first, which has the chapter.
pub(crate) fn members_of(alloc: Global, place: Place) -> Result<Vec<Member>, AllocError> {
    let mut members = Vec::new(alloc);
    add_part(alloc, &place, &mut members)?;
    let Place {
        function,
        operator,
        frame,
        note,
        ..
    } = place;
    if let Some(function) = function {
        add_function(function, &mut members)?;
    }
    add_inside(alloc, operator, frame, note, &mut members)?;
    Ok(members)
}
