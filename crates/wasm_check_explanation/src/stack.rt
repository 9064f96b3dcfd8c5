//! The innermost open frame, and its operands.
ghost use Rattle.std.specs.Prelude.{◌≤◌};

use crate::types::{MOST_OPERANDS, type_name};
use std::alloc::{AllocError, Global};
use wasm_check_places::{CUT, OpenFrame};
use wasm_module_validator::{FuncValidator, TypesRef, ValidatorResources};
use wasm_operator_validator::FrameKind;
use wasm_types::ValType;

/// What a frame within a function is called.
fn frame_name(kind: FrameKind) -> &'static str {
    match kind {
        FrameKind::Block => "block",
        FrameKind::If => "if",
        FrameKind::Else => "else",
        FrameKind::Loop => "loop",
        FrameKind::TryTable => "try_table",
        FrameKind::LegacyTry => "try",
        FrameKind::LegacyCatch => "catch",
        FrameKind::LegacyCatchAll => "catch_all",
    }
}

/// What the innermost open frame is called, if one is open.
pub(crate) fn innermost_name(
    validator: &FuncValidator<ValidatorResources>,
) -> Option<&'static str> {
    let frame = validator.get_control_frame(0)?;
    if validator.control_stack_height() == 1 {
        return Some("function");
    }
    Some(frame_name(frame.kind))
}

/// The operand that lies under so many others, if its type is known.
fn known_at(validator: &FuncValidator<ValidatorResources>, depth: u32) -> Option<ValType> {
    match validator.get_operand_type(depth as usize) {
        Some(known) => known,
        None => None,
    }
}

/// The type of an operand, if it is known.
fn operand_name(
    alloc: Global,
    types: &TypesRef<'_>,
    known: Option<ValType>,
) -> Result<String, AllocError> {
    match known {
        Some(ty) => type_name(alloc, types, ty),
        None => String::from_str(alloc, "unknown"),
    }
}

/// What is known of so many operands, the topmost first.
fn operand_names(
    alloc: Global,
    types: &TypesRef<'_>,
    validator: &FuncValidator<ValidatorResources>,
    count: u32,
) -> Result<Vec<String>, AllocError> {
    let mut names = Vec::new(alloc);
    for depth in 0..count {
        if depth as usize >= MOST_OPERANDS {
            let cut = String::from_str(alloc, CUT)?;
            names.push(cut)?;
            break;
        }
        let name = operand_name(alloc, types, known_at(validator, depth))?;
        names.push(name)?;
    }
    Ok(names)
}

/// How many of so many operands are below a frame of this height.
fn count_below(frame: usize, operands: u32) -> u32
    ensures { result ≤ operands }
{
    if frame < operands as usize {
        return frame as u32;
    }
    operands
}

/// The innermost open frame, if one is open.
pub(crate) fn open_frame(
    alloc: Global,
    types: &TypesRef<'_>,
    validator: &FuncValidator<ValidatorResources>,
) -> Result<Option<OpenFrame>, AllocError> {
    let Some(frame) = validator.get_control_frame(0) else {
        return Ok(None);
    };
    let Some(name) = innermost_name(validator) else {
        return Ok(None);
    };
    let operands = validator.operand_stack_height();
    let below = count_below(frame.height, operands);
    let height = operands - below;
    let stack = operand_names(alloc, types, validator, height)?;
    Ok(Some(OpenFrame {
        name,
        is_unreachable: frame.unreachable,
        stack,
        height,
        below,
    }))
}
