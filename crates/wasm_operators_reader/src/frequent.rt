//! The frequent operators, told to a visitor straight from their bytes.

ghost use Rattle.std.specs.Prelude.{◌≡◌, true, false, Some, Ok, Err, get_or, IfSome, IfNone};
ghost use Rattle.wasm_operators_encoding.specs.codes.OpcodeRoles.{plain_role};
ghost use Rattle.wasm_operators_encoding.specs.expressions.Frames.{behind};
ghost use Rattle.wasm_operators_enums.specs.Op.{op_of};
ghost use Rattle.wasm_operators_reader.specs.Frequent.{held, closed, given_back};
ghost use Rattle.wasm_operators_reader.specs.Standing.{Reads};
ghost use Rattle.wasm_operators_reader.specs.Visiting.{Tells, VisitsPlain};
ghost use Rattle.wasm_operators_reader.specs.Walking.{WalksTo, WalksUntilTo};

use crate::cursor::Cursor;
use crate::taker::Taker;
use wasm_operators_encoding::expressions::{ControlStack, FrameKind, Operator, Role};
use wasm_operators_frequent::reading::TellOperator;

/// The next operator, read and told to the visitor, and the role of its first byte.
#[inline(always)]
fn visit_next<'a, V: TellOperator<'a>>(
    reader: &mut Cursor<'a>,
    visitor: &mut V,
) -> Option<V::Output>
    ensures visited { IfSome result (λ answer. Tells V.visits
        (plain_role (get_or reader.old.rest 0 0)) reader.old visitor.old answer reader.new visitor.new) }
    ensures stays { IfNone result (reader.new ≡ reader.old) }
    ensures told { IfNone result (visitor.new ≡ visitor.old) }
{
    let features = reader.features();
    let Some((answer, end)) = visitor.tell_short(reader.bytes, reader.position, features) else {
        return None;
    };
    reader.position = end;
    Some(answer)
}

/// The same, where its first byte is at most 1f.
#[inline(always)]
fn visit_control<'a, V: TellOperator<'a>>(
    reader: &mut Cursor<'a>,
    visitor: &mut V,
) -> Option<V::Output>
    ensures visited { IfSome result (λ answer. Tells V.visits
        (plain_role (get_or reader.old.rest 0 0)) reader.old visitor.old answer reader.new visitor.new) }
    ensures stays { IfNone result (reader.new ≡ reader.old) }
    ensures told { IfNone result (visitor.new ≡ visitor.old) }
{
    let features = reader.features();
    let Some((answer, end)) = visitor.tell_short_control(reader.bytes, reader.position, features)
    else {
        return None;
    };
    reader.position = end;
    Some(answer)
}

/// Whether an operator that begins with this byte may come next here, and is a frequent one: the frame that it opens is open then.
#[inline(always)]
fn enter(byte: u8, control: &mut ControlStack) -> bool
    ensures fits { result ≡ true → behind (plain_role byte) control.old.frames ≡ Some
        (closed (plain_role byte) (held (plain_role byte) control.old.frames)) }
    ensures held { result ≡ true → control.new.frames ≡ held (plain_role byte) control.old.frames }
    ensures stays { result ≡ false → control.new.frames ≡ control.old.frames }
{
    if control.is_empty() {
        return false;
    }
    match role_of(byte) {
        Role::Plain => true,
        Role::Opens(frame) => match control.push(frame) {
            Ok(()) => true,
            Err(_) => false,
        },
        Role::End => true,
        Role::Else => match control.last() {
            Some(FrameKind::If) => true,
            _ => false,
        },
        Role::Catch => false,
        Role::CatchAll => false,
        Role::Delegate => false,
    }
}

/// The frames as they were before.
#[inline(always)]
fn leave(role: Role, control: &mut ControlStack)
    ensures { control.new.frames ≡ given_back role control.old.frames }
{
    match role {
        Role::Opens(_) => {
            control.pop();
        }
        Role::Plain => (),
        Role::End => (),
        Role::Else => (),
        Role::Catch => (),
        Role::CatchAll => (),
        Role::Delegate => (),
    }
}

/// The frames behind the operator.
#[inline(always)]
fn close(role: Role, control: &mut ControlStack)
    ensures { control.new.frames ≡ closed role control.old.frames }
{
    match role {
        Role::End => {
            control.pop();
        }
        Role::Plain => (),
        Role::Opens(_) => (),
        Role::Else => control.turn(FrameKind::Else),
        Role::Catch => (),
        Role::CatchAll => (),
        Role::Delegate => (),
    }
}

/// Reads the next operator and tells the visitor of it, where it is a frequent one in a frequent form. None
/// where it is another, and where none is read: then nothing changes.
#[inline(always)]
pub(crate) fn visit_frequent<'a, V: TellOperator<'a>>(
    reader: &mut Cursor<'a>,
    control: &mut ControlStack,
    visitor: &mut V,
) -> Option<V::Output>
    ensures visited { IfSome result (λ answer. VisitsPlain V.visits
        (record { bytes = reader.old; frames = control.old.frames }) visitor.old answer
        (record { bytes = reader.new; frames = control.new.frames }) visitor.new) }
    ensures stays { IfNone result ((reader.new ≡ reader.old) × (control.new.frames ≡ control.old.frames)) }
    ensures told { IfNone result (visitor.new ≡ visitor.old) }
{
    if reader.eof() {
        return None;
    }
    if control.is_empty() {
        return None;
    }
    let byte = reader.first();
    // Most bytes are past those that speak of frames.
    if byte > 0x1f {
        return visit_next(reader, visitor);
    }
    visit_framed(byte, reader, control, visitor)
}

/// The same, where the next byte is this one, and may speak of frames.
#[inline(always)]
fn visit_framed<'a, V: TellOperator<'a>>(
    byte: u8,
    reader: &mut Cursor<'a>,
    control: &mut ControlStack,
    visitor: &mut V,
) -> Option<V::Output>
    requires { byte ≡ get_or reader.old.rest 0 0 }
    ensures visited { IfSome result (λ answer. VisitsPlain V.visits
        (record { bytes = reader.old; frames = control.old.frames }) visitor.old answer
        (record { bytes = reader.new; frames = control.new.frames }) visitor.new) }
    ensures stays { IfNone result ((reader.new ≡ reader.old) × (control.new.frames ≡ control.old.frames)) }
    ensures told { IfNone result (visitor.new ≡ visitor.old) }
{
    if !enter(byte, control) {
        return None;
    }
    let Some(answer) = visit_control(reader, visitor) else {
        leave(role_of(byte), control);
        return None;
    };
    close(role_of(byte), control);
    Some(answer)
}

/// Reads frequent operators and tells the visitor of them, one after the other, up to one that is another, or that is not read; or to
/// one that the visitor answers by an `Err`: that is given back with the operator's offset in the input.
#[inline(always)]
pub(crate) fn visit_run<'a, E: Drop, V>(
    reader: &mut Cursor<'a>,
    control: &mut ControlStack,
    visitor: &mut V,
) -> Option<(E, u64)>
where
    V: TellOperator<'a, Output = Result<(), E>>,
    ensures ended { IfSome result (λ last. WalksUntilTo V.visits (Ok tt)
        (record { bytes = reader.old; frames = control.old.frames }) visitor.old (Err last.0)
        (record { bytes = reader.new; frames = control.new.frames }) visitor.new last.1) }
    ensures told { IfNone result (WalksTo V.visits (Ok tt)
        (record { bytes = reader.old; frames = control.old.frames }) visitor.old
        (record { bytes = reader.new; frames = control.new.frames }) visitor.new) }
{
    while !reader.eof() {
        let place = reader.original_position();
        let Some(answer) = visit_frequent(reader, control, visitor) else {
            return None;
        };
        if let Err(last) = answer {
            return Some((last, place));
        }
    }
    None
}

/// Reads the next operator, where it is a frequent one in a frequent form that may come next. None where it is another, and
/// where none is read, or memory for a frame is refused: then nothing changes.
#[inline(always)]
pub(crate) fn read_frequent<'a>(
    reader: &mut Cursor<'a>,
    control: &mut ControlStack,
) -> Option<Operator<'a>>
    ensures read { IfSome result (λ op. Reads (record { bytes = reader.old; frames = control.old.frames }) (op_of op)
        (record { bytes = reader.new; frames = control.new.frames })) }
    ensures stays { IfNone result ((reader.new ≡ reader.old) × (control.new.frames ≡ control.old.frames)) }
{
    let mut taker = Taker;
    let Some(op) = visit_frequent(reader, control, &mut taker) else {
        return None;
    };
    Some(op)
}

/// The role of the operators that begin with this byte.
#[inline(always)]
fn role_of(byte: u8) -> Role
    ensures { result ≡ plain_role byte }
{
    match byte {
        0x02 => Role::Opens(FrameKind::Block),
        0x03 => Role::Opens(FrameKind::Loop),
        0x04 => Role::Opens(FrameKind::If),
        0x05 => Role::Else,
        0x06 => Role::Opens(FrameKind::LegacyTry),
        0x07 => Role::Catch,
        0x0b => Role::End,
        0x18 => Role::Delegate,
        0x19 => Role::CatchAll,
        0x1f => Role::Opens(FrameKind::TryTable),
        _ => Role::Plain,
    }
}
