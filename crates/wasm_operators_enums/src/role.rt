//! What operators do to the frames in which they stand.

ghost use Rattle.std.specs.Prelude.{◌≡◌};
ghost use Rattle.wasm_operators_enums.specs.control.Trees.{exception_of};
ghost use Rattle.wasm_operators_enums.specs.Op.{op_of};
ghost use Rattle.wasm_operators_enums.specs.Roles.{role_of, control_role, exception_role, effect, clause};

use crate::operator::Operator;
use crate::{ControlOperator, ExceptionOperator, FrameKind};

/// What an operator is for the nesting of instructions.
#[derive(Clone, Copy)]
pub enum Role {
    /// Nothing.
    Plain,
    /// It opens a frame of this kind.
    Opens(FrameKind),
    /// `else`.
    Else,
    /// `catch` of the older exceptions.
    Catch,
    /// `catch_all` of the older exceptions.
    CatchAll,
    /// `delegate` of the older exceptions.
    Delegate,
    /// `end`.
    End,
}

/// What an operator does to the innermost frame.
#[derive(Clone, Copy)]
pub enum Effect {
    /// Nothing.
    Stays,
    /// It opens a frame of this kind inside it.
    Nests(FrameKind),
    /// It closes it.
    Closes,
    /// It turns it into one of this kind, as `else` does.
    Turns(FrameKind),
}

impl Role {
    /// What this operator is for the nesting of instructions.
    #[inline]
    pub fn of(op: &Operator) -> Role
        ensures { result ≡ role_of (op_of op.now) }
    {
        match op {
            Operator::Control(op) => control(op),
            Operator::Exception(op) => exception(op),
            Operator::Parametric(_)
            | Operator::Memory(_)
            | Operator::Const(_)
            | Operator::Numeric(_)
            | Operator::Bulk(_)
            | Operator::Gc(_)
            | Operator::Descriptor(_)
            | Operator::Simd(_)
            | Operator::SimdNumeric(_)
            | Operator::Atomic(_)
            | Operator::Shared(_)
            | Operator::Continuation(_) => Role::Plain,
        }
    }

    /// What an operator of this role does to such a frame, if it may stand in it.
    #[inline]
    pub fn effect(self, frame: FrameKind) -> Option<Effect>
        ensures { result ≡ effect self frame }
    {
        match self {
            Role::Plain => Some(Effect::Stays),
            Role::Opens(opened) => Some(Effect::Nests(opened)),
            Role::End => Some(Effect::Closes),
            Role::Else => match frame {
                FrameKind::If => Some(Effect::Turns(FrameKind::Else)),
                _ => None,
            },
            Role::Catch => clause(FrameKind::LegacyCatch, frame),
            Role::CatchAll => clause(FrameKind::LegacyCatchAll, frame),
            Role::Delegate => match frame {
                FrameKind::LegacyTry => Some(Effect::Closes),
                _ => None,
            },
        }
    }
}

// The clause of an older `try` that such a frame becomes, if it is a `try` or the clause of a tag.
#[inline]
fn clause(kind: FrameKind, frame: FrameKind) -> Option<Effect>
    ensures { result ≡ clause kind frame }
{
    match frame {
        FrameKind::LegacyTry | FrameKind::LegacyCatch => Some(Effect::Turns(kind)),
        _ => None,
    }
}

#[inline]
fn control(op: &ControlOperator) -> Role
    ensures { result ≡ control_role op.now }
{
    match op {
        ControlOperator::Block { .. } => Role::Opens(FrameKind::Block),
        ControlOperator::Loop { .. } => Role::Opens(FrameKind::Loop),
        ControlOperator::If { .. } => Role::Opens(FrameKind::If),
        ControlOperator::Else => Role::Else,
        ControlOperator::End => Role::End,
        _ => Role::Plain,
    }
}

#[inline]
fn exception(op: &ExceptionOperator) -> Role
    ensures { result ≡ exception_role (exception_of op.now) }
{
    match op {
        ExceptionOperator::Try { .. } => Role::Opens(FrameKind::LegacyTry),
        ExceptionOperator::TryTable { .. } => Role::Opens(FrameKind::TryTable),
        ExceptionOperator::Catch { .. } => Role::Catch,
        ExceptionOperator::CatchAll => Role::CatchAll,
        ExceptionOperator::Delegate { .. } => Role::Delegate,
        _ => Role::Plain,
    }
}
