//! What one attempt did to the stacks of a validator, so that it can be taken back.
//!
//! A [`RollbackLog`] is told of each step of an attempt, and not of the stacks: it keeps what stood there where the attempt began and
//! was taken off since, and counts the rest. `specs/Log.antt` defines the stacks that it gives back. A [`Transaction`] is such a log
//! where an attempt is under way, and the memory for one where none is. `OperatorValidator` needs neither: its stacks keep
//! themselves what stood where an attempt began.

pub mod laws;
mod log;
mod transaction;

pub use crate::{Frame, MaybeType, ty_to_str};
pub use log::{RollbackLog, RollbackLogAllocations};
pub use transaction::Transaction;
