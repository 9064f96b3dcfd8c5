//! The frequent operators, from their first byte to the operator or its visit.
//!
//! [`visit_short`] takes the bytes of an expression, an offset in them and a visitor. If a frequent operator in a frequent
//! form begins there, the visitor is told of it and the offset after it is answered: no operator is built, no reader moves,
//! and no error is made. If it answers none, nothing was visited; `read_operator` then reads whatever is there, or says why
//! it is refused. [`reading`] has the same for whoever wants the operator itself.
//!
//! [`TellOperator`] is what reading asks of a visitor, three methods in place of a visit for each operator; a
//! [`LentVisitor`] has them by the visits of the visitor that is lent. A type that has all visits may tell itself by the
//! parts of [`visit_short`], one for each shape of operator ([`short_alone`], [`short_local_get`], [`short_load`], ..).
//!
//! `specs/Short.antt` defines what was told: that the decoder of operators gives this operator for these bytes, wherever
//! they are, and that the visitor's relation holds of it.
#![tactic(auto)]

mod bulk;
mod control;
mod immediates;
mod memory;
mod numbers;
pub mod reading;
mod short;
mod tell;

pub use control::{short_alone, short_block, short_index, short_indirect};
pub use immediates::{access_at, block_type_at, f32_at, f64_at, memarg_of, zero_at};
pub use memory::{
    short_f32_const, short_f64_const, short_global, short_i32_const, short_i64_const, short_load,
    short_local_get, short_local_set, short_local_tee, short_memory_size, short_store,
};
pub use numbers::short_number;
pub use short::{short_prefixed, visit_short};
pub use tell::{LentVisitor, TellOperator};
