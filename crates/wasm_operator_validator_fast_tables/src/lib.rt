//! What the fast loop knows: the tables of a module, types as codes, operands, and open frames.
//!
//! A *code* is a number that stands for a value type. What a body asks of its module stands in *tables* ([`Known`]), which [`known_of`] makes once for
//! all bodies. [`Stack`] has the operands of a body as codes, [`Opens`] its open frames; each lies on a [`Pile`], whose memory is used for the next
//! body too. [`Order`] says which operand may be taken for another.
//!
//! The operands are exact. Behind a branch, where any operands may lie, a step takes those that the innermost frame gives: so what follows
//! there in real code, an `end` or an `else`, finds what it wants, and no operand is unknown.
#![tactic(auto)]

mod codes;
mod elements;
mod known;
mod lookups;
mod naming;
mod opens;
mod order;
mod pile;
mod stack;
mod tables;
mod tags;
mod written;

pub use codes::{
    ANY, ARRAY, DEFINED, EQ, EXN, EXTERN, FUNC, I31, VECTOR, code_of, code_of_reference,
    has_default,
};
pub use known::known_of;
pub use lookups::{frame_at, inner_results, is_bare, label, part};
pub use opens::Opens;
pub use order::{Order, Step};
pub use pile::Pile;
pub use stack::Stack;
pub use tables::{Defined, Field, Held, Indexed, Known, NO_CODE, Named, Open, Sig, Tables};
pub use written::{begins_index, heap_at, value_at};
