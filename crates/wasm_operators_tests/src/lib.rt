//! Worked rows of operators, which compute: the list of operators and what they carry; bytes of operators; where a reader stands
//! and what a visitor is told; bytes of bodies.
#![tactic(auto)]

pub mod bodies;
pub mod list;
pub mod reader;
pub mod worked;
