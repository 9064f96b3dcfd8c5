//! A section is judged as its items are added one by one, and a module as its frames come in order.
//!
//! [`items`] reads a section's items and adds each to a state, the same for all kinds of items: it succeeds exactly if the
//! contents spell as many items as are counted, and each may be added after those before it. [`sections`] says that so a
//! section is judged as the rules judge its tree. [`frames`] says the same of a whole module: the frames that a parser gave
//! so far come first among those of the module that the bytes spell, and a module is accepted exactly if its frames are
//! judged one by one and its bodies are valid.
#![tactic(auto)]

pub mod frames;
pub mod items;
pub mod sections;
