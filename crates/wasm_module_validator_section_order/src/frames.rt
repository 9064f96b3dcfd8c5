//! The frames that a parser gave so far, beside those of the module that the bytes spell (WebAssembly 3.0, binary format, modules).
//!
//! Whoever walks over a module by `parse_all` has its frames one by one, and a module has one list of frames
//! ([`fronts_are_of_modules`]). [`walks_go_along_modules`] says what each `next` of the walk gives, in the terms of the frames before it:
//! one frame more, whose payload came and which is read by the settings of the parser; and where the bytes are a module, the frames so
//! far come first among its own, and nothing is refused but a section that is no payload. [`walks_are_judged`] says what follows where
//! its frames are judged (`wasm_module_validator_rules_in_order`): each frame behind those before it, and nothing is refused. `specs/frames/Walks.antt`
//! defines where a walk stands. There is no code here: each law is the contract of a function that does nothing.
//!
//! [`framed`] says that a module is accepted exactly if all its frames are judged so, and its bodies are valid.

pub mod framed;
mod laws;

pub use laws::{fronts_are_of_modules, walks_are_judged, walks_are_worked, walks_go_along_modules};
