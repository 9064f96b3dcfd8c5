//! A module is accepted exactly if its frames are judged one after the other, and its bodies are valid (WebAssembly 3.0, binary format
//! and validation, modules).
//!
//! What a parser gives of a module are its frames (`IsModule`); what a validator does with each is `JudgesShape`. Here both are held
//! against the rules of whole modules: [`judged_frames_are_modules`] goes from frames that were judged to a module that the bytes spell,
//! [`valid_modules_are_judged`] goes back, and [`accepted_modules_are_judged`] joins the two. If bodies are taken as bytes, whatever they
//! are, [`modules_outside_bodies_are_judged`] says the same. There is no code here: each law is the contract of a function that does
//! nothing.

mod laws;

pub use laws::{
    accepted_modules_are_judged, judged_frames_are_modules, modules_outside_bodies_are_judged,
    valid_modules_are_judged,
};
