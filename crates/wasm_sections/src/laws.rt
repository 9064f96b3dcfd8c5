//! The laws of the parts, each the contract of a function that does nothing: headers, sections and modules, items one by one, segments,
//! and what calls of the parser give, ask for and refuse.

pub use crate::payloads_laws::{calls_are_of_modules, payloads_are_of_modules};
pub use wasm_sections_items::elements::laws::{elements_are_lawful, elements_are_whole};
pub use wasm_sections_items::frames::laws::{frames_are_lawful, frames_are_unique};
pub use wasm_sections_items::limited::laws::{
    function_types_are_exact, runs_are_exact, sections_are_exact,
};
pub use wasm_sections_items::segments::laws::items_are_lawful;
pub use wasm_sections_parser::laws::steps_are_lawful;
pub use wasm_sections_parser::runs::calls::laws::calls_move_on;
pub use wasm_sections_parser::runs::hints::laws::hints_are_least;
pub use wasm_sections_parser::runs::laws::{calls_give_modules, frames_are_of_modules};
pub use wasm_sections_parser::runs::steps::laws::frames_are_spelled;
