//! Worked rows, each the contract of a function that does nothing.

ghost use Rattle.wasm_sections_tests.specs.Items.{ElementRows, HeldRows, ModeRows};
ghost use Rattle.wasm_sections_tests.specs.Frames.{ShapeRows, PlacedRows, ParseRows, CallRows};
ghost use Rattle.wasm_sections_tests.specs.Payloads.{TakenRows, PayloadRows, CalledRows};

/// What the code keeps of element segments, of data segments and of tables, as trees (WebAssembly 3.0, binary format, modules).
#[tactic(auto, using(crate::specs::ItemLaws::element_rows, crate::specs::ItemLaws::held_rows, crate::specs::ItemLaws::mode_rows))]
pub const fn kept_items_are_worked()
    ensures elements { ElementRows }
    ensures held { HeldRows }
    ensures modes { ModeRows }
{}

/// Frames as what they are and where they stand, and what calls of a parser answer (WebAssembly 3.0, binary format, modules).
#[tactic(auto, using(crate::specs::FrameLaws::shape_rows, crate::specs::FrameLaws::placed_rows, crate::specs::FrameLaws::parse_rows, crate::specs::FrameLaws::call_rows))]
pub const fn parses_are_worked()
    ensures shapes { ShapeRows }
    ensures placed { PlacedRows }
    ensures parses { ParseRows }
    ensures calls { CallRows }
{}

/// Calls of the parser of payloads: what they take, the payloads of several frames, and calls over a text in pieces.
#[tactic(auto, using(crate::specs::PayloadLaws::taken_rows, crate::specs::PayloadLaws::payload_rows, crate::specs::PayloadLaws::called_rows))]
pub const fn payload_calls_are_worked()
    ensures taken { TakenRows }
    ensures payloads { PayloadRows }
    ensures calls { CalledRows }
{}
