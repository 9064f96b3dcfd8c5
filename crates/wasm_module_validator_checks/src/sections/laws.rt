//! Worked calls, on the contract of a function that does nothing.

ghost use Rattle.std.specs.Prelude.{◌≡◌, true, false};
ghost use Rattle.wasm_module_validator_checks.specs.sections.Turns.{is_in_turn, after};

use crate::sections::state::{Call, State};

/// Which calls come in turn, and where they lead: a module of a header, sections, code and an end; a second header, sections and a
/// second start of the code section behind the first one, an entry before it, and anything behind the end.
pub fn turns_are_worked()
    ensures header { (is_in_turn State.Unparsed Call.Header ≡ true)
        × (after State.Unparsed Call.Header ≡ State.Module) }
    ensures section { (is_in_turn State.Module Call.Section ≡ true) × (after State.Module Call.Section ≡ State.Module) }
    ensures code { (is_in_turn State.Module Call.CodeStart ≡ true) × (after State.Module Call.CodeStart ≡ State.Code) }
    ensures entry { (is_in_turn State.Code Call.Entry ≡ true) × (after State.Code Call.Entry ≡ State.Code) }
    ensures rest { (is_in_turn State.Code Call.StartOrData ≡ true) × (is_in_turn State.Module Call.StartOrData ≡ true) }
    ensures end { (is_in_turn State.Code Call.End ≡ true) × (is_in_turn State.Module Call.End ≡ true)
        × (after State.Code Call.End ≡ State.End) }
    ensures no_header { (is_in_turn State.Unparsed Call.Section ≡ false) × (is_in_turn State.Unparsed Call.End ≡ false)
        × (is_in_turn State.Module Call.Header ≡ false) }
    ensures no_code { (is_in_turn State.Module Call.Entry ≡ false) × (is_in_turn State.Code Call.CodeStart ≡ false)
        × (is_in_turn State.Code Call.Section ≡ false) }
    ensures no_more { (is_in_turn State.End Call.Header ≡ false) × (is_in_turn State.End Call.StartOrData ≡ false)
        × (is_in_turn State.End Call.End ≡ false) }
{}
