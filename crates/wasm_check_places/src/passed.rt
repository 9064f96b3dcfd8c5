//! What came of a module before the fault.
ghost use Rattle.std.specs.Prelude.{IfSome};
ghost use Rattle.wasm_check_places.specs.Places.{IsIn};

use crate::place::Offsets;
use crate::sections::{Part, part_of};
use wasm_sections::{ImportSectionReader, Payload, TypeRef};

/// The parts of a module before a fault.
#[derive(Clone, Copy)]
pub struct Passed {
    /// The last part.
    pub last: Option<Part>,
    /// How many functions are imported.
    imported: u32,
    /// How many bodies came.
    bodies: u32,
    /// How many bodies are still to come.
    due: u32,
    /// The offsets of the code section.
    code: Offsets,
}

/// How many functions a section imports.
fn functions_in(section: ImportSectionReader<'_>) -> u32 {
    let mut count = 0u32;
    for import in section {
        let Ok(import) = import else {
            return count;
        };
        match import.ty {
            TypeRef::Func(_) => count = count.saturating_add(1),
            TypeRef::FuncExact(_) => count = count.saturating_add(1),
            _ => (),
        }
    }
    count
}

impl Passed {
    /// Nothing.
    pub fn new() -> Passed {
        Passed {
            last: None,
            imported: 0,
            bodies: 0,
            due: 0,
            code: Offsets { start: 0, end: 0 },
        }
    }

    /// This, and the start of a code section of so many bodies and these offsets.
    fn with_code(self, count: u32, code: Offsets) -> Passed {
        let mut passed = self;
        passed.due = count;
        passed.code = code;
        passed
    }

    /// This, and a body.
    fn with_body(self) -> Passed {
        let mut passed = self;
        passed.bodies = passed.bodies.saturating_add(1);
        passed.due = passed.due.saturating_sub(1);
        passed
    }

    /// This, and a payload.
    pub fn and(self, payload: Payload<'_>) -> Passed {
        let mut passed = self;
        passed.last = Some(part_of(&payload));
        match payload {
            Payload::ImportSection(section) => passed.imported = functions_in(section),
            Payload::CodeSectionStart {
                count,
                unchecked_range,
                ..
            } => {
                let code = Offsets {
                    start: unchecked_range.start,
                    end: unchecked_range.end,
                };
                passed = passed.with_code(count, code);
            }
            Payload::CodeSectionEntry(_) => passed = passed.with_body(),
            _ => (),
        }
        passed
    }

    /// The index of the function whose body comes next.
    pub fn next_index(self) -> u32 {
        self.imported.saturating_add(self.bodies)
    }

    /// The offsets of the code section, if a fault at this offset, which is in no body, is in it.
    pub fn code_at(self, offset: u64) -> Option<Offsets>
        ensures { IfSome result (IsIn offset) }
    {
        let Offsets { start, end } = self.code;
        if offset < start {
            return None;
        }
        if offset < end || (offset == end && self.due > 0) {
            return Some(self.code);
        }
        None
    }
}
