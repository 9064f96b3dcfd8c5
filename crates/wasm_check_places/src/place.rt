//! The place of a fault, in parts.
//!
//! Types are written as the text format writes them, a type of the module by its index: `(ref null 3)`. A list of types that was cut ends
//! with `..`.
ghost use Rattle.wasm_check_places.specs.Places.{IsEmpty};

use crate::sections::Part;

/// What ends a list that is cut.
pub const CUT: &str = "..";

/// Where bytes begin and end.
#[derive(Clone, Copy)]
pub struct Offsets {
    /// The offset of the first.
    pub start: u64,
    /// The offset after the last.
    pub end: u64,
}

/// An item of a section.
#[derive(Clone, Copy)]
pub struct Item {
    /// Its number, counted from 0.
    pub number: u32,
    /// How many there are.
    pub count: u32,
}

/// The type of a function.
#[derive(Drop)]
pub struct Signature {
    /// What it takes, the first first: at most 16 types.
    pub params: Vec<String>,
    /// What it gives: as many at most.
    pub results: Vec<String>,
}

/// A function of the module.
#[derive(Drop)]
pub struct Function {
    /// Its index among all functions, those that are imported first.
    pub index: u32,
    /// Its name in the name section, or one by which it is exported.
    pub name: Option<String>,
    /// Its type.
    pub signature: Option<Signature>,
}

/// What an operator takes, or gives.
#[derive(Drop)]
pub struct Operands {
    /// How many.
    pub count: u32,
    /// Of which types, the topmost first: at most eight.
    pub types: Option<Vec<String>>,
}

/// An operator of a body.
#[derive(Drop)]
pub struct OperatorAt {
    /// Its number in the body, counted from 0.
    pub number: usize,
    /// Where it begins.
    pub offset: u64,
    /// Its name in the text format, if it can be read and may come there.
    pub name: Option<&'static str>,
    /// What it takes.
    pub takes: Option<Operands>,
    /// What it gives.
    pub gives: Option<Operands>,
}

/// The innermost open frame.
#[derive(Drop)]
pub struct OpenFrame {
    /// What it is called: `function`, `block`, `loop` and so on.
    pub name: &'static str,
    /// Whether its code cannot be reached.
    pub is_unreachable: bool,
    /// Its operands, the topmost first: at most eight.
    pub stack: Vec<String>,
    /// How many operands it has.
    pub height: u32,
    /// How many operands are below it.
    pub below: u32,
}

/// What is wrong with a body beside its operators.
#[derive(Clone, Copy)]
pub enum Note {
    /// Its function takes more parameters than it may have locals.
    ParamsRefused,
    /// Its locals cannot be read.
    LocalsUnread,
    /// Its locals are refused.
    LocalsRefused,
    /// Its bytes end within the frame of this name.
    EndsWithin(&'static str),
}

/// What is known of the place of a fault. What is not known is None.
#[derive(Drop)]
pub struct Place {
    /// The part of the module.
    pub part: Option<Part>,
    /// Whether the fault comes after that part, in no other.
    pub is_after: bool,
    /// Where the part begins and ends, if it is no body.
    pub range: Option<Offsets>,
    /// The item of the section.
    pub item: Option<Item>,
    /// The function whose body has the fault.
    pub function: Option<Function>,
    /// The operator.
    pub operator: Option<OperatorAt>,
    /// The frame in which the operator is.
    pub frame: Option<OpenFrame>,
    /// What is wrong with the body beside its operators.
    pub note: Option<Note>,
    /// The chapter of the standard that has the rule.
    pub chapter: &'static str,
}

impl Place {
    /// A part, of which no more is known.
    pub fn of(part: Part, chapter: &'static str) -> Place
        ensures { IsEmpty result }
    {
        Place {
            part: Some(part),
            is_after: false,
            range: None,
            item: None,
            function: None,
            operator: None,
            frame: None,
            note: None,
            chapter,
        }
    }

    /// The same, after that part.
    pub fn after(part: Part, chapter: &'static str) -> Place
        ensures { IsEmpty result }
    {
        let mut place = Place::of(part, chapter);
        place.is_after = true;
        place
    }
}
