//! What bodies ask of a module, packed, and what is known of an open frame.

use crate::order::Order;
use wasm_operator_validator_state::FrameKind;
use wasm_types::WasmFeatures;

/// Where the types of a signature stand among the codes. One that is not for use takes more than there are codes.
#[derive(Clone, Copy)]
pub struct Sig {
    pub params: u32,
    pub param_count: u32,
    pub results: u32,
    pub result_count: u32,
}

/// No code stands for the type.
pub const NO_CODE: u32 = 0xffff_ffff;

/// A global: its type as a code, and whether it may be written.
#[derive(Clone, Copy)]
pub struct Held {
    pub ty: u32,
    pub mutable: bool,
}

/// A table: its references as a code, and its indices.
#[derive(Clone, Copy)]
pub struct Indexed {
    pub ty: u32,
    pub index: u32,
}

/// A field or an element: the code of what is read, whether it is packed, and whether it may be written.
#[derive(Clone, Copy)]
pub struct Field {
    pub code: u32,
    pub packed: bool,
    pub mutable: bool,
}

/// What a type of the module is.
#[derive(Clone, Copy)]
pub enum Defined {
    /// None that the loop knows.
    Other,
    /// A function.
    Function,
    /// A structure: where its fields begin among those of all structures, and how many it has.
    Struct(u32, u32),
    /// An array of this element.
    Array(Field),
}

/// A type of the module: what it is, and the code of references to it that may be null. The next code is that of the others.
#[derive(Clone, Copy)]
pub struct Named {
    pub code: u32,
    pub defined: Defined,
}

/// What bodies ask of a module: codes, one after the other, first 40 that stand for themselves, then two for each type of the module, then the
/// types of signatures; where those of each function type lie there; what each type is, and the fields of structures; what is below what;
/// functions by the indices of their types and by their signatures, and whether code may refer to them; globals; tags, by where their parameters
/// lie; tables; element segments, by the codes of their references; memories, by the codes of their addresses; how many data segments there are;
/// the code of the addresses of memory 0, and that of the indices of table 0 if it is one of functions: no code if there is none.
#[derive(Drop)]
pub struct Known {
    pub flat: Vec<u32>,
    pub types: Vec<Sig>,
    pub named: Vec<Named>,
    pub fields: Vec<Field>,
    pub order: Order,
    pub functions: Vec<u32>,
    pub callees: Vec<Sig>,
    pub referenced: Vec<bool>,
    pub globals: Vec<Held>,
    pub tags: Vec<Sig>,
    pub tables: Vec<Indexed>,
    pub elements: Vec<u32>,
    pub memories: Vec<u32>,
    pub data: u32,
    pub memory: u32,
    pub table: u32,
}

/// What one body asks: its module, its locals as codes, how many of them from the first on have values wherever they are read, the results of
/// its function, the features that it is read by, whether these have references, and whether they have vectors and operators on these are
/// judged.
#[derive(Drop)]
pub struct Tables {
    pub known: Known,
    pub locals: Vec<u32>,
    pub certain: usize,
    pub results: Sig,
    pub features: WasmFeatures,
    pub references: bool,
    pub vectors: bool,
}

/// An open frame, how many operands lie under the frame around it, and which locals have values there, a bit each: of 64 from the first on that
/// has none from the start.
#[derive(Clone, Copy)]
pub struct Open {
    pub kind: FrameKind,
    pub base: usize,
    pub set: u64,
    pub sig: Sig,
}
