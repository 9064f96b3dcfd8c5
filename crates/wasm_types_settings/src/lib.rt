//! What a module is judged by: features of WebAssembly that are allowed, and limits that hold.
//!
//! [`WasmFeatures`] is a set of features, one bit each, and [`WasmFeaturesInflated`] the same set as one `bool` for each.
//! `specs/Features.antt` is the one table of the bits: rules speak of `has Gc bits`, and each accessor answers just that.
//! `specs/Sets.antt` has the named sets, such as the features of a release. One bit more is no feature: it asks that
//! operators on vectors be judged ([`WasmFeatures::VECTOR_OPERATORS`]).
//!
//! [`Limits`] has one number for each thing that an implementation may limit (WebAssembly 3.0, appendix, implementation
//! limitations). A module past a limit is refused although the format allows it. `specs/Limits.antt` has the defaults and
//! the ceilings, once; `specs/Settings.antt` joins features and limits to one value, by which all layers above judge.
#![tactic(auto)]

ghost use Rattle.std.specs.Prelude.{◌≡◌, ◌≤◌, ◌↔◌, IsTrue};
ghost use Rattle.wasm_types_settings.specs.Limits.{default_limits, ceilings, IsWithinCeilings};
ghost use Rattle.wasm_types_settings.specs.LimitsRows.{DefaultRows, CeilingRows};

mod accessors;
mod features;
mod inflated;
pub mod laws;

pub use crate::features::WasmFeatures;
pub use crate::inflated::WasmFeaturesInflated;

/// The most that a module may have of each thing.
#[derive(Clone, Copy, Debug, PartialEq, Eq)]
pub struct Limits {
    /// The most types of a module, and of a recursion group.
    pub types: u32,
    /// The most parameters of a function type.
    pub params: u32,
    /// The most results of a function type.
    pub results: u32,
    /// The most fields of a struct type.
    pub fields: u32,
    /// The most bytes of a name.
    pub string_bytes: u32,
    /// The most imports of a module.
    pub imports: u32,
    /// The most exports of a module.
    pub exports: u32,
    /// The most functions of a module.
    pub functions: u32,
    /// The most globals of a module.
    pub globals: u32,
    /// The most tags of a module.
    pub tags: u32,
    /// The most tables of a module.
    pub tables: u32,
    /// The most memories of a module.
    pub memories: u32,
    /// The most element segments of a module.
    pub element_segments: u32,
    /// The most data segments of a module.
    pub data_segments: u32,
    /// The most items of an element segment.
    pub segment_items: u32,
    /// The most bytes of a function's entry, and targets of a `br_table`.
    pub body_bytes: u32,
    /// The most types of a typed `select`.
    pub select_types: u32,
    /// The most locals of a function, its parameters among them.
    pub locals: u32,
    /// The most catches of a `try_table`, and handlers of a `resume`.
    pub catches: u32,
    /// The most depth of subtyping.
    pub subtyping_depth: u32,
    /// The most size of a type, with all that it is made of.
    pub type_size: u32,
}

impl Default for Limits {
    ghost is_default = { λ l. l ≡ default_limits };

    /// The limits that hold where none are chosen.
    #[tactic(auto, unfolding(crate::specs::Limits::default_limits))]
    fn default() -> Limits {
        Limits {
            types: 1_000_000,
            params: 1_000,
            results: 1_000,
            fields: 10_000,
            string_bytes: 100_000,
            imports: 1_000_000,
            exports: 1_000_000,
            functions: 1_000_000,
            globals: 1_000_000,
            tags: 1_000_000,
            tables: 100,
            memories: 100,
            element_segments: 100_000,
            data_segments: 100_000,
            segment_items: 10_000_000,
            body_bytes: 7_654_321,
            select_types: 10,
            locals: 50_000,
            catches: 10_000,
            subtyping_depth: 63,
            type_size: 1_000_000,
        }
    }
}

impl Limits {
    /// The most that each limit may be.
    #[tactic(auto, unfolding(crate::specs::Limits::ceilings))]
    pub const fn ceilings() -> Limits
        ensures { result ≡ ceilings }
    {
        Limits {
            types: 1_048_576,
            params: 1_000,
            results: 1_000,
            fields: 1_000_000,
            string_bytes: 1_000_000,
            imports: 1_000_000,
            exports: 1_000_000,
            functions: 1_000_000,
            globals: 1_000_000,
            tags: 1_000_000,
            tables: 100_000,
            memories: 100_000,
            element_segments: 1_000_000,
            data_segments: 1_000_000,
            segment_items: 10_000_000,
            body_bytes: 7_654_321,
            select_types: 1_000,
            locals: 1_000_000,
            catches: 100_000,
            subtyping_depth: 254,
            type_size: 16_777_215,
        }
    }

    /// Whether no limit is above its ceiling.
    pub fn is_within_ceilings(&self) -> bool
        ensures { IsTrue result ↔ IsWithinCeilings self.now }
    {
        let most = Limits::ceilings();
        self.are_types_within(&most)
            && self.are_entities_within(&most)
            && self.are_contents_within(&most)
    }

    // Whether those of types and names are at most these.
    fn are_types_within(&self, most: &Limits) -> bool
        ensures { IsTrue result ↔ ((self.now.types ≤ most.now.types) × (self.now.params ≤ most.now.params)
            × (self.now.results ≤ most.now.results) × (self.now.fields ≤ most.now.fields)
            × (self.now.string_bytes ≤ most.now.string_bytes) × (self.now.subtyping_depth ≤ most.now.subtyping_depth)
            × (self.now.type_size ≤ most.now.type_size)) }
    {
        self.types <= most.types
            && self.params <= most.params
            && self.results <= most.results
            && self.fields <= most.fields
            && self.string_bytes <= most.string_bytes
            && self.subtyping_depth <= most.subtyping_depth
            && self.type_size <= most.type_size
    }

    // Whether those of what a module declares are at most these.
    fn are_entities_within(&self, most: &Limits) -> bool
        ensures { IsTrue result ↔ ((self.now.imports ≤ most.now.imports) × (self.now.exports ≤ most.now.exports)
            × (self.now.functions ≤ most.now.functions) × (self.now.globals ≤ most.now.globals)
            × (self.now.tags ≤ most.now.tags) × (self.now.tables ≤ most.now.tables)
            × (self.now.memories ≤ most.now.memories)) }
    {
        self.imports <= most.imports
            && self.exports <= most.exports
            && self.functions <= most.functions
            && self.globals <= most.globals
            && self.tags <= most.tags
            && self.tables <= most.tables
            && self.memories <= most.memories
    }

    // Whether those of segments and bodies are at most these.
    fn are_contents_within(&self, most: &Limits) -> bool
        ensures { IsTrue result ↔ ((self.now.element_segments ≤ most.now.element_segments)
            × (self.now.data_segments ≤ most.now.data_segments) × (self.now.segment_items ≤ most.now.segment_items)
            × (self.now.body_bytes ≤ most.now.body_bytes) × (self.now.select_types ≤ most.now.select_types)
            × (self.now.locals ≤ most.now.locals) × (self.now.catches ≤ most.now.catches)) }
    {
        self.element_segments <= most.element_segments
            && self.data_segments <= most.data_segments
            && self.segment_items <= most.segment_items
            && self.body_bytes <= most.body_bytes
            && self.select_types <= most.select_types
            && self.locals <= most.locals
            && self.catches <= most.catches
    }
}

/// The limits by default, one past each ceiling, and what lies between, worked by hand.
#[tactic(auto, using(crate::specs::LimitsRowLaws::default_rows, crate::specs::LimitsRowLaws::ceiling_rows))]
pub fn worked_limits()
    ensures defaults { DefaultRows }
    ensures ceilings { CeilingRows }
{}
