//! The limits that a caller chooses, by name.
ghost use Rattle.std.specs.Prelude.{◌≡◌, ◌<◌};
ghost use Rattle.wasm_check_lines.specs.Limits.{is_highest, limit_of, place_of, word_of};

use wasm_types::Limits;

/// A limit that a caller chooses: the field of `Limits` of this name. They are in the order of the fields.
#[derive(Clone, Copy, Debug)]
pub enum Limit {
    Types,
    Params,
    Results,
    Fields,
    StringBytes,
    Imports,
    Exports,
    Functions,
    Globals,
    Tags,
    Tables,
    Memories,
    ElementSegments,
    DataSegments,
    SegmentItems,
    BodyBytes,
    SelectTypes,
    Locals,
    Catches,
    SubtypingDepth,
    TypeSize,
}

impl Limit {
    /// Its name among the words of `--limits`.
    pub fn word(self) -> &'static str
        ensures { result.now ≡ word_of self }
    {
        match self {
            Limit::Types => "types",
            Limit::Params => "params",
            Limit::Results => "results",
            Limit::Fields => "fields",
            Limit::StringBytes => "string-bytes",
            Limit::Imports => "imports",
            Limit::Exports => "exports",
            Limit::Functions => "functions",
            Limit::Globals => "globals",
            Limit::Tags => "tags",
            Limit::Tables => "tables",
            Limit::Memories => "memories",
            Limit::ElementSegments => "element-segments",
            Limit::DataSegments => "data-segments",
            Limit::SegmentItems => "segment-items",
            Limit::BodyBytes => "body-bytes",
            Limit::SelectTypes => "select-types",
            Limit::Locals => "locals",
            Limit::Catches => "catches",
            Limit::SubtypingDepth => "subtyping-depth",
            Limit::TypeSize => "type-size",
        }
    }

    /// Its place among the fields of `Limits`, counted from 0.
    pub fn place(self) -> u32
        ensures place { result ≡ place_of self }
        ensures few { result < 21 }
    {
        match self {
            Limit::Types => 0,
            Limit::Params => 1,
            Limit::Results => 2,
            Limit::Fields => 3,
            Limit::StringBytes => 4,
            Limit::Imports => 5,
            Limit::Exports => 6,
            Limit::Functions => 7,
            Limit::Globals => 8,
            Limit::Tags => 9,
            Limit::Tables => 10,
            Limit::Memories => 11,
            Limit::ElementSegments => 12,
            Limit::DataSegments => 13,
            Limit::SegmentItems => 14,
            Limit::BodyBytes => 15,
            Limit::SelectTypes => 16,
            Limit::Locals => 17,
            Limit::Catches => 18,
            Limit::SubtypingDepth => 19,
            Limit::TypeSize => 20,
        }
    }

    /// What it is in these limits.
    pub fn of(self, limits: &Limits) -> u32
        ensures { result ≡ limit_of self limits.now }
    {
        match self {
            Limit::Types => limits.types,
            Limit::Params => limits.params,
            Limit::Results => limits.results,
            Limit::Fields => limits.fields,
            Limit::StringBytes => limits.string_bytes,
            Limit::SubtypingDepth => limits.subtyping_depth,
            Limit::TypeSize => limits.type_size,
            Limit::Imports => limits.imports,
            Limit::Exports => limits.exports,
            Limit::Functions => limits.functions,
            Limit::Globals => limits.globals,
            Limit::Tags => limits.tags,
            Limit::Tables => limits.tables,
            Limit::Memories => limits.memories,
            Limit::ElementSegments => limits.element_segments,
            Limit::DataSegments => limits.data_segments,
            Limit::SegmentItems => limits.segment_items,
            Limit::BodyBytes => limits.body_bytes,
            Limit::SelectTypes => limits.select_types,
            Limit::Locals => limits.locals,
            Limit::Catches => limits.catches,
        }
    }

    /// Whether it is as high in these limits as it may be.
    pub(crate) fn is_highest(self, limits: &Limits) -> bool
        ensures { result ≡ is_highest self limits.now }
    {
        self.of(&Limits::ceilings()) <= self.of(limits)
    }
}
