//! Worked rows, each the contract of a function that does nothing, or of one that calls what it is about.

ghost use Rattle.std.specs.Prelude.{◌≡◌, ◌<◌, ◌^◌};
ghost use Rattle.wasm_types.specs.trees.Indices.{number_of};
ghost use Rattle.wasm_types.specs.settings.declared.WasmFeatures.{WasmFeatures as Features};
ghost use Rattle.wasm_types_tests.specs.Answers.{DenialRows, TellingRows, RefusalRows};
ghost use Rattle.wasm_types_tests.specs.Edges.{UnsignedEdges32, UnsignedEdges64, SignedEdges32, SignedEdges33, SignedEdges64};
ghost use Rattle.wasm_types_tests.specs.Sets.{InflatedRows, PackedRows, WithinRows};
ghost use Rattle.wasm_types_tests.specs.Reading.{ReachedRows, GivenRows, OffsetRows, SaidRows, NextRows};
ghost use Rattle.wasm_types_tests.specs.Trees.{TreeRows, BitRows};
ghost use Rattle.wasm_types_tests.specs.Kinds.{KindRows, OrderRows, WordRows};
ghost use Rattle.wasm_types_tests.specs.Remaps.{IndexRows, ShapeRows, RemapRows};
ghost use Rattle.wasm_types_tests.specs.Groups.{DeclaredRows, ValueRows, CopyRows, TextRows};

use wasm_types::{PackedIndex, UnpackedIndex};

/// Numbers in LEB128 at the edges of their widths (WebAssembly 3.0, binary format, integers).
#[tactic(auto, using(crate::specs::EdgeLaws::unsigned_edges_32, crate::specs::EdgeLaws::unsigned_edges_64, crate::specs::EdgeLaws::signed_edges_32, crate::specs::EdgeLaws::signed_edges_33, crate::specs::EdgeLaws::signed_edges_64))]
pub fn numbers_at_their_edges()
    ensures unsigned_32 { UnsignedEdges32 }
    ensures unsigned_64 { UnsignedEdges64 }
    ensures signed_32 { SignedEdges32 }
    ensures signed_33 { SignedEdges33 }
    ensures signed_64 { SignedEdges64 }
{}

/// Sets of features as fields and back, and within one another.
#[tactic(auto, using(crate::specs::SetLaws::inflated_rows, crate::specs::SetLaws::packed_rows, crate::specs::SetLaws::within_rows))]
pub fn inflated_sets_are_worked()
    ensures inflated { InflatedRows }
    ensures packed { PackedRows }
    ensures within { WithinRows }
{}

/// The number of an index that 22 bits hold is below 2^20, of whichever kind it is.
pub fn unpacked_numbers_fit(index: PackedIndex) -> UnpackedIndex
    ensures { number_of result < 2 ^ 20 }
{
    index.unpack()
}

/// What contracts of readers promise: outcomes, where a reader stands, messages, and values that follow one another.
#[tactic(auto, using(crate::specs::ReadingLaws::reached_rows, crate::specs::ReadingLaws::given_rows, crate::specs::ReadingLaws::offset_rows, crate::specs::ReadingLaws::said_rows, crate::specs::ReadingLaws::next_rows))]
pub fn readings_are_worked()
    ensures reached { ReachedRows }
    ensures given { GivenRows }
    ensures at_offsets { OffsetRows }
    ensures messages { SaidRows }
    ensures items { NextRows }
{}

/// Each type as a plain tree, and references as bits (WebAssembly 3.0, structure, types).
#[tactic(auto, using(crate::specs::TreeLaws::tree_rows, crate::specs::TreeLaws::bit_rows))]
pub fn trees_are_worked()
    ensures trees { TreeRows }
    ensures bits { BitRows }
{}

/// What each type is, how references are ordered, and how types are written (WebAssembly 3.0, structure and text format, types).
#[tactic(auto, using(crate::specs::KindLaws::kind_rows, crate::specs::KindLaws::order_rows, crate::specs::KindLaws::word_rows))]
pub fn kinds_are_worked()
    ensures kinds { KindRows }
    ensures order { OrderRows }
    ensures words { WordRows }
{}

/// The indices of types in order, their shapes, and what a call leaves that replaces indices.
#[tactic(auto, using(crate::specs::RemapLaws::index_rows, crate::specs::RemapLaws::shape_rows, crate::specs::RemapLaws::remap_rows))]
pub fn remapped_types_are_worked()
    ensures indices { IndexRows }
    ensures shapes { ShapeRows }
    ensures remapped { RemapRows }
{}

/// What subtypes and groups declare, the values that are read of them, how they are written, and what a copy keeps
/// (WebAssembly 3.0, structure, recursive types).
#[tactic(auto, using(crate::specs::GroupLaws::declared_rows, crate::specs::GroupLaws::value_rows, crate::specs::GroupLaws::copy_rows, crate::specs::GroupLaws::text_rows))]
pub fn groups_are_declared_as_worked()
    ensures declared { DeclaredRows }
    ensures values { ValueRows }
    ensures copies { CopyRows }
    ensures texts { TextRows }
{}

/// What an answer tells of a fact, by each kind of refusal: it denies it, unless memory ran out, and promises its offset.
#[tactic(auto, using(crate::specs::AnswerLaws::denial_rows, crate::specs::AnswerLaws::telling_rows, crate::specs::AnswerLaws::refusal_rows))]
pub fn answers_are_worked()
    ensures denials { (f : Features) → DenialRows f }
    ensures answers { TellingRows }
    ensures refusals { (f : Features) → RefusalRows f }
{}
