//! Which cause an error has.
//!
//! Most limits are told by the message alone. No message begins with a text that a module chose, so how it begins tells which limit it is.
ghost use Rattle.std.specs.Prelude.{◌≡◌};
ghost use Rattle.wasm_check_lines.specs.Causes.{begins, ends, index_features, last_feature, type_fronts, entity_fronts, segment_fronts, content_fronts, meant_by};
ghost use Rattle.wasm_check_lines.specs.Causes.{single_limit, limit_meant, allowing, kind_feature, message_feature, feature_lacking};
ghost use Rattle.wasm_check_lines.specs.Causes.{message_cause, limit_cause, cause_of};

use crate::limit::Limit;
use bitflags::Flags;
use wasm_types::{Error, ErrorKind, Limits, WasmFeatures};

/// Why a module was refused.
#[derive(Clone, Copy, Debug)]
pub enum Cause {
    /// Operators on vectors are not judged.
    Vectors,
    /// This limit is too low for it.
    Limit(Limit),
    /// These features, or one of them, are off.
    Feature(WasmFeatures),
    /// A limit that nobody chooses: on the types of a validator, or on the index of a type.
    FixedLimit,
    /// A type is not the one that is wanted.
    Types,
    /// Another reason.
    Another,
}

/// What the library says of an operator on vectors while the switch for them is off.
const VECTORS_MESSAGE: &str = "unexpected SIMD opcode: 0xfd";

// Whether a message begins with this text.
fn begins(message: &str, front: &str) -> bool
    ensures { result ≡ begins front.now message.now }
{
    message.as_bytes().starts_with(front.as_bytes())
}

// Whether a message ends with this text.
fn ends(message: &str, back: &str) -> bool
    ensures { result ≡ ends back.now message.now }
{
    message.as_bytes().ends_with(back.as_bytes())
}

// The limit that a message tells, of those of types.
fn type_limit(message: &str) -> Option<Limit>
    ensures { result ≡ meant_by type_fronts message.now }
{
    if begins(message, "types count exceeds limit of ") {
        return Some(Limit::Types);
    }
    if begins(message, "multiple types") {
        return Some(Limit::Types);
    }
    if begins(message, "rec group types size is out of bounds") {
        return Some(Limit::Types);
    }
    if begins(message, "function params size is out of bounds") {
        return Some(Limit::Params);
    }
    if begins(message, "function returns size is out of bounds") {
        return Some(Limit::Results);
    }
    if begins(message, "struct fields size is out of bounds") {
        return Some(Limit::Fields);
    }
    if begins(message, "sub type hierarchy too deep: ") {
        return Some(Limit::SubtypingDepth);
    }
    if begins(message, "effective type size exceeds the limit of ") {
        return Some(Limit::TypeSize);
    }
    None
}

// The limit that a message tells, of those of what a module declares and imports.
fn entity_limit(message: &str) -> Option<Limit>
    ensures { result ≡ meant_by entity_fronts message.now }
{
    if begins(message, "imports count exceeds limit of ") {
        return Some(Limit::Imports);
    }
    if begins(message, "multiple imports") {
        return Some(Limit::Imports);
    }
    if begins(message, "functions count exceeds limit of ") {
        return Some(Limit::Functions);
    }
    if begins(message, "multiple functions") {
        return Some(Limit::Functions);
    }
    if begins(message, "globals count exceeds limit of ") {
        return Some(Limit::Globals);
    }
    if begins(message, "multiple globals") {
        return Some(Limit::Globals);
    }
    if begins(message, "tags count exceeds limit of ") {
        return Some(Limit::Tags);
    }
    if begins(message, "multiple tags") {
        return Some(Limit::Tags);
    }
    if begins(message, "tables count exceeds limit of ") {
        return Some(Limit::Tables);
    }
    if begins(message, "memories count exceeds limit of ") {
        return Some(Limit::Memories);
    }
    None
}

// The limit that a message tells, of those of exports and segments.
fn segment_limit(message: &str) -> Option<Limit>
    ensures { result ≡ meant_by segment_fronts message.now }
{
    if begins(message, "exports count exceeds limit of ") {
        return Some(Limit::Exports);
    }
    if begins(message, "multiple exports") {
        return Some(Limit::Exports);
    }
    if begins(message, "element segments count exceeds limit of ") {
        return Some(Limit::ElementSegments);
    }
    if begins(message, "multiple element segments") {
        return Some(Limit::ElementSegments);
    }
    if begins(message, "data segments count exceeds limit of ") {
        return Some(Limit::DataSegments);
    }
    if begins(message, "multiple data segments") {
        return Some(Limit::DataSegments);
    }
    if begins(
        message,
        "data count section specifies too many data segments",
    ) {
        return Some(Limit::DataSegments);
    }
    if begins(message, "number of elements is out of bounds") {
        return Some(Limit::SegmentItems);
    }
    None
}

// The limit that a message tells, of those of names and bodies.
fn content_limit(message: &str) -> Option<Limit>
    ensures { result ≡ meant_by content_fronts message.now }
{
    if begins(message, "string size out of bounds") {
        return Some(Limit::StringBytes);
    }
    if begins(message, "function body size count exceeds limit of ") {
        return Some(Limit::BodyBytes);
    }
    if begins(message, "br_table size is out of bounds") {
        return Some(Limit::BodyBytes);
    }
    if begins(message, "select types size is out of bounds") {
        return Some(Limit::SelectTypes);
    }
    if begins(message, "too many locals: ") {
        return Some(Limit::Locals);
    }
    if begins(message, "catches size is out of bounds") {
        return Some(Limit::Catches);
    }
    if begins(message, "resume table size is out of bounds") {
        return Some(Limit::Catches);
    }
    None
}

// The limit that a message tells of several tables or memories, if these limits allow but one.
fn single_limit(limits: &Limits, message: &str) -> Option<Limit>
    ensures { result ≡ single_limit limits.now message.now }
{
    if begins(message, "multiple tables") && limits.tables <= 1 {
        return Some(Limit::Tables);
    }
    if begins(message, "multiple memories") && limits.memories <= 1 {
        return Some(Limit::Memories);
    }
    None
}

// The limit that a message tells.
#[tactic(auto, unfolding(crate::specs::Causes::limit_meant))]
fn limit_meant(limits: &Limits, message: &str) -> Option<Limit>
    ensures { result ≡ limit_meant limits.now message.now }
{
    if let Some(limit) = type_limit(message) {
        return Some(limit);
    }
    if let Some(limit) = entity_limit(message) {
        return Some(limit);
    }
    if let Some(limit) = segment_limit(message) {
        return Some(limit);
    }
    if let Some(limit) = content_limit(message) {
        return Some(limit);
    }
    single_limit(limits, message)
}

// These features, if allowing them helps.
fn allowing(features: WasmFeatures) -> Option<WasmFeatures>
    ensures { result ≡ allowing features }
{
    if features.bits() == WasmFeatures::COMPONENT_MODEL.bits() {
        return None;
    }
    Some(features)
}

// What an error of this kind lacks.
fn kind_feature(kind: ErrorKind) -> Option<WasmFeatures>
    ensures { result ≡ kind_feature kind }
{
    match kind {
        ErrorKind::MissingFeature(features) => allowing(features),
        ErrorKind::EndOfData { needed_hint: _ } => None,
        ErrorKind::OutOfMemory => None,
        ErrorKind::Failed => None,
        ErrorKind::Other => None,
    }
}

// The features of which one allows an index, of a memory or of a table, in place of a byte 0.
fn index_features() -> WasmFeatures
    ensures { result.0 ≡ index_features }
{
    WasmFeatures::MULTI_MEMORY.union(WasmFeatures::CALL_INDIRECT_OVERLONG)
}

// What the end of a message says is lacking. Only one that begins so is asked: another may end with a name that a module chose, cut anywhere.
fn last_feature(message: &str) -> Option<WasmFeatures>
    ensures { result ≡ last_feature message.now }
{
    if !begins(message, "unknown type ") {
        return None;
    }
    if ends(message, "because the GC proposal is disabled") {
        return Some(WasmFeatures::GC);
    }
    None
}

// What a message says is lacking.
fn message_feature(message: &str) -> Option<WasmFeatures>
    ensures { result ≡ message_feature message.now }
{
    if begins(message, "multiple tables") {
        return Some(WasmFeatures::REFERENCE_TYPES);
    }
    if begins(message, "multiple memories") {
        return Some(WasmFeatures::MULTI_MEMORY);
    }
    if begins(
        message,
        "data count section requires the bulk-memory proposal",
    ) {
        return Some(WasmFeatures::BULK_MEMORY);
    }
    if begins(message, "zero byte expected") {
        return Some(index_features());
    }
    last_feature(message)
}

// What an error says is lacking.
#[tactic(auto, unfolding(crate::specs::Causes::feature_lacking))]
fn feature_lacking(error: &Error) -> Option<WasmFeatures>
    ensures { result ≡ feature_lacking error.now }
{
    if let Some(features) = kind_feature(error.kind()) {
        return Some(features);
    }
    let message = error.message();
    message_feature(message.as_str())
}

// The cause by a message that tells neither a limit nor a feature.
fn message_cause(message: &str) -> Cause
    ensures { result ≡ message_cause message.now }
{
    if begins(message, "type mismatch") {
        return Cause::Types;
    }
    if begins(message, "implementation limit: ") {
        return Cause::FixedLimit;
    }
    if begins(message, "type index greater than implementation limits") {
        return Cause::FixedLimit;
    }
    Cause::Another
}

// The cause by the limit that refused it, or else by the features that are lacking, or else by the message.
fn limit_cause(limit: Option<Limit>, features: Option<WasmFeatures>, message: &str) -> Cause
    ensures { result ≡ limit_cause limit features message.now }
{
    if let Some(limit) = limit {
        return Cause::Limit(limit);
    }
    match features {
        Some(features) => Cause::Feature(features),
        None => message_cause(message),
    }
}

/// Why this error came under these limits.
#[tactic(auto, unfolding(crate::specs::Causes::cause_of))]
pub fn cause_of(limits: &Limits, error: &Error) -> Cause
    ensures { result ≡ cause_of limits.now error.now }
{
    let written = error.message();
    let message = written.as_str();
    if message == VECTORS_MESSAGE {
        return Cause::Vectors;
    }
    limit_cause(
        limit_meant(limits, message),
        feature_lacking(error),
        message,
    )
}
