//! Where in a module the fault is.
ghost use Rattle.std.specs.Prelude.{◌≡◌, IfOk, IfSome, None};
ghost use Rattle.wasm_types.specs.settings.Limits.{IsWithinCeilings};
ghost use Rattle.wasm_check_places.specs.Places.{BeginsBy, IsEmpty, IsIn, IsPlaceOf};

use crate::bodies::{Found, Inside, KnownBody, find_in_body, find_overfull};
use std::alloc::{AllocError, Global};
use wasm_check_lines::{Cause, Limit, cause_of};
use wasm_check_places::{
    Function, Judged, Offsets, Part, Passed, Place, Signature, Spot, name_of, offsets_of, part_of,
    payloads, spot_of,
};
use wasm_sections::Payload;
use wasm_types::{Error, Limits, WasmFeatures};

/// The chapter of the standard on limits.
const LIMITS: &str = "WebAssembly 3.0, appendix, implementation limitations";

/// The chapter that has the rule of a fault in a body.
fn chapter_of(found: Found) -> &'static str {
    match found {
        Found::Nothing => Part::Code.spelling(),
        Found::Rule => "WebAssembly 3.0, validation, instructions",
        Found::Spelling => "WebAssembly 3.0, binary format, instructions",
    }
}

/// The function of this index among all of the module, of this type.
fn function_of(
    judged: Judged<'_>,
    index: u32,
    signature: Option<Signature>,
) -> Result<Function, AllocError>
    requires within { IsWithinCeilings judged.limits }
{
    let name = match name_of(judged, index) {
        Some(name) => Some(String::from_str(judged.alloc, name)?),
        None => None,
    };
    Ok(Function {
        index,
        name,
        signature,
    })
}

/// The place of a fault within the body of a function.
fn place_within(function: Function, inside: Inside) -> Place
    ensures operator { result.operator ≡ inside.operator }
    ensures range { result.range ≡ None }
    ensures item { result.item ≡ None }
{
    let Inside {
        found,
        operator,
        frame,
        note,
    } = inside;
    Place {
        part: Some(Part::Code),
        is_after: false,
        range: None,
        item: None,
        function: Some(function),
        operator,
        frame,
        note,
        chapter: chapter_of(found),
    }
}

/// The place of a fault in the body of the function of this index among all of the module; none if the fault is at the body's end, and no
/// fault is found in the body.
fn body_place(
    judged: Judged<'_>,
    index: u32,
    is_at_end: bool,
    offset: u64,
) -> Result<Option<Place>, AllocError>
    requires within { IsWithinCeilings judged.limits }
    ensures { IfOk result (λ r. IfSome r (IsPlaceOf offset)) }
{
    let KnownBody { signature, inside } = known_body(judged, offset)?;
    if is_at_end && inside.found == Found::Nothing {
        return Ok(None);
    }
    let function = function_of(judged, index, signature)?;
    Ok(Some(place_within(function, inside)))
}

/// What a validator knows of the body that has this offset.
fn known_body(judged: Judged<'_>, offset: u64) -> Result<KnownBody, AllocError>
    requires within { IsWithinCeilings judged.limits }
    ensures { IfOk result (λ k. BeginsBy offset k.inside.operator) }
{
    match find_in_body(judged, offset)? {
        Some(known) => Ok(known),
        None => Ok(KnownBody {
            signature: None,
            inside: Inside::of(Found::Nothing),
        }),
    }
}

/// The place of a fault in a part that is no body; none if the fault is at its end, and each of its items can be read.
fn part_place(judged: Judged<'_>, part: Part, range: Offsets, offset: u64) -> Option<Place>
    requires within { IsWithinCeilings judged.limits }
    requires inside { IsIn offset range }
    ensures { IfSome result (IsPlaceOf offset) }
{
    let Spot { item, is_unread } = spot_of(judged, part, range, offset);
    if offset == range.end && range.start < range.end && !is_unread {
        return None;
    }
    let chapter = if is_unread {
        part.spelling()
    } else {
        part.chapter()
    };
    let mut place = Place::of(part, chapter);
    place.range = Some(range);
    place.item = item;
    Some(place)
}

/// The place of a fault in no payload.
fn rest_place(passed: Passed, offset: u64) -> Place
    ensures { IsPlaceOf offset result }
{
    if let Some(range) = passed.code_at(offset) {
        let mut place = Place::of(Part::Code, Part::Code.spelling());
        place.range = Some(range);
        return place;
    }
    match passed.last {
        Some(part) => Place::after(part, Part::Header.spelling()),
        None => Place::of(Part::Header, Part::Header.spelling()),
    }
}

/// The place of a fault in this payload, if it is there.
fn payload_place(
    judged: Judged<'_>,
    payload: &Payload<'_>,
    passed: Passed,
    offset: u64,
) -> Result<Option<Place>, AllocError>
    requires within { IsWithinCeilings judged.limits }
    ensures { IfOk result (λ r. IfSome r (IsPlaceOf offset)) }
{
    let range = offsets_of(payload);
    if offset < range.start || range.end < offset {
        return Ok(None);
    }
    match payload {
        Payload::CodeSectionStart { .. } => Ok(None),
        Payload::CodeSectionEntry(_) => {
            body_place(judged, passed.next_index(), offset == range.end, offset)
        }
        _ => Ok(part_place(judged, part_of(payload), range, offset)),
    }
}

/// The place of this offset.
fn place_at(judged: Judged<'_>, offset: u64) -> Result<Place, AllocError>
    requires within { IsWithinCeilings judged.limits }
    ensures { IfOk result (IsPlaceOf offset) }
{
    let mut passed = Passed::new();
    for payload in payloads(judged) {
        let Ok(payload) = payload else {
            return Ok(rest_place(passed, offset));
        };
        if let Some(place) = payload_place(judged, &payload, passed, offset)? {
            return Ok(place);
        }
        passed = passed.and(payload);
    }
    Ok(rest_place(passed, offset))
}

/// The place of a fault that is at no byte: the body of the first function that takes more parameters than it may have locals.
fn overfull_place(judged: Judged<'_>) -> Result<Option<Place>, AllocError>
    requires within { IsWithinCeilings judged.limits }
    ensures { IfOk result (λ r. IfSome r IsEmpty) }
{
    let Some(start) = find_overfull(judged)? else {
        return Ok(None);
    };
    let mut place = place_at(judged, start)?;
    place.range = None;
    place.item = None;
    place.operator = None;
    Ok(Some(place))
}

/// Whether a fault for this cause at this offset is at no byte: parameters are refused at the offset 0, where the header is.
fn is_at_no_byte(cause: Cause, offset: u64) -> bool {
    match cause {
        Cause::Limit(Limit::Locals) => offset == 0,
        _ => false,
    }
}

/// The place of a fault for this cause at this offset.
fn place_of(judged: Judged<'_>, cause: Cause, offset: u64) -> Result<Place, AllocError>
    requires within { IsWithinCeilings judged.limits }
    ensures { IfOk result (IsPlaceOf offset) }
{
    if is_at_no_byte(cause, offset) {
        if let Some(place) = overfull_place(judged)? {
            return Ok(place);
        }
    }
    place_at(judged, offset)
}

/// What is known of the place of the fault in these bytes, which were refused by this error under these features and limits.
///
/// # Errors
///
/// Memory ran out.
pub fn explain(
    alloc: Global,
    features: WasmFeatures,
    limits: Limits,
    bytes: &[u8],
    error: &Error,
) -> Result<Place, AllocError>
    requires within { IsWithinCeilings limits }
    ensures { IfOk result (IsPlaceOf error.now.offset) }
{
    let judged = Judged {
        alloc,
        features,
        limits,
        bytes,
    };
    let cause = cause_of(&limits, error);
    let mut place = place_of(judged, cause, error.offset())?;
    match cause {
        Cause::Limit(_) => place.chapter = LIMITS,
        Cause::FixedLimit => place.chapter = LIMITS,
        _ => (),
    }
    Ok(place)
}
