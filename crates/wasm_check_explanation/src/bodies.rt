//! What a validator knows of a function before the operator at fault.
ghost use Rattle.std.specs.Prelude.{◌≡◌, IfOk, IfSome, None};
ghost use Rattle.wasm_types.specs.settings.Limits.{IsWithinCeilings};
ghost use Rattle.wasm_check_places.specs.Places.{BeginsBy};

use crate::operands::operands_of;
use crate::stack::{innermost_name, open_frame};
use crate::types::signature_of;
use std::alloc::{AllocError, Global};
use wasm_check_places::{Judged, Note, OpenFrame, OperatorAt, Signature, payloads};
use wasm_module_validator::{
    FuncToValidate, FuncValidator, FuncValidatorAllocations, TypesRef, ValidPayload, Validator,
    ValidatorId, ValidatorResources,
};
use wasm_operator_validator_state::blocks::function_at;
use wasm_operators_reader::{Operator, OperatorsReader};
use wasm_sections::{FunctionBody, Payload};
use wasm_types::{Error, ErrorKind, Limits};

/// What was found of a fault in a body.
#[derive(Clone, Copy, PartialEq, Eq)]
pub(crate) enum Found {
    /// Neither the body nor an operator in it.
    Nothing,
    /// What the rules of validation refuse.
    Rule,
    /// Bytes that spell no locals, or no operator that may come there.
    Spelling,
}

/// What is known of a fault within a body.
#[derive(Drop)]
pub(crate) struct Inside {
    pub(crate) found: Found,
    pub(crate) operator: Option<OperatorAt>,
    pub(crate) frame: Option<OpenFrame>,
    pub(crate) note: Option<Note>,
}

impl Inside {
    /// This was found, and no more is known.
    pub(crate) fn of(found: Found) -> Inside
        ensures { result.operator ≡ None }
    {
        Inside {
            found,
            operator: None,
            frame: None,
            note: None,
        }
    }

    /// This was found, with a note.
    fn noted(found: Found, note: Note) -> Inside
        ensures { result.operator ≡ None }
    {
        let mut inside = Inside::of(found);
        inside.note = Some(note);
        inside
    }

    /// An operator, and the frame in which it is.
    fn at(found: Found, operator: OperatorAt, frame: Option<OpenFrame>) -> Inside
        ensures { IfSome result.operator (λ o. o.offset ≡ operator.offset) }
    {
        Inside {
            found,
            operator: Some(operator),
            frame,
            note: None,
        }
    }
}

/// What is known of a function with a fault, by its type and within its body.
#[derive(Drop)]
pub(crate) struct KnownBody {
    pub(crate) signature: Option<Signature>,
    pub(crate) inside: Inside,
}

/// Fails if this error says that memory ran out: then it says nothing of the module.
fn unless_memory(error: &Error) -> Result<(), AllocError> {
    match error.kind() {
        ErrorKind::OutOfMemory => Err(AllocError),
        _ => Ok(()),
    }
}

/// An operator by its number, of which nothing is known but where it begins.
fn operator_at(number: usize, offset: u64, name: Option<&'static str>) -> OperatorAt
    ensures { result.offset ≡ offset }
{
    OperatorAt {
        number,
        offset,
        name,
        takes: None,
        gives: None,
    }
}

/// What is known of an operator before the validator is told of it.
fn before_operator(
    alloc: Global,
    types: &TypesRef<'_>,
    validator: &FuncValidator<ValidatorResources>,
    operator: &Operator<'_>,
    number: usize,
    start: u64,
) -> Result<Inside, AllocError>
    ensures { IfOk result (λ i. IfSome i.operator (λ o. o.offset ≡ start)) }
{
    let (takes, gives) = operands_of(alloc, types, validator, operator)?;
    let frame = open_frame(alloc, types, validator)?;
    let mut at = operator_at(number, start, Some(operator.info().name));
    at.takes = takes;
    at.gives = gives;
    Ok(Inside::at(Found::Rule, at, frame))
}

/// Tells the validator of an operator. What is known of it if it is refused.
fn tell(
    alloc: Global,
    types: &TypesRef<'_>,
    validator: &mut FuncValidator<ValidatorResources>,
    operator: Operator<'_>,
    number: usize,
    start: u64,
) -> Result<Option<Inside>, AllocError>
    ensures { IfOk result (λ r. IfSome r (λ i. IfSome i.operator (λ o. o.offset ≡ start))) }
{
    let name = operator.info().name;
    let Err(error) = validator.try_op(start, operator) else {
        return Ok(None);
    };
    unless_memory(&error)?;
    let frame = open_frame(alloc, types, validator)?;
    let at = operator_at(number, start, Some(name));
    Ok(Some(Inside::at(Found::Rule, at, frame)))
}

/// Takes the operator of this number, which begins at `start`. What is known of it if it has the offset, cannot be read or is refused.
fn take_operator(
    alloc: Global,
    types: &TypesRef<'_>,
    validator: &mut FuncValidator<ValidatorResources>,
    operators: &mut OperatorsReader<'_>,
    number: usize,
    start: u64,
    offset: u64,
) -> Result<Option<Inside>, AllocError>
    ensures { IfOk result (λ r. IfSome r (λ i. IfSome i.operator (λ o. o.offset ≡ start))) }
{
    let operator = match operators.read() {
        Ok(operator) => operator,
        Err(error) => {
            unless_memory(&error)?;
            let at = operator_at(number, start, None);
            return Ok(Some(Inside::at(Found::Spelling, at, None)));
        }
    };
    if operators.original_position() <= offset {
        return tell(alloc, types, validator, operator, number, start);
    }
    let inside = before_operator(alloc, types, validator, &operator, number, start)?;
    Ok(Some(inside))
}

/// What is known of a body whose bytes end while these frames are open.
fn at_end(validator: &FuncValidator<ValidatorResources>) -> Inside
    ensures { result.operator ≡ None }
{
    match innermost_name(validator) {
        Some(name) => Inside::noted(Found::Spelling, Note::EndsWithin(name)),
        None => Inside::of(Found::Nothing),
    }
}

/// What is known of the operator at an offset; or of the first that cannot be read, or that the validator refuses, before it.
fn find_operator(
    alloc: Global,
    types: &TypesRef<'_>,
    validator: &mut FuncValidator<ValidatorResources>,
    operators: &mut OperatorsReader<'_>,
    length: usize,
    offset: u64,
) -> Result<Inside, AllocError>
    ensures { IfOk result (λ i. BeginsBy offset i.operator) }
{
    for number in 0..=length {
        let start = operators.original_position();
        if offset < start {
            break;
        }
        if operators.eof() {
            return Ok(at_end(validator));
        }
        if let Some(inside) = take_operator(
            alloc, types, validator, operators, number, start, offset,
        )? {
            return Ok(inside);
        }
    }
    Ok(Inside::of(Found::Nothing))
}

/// What is known of a body that has this offset, by a validator that was just made for it.
fn inside_body(
    alloc: Global,
    types: &TypesRef<'_>,
    validator: &mut FuncValidator<ValidatorResources>,
    body: &FunctionBody<'_>,
    offset: u64,
) -> Result<Inside, AllocError>
    ensures { IfOk result (λ i. BeginsBy offset i.operator) }
{
    if body.get_binary_reader_for_operators().is_err() {
        return Ok(Inside::noted(Found::Spelling, Note::LocalsUnread));
    }
    let mut reader = body.get_binary_reader();
    if let Err(error) = validator.read_locals(&mut reader) {
        unless_memory(&error)?;
        return Ok(Inside::noted(Found::Rule, Note::LocalsRefused));
    }
    let mut operators = OperatorsReader::new(alloc, reader);
    let length = body.as_bytes().len();
    find_operator(alloc, types, validator, &mut operators, length, offset)
}

/// The type of a function by its index, if the module has it.
fn type_at(
    alloc: Global,
    types: &TypesRef<'_>,
    resources: &ValidatorResources,
    type_index: u32,
) -> Result<Option<Signature>, AllocError> {
    let Some(function) = function_at(resources, type_index) else {
        return Ok(None);
    };
    let signature = signature_of(alloc, types, function)?;
    Ok(Some(signature))
}

/// Whether a function takes more parameters than it may have locals by these limits.
fn takes_too_many(function: &FuncToValidate<ValidatorResources>, limits: Limits) -> bool {
    match function_at(&function.resources, function.ty) {
        Some(ty) => ty.params().len() > limits.locals as usize,
        None => false,
    }
}

/// What is known of a function whose body has this offset.
fn known_of(
    alloc: Global,
    types: &TypesRef<'_>,
    function: FuncToValidate<ValidatorResources>,
    limits: Limits,
    body: &FunctionBody<'_>,
    offset: u64,
) -> Result<KnownBody, AllocError>
    requires within { IsWithinCeilings limits }
    ensures { IfOk result (λ k. BeginsBy offset k.inside.operator) }
{
    let signature = type_at(alloc, types, &function.resources, function.ty)?;
    if takes_too_many(&function, limits) {
        let inside = Inside::noted(Found::Rule, Note::ParamsRefused);
        return Ok(KnownBody { signature, inside });
    }
    let mut function = function;
    function.limits = limits;
    let inside = match function.into_validator(FuncValidatorAllocations::new(alloc)) {
        Ok(mut validator) => inside_body(alloc, types, &mut validator, body, offset)?,
        Err(error) => {
            unless_memory(&error)?;
            Inside::of(Found::Nothing)
        }
    };
    Ok(KnownBody { signature, inside })
}

/// Tells the validator of a body. What is known of its function if it has this offset.
fn take_body(
    judged: Judged<'_>,
    validator: &mut Validator,
    body: &FunctionBody<'_>,
    offset: u64,
) -> Result<Option<KnownBody>, AllocError>
    requires within { IsWithinCeilings judged.limits }
    ensures { IfOk result (λ r. IfSome r (λ k. BeginsBy offset k.inside.operator)) }
{
    let range = body.range();
    let function = match validator.code_section_entry(body) {
        Ok(function) => function,
        Err(error) => {
            unless_memory(&error)?;
            return Ok(None);
        }
    };
    if offset < range.start || range.end < offset {
        return Ok(None);
    }
    let Some(types) = validator.types(0) else {
        return Ok(None);
    };
    let known = known_of(judged.alloc, &types, function, judged.limits, body, offset)?;
    Ok(Some(known))
}

/// Tells the validator of a payload that is no body. If it refuses one, it refuses all that follow.
fn pass(validator: &mut Validator, payload: Payload<'_>) -> Result<(), AllocError> {
    match validator.payload(payload) {
        Ok(ValidPayload::Ok) => Ok(()),
        Ok(ValidPayload::Func(_, _)) => Ok(()),
        Ok(ValidPayload::End(_)) => Ok(()),
        Err(error) => unless_memory(&error),
    }
}

/// Tells the validator of a payload. What is known of its function if it is a body with this offset.
fn take_payload(
    judged: Judged<'_>,
    validator: &mut Validator,
    payload: Payload<'_>,
    offset: u64,
) -> Result<Option<KnownBody>, AllocError>
    requires within { IsWithinCeilings judged.limits }
    ensures { IfOk result (λ r. IfSome r (λ k. BeginsBy offset k.inside.operator)) }
{
    match payload {
        Payload::CodeSectionEntry(body) => take_body(judged, validator, &body, offset),
        other => {
            pass(validator, other)?;
            Ok(None)
        }
    }
}

/// A validator that was told of nothing yet.
fn new_validator(judged: Judged<'_>) -> Validator
    requires within { IsWithinCeilings judged.limits }
{
    let id = ValidatorId::new(0);
    Validator::new_with_limits(judged.alloc, id, judged.features, judged.limits)
}

/// Tells the validator of a body. Where it begins, if its function takes more parameters than it may have locals.
fn overfull_start(
    judged: Judged<'_>,
    validator: &mut Validator,
    body: &FunctionBody<'_>,
) -> Result<Option<u64>, AllocError> {
    match validator.code_section_entry(body) {
        Ok(function) => {
            let is_overfull = takes_too_many(&function, judged.limits);
            Ok(is_overfull.then_some(body.range().start))
        }
        Err(error) => {
            unless_memory(&error)?;
            Ok(None)
        }
    }
}

/// Tells the validator of a payload. Where it begins, if it is the body of such a function.
fn take_overfull(
    judged: Judged<'_>,
    validator: &mut Validator,
    payload: Payload<'_>,
) -> Result<Option<u64>, AllocError> {
    match payload {
        Payload::CodeSectionEntry(body) => overfull_start(judged, validator, &body),
        other => {
            pass(validator, other)?;
            Ok(None)
        }
    }
}

/// Where the first body begins whose function takes more parameters than it may have locals, if there is one.
pub(crate) fn find_overfull(judged: Judged<'_>) -> Result<Option<u64>, AllocError>
    requires within { IsWithinCeilings judged.limits }
{
    let mut validator = new_validator(judged);
    overfull_by(judged, &mut validator)
}

/// The same, by a validator that was told of nothing yet. (It is lent, since the prover goes over all that it owns at each way out.)
fn overfull_by(judged: Judged<'_>, validator: &mut Validator) -> Result<Option<u64>, AllocError>
    requires within { IsWithinCeilings judged.limits }
{
    for payload in payloads(judged) {
        let Ok(payload) = payload else {
            return Ok(None);
        };
        if let Some(start) = take_overfull(judged, validator, payload)? {
            return Ok(Some(start));
        }
    }
    Ok(None)
}

/// What a validator knows of the function in whose body this offset is, as far as the operator there; nothing if it refuses what comes
/// before the body.
pub(crate) fn find_in_body(judged: Judged<'_>, offset: u64) -> Result<Option<KnownBody>, AllocError>
    requires within { IsWithinCeilings judged.limits }
    ensures { IfOk result (λ r. IfSome r (λ k. BeginsBy offset k.inside.operator)) }
{
    let mut validator = new_validator(judged);
    body_by(judged, &mut validator, offset)
}

/// The same, by a validator that was told of nothing yet.
fn body_by(
    judged: Judged<'_>,
    validator: &mut Validator,
    offset: u64,
) -> Result<Option<KnownBody>, AllocError>
    requires within { IsWithinCeilings judged.limits }
    ensures { IfOk result (λ r. IfSome r (λ k. BeginsBy offset k.inside.operator)) }
{
    for payload in payloads(judged) {
        let Ok(payload) = payload else {
            return Ok(None);
        };
        if let Some(known) = take_payload(judged, validator, payload, offset)? {
            return Ok(Some(known));
        }
    }
    Ok(None)
}
