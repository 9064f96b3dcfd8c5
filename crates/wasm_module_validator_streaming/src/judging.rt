//! What judges a module as its bytes come.

ghost use Rattle.std.specs.Prelude.{◌≡◌, []};
ghost use Rattle.wasm_types.specs.settings.Limits.{IsWithinCeilings};
ghost use Rattle.wasm_sections.specs.declared.payload.Payload.TheVariants.{CodeSectionEntry, CustomSection};
ghost use Rattle.wasm_module_validator.specs.declared.validator.State.TheVariants.{Unparsed};
ghost use Rattle.wasm_module_validator_streaming.specs.laws.Running.{begins};
ghost use Rattle.wasm_module_validator_streaming.specs.Judges.{HasItsJudge};
ghost use Rattle.wasm_module_validator_streaming.specs.Payloads.{StepsPayload};

use crate::functions::judge_next;
use crate::taking::Taken;
use std::alloc::Global;
use wasm_module_validator::{Types, ValidPayload, Validator};
use wasm_module_validator_function_bodies::{
    FuncValidatorAllocations, FunctionBody, PlainJudge, entries_for,
};
use wasm_module_validator_index_spaces::view::ValidatorId;
use wasm_sections::{CustomSectionReader, Parser, Payload};
use wasm_types::{Limits, WasmFeatures};

/// A validator of one module, with the parser that gives its payloads and the judge of its bodies.
#[derive(Drop)]
pub(crate) struct Judging {
    pub(crate) validator: Validator,
    pub(crate) parser: Parser,
    pub(crate) complete: FuncValidatorAllocations,
    /// The judge that asks tables of the module, from its first body to its last.
    pub(crate) in_loop: Option<PlainJudge>,
    /// How many entries these tables may have, by the bodies and bytes of the code section, as the module says itself.
    pub(crate) entries: u32,
    /// How many bytes of a custom section's contents go by before the next item: none, unless its front came and not all of them.
    pub(crate) passing: usize,
    /// The offset where these contents begin.
    pub(crate) contents: u64,
    /// Whether what was refused is a body. The parser is after it then.
    pub(crate) has_refused_body: bool,
    pub(crate) alloc: Global,
}

impl Judging {
    /// One that has read nothing, and judges by these features and limits.
    pub(crate) fn new(
        alloc: Global,
        id: ValidatorId,
        features: WasmFeatures,
        limits: Limits,
    ) -> Judging
        requires within { IsWithinCeilings limits }
        ensures state { result.validator.state ≡ Unparsed }
        ensures id { result.validator.id ≡ id }
        ensures settings { result.validator.settings ≡ record { features = features.0; limits = limits } }
        ensures empty { result.validator.reached.progress.kept.groups ≡ [] }
        ensures parser { result.parser.frames ≡ begins (record { features = features.0; limits = limits }) }
        ensures judge { HasItsJudge result }
        ensures idle { result.passing ≡ 0 }
    {
        let mut parser = Parser::new(alloc, 0);
        parser.set_features(features);
        parser.set_limits(limits);
        Judging {
            validator: Validator::new_with_limits(alloc, id, features, limits),
            parser,
            complete: FuncValidatorAllocations::new(alloc),
            in_loop: None,
            entries: 0,
            passing: 0,
            contents: 0,
            has_refused_body: false,
            alloc,
        }
    }

    /// Takes a body of so many bytes, and judges it: as `take_payload` does the payload that it is, but without one.
    #[inline(always)]
    pub(crate) fn take_body(&mut self, consumed: usize, body: FunctionBody<'_>) -> Taken<Types>
        requires { HasItsJudge self.old }
        ensures steps { StepsPayload (CodeSectionEntry body.entry) consumed self.old.validator result self.new.validator }
        ensures judge { HasItsJudge self.new }
        ensures parser { self.new.parser ≡ self.old.parser }
        ensures idle { self.new.passing ≡ self.old.passing }
    {
        let function = match self.validator.code_section_entry(&body) {
            Ok(function) => function,
            Err(error) => {
                self.in_loop = None;
                return Taken::Refused(error);
            }
        };
        let mut reader = body.get_binary_reader();
        reader.set_features(function.features);
        reader.set_limits(function.limits);
        let anew = FunctionBody::new(self.alloc, reader);
        match judge_next(
            self.alloc,
            &mut self.in_loop,
            self.entries,
            &mut self.complete,
            function,
            &anew,
        ) {
            Ok(()) => Taken::Item(consumed),
            Err(error) => {
                self.has_refused_body = true;
                Taken::Refused(error)
            }
        }
    }

    /// Takes a custom section of so many bytes: as `take_payload` does the payload that it is, but without one.
    #[inline(always)]
    pub(crate) fn take_custom(
        &mut self,
        consumed: usize,
        section: CustomSectionReader<'_>,
    ) -> Taken<Types>
        requires { HasItsJudge self.old }
        ensures steps { StepsPayload (CustomSection section.entry) consumed self.old.validator result self.new.validator }
        ensures judge { HasItsJudge self.new }
        ensures parser { self.new.parser ≡ self.old.parser }
        ensures idle { self.new.passing ≡ self.old.passing }
    {
        self.in_loop = None;
        match self.validator.custom_section(&section) {
            Ok(()) => Taken::Item(consumed),
            Err(error) => Taken::Refused(error),
        }
    }

    /// Takes a payload of so many bytes, and judges the body that it is.
    pub(crate) fn take_payload(&mut self, consumed: usize, payload: Payload<'_>) -> Taken<Types>
        requires { HasItsJudge self.old }
        ensures steps { StepsPayload payload.entry consumed self.old.validator result self.new.validator }
        ensures judge { HasItsJudge self.new }
        ensures parser { self.new.parser ≡ self.old.parser }
        ensures idle { self.new.passing ≡ self.old.passing }
    {
        self.entries = entries_behind(&payload, self.entries);
        match self.validator.payload(payload) {
            Ok(ValidPayload::Ok) => {
                self.in_loop = None;
                Taken::Item(consumed)
            }
            Ok(ValidPayload::Func(function, body)) => {
                match judge_next(
                    self.alloc,
                    &mut self.in_loop,
                    self.entries,
                    &mut self.complete,
                    function,
                    &body,
                ) {
                    Ok(()) => Taken::Item(consumed),
                    Err(error) => {
                        self.has_refused_body = true;
                        Taken::Refused(error)
                    }
                }
            }
            Ok(ValidPayload::End(types)) => {
                self.in_loop = None;
                Taken::Ended(types)
            }
            Err(error) => {
                self.in_loop = None;
                Taken::Refused(error)
            }
        }
    }
}

/// How many entries the loop's tables may have after a payload, if it was so many before it.
fn entries_behind(payload: &Payload<'_>, before: u32) -> u32 {
    match payload {
        Payload::CodeSectionStart {
            count,
            unchecked_range: _,
            size,
        } => entries_for(*count as u64, *size as u64),
        _ => before,
    }
}
