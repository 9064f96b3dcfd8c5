//! Payloads of a parser, each taken by the method that it is for.

ghost use Rattle.std.specs.Prelude.{◌≡◌};
ghost use Rattle.wasm_sections.specs.Payloads.{set};
ghost use Rattle.wasm_operator_validator_state.specs.Refusals.{refused_by};
ghost use Rattle.wasm_module_validator.specs.Methods.{failure};
ghost use Rattle.wasm_module_validator.specs.Payloads.{passed, with_body, ended, TakesPayload};

use crate::methods::check_not_failed;
use crate::types::Types;
use crate::validator::Validator;
use wasm_module_validator_drivers::{FuncToValidate, ValidatorResources};
use wasm_sections::{CustomSectionReader, FunctionBody, Payload};
use wasm_types::Result;

/// What a payload that was accepted leads to.
pub enum ValidPayload<'a> {
    /// Nothing more is to be done.
    Ok,
    /// A function is to be judged, and this is its body, read by the validator's features and limits.
    Func(FuncToValidate<ValidatorResources>, FunctionBody<'a>),
    /// The module has ended, and this is known of it.
    End(Types),
}

// Where nothing more is to be done.
fn pass<'a>(answer: Result<()>) -> Result<ValidPayload<'a>>
    ensures { result ≡ passed answer }
{
    match answer {
        Ok(()) => Ok(ValidPayload::Ok),
        Err(error) => Err(error),
    }
}

// Where a function is to be judged.
fn hand_out<'a>(
    answer: Result<FuncToValidate<ValidatorResources>>,
    body: FunctionBody<'a>,
) -> Result<ValidPayload<'a>>
    ensures { result ≡ with_body body.entry answer }
{
    match answer {
        Ok(function) => Ok(ValidPayload::Func(function, body)),
        Err(error) => Err(error),
    }
}

// Where the module has ended.
fn finish<'a>(answer: Result<Types>) -> Result<ValidPayload<'a>>
    ensures { result ≡ ended answer }
{
    match answer {
        Ok(types) => Ok(ValidPayload::End(types)),
        Err(error) => Err(error),
    }
}

impl Validator {
    /// Takes a custom section, as `payload` does the payload that it is.
    ///
    /// # Errors
    ///
    /// Something was refused before.
    #[inline(always)]
    pub fn custom_section(&self, section: &CustomSectionReader<'_>) -> Result<()>
        ensures { refused_by result ≡ failure self.now.state }
    {
        check_not_failed(self.state, section.range().start)
    }

    // The same body, read by the validator's features and limits.
    fn read_anew<'a>(&self, body: &FunctionBody<'a>) -> FunctionBody<'a>
        ensures { result ≡ set self.now.settings body.now }
    {
        let mut reader = body.get_binary_reader();
        reader.set_features(self.settings.features());
        reader.set_limits(self.settings.limits());
        FunctionBody::new(self.alloc, reader)
    }

    /// Takes a payload, by the method that it is for. A custom section is never refused but for a refusal before, wherever it comes. A
    /// payload is judged by the validator's features and limits, whatever its reader had.
    ///
    /// # Errors
    ///
    /// As that method.
    pub fn payload<'a>(&mut self, payload: Payload<'a>) -> Result<ValidPayload<'a>>
        ensures { TakesPayload payload.entry self.old result self.new }
    {
        match payload {
            Payload::Version {
                num,
                encoding,
                range,
            } => pass(self.version(num, encoding, range)),
            Payload::TypeSection(section) => pass(self.type_section(section)),
            Payload::ImportSection(section) => pass(self.import_section(section)),
            Payload::FunctionSection(section) => pass(self.function_section(section)),
            Payload::TableSection(section) => pass(self.table_section(section)),
            Payload::MemorySection(section) => pass(self.memory_section(section)),
            Payload::TagSection(section) => pass(self.tag_section(section)),
            Payload::GlobalSection(section) => pass(self.global_section(section)),
            Payload::ExportSection(section) => pass(self.export_section(section)),
            Payload::StartSection { func, range } => pass(self.start_section(func, range)),
            Payload::ElementSection(section) => pass(self.element_section(section)),
            Payload::DataCountSection { count, range } => {
                pass(self.data_count_section(count, range))
            }
            Payload::DataSection(section) => pass(self.data_section(section)),
            Payload::CodeSectionStart {
                count: _,
                unchecked_range,
                size: _,
            } => pass(self.code_section_start(unchecked_range)),
            Payload::CodeSectionEntry(body) => {
                let anew = self.read_anew(&body);
                let answer = self.code_section_entry(&body);
                hand_out(answer, anew)
            }
            Payload::CustomSection(section) => pass(self.custom_section(&section)),
            Payload::UnknownSection {
                id,
                contents: _,
                range,
            } => pass(self.unknown_section(id, range)),
            Payload::End(offset) => finish(self.end(offset)),
        }
    }
}
