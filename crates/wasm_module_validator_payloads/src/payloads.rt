//! What each payload does to a module in progress.

ghost use Rattle.std.specs.Prelude.{◌≡◌, ◌⊎◌, List, OnOk, IfErr};
ghost use Rattle.wasm_types.specs.decoding.Decoder.{State, Done};
ghost use Rattle.wasm_types.specs.decoding.Denials.{Tells};
ghost use Rattle.wasm_types.specs.reader.Reading.{IsNotMemory};
ghost use Rattle.wasm_types.specs.settings.Settings.{Settings};
ghost use Rattle.wasm_sections_parser.specs.declared.frame.Frame.{Frame};
ghost use Rattle.wasm_sections_parser.specs.Parsing.{shape_of, layer_of};
ghost use Rattle.wasm_sections.specs.Payloads.{only_number, IsPayloadOf};
ghost use Rattle.wasm_module_validator_section_order.specs.items.Adding.{UnlessFull};
ghost use Rattle.wasm_module_validator_section_order.specs.declared.items.bodies.Body.{Body as TheBody};
ghost use Rattle.wasm_module_validator_section_order.specs.rules_in_order.Sections as section;
ghost use Rattle.wasm_module_validator_section_order.specs.rules_in_order.Steps.{SoFar, JudgesSection, JudgesShape};
ghost use Rattle.wasm_module_validator_section_order.specs.frames.Walks.{HasSettings};
ghost use Rattle.wasm_module_validator_payloads.specs.Progress.{FullBy, Grows, IsAt};

use crate::{Body, InProgress};
use wasm_module_validator_declarations::{take_data_count, take_start};
use wasm_sections::Payload;
use wasm_sections_parser::Encoding;
use wasm_types::{Error, ModuleWords, Result, Text, WasmFeatures, Words};

/// Refuses what is no module of the version that there is.
///
/// # Errors
///
/// It is a component, for the lack of the feature, or of kind `Other` if these features have it; or a module of another version, of kind
/// `Other`: at `offset`.
pub fn check_header(
    features: &WasmFeatures,
    num: u16,
    encoding: Encoding,
    offset: u64,
) -> Result<()>
    ensures answer { Tells result ((num ≡ 1) × (layer_of encoding ≡ 0)) }
    ensures refused { IfErr result (λ e. IsNotMemory e.kind × (e.offset ≡ offset)) }
{
    match encoding {
        Encoding::Module => (),
        Encoding::Component => return Err(component(features, offset)),
    }
    if num != 1 {
        return Err(unknown_version(num, offset));
    }
    Ok(())
}

// The refusal of a component.
#[cold]
fn component(features: &WasmFeatures, offset: u64) -> Error
    ensures { IsNotMemory result.kind × (result.offset ≡ offset) }
{
    if features.component_model() {
        return Error::new(
            Words::Module(ModuleWords::ComponentModelValidationSupportDisabledAtCompileTime),
            offset,
        );
    }
    Error::missing_feature(
        WasmFeatures::COMPONENT_MODEL,
        Words::Module(
            ModuleWords::EncodedAsAComponentButTheWebAssemblyComponentModelFeatureIsNotEnabled,
        ),
        offset,
    )
}

// The refusal of a module of another version.
#[cold]
fn unknown_version(num: u16, offset: u64) -> Error
    ensures { IsNotMemory result.kind × (result.offset ≡ offset) }
{
    Error::with(
        Text::Hex(
            Words::Module(ModuleWords::UnknownBinaryVersion0x),
            num as u32,
            Words::Nothing,
        ),
        offset,
    )
}

// The refusal of a section of another id.
#[cold]
fn unknown_section(id: u8, offset: u64) -> Error
    ensures { IsNotMemory result.kind × (result.offset ≡ offset) }
{
    Error::with(
        Text::Number(
            Words::Module(ModuleWords::MalformedSectionId),
            id as u32,
            Words::Nothing,
        ),
        offset,
    )
}

impl InProgress {
    // Takes the start section.
    fn take_start_section(&mut self, func: u32, offset: u64) -> Result<()>
        ensures answer { (z : Settings) (p : SoFar) (bodies : List TheBody) (b : State) → IsAt z self.old bodies p
            → b.settings ≡ z → only_number b ≡ Done func b
            → Tells result ((q : SoFar) × JudgesSection z p section.start b.rest q) }
        ensures added { OnOk result ((z : Settings) (p q : SoFar) (bodies : List TheBody) (b : State)
            → IsAt z self.old bodies p → b.settings ≡ z → only_number b ≡ Done func b
            → JudgesSection z p section.start b.rest q → IsAt z self.new bodies q) }
        ensures grown { OnOk result (Grows self.old.kept self.new.kept) }
    {
        match self.begin_section(9, offset) {
            Ok(()) => (),
            Err(error) => return Err(error),
        }
        take_start(&self.collected.state, &self.collected.types, func, offset)
    }

    // Takes the data count section.
    fn take_data_count_section(&mut self, count: u32, offset: u64) -> Result<()>
        ensures answer { (z : Settings) (p : SoFar) (bodies : List TheBody) (b : State) → IsAt z self.old bodies p
            → b.settings ≡ z → only_number b ≡ Done count b
            → Tells result ((q : SoFar) × JudgesSection z p section.data_count b.rest q) }
        ensures added { OnOk result ((z : Settings) (p q : SoFar) (bodies : List TheBody) (b : State)
            → IsAt z self.old bodies p → b.settings ≡ z → only_number b ≡ Done count b
            → JudgesSection z p section.data_count b.rest q → IsAt z self.new bodies q) }
        ensures grown { OnOk result (Grows self.old.kept self.new.kept) }
    {
        match self.begin_section(11, offset) {
            Ok(()) => (),
            Err(error) => return Err(error),
        }
        take_data_count(&mut self.collected.state, count, offset)
    }

    /// Takes the next payload of a module: a section is checked item by item, and a body is kept with the index of its function and of
    /// its type. Where what is kept stands for what was judged, it is Ok exactly if the frame whose payload this is may come next by
    /// the rules, out of memory and the total of types aside; and what is kept then stands for whatever was judged with it.
    ///
    /// # Errors
    ///
    /// It is the header of something else than a module of version 1, a section out of order or of no known id, or not a valid one behind
    /// what was read; a group of types has no room in the list; or there is no memory. What is kept then stands for nothing.
    pub fn take_payload<'a>(
        &mut self,
        payload: Payload<'a>,
        bodies: &mut Vec<Body<'a>>,
    ) -> Result<()>
        ensures answer { UnlessFull (FullBy payload.entry self.old bodies.old.items) result
            ((z : Settings) (p : SoFar) (f : Frame) → IsAt z self.old bodies.old.items p → HasSettings z f
            → IsPayloadOf f payload.entry
            → Tells result ((q : SoFar) × JudgesShape z p (shape_of f) q)) }
        ensures added { OnOk result ((z : Settings) (p q : SoFar) (f : Frame) → IsAt z self.old bodies.old.items p
            → HasSettings z f → IsPayloadOf f payload.entry
            → JudgesShape z p (shape_of f) q → IsAt z self.new bodies.new.items q) }
        ensures grown { OnOk result (Grows self.old.kept self.new.kept) }
    {
        match payload {
            Payload::Version {
                num,
                encoding,
                range,
            } => check_header(&self.features(), num, encoding, range.start),
            Payload::TypeSection(section) => self.take_section(section),
            Payload::ImportSection(section) => self.take_imports(section),
            Payload::FunctionSection(section) => self.take_section(section),
            Payload::TableSection(section) => self.take_section(section),
            Payload::MemorySection(section) => self.take_section(section),
            Payload::TagSection(section) => self.take_section(section),
            Payload::GlobalSection(section) => self.take_section(section),
            Payload::ExportSection(section) => self.take_section(section),
            Payload::StartSection { func, range } => self.take_start_section(func, range.start),
            Payload::ElementSection(section) => self.take_section(section),
            Payload::DataCountSection { count, range } => {
                self.take_data_count_section(count, range.start)
            }
            Payload::DataSection(section) => self.take_section(section),
            Payload::CodeSectionStart {
                count: _,
                unchecked_range,
                size: _,
            } => self.take_code_start(unchecked_range.start),
            Payload::CodeSectionEntry(body) => self.take_body(body, bodies),
            Payload::CustomSection(_) => Ok(()),
            Payload::UnknownSection {
                id,
                contents: _,
                range,
            } => Err(unknown_section(id, range.start)),
            Payload::End(_) => Ok(()),
        }
    }
}
