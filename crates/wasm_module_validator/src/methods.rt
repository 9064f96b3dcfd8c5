//! A module that is validated frame by frame, as a parser gives its payloads.

ghost use Rattle.std.specs.Prelude.{◌≡◌, IfOk, is_some, option_map, true};
ghost use Rattle.wasm_types.specs.decoding.declared.error.ErrorKind.TheVariants as kinds;
ghost use Rattle.wasm_sections.specs.declared.payload.Payload.TheVariants as payloads;
ghost use Rattle.wasm_operator_validator_state.specs.Refusals.{refused_by};
ghost use Rattle.wasm_module_validator_drivers.specs.Sharing.{IsWhole, renewed_behind};
ghost use Rattle.wasm_module_validator.specs.declared.validator.State.TheVariants as states;
ghost use Rattle.wasm_module_validator.specs.Lists.{AreToldUnder};
ghost use Rattle.wasm_module_validator.specs.Shown.{shown};
ghost use Rattle.wasm_module_validator.specs.Methods.{failure, refusal, can_reset, types_so_far, ReadsHeader, Takes, TakesData, BeginsCode, TakesBody, RefusesUnknown, Ends, RunsSoundlyWhole};

use crate::types::{Types, look_up};
use crate::validator::{State, Validator};
use std::ops::Range;
use wasm_module_validator_drivers::{FuncToValidate, ValidatorResources, check_header};
use wasm_module_validator_index_spaces::view::{TypesRef, ValidatorId};
use wasm_sections::{
    DataSectionReader, ElementSectionReader, ExportSectionReader, FunctionBody,
    FunctionSectionReader, GlobalSectionReader, ImportSectionReader, MemorySectionReader, Payload,
    TableSectionReader, TagSectionReader, TypeSectionReader,
};
use wasm_sections_parser::Encoding;
use wasm_types::{Error, ModuleWords, Result, Text, Words};

// The refusal of a call behind a refusal.
#[cold]
fn failed_before(offset: u64) -> Error
    ensures { result.kind ≡ kinds.Failed }
{
    Error::failed(
        Words::Module(ModuleWords::TheModuleWasRefusedBefore),
        offset,
    )
}

// Whether nothing was refused.
pub(crate) fn check_not_failed(state: State, offset: u64) -> Result<()>
    ensures { refused_by result ≡ failure state }
{
    match state {
        State::Failed => Err(failed_before(offset)),
        State::Unparsed => Ok(()),
        State::Module => Ok(()),
        State::Ended => Ok(()),
    }
}

// Whether a part of a module may come, which fits where the module stands or does not.
fn check_turn(state: State, fits: bool, misfit: Words, offset: u64) -> Result<()>
    ensures { refused_by result ≡ refusal state fits }
{
    match state {
        State::Unparsed => Err(Error::new(
            Words::Module(ModuleWords::UnexpectedSectionBeforeHeaderWasParsed),
            offset,
        )),
        State::Module => {
            if fits {
                Ok(())
            } else {
                Err(Error::new(misfit, offset))
            }
        }
        State::Ended => Err(Error::new(
            Words::Module(ModuleWords::UnexpectedSectionAfterParsingHasCompleted),
            offset,
        )),
        State::Failed => Err(failed_before(offset)),
    }
}

impl Validator {
    /// Its id.
    pub fn id(&self) -> ValidatorId
        ensures { result ≡ self.now.id }
    {
        self.id
    }

    /// Whether it may be made ready for another module: nothing was read, or a module has ended; and nothing was refused but a function,
    /// or a call out of turn.
    pub fn can_reset(&self) -> bool
        ensures { result ≡ can_reset self.now.state }
    {
        match self.state {
            State::Unparsed => true,
            State::Ended => true,
            State::Module => false,
            State::Failed => false,
        }
    }

    /// Makes it ready for another module: as it was made, with the same id, features and limits. The types of modules before stay in its list,
    /// by the ids that they have. It takes no memory.
    pub fn reset(&mut self)
        requires { can_reset self.old.state ≡ true }
        ensures { self.new ≡ record self.old {
          state = states.Unparsed;
          reached = renewed_behind self.old.settings self.old.reached;
        } }
    {
        self.state = State::Unparsed;
        self.reached.renew(&self.settings);
    }

    /// What is known so far of the module that is being read, which is at level 0: from its header on, to its end.
    pub fn types(&self, level: usize) -> Option<TypesRef<'_>>
        ensures { result ≡ option_map shown (types_so_far self.now level) }
    {
        match self.state {
            State::Module => (),
            State::Unparsed => return None,
            State::Ended => return None,
            State::Failed => return None,
        }
        if level != 0 {
            return None;
        }
        Some(look_up(self.id, self.reached.state(), self.reached.types()))
    }

    /// Takes the header of a module (WebAssembly 3.0, binary format, modules).
    ///
    /// # Errors
    ///
    /// Another header came before, and the validator stays as it is; or it is the header of something else than a module of version 1, and
    /// the validator has failed.
    pub fn version(&mut self, num: u16, encoding: Encoding, range: Range<u64>) -> Result<()>
        ensures { ReadsHeader num encoding self.old result self.new }
    {
        match self.state {
            State::Unparsed => (),
            State::Failed => return Err(failed_before(range.start)),
            State::Module => return Err(late_header(range.start)),
            State::Ended => return Err(late_header(range.start)),
        }
        match check_header(&self.settings.features(), num, encoding, range.start) {
            Ok(()) => (),
            Err(error) => {
                self.state = State::Failed;
                return Err(error);
            }
        }
        self.state = State::Module;
        self.reached.renew(&self.settings);
        Ok(())
    }

    // Takes a section that no code came before.
    fn take(&mut self, payload: Payload<'_>, offset: u64) -> Result<()>
        requires { IsWhole payload }
        ensures { Takes payload.entry self.old result self.new }
    {
        let fits = self.reached.is_own();
        match check_turn(self.state, fits, AFTER_CODE, offset) {
            Ok(()) => (),
            Err(error) => return Err(error),
        }
        match self.reached.take_payload(payload) {
            Ok(()) => Ok(()),
            Err(error) => {
                self.state = State::Failed;
                Err(error)
            }
        }
    }

    // Takes a data section behind the code.
    fn take_data(&mut self, section: DataSectionReader<'_>, offset: u64) -> Result<()>
        requires { is_some self.old.reached.code ≡ true }
        ensures { TakesData (payloads.DataSection section.entry) self.old result self.new }
    {
        match check_turn(self.state, true, AFTER_CODE, offset) {
            Ok(()) => (),
            Err(error) => return Err(error),
        }
        match self.reached.take_data(section) {
            Ok(()) => Ok(()),
            Err(error) => {
                self.state = State::Failed;
                Err(error)
            }
        }
    }

    /// Takes the type section. The items of each section are read by the validator's own features and limits, whatever its reader had.
    ///
    /// # Errors
    ///
    /// No header came, the module has ended or its code has begun, and the validator stays as it is; or the section is out of order, not
    /// one by the binary format, or not valid, or there is no memory, and the validator has failed. So it is with each section. A type
    /// section is refused too with whose types the list of the validator would have more than 2^20.
    pub fn type_section(&mut self, section: TypeSectionReader<'_>) -> Result<()>
        ensures { Takes (payloads.TypeSection section.entry) self.old result self.new }
    {
        let offset = section.range().start;
        self.take(Payload::TypeSection(section), offset)
    }

    /// Takes the import section.
    pub fn import_section(&mut self, section: ImportSectionReader<'_>) -> Result<()>
        ensures { Takes (payloads.ImportSection section.entry) self.old result self.new }
    {
        let offset = section.range().start;
        self.take(Payload::ImportSection(section), offset)
    }

    /// Takes the function section.
    pub fn function_section(&mut self, section: FunctionSectionReader<'_>) -> Result<()>
        ensures { Takes (payloads.FunctionSection section.entry) self.old result self.new }
    {
        let offset = section.range().start;
        self.take(Payload::FunctionSection(section), offset)
    }

    /// Takes the table section.
    pub fn table_section(&mut self, section: TableSectionReader<'_>) -> Result<()>
        ensures { Takes (payloads.TableSection section.entry) self.old result self.new }
    {
        let offset = section.range().start;
        self.take(Payload::TableSection(section), offset)
    }

    /// Takes the memory section.
    pub fn memory_section(&mut self, section: MemorySectionReader<'_>) -> Result<()>
        ensures { Takes (payloads.MemorySection section.entry) self.old result self.new }
    {
        let offset = section.range().start;
        self.take(Payload::MemorySection(section), offset)
    }

    /// Takes the tag section.
    pub fn tag_section(&mut self, section: TagSectionReader<'_>) -> Result<()>
        ensures { Takes (payloads.TagSection section.entry) self.old result self.new }
    {
        let offset = section.range().start;
        self.take(Payload::TagSection(section), offset)
    }

    /// Takes the global section.
    pub fn global_section(&mut self, section: GlobalSectionReader<'_>) -> Result<()>
        ensures { Takes (payloads.GlobalSection section.entry) self.old result self.new }
    {
        let offset = section.range().start;
        self.take(Payload::GlobalSection(section), offset)
    }

    /// Takes the export section.
    pub fn export_section(&mut self, section: ExportSectionReader<'_>) -> Result<()>
        ensures { Takes (payloads.ExportSection section.entry) self.old result self.new }
    {
        let offset = section.range().start;
        self.take(Payload::ExportSection(section), offset)
    }

    /// Takes the start section, which is the index of a function.
    pub fn start_section(&mut self, func: u32, range: Range<u64>) -> Result<()>
        ensures { Takes (payloads.StartSection func range) self.old result self.new }
    {
        let offset = range.start;
        self.take(Payload::StartSection { func, range }, offset)
    }

    /// Takes the element section.
    pub fn element_section(&mut self, section: ElementSectionReader<'_>) -> Result<()>
        ensures { Takes (payloads.ElementSection section.entry) self.old result self.new }
    {
        let offset = section.range().start;
        self.take(Payload::ElementSection(section), offset)
    }

    /// Takes the data count section, which is how many data segments there are to be.
    pub fn data_count_section(&mut self, count: u32, range: Range<u64>) -> Result<()>
        ensures { Takes (payloads.DataCountSection count range) self.old result self.new }
    {
        let offset = range.start;
        self.take(Payload::DataCountSection { count, range }, offset)
    }

    /// Takes the data section, which may come behind the code.
    pub fn data_section(&mut self, section: DataSectionReader<'_>) -> Result<()>
        ensures { TakesData (payloads.DataSection section.entry) self.old result self.new }
    {
        let offset = section.range().start;
        if self.reached.has_code() {
            return self.take_data(section, offset);
        }
        self.take(Payload::DataSection(section), offset)
    }

    /// Takes the start of the code section. What functions look up stays as it is from then on.
    ///
    /// # Errors
    ///
    /// As a section.
    pub fn code_section_start(&mut self, range: Range<u64>) -> Result<()>
        ensures { BeginsCode self.old result self.new }
    {
        let offset = range.start;
        let fits = self.reached.is_own();
        match check_turn(self.state, fits, AFTER_CODE, offset) {
            Ok(()) => (),
            Err(error) => return Err(error),
        }
        match self.reached.begin_code(offset) {
            Ok(()) => Ok(()),
            Err(error) => {
                self.state = State::Failed;
                Err(error)
            }
        }
    }

    /// Takes a body, and hands out the function that it is that of. The body itself is not looked into: whoever judges the function does
    /// that, with what is handed out, while this validator goes on.
    ///
    /// # Errors
    ///
    /// No header came, the module has ended, its code has not begun, or each function has its body, and the validator stays as it is; or a
    /// section came behind the code, the body is longer than a body may be, or there is no memory, and the validator has failed.
    pub fn code_section_entry(
        &mut self,
        body: &FunctionBody<'_>,
    ) -> Result<FuncToValidate<ValidatorResources>>
        ensures { TakesBody body.now self.old result self.new }
    {
        let offset = body.get_binary_reader().original_position();
        match check_turn(self.state, self.reached.has_code(), BEFORE_CODE, offset) {
            Ok(()) => (),
            Err(error) => return Err(error),
        }
        match self.reached.take_body(&self.settings, body) {
            Ok(Some(function)) => Ok(function),
            Ok(None) => Err(too_many_bodies(offset)),
            Err(error) => {
                self.state = State::Failed;
                Err(error)
            }
        }
    }

    /// Refuses a section of an id that there is not. It does not ask what came before.
    ///
    /// # Errors
    ///
    /// Always; and the validator has failed.
    pub fn unknown_section(&mut self, id: u8, range: Range<u64>) -> Result<()>
        ensures { RefusesUnknown self.old result self.new }
    {
        match check_not_failed(self.state, range.start) {
            Ok(()) => (),
            Err(error) => return Err(error),
        }
        self.state = State::Failed;
        Err(malformed_section(id, range.start))
    }

    /// Ends the module, at this offset, and gives what is known of it. It is not asked whether each function had its body. If types are kept in
    /// canonical form, two ids of the list are the same exactly if their types are.
    ///
    /// If the frames that were judged are all those of some bytes, and each body that was handed out spells a valid function, the bytes run
    /// soundly (`RunsSoundly`; WebAssembly 3.0, appendix, soundness).
    ///
    /// # Errors
    ///
    /// No header came, or the module has ended. The validator has ended then. Or there is no memory, and it has failed.
    pub fn end(&mut self, offset: u64) -> Result<Types>
        ensures ends { Ends self.old result self.new }
        ensures told { IfOk result (λ t. AreToldUnder t.kept.items.spaces.settings t.kept.groups t.kept.groups) }
        ensures sound { RunsSoundlyWhole self.old }
    {
        match self.state {
            State::Module => (),
            State::Failed => return Err(failed_before(offset)),
            State::Unparsed => {
                self.state = State::Ended;
                return Err(early_end(offset));
            }
            State::Ended => return Err(late_end(offset)),
        }
        match self.reached.finish() {
            Ok(module) => {
                self.state = State::Ended;
                let types = Types {
                    id: self.id,
                    module,
                };
                types.tell_ids();
                Ok(types)
            }
            Err(error) => {
                self.state = State::Failed;
                Err(error)
            }
        }
    }
}

// A section that may not come behind the start of the code.
const AFTER_CODE: Words = Words::Module(ModuleWords::UnexpectedSectionBehindTheCodeSection);

// A body that no start of the code came before.
const BEFORE_CODE: Words = Words::Module(
    ModuleWords::UnexpectedCodeSectionEntryBeforeTheCodeSectionHasBegun,
);

#[cold]
fn late_header(offset: u64) -> Error
    ensures { result.kind ≡ kinds.Other }
{
    Error::new(
        Words::Module(ModuleWords::WasmVersionHeaderOutOfOrder),
        offset,
    )
}

#[cold]
fn too_many_bodies(offset: u64) -> Error
    ensures { result.kind ≡ kinds.Other }
{
    Error::new(
        Words::Module(ModuleWords::CodeSectionEntryExceedsNumberOfFunctions),
        offset,
    )
}

#[cold]
fn malformed_section(id: u8, offset: u64) -> Error
    ensures { result.kind ≡ kinds.Other }
{
    Error::with(
        Text::Number(
            Words::Module(ModuleWords::MalformedSectionId),
            id as u32,
            Words::Nothing,
        ),
        offset,
    )
}

#[cold]
fn early_end(offset: u64) -> Error
    ensures { result.kind ≡ kinds.Other }
{
    Error::new(
        Words::Module(ModuleWords::CannotCallEndBeforeAHeaderHasBeenParsed),
        offset,
    )
}

#[cold]
fn late_end(offset: u64) -> Error
    ensures { result.kind ≡ kinds.Other }
{
    Error::new(
        Words::Module(ModuleWords::CannotCallEndAfterParsingHasCompleted),
        offset,
    )
}
