//! Frames of a module that are no items: where a section begins, and the code section.

ghost use Rattle.std.specs.Prelude.{◌≡◌, ◌<◌, ◌≤◌, ◌+◌, List, OnOk, IfErr, IfSome, length, option_map, slice_get};
ghost use Rattle.wasm_types.specs.decoding.Decoder.{State};
ghost use Rattle.wasm_types.specs.decoding.Denials.{Tells, UnlessMemory};
ghost use Rattle.wasm_types.specs.decoding.declared.error.ErrorKind.TheVariants.{Other};
ghost use Rattle.wasm_types.specs.settings.Settings.{Settings};
ghost use Rattle.wasm_sections.specs.Payloads.{Counts};
ghost use Rattle.wasm_module_validator_section_order.specs.items.Adding.{IsItemOf, UnlessFull};
ghost use Rattle.wasm_module_validator_section_order.specs.declared.items.bodies.Body.{Body as TheBody};
ghost use Rattle.wasm_module_validator_section_order.specs.rules_in_order.Sections.{code_place};
ghost use Rattle.wasm_module_validator_section_order.specs.rules_in_order.Steps.{SoFar, JudgesSection, JudgesBody};
ghost use Rattle.wasm_module_validator_payloads.specs.Progress.{FullWhere, Grows, HasItem, IsAt};

use crate::{Body, InProgress, SectionItem};
use wasm_module_validator_section_order::items::add_items;
use wasm_module_validator_state::invariant::ModuleState;
use wasm_operators_bodies::FunctionBody;
use wasm_sections_items::limited::SectionLimited;
use wasm_types::{Error, ModuleWords, Result, Text, Words};

// The refusal of a body of more bytes than the limit.
#[cold]
fn long_body(most: u32, offset: u64) -> Error
    ensures { (result.kind ≡ Other) × (result.offset ≡ offset) }
{
    Error::with(
        Text::Number(
            Words::Module(ModuleWords::FunctionBodySizeCountExceedsLimitOf),
            most,
            Words::Nothing,
        ),
        offset,
    )
}

// The refusal of a body that is that of no function.
#[cold]
fn too_many_bodies(offset: u64) -> Error
    ensures { (result.kind ≡ Other) × (result.offset ≡ offset) }
{
    Error::new(
        Words::Module(ModuleWords::CodeSectionEntryExceedsNumberOfFunctions),
        offset,
    )
}

/// The index of the function that the body behind so many others is of, and that of its type.
pub(crate) fn function_behind_in(state: &ModuleState, bodies: usize) -> Option<(u32, u32)>
    ensures typed { option_map (λ x. x.1) result ≡ option_map (λ f. f.type_index)
        (slice_get state.now.spaces.functions (state.now.spaces.imported_functions + bodies)) }
    ensures index { IfSome result (λ x. x.0 ≡ state.now.spaces.imported_functions + bodies) }
{
    let module = state.module();
    let first = module.imported_functions();
    if bodies >= module.function_count().saturating_sub(first) as usize {
        return None;
    }
    let index = first + bodies as u32;
    match module.function_at(index) {
        Some(function) => Some((index, function.type_index)),
        None => None,
    }
}

/// Checks where a body comes, behind a section of this place, and how long it is.
///
/// # Errors
///
/// That section is not the code section; or the body is longer than a body may be: the first of these, of kind `Other`, where the body
/// begins.
pub(crate) fn check_body_behind(
    state: &ModuleState,
    last: u32,
    body: &FunctionBody<'_>,
) -> Result<()>
    ensures answer { Tells result ((last ≡ code_place) × (length body.now.rest
        ≤ state.now.spaces.settings.limits.body_bytes)) }
    ensures refused { IfErr result (λ e. (e.kind ≡ Other) × (e.offset ≡ body.now.place)) }
{
    let reader = body.get_binary_reader();
    let offset = reader.original_position();
    if last != 12 {
        return Err(Error::new(
            Words::Module(ModuleWords::CodeSectionEntryOutOfOrder),
            offset,
        ));
    }
    let most = state.settings().limits().body_bytes;
    if reader.bytes_remaining() > most as usize {
        return Err(long_body(most, offset));
    }
    Ok(())
}

impl InProgress {
    // Refuses a section whose place is not behind that of the last.
    pub(crate) fn begin_section(&mut self, place: u32, offset: u64) -> Result<()>
        ensures answer { Tells result (self.old.last < place) }
        ensures refused { IfErr result (λ e. (e.kind ≡ Other) × (e.offset ≡ offset)) }
        ensures begun { self.new ≡ record self.old { last = place } }
    {
        let last = self.last;
        self.last = place;
        if place <= last {
            return Err(Error::new(Words::SectionOutOfOrder, offset));
        }
        Ok(())
    }

    /// Takes a section of items.
    ///
    /// # Errors
    ///
    /// The section is out of order, or brings more items than there may be; an item cannot be read or is not valid, a group of types has no
    /// room in the list, or a byte is left behind the last; or there is no memory: the first of these.
    pub fn take_section<'a, T: SectionItem<'a>>(
        &mut self,
        section: SectionLimited<'a, T>,
    ) -> Result<()>
        ensures answer { UnlessFull (FullWhere self.old T.section (HasItem T.section
            (IsItemOf T.FromReader.view T.of T.FromReader.decoder section.entry.count section.entry.reader))) result
            ((z : Settings) (p : SoFar) (bodies : List TheBody) (b : State) → IsAt z self.old bodies p → b.settings ≡ z
            → Counts b section.entry.count section.entry.reader
            → Tells result ((q : SoFar) × JudgesSection z p T.section b.rest q)) }
        ensures added { OnOk result ((z : Settings) (p q : SoFar) (bodies : List TheBody) (b : State)
            → IsAt z self.old bodies p → b.settings ≡ z
            → Counts b section.entry.count section.entry.reader → JudgesSection z p T.section b.rest q
            → IsAt z self.new bodies q) }
        ensures grown { OnOk result (Grows self.old.kept self.new.kept) }
    {
        let offset = section.range().start;
        match self.begin_section(T::place(), offset) {
            Ok(()) => (),
            Err(error) => return Err(error),
        }
        match T::check_count(&self.collected.state, section.count(), offset) {
            Ok(()) => (),
            Err(error) => return Err(error),
        }
        add_items(&mut self.collected, section)
    }

    /// Takes the start of the code section.
    ///
    /// # Errors
    ///
    /// The section is out of order, of kind `Other`, at `offset`.
    pub fn take_code_start(&mut self, offset: u64) -> Result<()>
        ensures answer { (z : Settings) (p : SoFar) (bodies : List TheBody) → IsAt z self.old bodies p
            → Tells result (p.last < code_place) }
        ensures refused { IfErr result (λ e. (e.kind ≡ Other) × (e.offset ≡ offset)) }
        ensures added { OnOk result ((z : Settings) (p : SoFar) (bodies : List TheBody) → IsAt z self.old bodies p
            → IsAt z self.new bodies (record p { last = code_place })) }
        ensures kept { self.new.kept ≡ self.old.kept }
    {
        self.begin_section(12, offset)
    }

    // The index of the function that the body behind so many others is of, and that of its type.
    fn function_behind(&self, bodies: usize) -> Option<(u32, u32)>
        ensures typed { option_map (λ x. x.1) result ≡ option_map (λ f. f.type_index)
            (slice_get self.now.kept.items.spaces.functions (self.now.kept.items.spaces.imported_functions + bodies)) }
        ensures index { IfSome result (λ x. x.0 ≡ self.now.kept.items.spaces.imported_functions + bodies) }
    {
        function_behind_in(&self.collected.state, bodies)
    }

    // Checks where a body comes, behind a section of this place, and how long it is.
    fn check_body(&self, last: u32, body: &FunctionBody<'_>) -> Result<()>
        ensures answer { Tells result ((last ≡ code_place) × (length body.now.rest
            ≤ self.now.kept.items.spaces.settings.limits.body_bytes)) }
        ensures refused { IfErr result (λ e. (e.kind ≡ Other) × (e.offset ≡ body.now.place)) }
    {
        check_body_behind(&self.collected.state, last, body)
    }

    /// Takes a body: it is kept with the index of its function and of its type.
    ///
    /// # Errors
    ///
    /// The code section has not begun, or another section came behind it; the body is longer than a body may be; each function has
    /// its body: the first of these, of kind `Other`, where the body begins; or there is no memory to keep it.
    pub fn take_body<'a>(
        &mut self,
        body: FunctionBody<'a>,
        bodies: &mut Vec<Body<'a>>,
    ) -> Result<()>
        ensures answer { (z : Settings) (p : SoFar) → IsAt z self.old bodies.old.items p → body.entry.settings ≡ z
            → Tells result ((q : SoFar) × JudgesBody z p body.entry.rest q) }
        ensures added { OnOk result ((z : Settings) (p q : SoFar) → IsAt z self.old bodies.old.items p
            → body.entry.settings ≡ z → JudgesBody z p body.entry.rest q
            → IsAt z self.new bodies.new.items q) }
        ensures refused { IfErr result (λ e. UnlessMemory e.kind ((e.kind ≡ Other) × (e.offset ≡ body.entry.place))) }
        ensures kept { self.new.kept ≡ self.old.kept }
    {
        match self.check_body(self.last, &body) {
            Ok(()) => (),
            Err(error) => return Err(error),
        }
        let kept = bodies.as_slice();
        let Some((index, type_index)) = self.function_behind(kept.len()) else {
            let offset = body.get_binary_reader().original_position();
            return Err(too_many_bodies(offset));
        };
        bodies.push(Body {
            index,
            type_index,
            body,
        })?;
        Ok(())
    }
}
