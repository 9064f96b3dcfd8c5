//! The validator of whole modules.

ghost use Rattle.std.specs.Prelude.{◌≡◌, ◌↔◌, [], IsTrue, IfOk};
ghost use Rattle.wasm_types.specs.decoding.Denials.{Tells};
ghost use Rattle.wasm_types.specs.settings.Limits.{default_limits, IsWithinCeilings};
ghost use Rattle.wasm_module_validator_rules.specs.Accepts.{AcceptsUnder};
ghost use Rattle.wasm_module_validator.specs.soundness.Soundness.{RunsSoundly};
ghost use Rattle.wasm_module_validator_drivers.specs.Sharing.{nothing_reached};
ghost use Rattle.wasm_module_validator.specs.declared.validator.State.TheVariants as states;
ghost use Rattle.wasm_module_validator.specs.Accepts.{Accepts, IsShown, default_settings};
ghost use Rattle.wasm_module_validator.specs.Lists.{AreToldUnder, TakesNoMore};
ghost use Rattle.wasm_module_validator.specs.States.{IsLeft, Keeps, Leaves, TellsBehind, held_by};

use crate::types::Types;
use std::alloc::Global;
use wasm_module_validator_drivers::{HeldSettings, SharedProgress};
use wasm_module_validator_index_spaces::view::ValidatorId;
use wasm_types::{Error, ErrorKind, Limits, Result, WasmFeatures};

/// How far a validator is.
#[derive(Clone, Copy, Debug, PartialEq, Eq)]
pub enum State {
    /// Nothing was read yet.
    Unparsed,
    /// A header was read, and sections may come.
    Module,
    /// A module was accepted, or nothing but a function of it was refused; or an end was told of none.
    Ended,
    /// The header or a section was refused, or memory ran out.
    Failed,
}

/// Validates one module after another, over one list of types.
#[derive(Drop)]
pub struct Validator {
    pub(crate) alloc: Global,
    pub(crate) id: ValidatorId,
    pub(crate) state: State,
    // What it judges by, which never changes.
    pub(crate) settings: HeldSettings,
    // The module whose sections come one by one, and the list of types.
    pub(crate) reached: SharedProgress,
}

impl Validator {
    /// A validator that has read nothing, with the default features and the default limits. It takes no memory.
    pub fn new(alloc: Global, id: ValidatorId) -> Validator
        ensures state { result.state ≡ states.Unparsed }
        ensures id { result.id ≡ id }
        ensures settings { result.settings ≡ default_settings }
        ensures reached { result.reached ≡ nothing_reached default_settings }
        ensures empty { result.reached.progress.kept.groups ≡ [] }
    {
        Validator::new_with_features(alloc, id, WasmFeatures::default())
    }

    /// A validator that has read nothing, with these features and the default limits. It takes no memory.
    pub fn new_with_features(alloc: Global, id: ValidatorId, features: WasmFeatures) -> Validator
        ensures state { result.state ≡ states.Unparsed }
        ensures id { result.id ≡ id }
        ensures settings { result.settings ≡ record { features = features.0; limits = default_limits } }
        ensures reached { result.reached ≡ nothing_reached (record { features = features.0; limits = default_limits }) }
        ensures empty { result.reached.progress.kept.groups ≡ [] }
    {
        Validator::new_with_limits(alloc, id, features, Limits::default())
    }

    /// A validator that has read nothing, with these features and these limits, which never change. It takes no memory.
    pub fn new_with_limits(
        alloc: Global,
        id: ValidatorId,
        features: WasmFeatures,
        limits: Limits,
    ) -> Validator
        requires within { IsWithinCeilings limits }
        ensures state { result.state ≡ states.Unparsed }
        ensures id { result.id ≡ id }
        ensures settings { result.settings ≡ record { features = features.0; limits = limits } }
        ensures reached { result.reached ≡ nothing_reached (record { features = features.0; limits = limits }) }
        ensures empty { result.reached.progress.kept.groups ≡ [] }
    {
        let settings = HeldSettings::new(features, limits);
        let reached = SharedProgress::new(alloc, &settings);
        Validator {
            alloc,
            id,
            state: State::Unparsed,
            settings,
            reached,
        }
    }

    /// The features that are allowed.
    pub fn features(&self) -> WasmFeatures
        ensures { result.0 ≡ self.now.settings.features }
    {
        self.settings.features()
    }

    /// The limits that hold. None is above its ceiling.
    pub fn limits(&self) -> Limits
        ensures value { result ≡ self.now.settings.limits }
        ensures within { IsWithinCeilings result }
    {
        self.settings.limits()
    }

    /// Whether nothing was read yet and nothing refused.
    pub fn is_fresh(&self) -> bool
        ensures { IsTrue result ↔ (self.now.state ≡ states.Unparsed) }
    {
        self.state == State::Unparsed
    }

    /// Validates a module that is all of these bytes, by the validator's features and limits (WebAssembly 3.0, validation, modules).
    ///
    /// An accepted module runs soundly: under the features of the standard no run of it is stuck, and what it returns or throws fits
    /// (`RunsSoundly`; WebAssembly 3.0, appendix, soundness).
    ///
    /// # Errors
    ///
    /// The bytes are no module; or a section is not valid behind those before it, or a group of types has no room in the validator's list; or,
    /// where each is, a body is not valid: the first of these. Or there is no memory. Where only a function is refused the validator has
    /// ended, and else it has failed.
    ///
    /// The module's types go into the validator's list, where those of modules before it stay (`reset`). The list has 2^20 types at most, so
    /// a module may be refused behind others that is accepted by itself: the error of that, of kind `Other`, says `too many core types`. A
    /// list with no types has room for each module that is within the limit of types. If the list keeps types in canonical form, two of its
    /// ids are the same exactly if their types are.
    pub fn validate_all(&mut self, bytes: &[u8]) -> Result<Types>
        requires { self.old.state ≡ states.Unparsed }
        ensures verdict { TellsBehind self.old result bytes.now }
        ensures alone { self.old.reached.progress.kept.groups ≡ []
            → Tells result (AcceptsUnder self.old.settings bytes.now) }
        ensures sound { IfOk result (λ _. RunsSoundly self.old.settings bytes.now) }
        ensures shown { IfOk result (IsShown self.old.settings bytes.now) }
        ensures id { IfOk result (λ t. t.id ≡ self.old.id) }
        ensures told { IfOk result (λ t. AreToldUnder self.old.settings t.kept.groups t.kept.groups) }
        ensures state { Leaves (held_by self.old) self.old.settings bytes.now result self.new.state }
        ensures others { self.new ≡ record self.old { state = self.new.state; reached = self.new.reached } }
        ensures types { IfOk result (λ t. t.kept.groups ≡ self.new.reached.progress.kept.groups) }
        ensures kept { Keeps self.old self.new }
        ensures few { self.new.state ≡ states.Ended → TakesNoMore self.old.settings (held_by self.old) bytes.now
            self.new.reached.progress.kept.groups }
    {
        let _limits = self.settings.limits();
        self.state = State::Failed;
        let bodies = match self.reached.read(&self.settings, bytes) {
            Ok(bodies) => bodies,
            Err(error) => return Err(error),
        };
        match self.reached.judge(bodies.as_slice()) {
            Ok(()) => (),
            Err(error) => {
                self.state = state_after(error.kind());
                return Err(error);
            }
        }
        match self.reached.finish() {
            Ok(module) => {
                self.state = State::Ended;
                let types = Types {
                    id: self.id,
                    module,
                };
                types.tell_ids();
                Ok(types)
            }
            Err(error) => Err(error),
        }
    }
}

/// How far a validator is once it has read all sections, and judging the functions gave an error of this kind.
fn state_after(kind: ErrorKind) -> State
    ensures { IsLeft kind result }
{
    match kind {
        ErrorKind::OutOfMemory => State::Failed,
        _ => State::Ended,
    }
}

/// Validates a module that is all of these bytes, with the default features and limits (WebAssembly 3.0, validation, modules). An
/// accepted module runs soundly, as with `Validator::validate_all`.
///
/// # Errors
///
/// As `Validator::validate_all`. Its list of types is new, and has room for each module.
pub fn validate(alloc: Global, id: ValidatorId, bytes: &[u8]) -> Result<Types>
    ensures verdict { Tells result (Accepts bytes.now) }
    ensures sound { IfOk result (λ _. RunsSoundly default_settings bytes.now) }
    ensures shown { IfOk result (IsShown default_settings bytes.now) }
    ensures id { IfOk result (λ t. t.id ≡ id) }
    ensures told { IfOk result (λ t. AreToldUnder default_settings t.kept.groups t.kept.groups) }
{
    Validator::new(alloc, id).validate_all(bytes)
}
