//! Laws of modules in pieces, each the contract of a function that does nothing.

ghost use Rattle.wasm_types.specs.decoding.ErrorValue.{ErrorValue};
ghost use Rattle.wasm_types.specs.settings.Settings.{Settings};
ghost use Rattle.wasm_module_validator_index_spaces.specs.declared.view.validator_id.ValidatorId.{ValidatorId};
ghost use Rattle.wasm_module_validator_streaming.specs.laws.Statements.{Begins, MayGoOn, MayEnd, PayloadsLeadOn, BodiesLeadOn};
ghost use Rattle.wasm_module_validator_streaming.specs.laws.Statements.{TheEndAccepts, PayloadsRefuse, BodiesRefuse, BytesRefuse};
ghost use Rattle.wasm_module_validator_streaming.specs.laws.WorkedPassing.{FrontRows};
ghost use Rattle.wasm_module_validator_streaming.specs.laws.WorkedReaders.{ReaderRows, StepRows};

/// A validator that has read nothing and has no types stands behind no bytes. More bytes may come, and it may be known that none do.
pub const fn runs_begin()
    ensures first { (z : Settings) (id : ValidatorId) → Begins z id }
    ensures read { (z : Settings) (id : ValidatorId) → MayGoOn z id }
    ensures last { (z : Settings) (id : ValidatorId) → MayEnd z id }
{}

/// What is told of the whole while its bytes come. A payload that passes, and a body that is valid, lead on; the end accepts the bytes that
/// came, and the module is shown; and whatever is refused, bytes, a payload or a body, refuses each module that begins with the bytes that
/// came, memory aside.
pub const fn pieces_are_judged()
    ensures passes { (z : Settings) (id : ValidatorId) → PayloadsLeadOn z id }
    ensures valid_body { (z : Settings) (id : ValidatorId) → BodiesLeadOn z id }
    ensures ended { (z : Settings) (id : ValidatorId) → TheEndAccepts z id }
    ensures refused_payload { (z : Settings) (id : ValidatorId) → PayloadsRefuse z id }
    ensures refused_body { (z : Settings) (id : ValidatorId) → BodiesRefuse z id }
    ensures refused_bytes { (z : Settings) (id : ValidatorId) → BytesRefuse z id }
{}

/// What is said of the bytes of a reader, and of the front of a custom section: a case where each holds, and one where it does not.
pub const fn readers_are_worked()
    ensures readers { ReaderRows }
    ensures steps { (e : ErrorValue) → StepRows e }
    ensures fronts { FrontRows }
{}
