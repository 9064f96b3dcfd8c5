//! Branches on casts.

ghost use Rattle.std.specs.Prelude.{◌≡◌, ◌++◌, ◌∷◌, [], MatchOption, MatchResult, false};
ghost use Rattle.wasm_types.specs.decoding.declared.error.ErrorKind.TheVariants.{Other};
ghost use Rattle.wasm_operators_immediates.specs.declared.proposal.Proposal.TheVariants.{Gc};
ghost use Rattle.wasm_operators_enums.specs.Op.{Op};
ghost use Rattle.wasm_operator_validator_state.specs.Refusals.{kind_of, refused};
ghost use Rattle.wasm_operator_validator_state.specs.State.{Checks};
ghost use Rattle.wasm_operator_validator_resources.specs.Meaning.{type_in};
ghost use Rattle.wasm_operator_validator_state.specs.Entering.{MayBegin};
ghost use Rattle.wasm_operator_validator_state.specs.State.{types_in};
ghost use Rattle.wasm_operator_validator_objects.specs.Rows.{IsCastBranch, IsRow};
ghost use Rattle.wasm_operator_validator_objects.specs.Casts.{AreTaken, IsCastOf, IsNoCast, IsCastable, IsNotCastable};

use crate::naming::heap_at;
use crate::steps::begin;
use crate::tests::castable_top;
use wasm_operator_validator_control::label_types;
use wasm_operator_validator_stacks::determined::{
    OperatorValidator, Reason, Refusal, WasmModuleResources,
};
use wasm_operators_visit::GcOperator;
use wasm_types::{RefType, ValType};

/// `br_on_cast` and `br_on_cast_fail`: the label takes what was cast, or what was not, on top of others, which stay.
pub fn check_br_on_cast<R: WasmModuleResources>(
    validator: &mut OperatorValidator,
    resources: &R,
    op: GcOperator,
    relative_depth: u32,
    from: &RefType,
    to: &RefType,
    fails: bool,
) -> Result<(), Refusal>
    requires { IsCastBranch op relative_depth from.now to.now fails }
    ensures { Checks (R.meaning resources.now) validator.old (Op.Gc op) (refused result) validator.new }
{
    match begin(validator, resources, &op) {
        Ok(()) => (),
        Err(refusal) => return Err(refusal),
    }
    let (first, second) = match cast_of(validator, resources, from, to) {
        Ok(cast) => cast,
        Err(refusal) => return Err(refusal),
    };
    let (block_type, kind) = match validator.jump(relative_depth) {
        Some(frame) => frame,
        None => return Err(Refusal::UnknownLabel),
    };
    let types = label_types(resources, &block_type, kind);
    let (last, others) = match split_label(types) {
        Some(split) => split,
        None => return Err(Refusal::Because(no_label(fails))),
    };
    let (taken, left) = taken_and_left(&first, &second, fails);
    if !resources.is_subtype(taken, last) {
        return Err(past_label(types, &first, &second, fails));
    }
    branch(
        validator,
        resources,
        &op,
        others,
        &ValType::Ref(first),
        &left,
    )
}

// Why a branch on a cast may not go to a label that takes nothing.
fn no_label(fails: bool) -> Reason {
    if fails {
        return Reason::NoLeftLabel;
    }
    Reason::NoCastLabel
}

// Why it may not go to one that takes these types, where another is on top.
#[cold]
fn past_label(types: &[ValType], first: &RefType, second: &RefType, fails: bool) -> Refusal
    ensures { kind_of result ≡ Other }
{
    let Some(expected) = types.last() else {
        return Refusal::Because(no_label(fails));
    };
    let (found, _left) = taken_and_left(first, second, fails);
    if fails {
        return Refusal::LeftPastLabel {
            expected: *expected,
            found,
        };
    }
    Refusal::CastPastLabel {
        expected: *expected,
        found,
    }
}

/// The last of these types, as a label takes them, and the others.
pub fn split_label(types: &[ValType]) -> Option<(ValType, &[ValType])>
    ensures { MatchOption result (types.now ≡ []) (λ p. types.now ≡ p.1.now ++ p.0 ∷ []) }
{
    match types.split_last() {
        Some((last, others)) => Some((*last, others)),
        None => None,
    }
}

/// What the label takes, and what is left where the branch is not taken.
pub fn taken_and_left(first: &RefType, second: &RefType, fails: bool) -> (ValType, ValType)
    ensures { AreTaken fails first.now second.now result.0 result.1 }
{
    let difference = RefType::difference(*first, *second);
    if fails {
        return (ValType::Ref(difference), ValType::Ref(*second));
    }
    (ValType::Ref(*second), ValType::Ref(difference))
}

// The reference is exchanged for what is left, over others that stay.
fn branch<R: WasmModuleResources>(
    validator: &mut OperatorValidator,
    resources: &R,
    op: &GcOperator,
    others: &[ValType],
    cast: &ValType,
    left: &ValType,
) -> Result<(), Refusal>
    requires begun { MayBegin validator.old Gc false }
    requires row { IsRow (R.meaning resources.now) validator.old op.now
        (types_in (R.meaning resources.now) others.now ++ type_in (R.meaning resources.now) cast.now ∷ [])
        (types_in (R.meaning resources.now) others.now ++ type_in (R.meaning resources.now) left.now ∷ []) }
    ensures { Checks (R.meaning resources.now) validator.old (Op.Gc op.now) (refused result) validator.new }
{
    let _op = op;
    match validator.pop_operand(resources, cast) {
        Ok(()) => (),
        Err(refusal) => return Err(refusal),
    }
    match validator.exchange(resources, others, others) {
        Ok(()) => (),
        Err(refusal) => return Err(refusal),
    }
    validator.push_operands(resources, &[*left])
}

/// The two types of a cast, with the types in them named by their ids: the second below the first, and neither of continuations.
pub fn cast_of<R: WasmModuleResources>(
    validator: &OperatorValidator,
    resources: &R,
    from: &RefType,
    to: &RefType,
) -> Result<(RefType, RefType), Refusal>
    ensures { MatchResult result (λ p. IsCastOf (R.meaning resources.now) validator.now from.now to.now p.0 p.1)
        (λ r. IsNoCast (R.meaning resources.now) validator.now from.now to.now) }
{
    let first = match castable_at(validator, resources, from) {
        Ok(first) => first,
        Err(refusal) => return Err(refusal),
    };
    let second = match castable_at(validator, resources, to) {
        Ok(second) => second,
        Err(refusal) => return Err(refusal),
    };
    if !resources.is_subtype(ValType::Ref(second), ValType::Ref(first)) {
        return Err(Refusal::NotBelow {
            expected: ValType::Ref(first),
            found: ValType::Ref(second),
        });
    }
    Ok((first, second))
}

// A type of a cast, which is not of continuations.
fn castable_at<R: WasmModuleResources>(
    validator: &OperatorValidator,
    resources: &R,
    written: &RefType,
) -> Result<RefType, Refusal>
    ensures { MatchResult result (λ r. IsCastable (R.meaning resources.now) validator.now written.now r)
        (λ r. IsNotCastable (R.meaning resources.now) validator.now written.now) }
{
    let heap_type = written.heap_type();
    let named = match heap_at(validator, resources, written.is_nullable(), &heap_type) {
        Ok(named) => named,
        Err(refusal) => return Err(refusal),
    };
    match castable_top(resources, &named) {
        Some(_) => Ok(named),
        None => Err(Refusal::Because(Reason::NotCastable)),
    }
}
