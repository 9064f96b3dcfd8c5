//! `try_table` with its clauses (WebAssembly 3.0, validation, control instructions).

ghost use Rattle.std.specs.Prelude.{◌≡◌, ◌++◌, ◌∷◌, [], false};
ghost use Rattle.wasm_types.specs.decoding.declared.error.ErrorKind.TheVariants.{Other};
ghost use Rattle.wasm_operators_immediates.specs.Tables.{catch_table_of};
ghost use Rattle.wasm_operators_enums.specs.Op.{Op, ExceptionTree};
ghost use Rattle.wasm_operator_validator_rules.specs.Exceptions.{exception, Carries, Catches, EachCatches};
ghost use Rattle.wasm_operator_validator_state.specs.Refusals.{kind_of, refused};
ghost use Rattle.wasm_operator_validator_state.specs.State.{Checks, types_in, context};
ghost use Rattle.wasm_operator_validator_control.specs.Fitting.{Answers};

use crate::exceptions::{exception_tag, exception_type};
use crate::frames::open_frame;
use crate::{
    FrameKind, MaybeType, OperatorValidator, Proposal, Reason, Refusal, WasmModuleResources,
    are_below, check_block_type, label_types,
};
use wasm_operators_immediates::{Catch, TryTable};
use wasm_types::ValType;

/// Checks `try_table`. Its clauses are compared with labels that count from around its frame.
pub fn check_try_table<R: WasmModuleResources>(
    validator: &mut OperatorValidator,
    resources: &R,
    try_table: &TryTable,
) -> Result<(), Refusal>
    ensures { Checks (R.meaning resources.now) validator.old (Op.Exception
        (ExceptionTree.TryTable (catch_table_of try_table.now))) (refused result) validator.new }
{
    match validator.begin(Proposal::Exceptions, false) {
        Ok(()) => {}
        Err(refusal) => return Err(refusal),
    }
    let block_type = match check_block_type(resources, validator.features(), try_table.ty) {
        Ok(block_type) => block_type,
        Err(refusal) => return Err(refusal),
    };
    match check_clauses(validator, resources, try_table.catches.as_slice()) {
        Ok(()) => {}
        Err(refusal) => return Err(refusal),
    }
    open_frame(validator, resources, FrameKind::TryTable, &block_type)
}

/// Whether each clause may stand in a `try_table` here.
fn check_clauses<R: WasmModuleResources>(
    validator: &OperatorValidator,
    resources: &R,
    clauses: &[Catch],
) -> Result<(), Refusal>
    ensures { Answers result (EachCatches (context (R.meaning resources.now) validator.now.given
        validator.now.opens) clauses.now) }
{
    for place in 0..clauses.len() {
        match check_clause(validator, resources, clauses[place]) {
            Ok(()) => {}
            Err(refusal) => return Err(refusal),
        }
    }
    Ok(())
}

/// Whether a clause may stand in a `try_table` here: what it catches fits its label.
fn check_clause<R: WasmModuleResources>(
    validator: &OperatorValidator,
    resources: &R,
    clause: Catch,
) -> Result<(), Refusal>
    ensures { Answers result (Catches (context (R.meaning resources.now) validator.now.given
        validator.now.opens) clause) }
{
    match clause {
        Catch::One { tag, label } => match exception_tag(resources, tag) {
            Ok(tag) => carries(
                validator,
                resources,
                tag.params(),
                label,
                Reason::CatchCount,
            ),
            Err(refusal) => Err(refusal),
        },
        Catch::OneRef { tag, label } => match exception_tag(resources, tag) {
            Ok(tag) => {
                carries_reference(
                    validator,
                    resources,
                    tag.params(),
                    label,
                    Reason::CatchRefCount,
                )
            }
            Err(refusal) => Err(refusal),
        },
        Catch::All { label } => carries(validator, resources, &[], label, Reason::CatchAllCount),
        Catch::AllRef { label } => {
            carries_reference(validator, resources, &[], label, Reason::CatchAllRefCount)
        }
    }
}

/// Whether values of these types fit a label. `miscounted` is why not where it takes more or fewer.
fn carries<R: WasmModuleResources>(
    validator: &OperatorValidator,
    resources: &R,
    types: &[ValType],
    label: u32,
    miscounted: Reason,
) -> Result<(), Refusal>
    ensures { Answers result (Carries (context (R.meaning resources.now) validator.now.given validator.now.opens)
        (types_in (R.meaning resources.now) types.now) label) }
{
    let Some((block_type, kind)) = validator.jump(label) else {
        return Err(Refusal::UnknownLabel);
    };
    let expected = label_types(resources, &block_type, kind);
    if !are_below(resources, types, expected) {
        return Err(unfit(resources, types, expected, miscounted));
    }
    Ok(())
}

/// Why values of these types don't fit those that are expected: there are more or fewer, or the first that does not fit.
#[cold]
fn unfit<R: WasmModuleResources>(
    resources: &R,
    types: &[ValType],
    expected: &[ValType],
    miscounted: Reason,
) -> Refusal
    ensures { kind_of result ≡ Other }
{
    if types.len() != expected.len() {
        return Refusal::Because(miscounted);
    }
    for place in 0..types.len() {
        if !resources.is_subtype(types[place], expected[place]) {
            return Refusal::TypeMismatch {
                expected: expected[place],
                found: MaybeType::Known(types[place]),
            };
        }
    }
    Refusal::Because(Reason::CatchTypes)
}

/// The same of these and a reference to the exception behind them.
fn carries_reference<R: WasmModuleResources>(
    validator: &OperatorValidator,
    resources: &R,
    types: &[ValType],
    label: u32,
    miscounted: Reason,
) -> Result<(), Refusal>
    ensures { Answers result (Carries (context (R.meaning resources.now) validator.now.given validator.now.opens)
        (types_in (R.meaning resources.now) types.now ++ exception false ∷ []) label) }
{
    let Some((block_type, kind)) = validator.jump(label) else {
        return Err(Refusal::UnknownLabel);
    };
    let expected = label_types(resources, &block_type, kind);
    let Some((last, others)) = expected.split_last() else {
        return Err(Refusal::Because(miscounted));
    };
    if !are_below(resources, types, others) {
        return Err(unfit(resources, types, others, miscounted));
    }
    let caught = exception_type(false);
    if !resources.is_subtype(caught, *last) {
        return Err(unfit_reference(exception_type(false), *last, miscounted));
    }
    Ok(())
}

/// Why a reference to the exception is not what a label takes last.
#[cold]
fn unfit_reference(caught: ValType, expected: ValType, miscounted: Reason) -> Refusal
    ensures { kind_of result ≡ Other }
{
    match miscounted {
        Reason::CatchAllRefCount => Refusal::Because(Reason::CatchAllRefType),
        _ => Refusal::TypeMismatch {
            expected,
            found: MaybeType::Known(caught),
        },
    }
}
