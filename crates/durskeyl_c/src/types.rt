//! The types of a module that was accepted.

ghost use Rattle.std.specs.Prelude.{◌≡◌, ◌≤◌, IfOk, Some, None};
ghost use Rattle.wasm_types.specs.decoding.Denials.{Tells};
ghost use Rattle.wasm_types.specs.settings.Limits.{IsWithinCeilings};
ghost use Rattle.wasm_module_validator_import_export_places.specs.rules.Accepts.{AcceptsUnder};
ghost use Rattle.wasm_module_validator.specs.Accepts.{IsShown};
ghost use Rattle.wasm_module_validator.specs.Lists.{AreToldUnder};
ghost use Rattle.durskeyl_c.specs.Kept.{Keeps, TellsRows, entities_in, ids_in, types_in, values_in};
ghost use Rattle.durskeyl_c.specs.Told.{Told, IsEnded};

use crate::fault::{DurskeylFault, bad_settings, no_fault, write_error};
use crate::kept::{DurskeylModule, give_back, put, taken};
use crate::settings::{DurskeylSettings, features_of, leaves_later, limits_of};
use crate::validate::MOST_BYTES;
use std::alloc::Global;
use wasm_module_validator::{Types, Validator, ValidatorId};
use wasm_module_validator_rows::{
    EntityRow, TypeRow, ValueRow, kind_of, write_entities, write_ids, write_types, write_values,
};
use wasm_types::{Error, Limits, WasmFeatures};

/// The answer where the handle has no types, or there is no such kind or id.
const NO_MODULE: u64 = u64::MAX;

/// Judges bytes by a validator of their own, and keeps the types.
fn judge(
    alloc: Global,
    features: WasmFeatures,
    limits: Limits,
    bytes: &[u8],
) -> Result<Box<Types>, Error>
    requires within { IsWithinCeilings limits }
    ensures verdict { Tells result (AcceptsUnder (record { features = features.0; limits = limits }) bytes.now) }
    ensures shown { IfOk result (λ it. IsShown (record { features = features.0; limits = limits })
        bytes.now it.value) }
    ensures told { IfOk result (λ it. AreToldUnder (record { features = features.0; limits = limits })
        it.value.kept.groups it.value.kept.groups) }
{
    let mut validator = Validator::new_with_limits(alloc, ValidatorId::new(0), features, limits);
    let types = match validator.validate_all(bytes) {
        Ok(types) => types,
        Err(error) => return Err(error),
    };
    match Box::new(alloc, types) {
        Ok(it) => Ok(it),
        Err(_failed) => Err(Error::out_of_memory(0)),
    }
}

/// Says of these bytes what `durskeyl_validate` says, with the same fault, and keeps the types of a module that is accepted, in a handle. If the
/// answer is not 0 the handle has none. What it had before is given back.
#[unsafe(no_mangle)]
pub extern "C" fn durskeyl_validate_types(
    alloc: Global,
    settings: &DurskeylSettings,
    bytes: &[u8],
    module: &mut DurskeylModule,
    fault: &mut DurskeylFault,
) -> u32
    ensures verdict { Told result settings.now bytes.now }
    ensures kept { result ≡ 0 → Keeps module.new.inside.value settings.now bytes.now }
    ensures none { ¬ (result ≡ 0) → module.new.inside.value ≡ None }
    ensures few { result ≤ 6 }
    ensures kind { fault.new.kind ≡ result }
    ensures text { IsEnded fault.new }
{
    // at once, so that two modules are never held
    give_back(alloc, module);
    let limits = limits_of(&settings.limits);
    let Some(features) = features_of(settings.features) else {
        bad_settings(fault);
        return 6;
    };
    if !limits.is_within_ceilings() || !leaves_later(&settings.limits) {
        bad_settings(fault);
        return 6;
    }
    if bytes.len() > MOST_BYTES {
        // no slice has so many: C promises it, and is answered if it does not
        bad_settings(fault);
        return 6;
    }
    match judge(alloc, features, limits, bytes) {
        Ok(it) => {
            put(module, it);
            *fault = no_fault();
            0
        }
        Err(error) => {
            write_error(&limits, &error, fault);
            fault.kind
        }
    }
}

/// Writes rows of all functions, tables, memories, globals or tags of these types.
fn write_kind(it: &Types, kind: u32, first: u32, rows: &mut [EntityRow]) -> u64
    ensures { TellsRows result first (entities_in (Some it.now) kind) rows.old rows.new }
{
    match kind_of(kind) {
        Some(kind) => write_entities(&it.as_ref(), kind, first, rows) as u64,
        None => NO_MODULE,
    }
}

/// Writes the types of all functions, tables, memories, globals or tags of the module from an index on, imports first, as many as there are rows
/// for, and answers how many of the kind there are in all.
#[unsafe(no_mangle)]
pub extern "C" fn durskeyl_entities(
    alloc: Global,
    module: &mut DurskeylModule,
    kind: u32,
    first: u32,
    rows: &mut [EntityRow],
) -> u64
    ensures told { TellsRows result first (entities_in module.old.inside.value kind) rows.old rows.new }
    ensures stays { module.new.inside.value ≡ module.old.inside.value }
{
    let Some(it) = taken(alloc, module) else {
        return NO_MODULE;
    };
    let count = write_kind(&it, kind, first, rows);
    put(module, it);
    count
}

/// Writes the ids of the module's types.
fn write_indices(it: &Types, first: u32, ids: &mut [u32]) -> u64
    ensures { TellsRows result first (ids_in (Some it.now)) ids.old ids.new }
{
    write_ids(&it.as_ref(), first, ids) as u64
}

/// Writes the ids of the types of the module from an index on, as many as there are places for, and answers how many types it has.
#[unsafe(no_mangle)]
pub extern "C" fn durskeyl_type_ids(
    alloc: Global,
    module: &mut DurskeylModule,
    first: u32,
    ids: &mut [u32],
) -> u64
    ensures told { TellsRows result first (ids_in module.old.inside.value) ids.old ids.new }
    ensures stays { module.new.inside.value ≡ module.old.inside.value }
{
    let Some(it) = taken(alloc, module) else {
        return NO_MODULE;
    };
    let count = write_indices(&it, first, ids);
    put(module, it);
    count
}

/// Writes rows of the types that differ.
fn write_each(it: &Types, first: u32, rows: &mut [TypeRow]) -> u64
    ensures { TellsRows result first (types_in (Some it.now)) rows.old rows.new }
{
    write_types(&it.as_ref(), first, rows) as u64
}

/// Writes the types that differ from an id on, as many as there are rows for, and answers how many there are.
#[unsafe(no_mangle)]
pub extern "C" fn durskeyl_types(
    alloc: Global,
    module: &mut DurskeylModule,
    first: u32,
    rows: &mut [TypeRow],
) -> u64
    ensures told { TellsRows result first (types_in module.old.inside.value) rows.old rows.new }
    ensures stays { module.new.inside.value ≡ module.old.inside.value }
{
    let Some(it) = taken(alloc, module) else {
        return NO_MODULE;
    };
    let count = write_each(&it, first, rows);
    put(module, it);
    count
}

/// Writes rows of what the type of an id is made of.
fn write_parts(it: &Types, id: u32, rows: &mut [ValueRow]) -> u64
    ensures { TellsRows result 0 (values_in (Some it.now) id) rows.old rows.new }
{
    match write_values(&it.as_ref(), id, rows) {
        Some(count) => count,
        None => NO_MODULE,
    }
}

/// Writes what the type of an id is made of, as many as there are rows for: the parameters of a function and its results behind them, the fields
/// of a struct, the element of an array. Answers how many that are.
#[unsafe(no_mangle)]
pub extern "C" fn durskeyl_type_values(
    alloc: Global,
    module: &mut DurskeylModule,
    id: u32,
    rows: &mut [ValueRow],
) -> u64
    ensures told { TellsRows result 0 (values_in module.old.inside.value id) rows.old rows.new }
    ensures stays { module.new.inside.value ≡ module.old.inside.value }
{
    let Some(it) = taken(alloc, module) else {
        return NO_MODULE;
    };
    let count = write_parts(&it, id, rows);
    put(module, it);
    count
}

/// Gives back what a handle has; nothing if it has none.
#[unsafe(no_mangle)]
pub extern "C" fn durskeyl_release(alloc: Global, module: &mut DurskeylModule)
    ensures { module.new.inside.value ≡ None }
{
    give_back(alloc, module);
}
