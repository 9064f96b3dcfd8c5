//! The tables of a module, made once for all its bodies.

ghost use Rattle.std.specs.Prelude.{◌≡◌, ◌<◌, ◌≤◌, ◌-◌, ◌++◌, ◌↔◌, [], ℕ, List, IsTrue, true, false, length, IfSome};
ghost use Rattle.wasm_types.specs.trees.Types.{ref, abstract, func};
ghost use Rattle.wasm_types.specs.trees.Below.{Below};
ghost use Rattle.wasm_operator_validator_state.specs.State.{types_in};
ghost use Rattle.wasm_operator_validator_state.specs.resources.Meaning.{Meaning, reference_in};
ghost use Rattle.wasm_operator_validator_fast_tables.specs.Values.{types};
ghost use Rattle.wasm_operator_validator_fast_tables.specs.Tables.{Knows, HasMemoryAt, HasTableAt, no_code};
ghost use Rattle.wasm_operator_validator_fast_tables.specs.Known.{IsMore, StandAlone, IsSigIn, AreSigsIn, AreFunctionsIn, AreCalleesOf, AreReferencedIn, AreGlobalsIn};

use crate::codes::{DEFINED, code_of};
use crate::elements::{address_of, elements_of, memories_of, tables_of};
use crate::naming::name_all;
use crate::order::Order;
use crate::tables::{Held, Known, NO_CODE, Sig};
use crate::tags::{data_of, sign_tags};
use std::alloc::Global;
use wasm_operator_validator_state::WasmModuleResources;
use wasm_operator_validator_state::blocks::function_at;
use wasm_types::{AbstractHeapType, HeapType, RefType, ValType};

// The tables have room for the codes that stand for themselves.
const LEAST: u32 = 64;

/// What bodies ask of a module, as far as so many entries of each table tell and there is memory. None if there is no memory for the least, or so
/// many entries are too few or too many. If a growth was refused, `lacks` is set.
pub fn known_of<R: WasmModuleResources>(
    alloc: Global,
    resources: &R,
    most: u32,
    lacks: &mut bool,
) -> Option<Known>
    ensures { let m = R.meaning resources.now in IfSome result (Knows m.ids m.«module») }
{
    let mut flat = Vec::new(alloc);
    if most < LEAST || most >= NO_CODE || !put_alone(&mut flat, lacks) {
        return None;
    }
    let mut named = Vec::new(alloc);
    let mut fields = Vec::new(alloc);
    let mut steps = Vec::new(alloc);
    name_all(
        resources,
        most,
        &mut flat,
        &mut named,
        &mut fields,
        &mut steps,
        lacks,
    );
    let mut types = Vec::new(alloc);
    sign_all(resources, &mut flat, &mut types, most, lacks);
    let mut tags = Vec::new(alloc);
    sign_tags(resources, &mut flat, &mut tags, most, lacks);
    let functions = functions_of(alloc, resources, most, lacks);
    let callees = callees_of(alloc, functions.as_slice(), types.as_slice(), lacks);
    Some(Known {
        flat,
        types,
        named,
        fields,
        order: Order::new(steps),
        referenced: referenced_of(alloc, resources, functions.as_slice().len() as u32, lacks),
        functions,
        callees,
        globals: globals_of(alloc, resources, most, lacks),
        tags,
        tables: tables_of(alloc, resources, most, lacks),
        elements: elements_of(alloc, resources, most, lacks),
        memories: memories_of(alloc, resources, most, lacks),
        data: data_of(resources),
        memory: first_memory(resources),
        table: first_table(resources),
    })
}

// The codes of numbers and of abstract types, each at its own place.
fn put_alone(flat: &mut Vec<u32>, lacks: &mut bool) -> bool
    requires { flat.old.items ≡ [] }
    ensures alone { result ≡ true → StandAlone flat.new.items }
    ensures many { result ≡ true → length flat.new.items ≡ 40 }
{
    for code in 0..DEFINED {
        let Ok(()) = flat.push(code) else {
            *lacks = true;
            return false;
        };
    }
    true
}

// Puts the codes of types behind the others, if all have codes.
pub(crate) fn put_codes(flat: &mut Vec<u32>, written: &[ValType], lacks: &mut bool) -> bool
    ensures codes { result ≡ true → (cs : List ℕ) × (flat.new.items ≡ flat.old.items ++ cs)
        × ((m : Meaning) → types_in m written.now ≡ types m.ids cs) }
    ensures more { IsMore flat.old.items flat.new.items (length written.now) }
{
    for ty in written {
        let code = code_of(ty);
        if code >= NO_CODE {
            return false;
        }
        let Ok(()) = flat.push(code) else {
            *lacks = true;
            return false;
        };
    }
    true
}

// A signature that is not for use.
pub(crate) fn unusable() -> Sig
    ensures { result.param_count ≡ 0xffffffff }
{
    Sig {
        params: 0,
        param_count: 0xffffffff,
        results: 0,
        result_count: 0,
    }
}

// The signature of the type at an index, with its types behind the other codes, if codes stand for all and there is room for them.
fn sig_of<R: WasmModuleResources>(
    resources: &R,
    at: u32,
    flat: &mut Vec<u32>,
    most: u32,
    lacks: &mut bool,
) -> Sig
    requires { length flat.old.items ≤ most }
    ensures sig { IsSigIn (R.meaning resources.now).ids (R.meaning resources.now).«module» flat.new.items at result }
    ensures more { IsMore flat.old.items flat.new.items (most - length flat.old.items) }
{
    let Some(function) = function_at(resources, at) else {
        return unusable();
    };
    let room = most as usize - flat.as_slice().len();
    let params = function.params();
    let results = function.results();
    if params.len() > room || results.len() > room - params.len() {
        return unusable();
    }
    let from = flat.as_slice().len();
    if !put_codes(flat, params, lacks) {
        return unusable();
    }
    let middle = flat.as_slice().len();
    if !put_codes(flat, results, lacks) {
        return unusable();
    }
    Sig {
        params: from as u32,
        param_count: params.len() as u32,
        results: middle as u32,
        result_count: results.len() as u32,
    }
}

// The signatures of types, in order, as far as there is memory.
fn sign_all<R: WasmModuleResources>(
    resources: &R,
    flat: &mut Vec<u32>,
    types: &mut Vec<Sig>,
    most: u32,
    lacks: &mut bool,
)
    requires none { types.old.items ≡ [] }
    requires within { length flat.old.items ≤ most }
    ensures types { let m = R.meaning resources.now in AreSigsIn m.ids m.«module» flat.new.items types.new.items }
    ensures more { IsMore flat.old.items flat.new.items most }
    ensures within { length flat.new.items ≤ most }
{
    for at in 0..most {
        if resources.sub_type_at(at).is_none() {
            return;
        }
        let sig = sig_of(resources, at, flat, most, lacks);
        let Ok(()) = types.push(sig) else {
            *lacks = true;
            return;
        };
    }
}

// Functions by the indices of their types, as far as there is memory.
fn functions_of<R: WasmModuleResources>(
    alloc: Global,
    resources: &R,
    most: u32,
    lacks: &mut bool,
) -> Vec<u32>
    ensures types { AreFunctionsIn (R.meaning resources.now).«module» result.items }
    ensures few { length result.items ≤ most }
{
    let mut functions = Vec::new(alloc);
    for at in 0..most {
        let Some(ty) = resources.type_index_of_function(at) else {
            return functions;
        };
        let Ok(()) = functions.push(ty) else {
            *lacks = true;
            return functions;
        };
    }
    functions
}

// Functions by their signatures, as far as there is memory: so a call looks up one thing and not two.
fn callees_of(alloc: Global, functions: &[u32], types: &[Sig], lacks: &mut bool) -> Vec<Sig>
    ensures { AreCalleesOf functions.now types.now result.items }
{
    let mut callees = Vec::new(alloc);
    for x in 0..functions.len() {
        let ty = functions[x] as usize;
        if ty >= types.len() {
            return callees;
        }
        let Ok(()) = callees.push(types[ty]) else {
            *lacks = true;
            return callees;
        };
    }
    callees
}

// Whether code may refer to each of so many functions, as far as there is memory.
fn referenced_of<R: WasmModuleResources>(
    alloc: Global,
    resources: &R,
    count: u32,
    lacks: &mut bool,
) -> Vec<bool>
    ensures { AreReferencedIn (R.meaning resources.now).«module» result.items }
{
    let mut referenced = Vec::new(alloc);
    for at in 0..count {
        let may = resources.is_function_referenced(at);
        let Ok(()) = referenced.push(may) else {
            *lacks = true;
            return referenced;
        };
    }
    referenced
}

// Globals, as far as there is memory.
fn globals_of<R: WasmModuleResources>(
    alloc: Global,
    resources: &R,
    most: u32,
    lacks: &mut bool,
) -> Vec<Held>
    ensures { let m = R.meaning resources.now in AreGlobalsIn m.ids m.«module» result.items }
{
    let mut globals = Vec::new(alloc);
    for at in 0..most {
        let Some(global) = resources.global_at(at) else {
            return globals;
        };
        let held = Held {
            ty: code_of(&global.content_type),
            mutable: global.mutable,
        };
        let Ok(()) = globals.push(held) else {
            *lacks = true;
            return globals;
        };
    }
    globals
}

// The code of the addresses of memory 0.
fn first_memory<R: WasmModuleResources>(resources: &R) -> u32
    ensures { result < no_code → HasMemoryAt (R.meaning resources.now).«module» 0 result }
{
    let Some(memory) = resources.memory_at(0) else {
        return NO_CODE;
    };
    address_of(memory.memory64)
}

// The code of the indices of table 0, if it is one of functions.
fn first_table<R: WasmModuleResources>(resources: &R) -> u32
    ensures { result < no_code → HasTableAt (R.meaning resources.now).«module» 0 result }
{
    let Some(table) = resources.table_at(0) else {
        return NO_CODE;
    };
    if !is_of_functions(resources, table.element_type) {
        return NO_CODE;
    }
    address_of(table.table64)
}

// Whether references of a type are references to functions.
fn is_of_functions<R: WasmModuleResources>(resources: &R, element: RefType) -> bool
    ensures { IsTrue result ↔ Below (reference_in (R.meaning resources.now) element) (ref true (abstract false func)) }
{
    let functions = HeapType::Abstract {
        shared: false,
        ty: AbstractHeapType::Func,
    };
    match RefType::new(true, functions) {
        Some(functions) => resources.is_subtype(ValType::Ref(element), ValType::Ref(functions)),
        None => unreachable!(),
    }
}
