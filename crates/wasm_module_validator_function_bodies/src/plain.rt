//! Bodies judged in one loop over codes of operands.

ghost use Rattle.std.specs.Prelude.{◌≡◌, ◌<◌, ◌≤◌, ◌++◌, ◌⊎◌, ℕ, true, IfSome, length, get_or, replicate};
ghost use Rattle.wasm_operator_validator_fast_tables.specs.Tables.{Allows, AllowsLists, AllowsReferences, AllowsVectors, HasDefault};
ghost use Rattle.wasm_module_validator_function_bodies.specs.Locals.{judged_by};
ghost use Rattle.wasm_module_validator_function_bodies.specs.Functions.{SpellsValidFunction};
ghost use Rattle.wasm_module_validator_function_bodies.specs.Plain.{AreOfSame, TakesGroup, TakesAll, Begins, IsJudgeOf};

use std::alloc::Global;
use wasm_operator_validator_driver::WasmModuleResources;
use wasm_operator_validator_fast_loop::Room;
use wasm_operator_validator_fast_tables::{
    Known, NO_CODE, Order, Sig, Tables, has_default, known_of, part, value_at,
};
use wasm_operators_bodies::FunctionBody;
use wasm_types::{Limits, WasmFeatures};
use wasm_types_decoding::short_u32_at;

/// Judges bodies of one module in one loop over codes of operands, and says of each no more than that it is valid, or nothing. It keeps
/// tables of the module, made once, and says nothing of a body that uses what they do not tell: then a [`FuncValidator`](crate::FuncValidator) does.
#[derive(Drop)]
pub struct PlainJudge {
    pub(crate) tables: Tables,
    room: Room,
    pub(crate) usable: bool,
    // Whether a growth was refused while the tables were made, and whether one was then or while the last body was judged.
    lacks_tables: bool,
    lacks: bool,
}

impl PlainJudge {
    /// One for a module, as far as so many entries of each of its tables tell. It says nothing of any body if a feature that the loop asks is
    /// off, or a growth was refused: then [`PlainJudge::lacks_memory`] tells that of each body.
    pub fn new<R: WasmModuleResources>(
        alloc: Global,
        resources: &R,
        features: WasmFeatures,
        most: u32,
    ) -> PlainJudge
        ensures { IsJudgeOf (R.meaning resources.now).«module» features.0 result }
    {
        let mut lacks = false;
        if allows(features) {
            if let Some(known) = known_of(alloc, resources, most, &mut lacks) {
                return PlainJudge {
                    tables: first_tables(alloc, known, features),
                    room: Room::new(alloc),
                    usable: !lacks,
                    lacks_tables: lacks,
                    lacks,
                };
            }
        }
        PlainJudge {
            tables: first_tables(alloc, nothing_known(alloc), features),
            room: Room::new(alloc),
            usable: false,
            lacks_tables: lacks,
            lacks,
        }
    }

    /// Whether the bytes of a body spell a valid function of the type at an index of the module's types, by these features and limits. It may
    /// say no of a valid one too: then [`FuncValidator::validate`](crate::FuncValidator::validate) tells.
    pub fn accepts<R: WasmModuleResources>(
        &mut self,
        resources: &R,
        ty: u32,
        features: WasmFeatures,
        limits: Limits,
        body: &FunctionBody<'_>,
    ) -> bool
        requires { IsJudgeOf (R.meaning resources.now).«module» features.0 self.old }
        ensures valid { result ≡ true
            → SpellsValidFunction (judged_by features.0 limits) (R.meaning resources.now).«module» ty body.now.rest }
        ensures stays { IsJudgeOf (R.meaning resources.now).«module» features.0 self.new }
    {
        self.lacks = self.lacks_tables;
        let Some(sub_type) = resources.sub_type_at(ty) else {
            return false;
        };
        let bytes = body.as_bytes();
        if !self.usable
            || sub_type.composite_type.shared
            || bytes.len() > limits.body_bytes as usize
            || !allows_lists(limits)
        {
            return false;
        }
        let Some(start) = begin(&mut self.tables, ty, bytes, limits, &mut self.lacks) else {
            return false;
        };
        let valid = self.room.accepts(&self.tables, bytes, start);
        self.lacks = self.room.lacks_memory();
        valid
    }

    /// Whether a growth was refused while the tables were made or the last body was judged. Then it tells nothing of the body.
    pub fn lacks_memory(&self) -> bool {
        self.lacks
    }
}

// How many entries each table of any module may have, and how many none may have more.
const LEAST: u64 = 64;

const MOST: u64 = 16_000_000;

/// How many entries each table may have of a module with so many bodies, of so many bytes in all: so making the tables takes no longer than
/// judging the bodies. A module without bodies needs no tables.
pub fn entries_for(bodies: u64, bytes: u64) -> u32 {
    if bodies == 0 {
        return 0;
    }
    let entries = LEAST
        .saturating_add(bodies.saturating_mul(16))
        .saturating_add(bytes / 4);
    entries.min(MOST) as u32
}

// Tables of a module and of no body yet.
fn first_tables(alloc: Global, known: Known, features: WasmFeatures) -> Tables
    ensures known { result.known ≡ known }
    ensures features { result.features ≡ features }
    ensures references { result.references ≡ true → AllowsReferences features.0 }
    ensures vectors { result.vectors ≡ true → AllowsVectors features.0 }
{
    Tables {
        known,
        locals: Vec::new(alloc),
        certain: 0,
        results: Sig {
            params: 0,
            param_count: 0,
            results: 0,
            result_count: 0,
        },
        features,
        references: allows_references(features),
        vectors: allows_vectors(features),
    }
}

// Tables that tell nothing.
fn nothing_known(alloc: Global) -> Known {
    Known {
        flat: Vec::new(alloc),
        types: Vec::new(alloc),
        named: Vec::new(alloc),
        fields: Vec::new(alloc),
        order: Order::new(Vec::new(alloc)),
        functions: Vec::new(alloc),
        callees: Vec::new(alloc),
        referenced: Vec::new(alloc),
        globals: Vec::new(alloc),
        tags: Vec::new(alloc),
        tables: Vec::new(alloc),
        elements: Vec::new(alloc),
        memories: Vec::new(alloc),
        data: 0,
        memory: NO_CODE,
        table: NO_CODE,
    }
}

// Whether these are features that the loop asks.
fn allows(features: WasmFeatures) -> bool
    ensures { result ≡ true → Allows features.0 }
{
    features.floats()
        && features.multi_value()
        && features.sign_extension()
        && features.saturating_float_to_int()
        && features.bulk_memory_opt()
}

// Whether these are the features that references ask besides.
fn allows_references(features: WasmFeatures) -> bool
    ensures { result ≡ true → AllowsReferences features.0 }
{
    features.reference_types()
        && features.function_references()
        && features.gc()
        && features.gc_types()
        && features.exceptions()
        && !features.custom_descriptors()
}

// Whether these have vectors, and operators on them are judged.
fn allows_vectors(features: WasmFeatures) -> bool
    ensures { result ≡ true → AllowsVectors features.0 }
{
    features.simd() && features.vector_operators()
}

// Whether operators may carry the lists that the loop takes.
fn allows_lists(limits: Limits) -> bool
    ensures { result ≡ true → AllowsLists limits }
{
    limits.catches >= 100 && limits.select_types >= 1
}

// Makes the tables those of a body of the type at an index, and gives the offset behind its locals. It does not where there are many more
// locals behind the parameters than bytes: so what a body takes is as long as its bytes and its parameters.
fn begin(
    tables: &mut Tables,
    ty: u32,
    bytes: &[u8],
    limits: Limits,
    lacks: &mut bool,
) -> Option<usize>
    ensures begun { IfSome result (Begins tables.old tables.new ty bytes.now limits.locals) }
    ensures same { AreOfSame tables.old tables.new }
{
    let index = ty as usize;
    let types = tables.known.types.as_slice();
    if index >= types.len() {
        return None;
    }
    let sig = types[index];
    let Some(params) = part(tables.known.flat.as_slice(), sig.params, sig.param_count) else {
        return None;
    };
    let given = params.len();
    let most = bytes.len().saturating_add(64).saturating_add(given);
    tables.locals.clear();
    let Ok(()) = tables.locals.extend_from_slice(params) else {
        *lacks = true;
        return None;
    };
    let Some(start) = take_locals(tables, bytes, most, lacks) else {
        return None;
    };
    if tables.locals.as_slice().len() > limits.locals as usize {
        return None;
    }
    tables.certain = certain_of(tables.locals.as_slice(), given);
    tables.results = sig;
    Some(start)
}

// Puts the locals at the front of a body behind those that there are, as codes, and gives the offset behind them, where there are no more
// than so many then.
fn take_locals(tables: &mut Tables, bytes: &[u8], most: usize, lacks: &mut bool) -> Option<usize>
    ensures taken { IfSome result (TakesAll tables.old bytes.now tables.old.locals.items tables.new.locals.items) }
    ensures same { AreOfSame tables.old tables.new }
{
    let Some((count, first)) = short_u32_at(bytes, 0) else {
        return None;
    };
    let mut end = first;
    for _ in 0..count {
        let Some(next) = take_group(tables, bytes, end, most, lacks) else {
            return None;
        };
        end = next;
    }
    Some(end)
}

// Puts one group of locals behind those that there are.
fn take_group(
    tables: &mut Tables,
    bytes: &[u8],
    at: usize,
    most: usize,
    lacks: &mut bool,
) -> Option<usize>
    requires { at ≤ length bytes.now }
    ensures taken { IfSome result (TakesGroup tables.old bytes.now at tables.old.locals.items tables.new.locals.items) }
    ensures same { AreOfSame tables.old tables.new }
{
    let Some((count, middle)) = short_u32_at(bytes, at) else {
        return None;
    };
    let Some((code, _place, end)) = value_at(tables, bytes, middle) else {
        return None;
    };
    let held = tables.locals.as_slice().len();
    if held > most || count as usize > most - held {
        return None;
    }
    if !put_times(&mut tables.locals, count, code) {
        *lacks = true;
        return None;
    }
    Some(end)
}

// How many locals from the first on have values from the start: so many parameters, and those behind them up to one of references that are never
// null.
fn certain_of(locals: &[u32], params: usize) -> usize
    ensures { (x : ℕ) → x < length locals.now → x < result → (x < params) ⊎ HasDefault (get_or locals.now x 0) }
{
    let mut certain = params;
    while certain < locals.len() {
        if !has_default(locals[certain]) {
            return certain;
        }
        certain += 1;
    }
    certain
}

// Puts so many of one code behind the others. False if there is no memory.
fn put_times(locals: &mut Vec<u32>, count: u32, code: u32) -> bool
    ensures { result ≡ true → locals.new.items ≡ locals.old.items ++ replicate count code }
{
    let held = locals.as_slice().len();
    locals.resize(held + count as usize, code).is_ok()
}
