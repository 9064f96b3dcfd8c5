//! Operators on vectors, by their codes after the prefix `fd`.

ghost use Rattle.std.specs.Prelude.{◌≡◌, ◌<◌, ◌≤◌, ◌+◌, ◌∷◌, ℕ, true, List, length, get_or, [], IfSome};
ghost use Rattle.wasm_operators_frequent.specs.Short.{Begins};
ghost use Rattle.wasm_operator_validator_fast_tables.specs.Loop.{Leads, all};
ghost use Rattle.wasm_operator_validator_fast_objects.specs.Vectors.{IsLanesAt, MayRelax, IsVectorAt, IsLaneThere, AreLanesThere};

use crate::vector_memory::{lane_load, lane_store, vector_load, vector_store};
use crate::vector_shape::{
    VectorClass, extract_shape, replace_shape, splat_shape, vector_class_of,
};
use wasm_operator_validator_fast_steps::indices::index_at;
use wasm_operator_validator_fast_tables::{NO_CODE, Opens, Stack, Tables, VECTOR};
use wasm_types::WasmFeatures;

/// The offset after the index of one of so many lanes.
#[inline(always)]
pub(crate) fn lane_end(bytes: &[u8], at: usize, lanes: u8) -> Option<usize>
    ensures { IfSome result (λ end. IsLaneThere bytes.now at lanes end) }
{
    if at >= bytes.len() || bytes[at] >= lanes {
        return None;
    }
    Some(at + 1)
}

// The offset after the 16 lanes of a shuffle.
#[inline(always)]
fn lanes_end(bytes: &[u8], at: usize) -> Option<usize>
    requires { at ≤ length bytes.now }
    ensures { IfSome result (λ end. AreLanesThere bytes.now at end) }
{
    if bytes.len() - at < 16 {
        return None;
    }
    for k in 0..16 {
        if bytes[at + k] >= 32 {
            return None;
        }
    }
    Some(at + 16)
}

// Whether features allow the operator with this code, if they allow operators on vectors.
#[inline(always)]
fn may_relax(code: u32, features: WasmFeatures) -> bool
    ensures { result ≡ true → MayRelax features.0 code }
{
    code < 0x100 || features.relaxed_simd()
}

/// One of any kind.
pub fn vector(
    tables: &Tables,
    bytes: &[u8],
    at: usize,
    stack: &mut Stack,
    opens: &Opens,
) -> Option<usize>
    requires { Begins bytes.now at 0xfd }
    ensures leads { IfSome result (λ end. Leads bytes.now tables.now at (all opens.now) stack.old
        end (all opens.now) stack.new) }
    ensures forward { IfSome result (λ end. at < end) }
    ensures inside { IfSome result (λ end. end ≤ length bytes.now) }
{
    if !tables.vectors {
        return None;
    }
    let Some((code, middle)) = index_at(bytes, at + 1) else {
        return None;
    };
    if !may_relax(code, tables.features) {
        return None;
    }
    match vector_class_of(code) {
        VectorClass::Unary => unary(code, middle, tables, bytes, at, stack, opens),
        VectorClass::Binary => binary(code, middle, tables, bytes, at, stack, opens),
        VectorClass::Ternary => ternary(code, middle, tables, bytes, at, stack, opens),
        VectorClass::Test => test(code, middle, tables, bytes, at, stack, opens),
        VectorClass::Shift => shift(code, middle, tables, bytes, at, stack, opens),
        VectorClass::Splat => splat(code, middle, tables, bytes, at, stack, opens),
        VectorClass::Const => constant(code, middle, tables, bytes, at, stack, opens),
        VectorClass::Shuffle => shuffle(code, middle, tables, bytes, at, stack, opens),
        VectorClass::Extract => extract(code, middle, tables, bytes, at, stack, opens),
        VectorClass::Replace => replace(code, middle, tables, bytes, at, stack, opens),
        VectorClass::Load => vector_load(code, middle, tables, bytes, at, stack, opens),
        VectorClass::Store => vector_store(code, middle, tables, bytes, at, stack, opens),
        VectorClass::LoadLane => lane_load(code, middle, tables, bytes, at, stack, opens),
        VectorClass::StoreLane => lane_store(code, middle, tables, bytes, at, stack, opens),
        VectorClass::Other => None,
    }
}

// One that makes a vector of one.
#[inline(always)]
fn unary(
    code: u32,
    middle: usize,
    tables: &Tables,
    bytes: &[u8],
    at: usize,
    stack: &mut Stack,
    opens: &Opens,
) -> Option<usize>
    requires begins { IsVectorAt bytes.now tables.now at code middle }
    requires class { IsLanesAt code (4 ∷ []) (4 ∷ []) }
    ensures leads { IfSome result (λ end. Leads bytes.now tables.now at (all opens.now) stack.old
        end (all opens.now) stack.new) }
    ensures forward { IfSome result (λ end. at < end) }
    ensures inside { IfSome result (λ end. end ≤ length bytes.now) }
{
    if !stack.has(VECTOR) {
        return None;
    }
    Some(middle)
}

// One that makes a vector of two.
#[inline(always)]
fn binary(
    code: u32,
    middle: usize,
    tables: &Tables,
    bytes: &[u8],
    at: usize,
    stack: &mut Stack,
    opens: &Opens,
) -> Option<usize>
    requires begins { IsVectorAt bytes.now tables.now at code middle }
    requires class { IsLanesAt code (4 ∷ 4 ∷ []) (4 ∷ []) }
    ensures leads { IfSome result (λ end. Leads bytes.now tables.now at (all opens.now) stack.old
        end (all opens.now) stack.new) }
    ensures forward { IfSome result (λ end. at < end) }
    ensures inside { IfSome result (λ end. end ≤ length bytes.now) }
{
    if !stack.combine(VECTOR, VECTOR) {
        return None;
    }
    Some(middle)
}

// One that makes a vector of three.
#[inline(always)]
fn ternary(
    code: u32,
    middle: usize,
    tables: &Tables,
    bytes: &[u8],
    at: usize,
    stack: &mut Stack,
    opens: &Opens,
) -> Option<usize>
    requires begins { IsVectorAt bytes.now tables.now at code middle }
    requires class { IsLanesAt code (4 ∷ 4 ∷ 4 ∷ []) (4 ∷ []) }
    ensures leads { IfSome result (λ end. Leads bytes.now tables.now at (all opens.now) stack.old
        end (all opens.now) stack.new) }
    ensures forward { IfSome result (λ end. at < end) }
    ensures inside { IfSome result (λ end. end ≤ length bytes.now) }
{
    if !stack.take(VECTOR) || !stack.combine(VECTOR, VECTOR) {
        return None;
    }
    Some(middle)
}

// One that makes a number of a vector.
#[inline(always)]
fn test(
    code: u32,
    middle: usize,
    tables: &Tables,
    bytes: &[u8],
    at: usize,
    stack: &mut Stack,
    opens: &Opens,
) -> Option<usize>
    requires begins { IsVectorAt bytes.now tables.now at code middle }
    requires class { IsLanesAt code (4 ∷ []) (0 ∷ []) }
    ensures leads { IfSome result (λ end. Leads bytes.now tables.now at (all opens.now) stack.old
        end (all opens.now) stack.new) }
    ensures forward { IfSome result (λ end. at < end) }
    ensures inside { IfSome result (λ end. end ≤ length bytes.now) }
{
    if !stack.change(VECTOR, 0) {
        return None;
    }
    Some(middle)
}

// One that makes a vector of one and a number.
#[inline(always)]
fn shift(
    code: u32,
    middle: usize,
    tables: &Tables,
    bytes: &[u8],
    at: usize,
    stack: &mut Stack,
    opens: &Opens,
) -> Option<usize>
    requires begins { IsVectorAt bytes.now tables.now at code middle }
    requires class { IsLanesAt code (4 ∷ 0 ∷ []) (4 ∷ []) }
    ensures leads { IfSome result (λ end. Leads bytes.now tables.now at (all opens.now) stack.old
        end (all opens.now) stack.new) }
    ensures forward { IfSome result (λ end. at < end) }
    ensures inside { IfSome result (λ end. end ≤ length bytes.now) }
{
    if !stack.take(0) || !stack.has(VECTOR) {
        return None;
    }
    Some(middle)
}

// One that makes a vector of a number.
#[inline(always)]
fn splat(
    code: u32,
    middle: usize,
    tables: &Tables,
    bytes: &[u8],
    at: usize,
    stack: &mut Stack,
    opens: &Opens,
) -> Option<usize>
    requires { IsVectorAt bytes.now tables.now at code middle }
    ensures leads { IfSome result (λ end. Leads bytes.now tables.now at (all opens.now) stack.old
        end (all opens.now) stack.new) }
    ensures forward { IfSome result (λ end. at < end) }
    ensures inside { IfSome result (λ end. end ≤ length bytes.now) }
{
    let takes = splat_shape(code);
    if takes >= NO_CODE || !stack.change(takes, VECTOR) {
        return None;
    }
    Some(middle)
}

// A constant.
#[inline(always)]
fn constant(
    code: u32,
    middle: usize,
    tables: &Tables,
    bytes: &[u8],
    at: usize,
    stack: &mut Stack,
    opens: &Opens,
) -> Option<usize>
    requires begins { IsVectorAt bytes.now tables.now at code middle }
    requires class { code ≡ 0x0c }
    ensures leads { IfSome result (λ end. Leads bytes.now tables.now at (all opens.now) stack.old
        end (all opens.now) stack.new) }
    ensures forward { IfSome result (λ end. at < end) }
    ensures inside { IfSome result (λ end. end ≤ length bytes.now) }
{
    if bytes.len() - middle < 16 || !stack.put(VECTOR) {
        return None;
    }
    Some(middle + 16)
}

// Lanes of two vectors in an order that is written.
#[inline(always)]
fn shuffle(
    code: u32,
    middle: usize,
    tables: &Tables,
    bytes: &[u8],
    at: usize,
    stack: &mut Stack,
    opens: &Opens,
) -> Option<usize>
    requires begins { IsVectorAt bytes.now tables.now at code middle }
    requires class { code ≡ 0x0d }
    ensures leads { IfSome result (λ end. Leads bytes.now tables.now at (all opens.now) stack.old
        end (all opens.now) stack.new) }
    ensures forward { IfSome result (λ end. at < end) }
    ensures inside { IfSome result (λ end. end ≤ length bytes.now) }
{
    let Some(end) = lanes_end(bytes, middle) else {
        return None;
    };
    if !stack.combine(VECTOR, VECTOR) {
        return None;
    }
    Some(end)
}

// One lane of a vector.
#[inline(always)]
fn extract(
    code: u32,
    middle: usize,
    tables: &Tables,
    bytes: &[u8],
    at: usize,
    stack: &mut Stack,
    opens: &Opens,
) -> Option<usize>
    requires { IsVectorAt bytes.now tables.now at code middle }
    ensures leads { IfSome result (λ end. Leads bytes.now tables.now at (all opens.now) stack.old
        end (all opens.now) stack.new) }
    ensures forward { IfSome result (λ end. at < end) }
    ensures inside { IfSome result (λ end. end ≤ length bytes.now) }
{
    let (lanes, gives) = extract_shape(code);
    if gives >= NO_CODE {
        return None;
    }
    let Some(end) = lane_end(bytes, middle, lanes) else {
        return None;
    };
    if !stack.change(VECTOR, gives) {
        return None;
    }
    Some(end)
}

// A vector with another number in one lane.
#[inline(always)]
fn replace(
    code: u32,
    middle: usize,
    tables: &Tables,
    bytes: &[u8],
    at: usize,
    stack: &mut Stack,
    opens: &Opens,
) -> Option<usize>
    requires { IsVectorAt bytes.now tables.now at code middle }
    ensures leads { IfSome result (λ end. Leads bytes.now tables.now at (all opens.now) stack.old
        end (all opens.now) stack.new) }
    ensures forward { IfSome result (λ end. at < end) }
    ensures inside { IfSome result (λ end. end ≤ length bytes.now) }
{
    let (lanes, takes) = replace_shape(code);
    if takes >= NO_CODE {
        return None;
    }
    let Some(end) = lane_end(bytes, middle, lanes) else {
        return None;
    };
    if !stack.take(takes) || !stack.has(VECTOR) {
        return None;
    }
    Some(end)
}
