//! Loads and stores of vectors.

ghost use Rattle.std.specs.Prelude.{◌≡◌, ◌<◌, ◌≤◌, ◌∷◌, ℕ, List, length, [], IfSome};
ghost use Rattle.wasm_operator_validator_fast_tables.specs.Loop.{Leads, all};
ghost use Rattle.wasm_operator_validator_fast_objects.specs.Vectors.{IsVectorAt};

use crate::vector_shape::{NO_ALIGNMENT, lane_load_shape, lane_store_shape, vector_load_shape};
use crate::vectors::lane_end;
use wasm_operator_validator_fast_steps::indices::argument_at;
use wasm_operator_validator_fast_tables::{Opens, Stack, Tables, VECTOR};

/// A load.
#[inline(always)]
pub(crate) fn vector_load(
    code: u32,
    middle: usize,
    tables: &Tables,
    bytes: &[u8],
    at: usize,
    stack: &mut Stack,
    opens: &Opens,
) -> Option<usize>
    requires { IsVectorAt bytes.now tables.now at code middle }
    ensures leads { IfSome result (λ end. Leads bytes.now tables.now at (all opens.now) stack.old
        end (all opens.now) stack.new) }
    ensures forward { IfSome result (λ end. at < end) }
    ensures inside { IfSome result (λ end. end ≤ length bytes.now) }
{
    let natural = vector_load_shape(code);
    if natural >= NO_ALIGNMENT {
        return None;
    }
    let Some((end, address)) = argument_at(bytes, middle, natural, tables) else {
        return None;
    };
    if !stack.change(address, VECTOR) {
        return None;
    }
    Some(end)
}

/// A store.
#[inline(always)]
pub(crate) fn vector_store(
    code: u32,
    middle: usize,
    tables: &Tables,
    bytes: &[u8],
    at: usize,
    stack: &mut Stack,
    opens: &Opens,
) -> Option<usize>
    requires begins { IsVectorAt bytes.now tables.now at code middle }
    requires class { code ≡ 0x0b }
    ensures leads { IfSome result (λ end. Leads bytes.now tables.now at (all opens.now) stack.old
        end (all opens.now) stack.new) }
    ensures forward { IfSome result (λ end. at < end) }
    ensures inside { IfSome result (λ end. end ≤ length bytes.now) }
{
    let Some((end, address)) = argument_at(bytes, middle, 4, tables) else {
        return None;
    };
    if !stack.take(VECTOR) || !stack.take(address) {
        return None;
    }
    Some(end)
}

/// A load of one lane.
#[inline(always)]
pub(crate) fn lane_load(
    code: u32,
    middle: usize,
    tables: &Tables,
    bytes: &[u8],
    at: usize,
    stack: &mut Stack,
    opens: &Opens,
) -> Option<usize>
    requires { IsVectorAt bytes.now tables.now at code middle }
    ensures leads { IfSome result (λ end. Leads bytes.now tables.now at (all opens.now) stack.old
        end (all opens.now) stack.new) }
    ensures forward { IfSome result (λ end. at < end) }
    ensures inside { IfSome result (λ end. end ≤ length bytes.now) }
{
    let (natural, lanes) = lane_load_shape(code);
    if natural >= NO_ALIGNMENT {
        return None;
    }
    let Some((next, address)) = argument_at(bytes, middle, natural, tables) else {
        return None;
    };
    let Some(end) = lane_end(bytes, next, lanes) else {
        return None;
    };
    if !stack.take(VECTOR) || !stack.change(address, VECTOR) {
        return None;
    }
    Some(end)
}

/// A store of one lane.
#[inline(always)]
pub(crate) fn lane_store(
    code: u32,
    middle: usize,
    tables: &Tables,
    bytes: &[u8],
    at: usize,
    stack: &mut Stack,
    opens: &Opens,
) -> Option<usize>
    requires { IsVectorAt bytes.now tables.now at code middle }
    ensures leads { IfSome result (λ end. Leads bytes.now tables.now at (all opens.now) stack.old
        end (all opens.now) stack.new) }
    ensures forward { IfSome result (λ end. at < end) }
    ensures inside { IfSome result (λ end. end ≤ length bytes.now) }
{
    let (natural, lanes) = lane_store_shape(code);
    if natural >= NO_ALIGNMENT {
        return None;
    }
    let Some((next, address)) = argument_at(bytes, middle, natural, tables) else {
        return None;
    };
    let Some(end) = lane_end(bytes, next, lanes) else {
        return None;
    };
    if !stack.take(VECTOR) || !stack.take(address) {
        return None;
    }
    Some(end)
}
