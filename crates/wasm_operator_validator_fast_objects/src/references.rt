//! References of any kind: nulls, functions, tests for null, comparisons, and branches on null.

ghost use Rattle.std.specs.Prelude.{◌≡◌, ◌<◌, ◌≤◌, ◌-◌, ◌/◌, ◌∷◌, ◌++◌, [], true, false, List, length, IfSome};
ghost use Rattle.wasm_types.specs.trees.Trees.{TypeTree};
ghost use Rattle.wasm_types.specs.trees.Types.{ref};
ghost use Rattle.wasm_operators_frequent.specs.Short.{Begins};
ghost use Rattle.wasm_operator_validator_fast_steps.specs.Labels.{Takes};
ghost use Rattle.wasm_operator_validator_fast_tables.specs.Values.{heap_of, type_of};
ghost use Rattle.wasm_operator_validator_fast_tables.specs.Loop.{Leads, all};

use wasm_operator_validator_fast_steps::indices::index_at;
use wasm_operator_validator_fast_tables::{
    EQ, NO_CODE, Opens, Stack, Tables, frame_at, heap_at, label, value_at,
};
use wasm_types_decoding::short_u32_at;

/// The code of references that are no nulls, to what those of a code refer to.
#[inline(always)]
pub fn never_null(code: u32) -> u32
    ensures { 8 ≤ code → (ids : List TypeTree) → type_of ids result ≡ ref false (heap_of ids ((code - 8) / 2)) }
{
    if code % 2 == 0 {
        return code + 1;
    }
    code
}

/// The code of references that may be null, to what those of a code refer to.
#[inline(always)]
pub fn perhaps_null(code: u32) -> u32
    ensures { 8 ≤ code → (ids : List TypeTree) → type_of ids result ≡ ref true (heap_of ids ((code - 8) / 2)) }
{
    if code % 2 == 0 {
        return code;
    }
    code - 1
}

/// What a branch to the frame behind so many takes.
#[inline(always)]
pub fn label_at<'a>(tables: &'a Tables, opens: &Opens, depth: u32) -> Option<&'a [u32]>
    ensures { IfSome result (λ types. Takes tables.now.known.flat.items (all opens.now) types.now depth) }
{
    let Some(frame) = frame_at(opens, depth) else {
        return None;
    };
    label(tables.known.flat.as_slice(), frame.kind, frame.sig)
}

/// Types without the last, and the last.
#[inline(always)]
pub fn last_of(types: &[u32]) -> Option<(&[u32], u32)>
    ensures { IfSome result (λ r. types.now ≡ r.0.now ++ r.1 ∷ []) }
{
    if types.len() == 0 {
        return None;
    }
    let last = types.len() - 1;
    Some((&types[..last], types[last]))
}

/// A null.
pub fn ref_null(
    tables: &Tables,
    bytes: &[u8],
    at: usize,
    stack: &mut Stack,
    opens: &Opens,
) -> Option<usize>
    requires { Begins bytes.now at 0xd0 }
    ensures leads { IfSome result (λ end. Leads bytes.now tables.now at (all opens.now) stack.old
        end (all opens.now) stack.new) }
    ensures forward { IfSome result (λ end. at < end) }
    ensures inside { IfSome result (λ end. end ≤ length bytes.now) }
{
    if !tables.references {
        return None;
    }
    let Some((code, top, end)) = heap_at(tables, bytes, at + 1) else {
        return None;
    };
    if !stack.put(code) {
        return None;
    }
    Some(end)
}

/// Whether a reference is null.
pub fn ref_is_null(
    tables: &Tables,
    bytes: &[u8],
    at: usize,
    stack: &mut Stack,
    opens: &Opens,
) -> Option<usize>
    requires { Begins bytes.now at 0xd1 }
    ensures leads { IfSome result (λ end. Leads bytes.now tables.now at (all opens.now) stack.old
        end (all opens.now) stack.new) }
    ensures forward { IfSome result (λ end. at < end) }
    ensures inside { IfSome result (λ end. end ≤ length bytes.now) }
{
    if !tables.references {
        return None;
    }
    let Some(code) = stack.top() else {
        return None;
    };
    if code < 8 || !stack.change(code, 0) {
        return None;
    }
    Some(at + 1)
}

/// A reference stays that is no null.
pub fn ref_as_non_null(
    tables: &Tables,
    bytes: &[u8],
    at: usize,
    stack: &mut Stack,
    opens: &Opens,
) -> Option<usize>
    requires { Begins bytes.now at 0xd4 }
    ensures leads { IfSome result (λ end. Leads bytes.now tables.now at (all opens.now) stack.old
        end (all opens.now) stack.new) }
    ensures forward { IfSome result (λ end. at < end) }
    ensures inside { IfSome result (λ end. end ≤ length bytes.now) }
{
    if !tables.references {
        return None;
    }
    let Some(code) = stack.top() else {
        return None;
    };
    if code < 8 || !stack.change(code, never_null(code)) {
        return None;
    }
    Some(at + 1)
}

/// A reference to a function that code may refer to.
pub fn ref_func(
    tables: &Tables,
    bytes: &[u8],
    at: usize,
    stack: &mut Stack,
    opens: &Opens,
) -> Option<usize>
    requires { Begins bytes.now at 0xd2 }
    ensures leads { IfSome result (λ end. Leads bytes.now tables.now at (all opens.now) stack.old
        end (all opens.now) stack.new) }
    ensures forward { IfSome result (λ end. at < end) }
    ensures inside { IfSome result (λ end. end ≤ length bytes.now) }
{
    let Some((index, end)) = index_at(bytes, at + 1) else {
        return None;
    };
    let index = index as usize;
    let functions = tables.known.functions.as_slice();
    let referenced = tables.known.referenced.as_slice();
    if !tables.references || index >= functions.len() || index >= referenced.len() {
        return None;
    }
    let ty = functions[index] as usize;
    let named = tables.known.named.as_slice();
    if !referenced[index] || ty >= named.len() {
        return None;
    }
    let code = named[ty].code;
    if code >= NO_CODE || !stack.put(code + 1) {
        return None;
    }
    Some(end)
}

/// Whether two references are the same.
pub fn ref_eq(
    tables: &Tables,
    bytes: &[u8],
    at: usize,
    stack: &mut Stack,
    opens: &Opens,
) -> Option<usize>
    requires { Begins bytes.now at 0xd3 }
    ensures leads { IfSome result (λ end. Leads bytes.now tables.now at (all opens.now) stack.old
        end (all opens.now) stack.new) }
    ensures forward { IfSome result (λ end. at < end) }
    ensures inside { IfSome result (λ end. end ≤ length bytes.now) }
{
    let order = &tables.known.order;
    if !tables.references
        || !stack.take_below(order, EQ)
        || !stack.take_below(order, EQ)
        || !stack.put(0)
    {
        return None;
    }
    Some(at + 1)
}

/// A branch if a reference is null, which stays if it is not.
pub fn br_on_null(
    tables: &Tables,
    bytes: &[u8],
    at: usize,
    stack: &mut Stack,
    opens: &Opens,
) -> Option<usize>
    requires { Begins bytes.now at 0xd5 }
    ensures leads { IfSome result (λ end. Leads bytes.now tables.now at (all opens.now) stack.old
        end (all opens.now) stack.new) }
    ensures forward { IfSome result (λ end. at < end) }
    ensures inside { IfSome result (λ end. end ≤ length bytes.now) }
{
    if !tables.references {
        return None;
    }
    let Some((depth, end)) = index_at(bytes, at + 1) else {
        return None;
    };
    let Some(types) = label_at(tables, opens, depth) else {
        return None;
    };
    let Some(code) = stack.top() else {
        return None;
    };
    if code < 8 || !stack.take(code) {
        return None;
    }
    if !stack.take_all(&tables.known.order, types)
        || !stack.put_all(types)
        || !stack.put(never_null(code))
    {
        return None;
    }
    Some(end)
}

/// A branch if a reference is no null, which the branch takes.
pub fn br_on_non_null(
    tables: &Tables,
    bytes: &[u8],
    at: usize,
    stack: &mut Stack,
    opens: &Opens,
) -> Option<usize>
    requires { Begins bytes.now at 0xd6 }
    ensures leads { IfSome result (λ end. Leads bytes.now tables.now at (all opens.now) stack.old
        end (all opens.now) stack.new) }
    ensures forward { IfSome result (λ end. at < end) }
    ensures inside { IfSome result (λ end. end ≤ length bytes.now) }
{
    if !tables.references {
        return None;
    }
    let Some((depth, end)) = index_at(bytes, at + 1) else {
        return None;
    };
    let Some(types) = label_at(tables, opens, depth) else {
        return None;
    };
    let Some((under, code)) = last_of(types) else {
        return None;
    };
    let order = &tables.known.order;
    if code < 8
        || !stack.take_below(order, perhaps_null(code))
        || !stack.take_all(order, under)
        || !stack.put_all(under)
    {
        return None;
    }
    Some(end)
}

/// One of two operands of a type that is written.
pub fn select_typed(
    tables: &Tables,
    bytes: &[u8],
    at: usize,
    stack: &mut Stack,
    opens: &Opens,
) -> Option<usize>
    requires { Begins bytes.now at 0x1c }
    ensures leads { IfSome result (λ end. Leads bytes.now tables.now at (all opens.now) stack.old
        end (all opens.now) stack.new) }
    ensures forward { IfSome result (λ end. at < end) }
    ensures inside { IfSome result (λ end. end ≤ length bytes.now) }
{
    if !tables.references {
        return None;
    }
    let Some((count, first)) = short_u32_at(bytes, at + 1) else {
        return None;
    };
    if count != 1 {
        return None;
    }
    let Some((code, place, end)) = value_at(tables, bytes, first) else {
        return None;
    };
    let order = &tables.known.order;
    if !stack.take(0)
        || !stack.take_below(order, code)
        || !stack.take_below(order, code)
        || !stack.put(code)
    {
        return None;
    }
    Some(end)
}
