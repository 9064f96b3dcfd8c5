//! Locals behind one that has no value from the start: one of references that are never null is read only after it was written, in its frame or
//! in those around it.

ghost use Rattle.std.specs.Prelude.{◌≡◌, ◌<◌, ◌≤◌, ◌-◌, true, length, get_or, IfSome};
ghost use Rattle.std.specs.Int.{bit_at};
ghost use Rattle.wasm_operators_frequent.specs.Short.{Begins};
ghost use Rattle.wasm_operator_validator_fast_tables.specs.Loop.{Leads, HasValue, all};
ghost use Rattle.wasm_operator_validator_fast_steps.specs.Late.{IsSet};

use crate::indices::index_at;
use wasm_operator_validator_fast_tables::{Open, Opens, Stack, Tables, has_default};

// Of so many locals from the first on that has no value from the start it is kept which have one.
const KEPT: usize = 64;

// Whether a local has a value in the innermost frame.
fn has_value(tables: &Tables, set: u64, index: usize) -> bool
    requires { index < length tables.now.locals.items }
    ensures { result ≡ true → HasValue tables.now set index }
{
    if index < tables.certain {
        return true;
    }
    if has_default(tables.locals[index]) {
        return true;
    }
    let place = index - tables.certain;
    if place >= KEPT {
        return false;
    }
    (set >> place) & 1 == 1
}

// The innermost frame with a value for a local. One of many, or of those that have one from the start, is not noted.
fn with_value(tables: &Tables, frame: Open, index: usize) -> Open
    ensures { IsSet tables.now frame index result }
{
    if index < tables.certain {
        return frame;
    }
    let place = index - tables.certain;
    if place >= KEPT {
        return frame;
    }
    Open {
        kind: frame.kind,
        base: frame.base,
        set: frame.set | (1 << place),
        sig: frame.sig,
    }
}

/// The value of a local, if it has one.
pub fn late_get(
    tables: &Tables,
    bytes: &[u8],
    at: usize,
    stack: &mut Stack,
    opens: &Opens,
) -> Option<usize>
    requires { Begins bytes.now at 0x20 }
    ensures leads { IfSome result (λ end. Leads bytes.now tables.now at (all opens.now) stack.old
        end (all opens.now) stack.new) }
    ensures forward { IfSome result (λ end. at < end) }
    ensures inside { IfSome result (λ end. end ≤ length bytes.now) }
{
    let Some((index, end)) = index_at(bytes, at + 1) else {
        return None;
    };
    let index = index as usize;
    let locals = tables.locals.as_slice();
    if index >= locals.len() || !has_value(tables, opens.inner().set, index) {
        return None;
    }
    if !stack.put(locals[index]) {
        return None;
    }
    Some(end)
}

/// A local takes a value, and has one from then on.
pub fn late_set(
    tables: &Tables,
    bytes: &[u8],
    at: usize,
    stack: &mut Stack,
    opens: &mut Opens,
) -> Option<usize>
    requires { Begins bytes.now at 0x21 }
    ensures leads { IfSome result (λ end. Leads bytes.now tables.now at (all opens.old) stack.old
        end (all opens.new) stack.new) }
    ensures forward { IfSome result (λ end. at < end) }
    ensures inside { IfSome result (λ end. end ≤ length bytes.now) }
{
    let Some((index, end)) = index_at(bytes, at + 1) else {
        return None;
    };
    let index = index as usize;
    let locals = tables.locals.as_slice();
    if index >= locals.len() || !stack.take_below(&tables.known.order, locals[index]) {
        return None;
    }
    let frame = with_value(tables, opens.inner(), index);
    opens.turn(frame);
    Some(end)
}

/// A local takes a value, which stays, and has one from then on.
pub fn late_tee(
    tables: &Tables,
    bytes: &[u8],
    at: usize,
    stack: &mut Stack,
    opens: &mut Opens,
) -> Option<usize>
    requires { Begins bytes.now at 0x22 }
    ensures leads { IfSome result (λ end. Leads bytes.now tables.now at (all opens.old) stack.old
        end (all opens.new) stack.new) }
    ensures forward { IfSome result (λ end. at < end) }
    ensures inside { IfSome result (λ end. end ≤ length bytes.now) }
{
    let Some((index, end)) = index_at(bytes, at + 1) else {
        return None;
    };
    let index = index as usize;
    let locals = tables.locals.as_slice();
    if index >= locals.len() || !stack.change_below(&tables.known.order, locals[index]) {
        return None;
    }
    let frame = with_value(tables, opens.inner(), index);
    opens.turn(frame);
    Some(end)
}
