//! What is behind a branch. It is not reached, so any operands may lie there, and the loop puts those on that the innermost frame gives.

ghost use Rattle.std.specs.Prelude.{◌≡◌, ◌<◌, ◌≤◌, [], ℕ, List, true, length, IfSome};
ghost use Rattle.wasm_operators_frequent.specs.Short.{Begins};
ghost use Rattle.wasm_operator_validator_fast_tables.specs.Stacks.{with_all};
ghost use Rattle.wasm_operator_validator_fast_tables.specs.Loop.{Leads, all};
ghost use Rattle.wasm_operator_validator_fast_steps.specs.Unreached.{IsPassed};

use crate::indices::index_at;
use wasm_operator_validator_fast_tables::{Opens, Stack, Tables, frame_at, inner_results};

// Of a frame that gives more than so many, operators that lead away are passed over if they follow on one that did: so its results are put on
// once for all of them, and an operator of one byte does not take the time of a thousand, if no other lies between.
const FEW: usize = 8;

// Of a frame that gives more than so many the operands that are there stay, except so many last ones.
const MANY: usize = 100;

const LAST: usize = 4;

/// Behind an operator that led away the innermost frame has the operands that it gives. The offset of what is judged next.
#[inline(always)]
pub fn unreached(
    tables: &Tables,
    bytes: &[u8],
    at: usize,
    stack: &mut Stack,
    opens: &Opens,
) -> Option<usize>
    requires { at ≤ length bytes.now }
    ensures leads { IfSome result (λ end. (rs : List ℕ) × Leads bytes.now tables.now at (all opens.now)
        (with_all rs ([], stack.old.1)) end (all opens.now) stack.new) }
    ensures forward { IfSome result (λ end. at ≤ end) }
    ensures inside { IfSome result (λ end. end ≤ length bytes.now) }
{
    let Some(results) = inner_results(tables.known.flat.as_slice(), opens) else {
        return None;
    };
    if !give_all(stack, results) {
        return None;
    }
    if results.len() > FEW {
        return Some(pass_away(tables, bytes, at, opens));
    }
    Some(at)
}

// The innermost frame has as many operands as it gives, and nothing else is asked of them. If it gives many, those that are there stay, except
// the last ones, and only the others are put on: mostly the loop put them all on before. If some of those that stay are of other types, what
// takes them is not taken by the loop.
#[inline(always)]
fn give_all(stack: &mut Stack, results: &[u32]) -> bool
    ensures { result ≡ true → (rs : List ℕ) × (stack.new ≡ with_all rs ([], stack.old.1)) }
{
    if results.len() <= MANY {
        stack.cut();
        return stack.put_all(results);
    }
    let kept = stack.keep(results.len() - LAST);
    stack.put_all(&results[kept..])
}

// The offset behind all operators from one on that lead away or do nothing.
#[cold]
#[inline(never)]
fn pass_away(tables: &Tables, bytes: &[u8], at: usize, opens: &Opens) -> usize
    requires { at ≤ length bytes.now }
    ensures passed { IsPassed bytes.now tables.now (all opens.now) at result }
    ensures forward { at ≤ result }
    ensures inside { result ≤ length bytes.now }
{
    let mut end = at;
    while end < bytes.len() {
        let Some(next) = away_at(tables, bytes, end, opens) else {
            return end;
        };
        end = next;
    }
    end
}

// The offset behind an operator that leads away, which any operands may be taken by, or that does nothing.
fn away_at(tables: &Tables, bytes: &[u8], at: usize, opens: &Opens) -> Option<usize>
    requires { at < length bytes.now }
    ensures passed { IfSome result (λ end. IsPassed bytes.now tables.now (all opens.now) at end) }
    ensures forward { IfSome result (λ end. at < end) }
    ensures inside { IfSome result (λ end. end ≤ length bytes.now) }
{
    match bytes[at] {
        0x00 => Some(at + 1),
        0x01 => Some(at + 1),
        0x08 => throw_at(tables, bytes, at, opens),
        0x0a => {
            if !tables.references {
                return None;
            }
            Some(at + 1)
        }
        0x0c => br_at(tables, bytes, at, opens),
        0x0f => Some(at + 1),
        _ => None,
    }
}

// The same of a `throw`.
fn throw_at(tables: &Tables, bytes: &[u8], at: usize, opens: &Opens) -> Option<usize>
    requires { Begins bytes.now at 0x08 }
    ensures passed { IfSome result (λ end. IsPassed bytes.now tables.now (all opens.now) at end) }
    ensures forward { IfSome result (λ end. at < end) }
    ensures inside { IfSome result (λ end. end ≤ length bytes.now) }
{
    let Some((index, end)) = index_at(bytes, at + 1) else {
        return None;
    };
    let index = index as usize;
    let tags = tables.known.tags.as_slice();
    if !tables.references || index >= tags.len() {
        return None;
    }
    let sig = tags[index];
    if sig.param_count as usize > tables.known.flat.as_slice().len() {
        return None;
    }
    Some(end)
}

// The same of a `br`.
fn br_at(tables: &Tables, bytes: &[u8], at: usize, opens: &Opens) -> Option<usize>
    requires { Begins bytes.now at 0x0c }
    ensures passed { IfSome result (λ end. IsPassed bytes.now tables.now (all opens.now) at end) }
    ensures forward { IfSome result (λ end. at < end) }
    ensures inside { IfSome result (λ end. end ≤ length bytes.now) }
{
    let Some((depth, end)) = index_at(bytes, at + 1) else {
        return None;
    };
    let Some(_frame) = frame_at(opens, depth) else {
        return None;
    };
    Some(end)
}
