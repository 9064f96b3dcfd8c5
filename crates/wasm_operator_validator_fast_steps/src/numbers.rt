//! Operators on numbers.

ghost use Rattle.std.specs.Prelude.{◌≡◌, ◌<◌, ◌≤◌, ◌∷◌, ℕ, List, length, [], IfSome};
ghost use Rattle.wasm_operators_frequent.specs.Short.{Begins, BeginsPrefixed};
ghost use Rattle.wasm_operator_validator_fast_tables.specs.Loop.{Leads, all};
ghost use Rattle.std.specs.Prelude.{None, Some};
ghost use Rattle.wasm_operator_validator_fast_steps.specs.Shapes.{IsNumberAt};

use crate::shape::change_shape;
use wasm_operator_validator_fast_tables::{NO_CODE, Opens, Stack, Tables};

/// One that makes a number of this type of one of that.
#[inline(always)]
pub fn change_as(
    takes: u32,
    gives: u32,
    code: u8,
    tables: &Tables,
    bytes: &[u8],
    at: usize,
    stack: &mut Stack,
    opens: &Opens,
) -> Option<usize>
    requires begins { Begins bytes.now at code }
    requires number { IsNumberAt None code (takes ∷ []) (gives ∷ []) }
    ensures leads { IfSome result (λ end. Leads bytes.now tables.now at (all opens.now) stack.old
        end (all opens.now) stack.new) }
    ensures forward { IfSome result (λ end. at < end) }
    ensures inside { IfSome result (λ end. end ≤ length bytes.now) }
{
    if !stack.change(takes, gives) {
        return None;
    }
    Some(at + 1)
}

/// One that makes a number of one, of the types that its code tells.
#[inline(always)]
pub fn change(
    code: u8,
    tables: &Tables,
    bytes: &[u8],
    at: usize,
    stack: &mut Stack,
    opens: &Opens,
) -> Option<usize>
    requires { Begins bytes.now at code }
    ensures leads { IfSome result (λ end. Leads bytes.now tables.now at (all opens.now) stack.old
        end (all opens.now) stack.new) }
    ensures forward { IfSome result (λ end. at < end) }
    ensures inside { IfSome result (λ end. end ≤ length bytes.now) }
{
    let (takes, gives) = change_shape(code);
    if gives >= NO_CODE || !stack.change(takes, gives) {
        return None;
    }
    Some(at + 1)
}

/// One that makes a number of this type of two of that.
#[inline(always)]
pub fn combine_as(
    takes: u32,
    gives: u32,
    code: u8,
    tables: &Tables,
    bytes: &[u8],
    at: usize,
    stack: &mut Stack,
    opens: &Opens,
) -> Option<usize>
    requires begins { Begins bytes.now at code }
    requires number { IsNumberAt None code (takes ∷ takes ∷ []) (gives ∷ []) }
    ensures leads { IfSome result (λ end. Leads bytes.now tables.now at (all opens.now) stack.old
        end (all opens.now) stack.new) }
    ensures forward { IfSome result (λ end. at < end) }
    ensures inside { IfSome result (λ end. end ≤ length bytes.now) }
{
    if !stack.combine(takes, gives) {
        return None;
    }
    Some(at + 1)
}

/// One behind the prefix `fc` that makes a number of one.
#[inline(always)]
pub fn change_prefixed(
    code: u32,
    end: usize,
    takes: u32,
    gives: u32,
    tables: &Tables,
    bytes: &[u8],
    at: usize,
    stack: &mut Stack,
    opens: &Opens,
) -> Option<usize>
    requires begins { BeginsPrefixed bytes.now at 0xfc code end }
    requires number { IsNumberAt (Some 0xfc) code (takes ∷ []) (gives ∷ []) }
    ensures leads { IfSome result (λ end. Leads bytes.now tables.now at (all opens.now) stack.old
        end (all opens.now) stack.new) }
    ensures forward { IfSome result (λ end. at < end) }
    ensures inside { IfSome result (λ end. end ≤ length bytes.now) }
{
    if !stack.change(takes, gives) {
        return None;
    }
    Some(end)
}
