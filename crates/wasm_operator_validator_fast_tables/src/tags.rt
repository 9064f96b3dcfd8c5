//! Tags by the values that their exceptions carry, and how many data segments there are.

ghost use Rattle.std.specs.Prelude.{◌≡◌, ◌<◌, ◌≤◌, ◌-◌, ◌++◌, [], ◌⊎◌, ℕ, true, length};
ghost use Rattle.wasm_operator_validator_rules.specs.InstructionTypes.{names_data};
ghost use Rattle.wasm_operator_validator_fast_tables.specs.Known.{IsMore, AreTagsIn, IsUsableTagIn};

use crate::known::{put_codes, unusable};
use crate::tables::Sig;
use wasm_operator_validator_state::WasmModuleResources;

/// How many data segments the data count section names, if there is one.
pub(crate) fn data_of<R: WasmModuleResources>(resources: &R) -> u32
    ensures { (d : ℕ) → d < result → names_data (R.meaning resources.now).«module».data_count d ≡ true }
{
    match resources.data_count() {
        Some(count) => count,
        None => 0,
    }
}

// The tag at an index, with its parameters behind the other codes, if codes stand for all and there is room for them.
fn tag_of<R: WasmModuleResources>(
    resources: &R,
    at: u32,
    flat: &mut Vec<u32>,
    most: u32,
    lacks: &mut bool,
) -> Sig
    requires { length flat.old.items ≤ most }
    ensures tag { let m = R.meaning resources.now in (result.param_count ≡ 0xffffffff)
        ⊎ IsUsableTagIn m.ids m.«module» flat.new.items at result }
    ensures more { IsMore flat.old.items flat.new.items (most - length flat.old.items) }
{
    let Some(function) = resources.tag_at(at) else {
        return unusable();
    };
    let room = most as usize - flat.as_slice().len();
    let params = function.params();
    if params.len() > room || function.results().len() != 0 {
        return unusable();
    }
    let from = flat.as_slice().len();
    if !put_codes(flat, params, lacks) {
        return unusable();
    }
    Sig {
        params: from as u32,
        param_count: params.len() as u32,
        results: 0,
        result_count: 0,
    }
}

/// The tags, in order, as far as there is memory.
pub(crate) fn sign_tags<R: WasmModuleResources>(
    resources: &R,
    flat: &mut Vec<u32>,
    tags: &mut Vec<Sig>,
    most: u32,
    lacks: &mut bool,
)
    requires none { tags.old.items ≡ [] }
    requires within { length flat.old.items ≤ most }
    ensures tags { let m = R.meaning resources.now in AreTagsIn m.ids m.«module» flat.new.items tags.new.items }
    ensures more { IsMore flat.old.items flat.new.items most }
    ensures within { length flat.new.items ≤ most }
{
    for at in 0..most {
        if resources.tag_at(at).is_none() {
            return;
        }
        let tag = tag_of(resources, at, flat, most, lacks);
        let Ok(()) = tags.push(tag) else {
            *lacks = true;
            return;
        };
    }
}
