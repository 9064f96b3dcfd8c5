//! What each type of a module is, and what is below what, in tables that are made once for all bodies.

ghost use Rattle.std.specs.Prelude.{◌≡◌, ◌<◌, ◌≤◌, ◌+◌, ◌*◌, ◌++◌, ◌∷◌, [], ℕ, List, true, false, length, Some, IfSome, slice_get, option_map};
ghost use Rattle.wasm_types.specs.trees.Trees.{TypeTree, opened};
ghost use Rattle.wasm_operator_validator_state.specs.resources.Meaning.{Meaning, entry_in};
ghost use Rattle.wasm_operator_validator_fast_tables.specs.Values.{heap_of, IsStep, AreSteps};
ghost use Rattle.wasm_types.specs.trees.Types.{concrete, InnerOf};
ghost use Rattle.wasm_types.specs.trees.Below.{HeapBelow, expanded, is_shared};
ghost use Rattle.wasm_types.specs.trees.Chains.{IsSound};
ghost use Rattle.wasm_operator_validator_fast_tables.specs.Tables.{no_code, IsDefined, IsField, AreFields, IsNamedIn};
ghost use Rattle.wasm_operator_validator_fast_tables.specs.Known.{IsMore, IsLonger, StandAlone, AreNamedIn, ArePlacedIn, IsCodeOf, IsAround, inner_in, field_in, fields_in};

use crate::codes::{DEFINED, MANY, code_of};
use crate::order::Step;
use crate::tables::{Defined, Field, NO_CODE, Named};
use wasm_operator_validator_state::WasmModuleResources;
use wasm_types::{CompositeInnerType, FieldType, HeapType, SubType, UnpackedIndex};

// A step of each abstract heap type, by its number, as far as there is memory.
fn put_abstract(steps: &mut Vec<Step>, lacks: &mut bool) -> bool
    requires { steps.old.items ≡ [] }
    ensures { (ids : List TypeTree) → AreSteps ids steps.new.items }
{
    for number in 0..16u32 {
        let Ok(()) = steps.push(abstract_step(number)) else {
            *lacks = true;
            return false;
        };
    }
    true
}

// The step of an abstract heap type.
fn abstract_step(number: u32) -> Step
    requires { number < 16 }
    ensures { (ids : List TypeTree) → IsStep ids number result }
{
    match number {
        0 => Step {
            above: 0,
            bottom: 5,
            far: 0,
            depth: 0,
        },
        1 => Step {
            above: 1,
            bottom: 4,
            far: 1,
            depth: 0,
        },
        2 => Step {
            above: 2,
            bottom: 3,
            far: 2,
            depth: 0,
        },
        6 => Step {
            above: 2,
            bottom: 3,
            far: 2,
            depth: 1,
        },
        7 => Step {
            above: 6,
            bottom: 3,
            far: 6,
            depth: 2,
        },
        8 => Step {
            above: 6,
            bottom: 3,
            far: 6,
            depth: 2,
        },
        9 => Step {
            above: 6,
            bottom: 3,
            far: 6,
            depth: 2,
        },
        10 => Step {
            above: 10,
            bottom: 11,
            far: 10,
            depth: 0,
        },
        _ => Step {
            above: number,
            bottom: number,
            far: number,
            depth: 0,
        },
    }
}

/// What each type of the module is, as far as so many entries of each table tell and there is memory, with the codes of references to it behind
/// the others, and what is below what.
pub(crate) fn name_all<R: WasmModuleResources>(
    resources: &R,
    most: u32,
    flat: &mut Vec<u32>,
    named: &mut Vec<Named>,
    fields: &mut Vec<Field>,
    steps: &mut Vec<Step>,
    lacks: &mut bool,
)
    requires alone { StandAlone flat.old.items }
    requires begun { length flat.old.items ≡ 40 }
    requires least { 64 ≤ most }
    requires none { named.old.items ≡ [] }
    requires no_steps { steps.old.items ≡ [] }
    ensures named { let m = R.meaning resources.now in AreNamedIn m.ids m.«module» fields.new.items named.new.items }
    ensures places { ArePlacedIn flat.new.items named.new.items }
    ensures alone { StandAlone flat.new.items }
    ensures within { length flat.new.items ≤ most }
    ensures steps { AreSteps (R.meaning resources.now).ids steps.new.items }
{
    if !put_abstract(steps, lacks) {
        return;
    }
    for at in 0..most {
        let Some(ty) = resources.sub_type_at(at) else {
            return;
        };
        if flat.as_slice().len() + 2 > most as usize || fields.as_slice().len() >= most as usize {
            return;
        }
        let it = named_of(resources, at, ty, fields, lacks);
        if !put_step(resources, at, ty, it, most, steps, lacks) {
            return;
        }
        if !put_named(it, flat, named, lacks) {
            return;
        }
    }
}

// A type behind those that are named, and its codes behind the others.
fn put_named(it: Named, flat: &mut Vec<u32>, named: &mut Vec<Named>, lacks: &mut bool) -> bool
    requires { length flat.old.items ≡ 40 + 2 * length named.old.items }
    ensures placed { ArePlacedIn flat.old.items named.old.items → ArePlacedIn flat.new.items named.new.items }
    ensures more { IsMore flat.old.items flat.new.items 2 }
    ensures one { result ≡ true → (length flat.new.items ≡ 40 + 2 * length named.new.items)
        × (named.new.items ≡ named.old.items ++ it ∷ []) }
    ensures none { result ≡ false → named.new.items ≡ named.old.items }
{
    let Ok(()) = flat.push(it.code) else {
        *lacks = true;
        return false;
    };
    let Ok(()) = flat.push(code_after(it.code)) else {
        *lacks = true;
        return false;
    };
    let Ok(()) = named.push(it) else {
        *lacks = true;
        return false;
    };
    true
}

// The code of references that may not be null, by that of the others.
fn code_after(code: u32) -> u32
    ensures { code < no_code → result ≡ code + 1 }
{
    if code >= NO_CODE { NO_CODE } else { code + 1 }
}

// The code of references to the type at an index that may be null, if one stands for it.
fn code_of_index<R: WasmModuleResources>(resources: &R, at: u32) -> u32
    ensures { let m = R.meaning resources.now in result < no_code
        → (t : TypeTree) × (slice_get m.«module».types at ≡ Some t) × IsCodeOf m.ids t result }
{
    let mut heap = HeapType::Concrete(UnpackedIndex::Module(at));
    let Ok(()) = resources.check_heap_type(&mut heap, 0) else {
        return NO_CODE;
    };
    match heap {
        HeapType::Concrete(UnpackedIndex::Id(id)) => {
            if id.number() >= MANY {
                NO_CODE
            } else {
                DEFINED + 2 * id.number()
            }
        }
        _ => NO_CODE,
    }
}

// What the type at an index is, with its fields behind the others.
fn named_of<R: WasmModuleResources>(
    resources: &R,
    at: u32,
    ty: &SubType,
    fields: &mut Vec<Field>,
    lacks: &mut bool,
) -> Named
    requires { let m = R.meaning resources.now in
        Some (entry_in m ty.now) ≡ option_map opened (slice_get m.«module».types at) }
    ensures named { let m = R.meaning resources.now in result.code < no_code
        → IsNamedIn m.ids m.«module» fields.new.items at result }
    ensures more { IsLonger fields.old.items fields.new.items }
{
    let unknown = Named {
        code: NO_CODE,
        defined: Defined::Other,
    };
    if ty.composite_type.shared || ty.composite_type.descriptor_idx.is_some() {
        return unknown;
    }
    let code = code_of_index(resources, at);
    if code >= NO_CODE {
        return unknown;
    }
    Named {
        code,
        defined: defined_of(&ty.composite_type.inner, fields, lacks),
    }
}

// What a type is, with its fields behind the others.
fn defined_of(inner: &CompositeInnerType, fields: &mut Vec<Field>, lacks: &mut bool) -> Defined
    ensures is { (m : Meaning) → IsDefined m.ids fields.new.items (inner_in m inner.now) result }
    ensures more { IsLonger fields.old.items fields.new.items }
{
    match inner {
        CompositeInnerType::Func(_) => Defined::Function,
        CompositeInnerType::Struct(it) => {
            let from = fields.as_slice().len();
            let count = it.fields.as_slice().len();
            if from >= NO_CODE as usize || count >= NO_CODE as usize {
                return Defined::Other;
            }
            if !put_fields(it.fields.as_slice(), fields, lacks) {
                return Defined::Other;
            }
            Defined::Struct(from as u32, count as u32)
        }
        CompositeInnerType::Array(it) => {
            let field = field_of(&it.0);
            if field.code >= NO_CODE {
                return Defined::Other;
            }
            Defined::Array(field)
        }
        CompositeInnerType::Cont(_) => Defined::Other,
    }
}

// A field as the loop has it, if a code stands for what is read.
fn field_of(field: &FieldType) -> Field
    ensures { result.code < no_code → (m : Meaning) → IsField m.ids (field_in m field.now) result }
{
    Field {
        code: code_of(&field.element_type.unpack()),
        packed: field.element_type.is_packed(),
        mutable: field.mutable,
    }
}

// Puts fields behind the others, if codes stand for what is read of all of them.
fn put_fields(written: &[FieldType], fields: &mut Vec<Field>, lacks: &mut bool) -> bool
    ensures fields { result ≡ true → (fs : List Field) × (fields.new.items ≡ fields.old.items ++ fs)
        × ((m : Meaning) → AreFields m.ids (fields_in m written.now) fs) }
    ensures more { IsLonger fields.old.items fields.new.items }
{
    for field in written {
        let it = field_of(field);
        if it.code >= NO_CODE {
            return false;
        }
        let Ok(()) = fields.push(it) else {
            *lacks = true;
            return false;
        };
    }
    true
}

// Steps lie by the ids of types, of which a list that modules share may have many more than one module: for each entry of another table at most so
// many are made. A type with a greater id has no step, and is left to the validator of operators.
const STEPS_AN_ENTRY: usize = 16;

// A step up from a type, if a code stands for it, and steps that lead nowhere for what has none yet. False if there is no memory.
fn put_step<R: WasmModuleResources>(
    resources: &R,
    at: u32,
    ty: &SubType,
    it: Named,
    most: u32,
    steps: &mut Vec<Step>,
    lacks: &mut bool,
) -> bool
    requires there { let m = R.meaning resources.now in
        Some (entry_in m ty.now) ≡ option_map opened (slice_get m.«module».types at) }
    requires named { let m = R.meaning resources.now in it.code < no_code
        → (fields : List Field) × IsNamedIn m.ids m.«module» fields at it }
    requires steps { AreSteps (R.meaning resources.now).ids steps.old.items }
    ensures { AreSteps (R.meaning resources.now).ids steps.new.items }
{
    if it.code < DEFINED || it.code >= NO_CODE {
        return true;
    }
    let Some(step) = step_of(ty, it.defined) else {
        return true;
    };
    let place = ((it.code - 8) / 2) as usize;
    if place / STEPS_AN_ENTRY >= most as usize {
        return true;
    }
    if !lengthen(steps, place, lacks) {
        return false;
    }
    let (far, depth) = far_above(steps.as_slice(), step.above);
    steps[place] = Step {
        above: step.above,
        bottom: step.bottom,
        far,
        depth,
    };
    true
}

// One that is above a heap type, or that one itself, so far up that few far steps lead to any that is above it; and how deep what is right below that
// heap type lies.
fn far_above(steps: &[Step], above: u32) -> (u32, u32)
    ensures { (ids : List TypeTree) → AreSteps ids steps.now → HeapBelow (heap_of ids above) (heap_of ids result.0) }
{
    let place = above as usize;
    if place >= steps.len() {
        return (above, 0);
    }
    let step = steps[place];
    let depth = step.depth.saturating_add(1);
    let far = step.far as usize;
    if far >= steps.len() {
        return (above, depth);
    }
    let middle = steps[far];
    let further = middle.far as usize;
    if further >= steps.len() || !is_halfway(step.depth, middle.depth, steps[further].depth) {
        return (above, depth);
    }
    (middle.far, depth)
}

// Whether the second depth lies in the middle of the two others.
fn is_halfway(low: u32, middle: u32, high: u32) -> bool {
    low.saturating_sub(middle) == middle.saturating_sub(high)
}

// Steps that lead nowhere, up to a place.
fn lengthen(steps: &mut Vec<Step>, place: usize, lacks: &mut bool) -> bool
    ensures steps { (ids : List TypeTree) → AreSteps ids steps.old.items → AreSteps ids steps.new.items }
    ensures there { result ≡ true → place < length steps.new.items }
{
    while steps.as_slice().len() <= place {
        let held = steps.as_slice().len();
        if held >= NO_CODE as usize {
            return false;
        }
        let at = held as u32;
        let Ok(()) = steps.push(Step {
            above: at,
            bottom: at,
            far: at,
            depth: 0,
        }) else {
            *lacks = true;
            return false;
        };
    }
    true
}

// The abstract type right above types of this kind, and the bottom type below them.
fn step_around(defined: Defined) -> Option<Step>
    ensures { IfSome result (λ s. (ids : List TypeTree) (fields : List Field) (inner : InnerOf TypeTree)
        → IsDefined ids fields inner defined → IsAround inner s) }
{
    match defined {
        Defined::Other => None,
        Defined::Function => Some(Step {
            above: 0,
            bottom: 5,
            far: 0,
            depth: 0,
        }),
        Defined::Struct(_, _) => Some(Step {
            above: 7,
            bottom: 3,
            far: 7,
            depth: 0,
        }),
        Defined::Array(_) => Some(Step {
            above: 8,
            bottom: 3,
            far: 8,
            depth: 0,
        }),
    }
}

// The step up from a type of this kind, to the supertype that it declares or the abstract type above it.
fn step_of(ty: &SubType, defined: Defined) -> Option<Step>
    ensures { IfSome result (λ s. (m : Meaning) (t : TypeTree) (fields : List Field) (n : ℕ) → IsSound t
        → opened t ≡ entry_in m ty.now → is_shared t ≡ false → IsDefined m.ids fields (expanded t) defined
        → heap_of m.ids n ≡ concrete t → IsStep m.ids n s) }
{
    let Some(around) = step_around(defined) else {
        return None;
    };
    let Some(above) = ty.supertype_idxs.get(0) else {
        return Some(around);
    };
    let Some(id) = above.as_core_type_id() else {
        return None;
    };
    if id.number() >= MANY {
        return None;
    }
    let above = 16 + id.number();
    Some(Step {
        above,
        bottom: around.bottom,
        far: above,
        depth: 0,
    })
}
