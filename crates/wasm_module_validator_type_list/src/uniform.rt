//! Which types are of one kind with all that they are declared below. Every valid type is (WebAssembly 3.0, validation, matching,
//! composite types), so what is asked of a type and of all above it is asked of the type alone.

ghost use Rattle.std.specs.Prelude.{IsTrue};
ghost use Rattle.wasm_types.specs.Entries.{declared_of};
ghost use Rattle.wasm_module_validator_type_list.specs.Uniform.{AreAlike, IsUniform, AreUniform};

use crate::values::abstract_type_of;
use wasm_module_validator_type_storage::displays::Displays;
use wasm_module_validator_type_storage::snapshots::SnapshotList;
use wasm_types::SubType;

// Whether two types are of one kind.
fn are_alike(a: &SubType, b: &SubType) -> bool
    ensures { IsTrue result → AreAlike (declared_of a.now).entry (declared_of b.now).entry }
{
    a.composite_type.shared == b.composite_type.shared
        && abstract_type_of(&a.composite_type.inner) == abstract_type_of(&b.composite_type.inner)
}

// Whether the type of this id is like its supertype, which is like all above it.
fn is_uniform(
    types: &SnapshotList<SubType>,
    supertypes: &Displays,
    flags: &SnapshotList<bool>,
    own: usize,
) -> bool
    ensures { IsTrue result → IsUniform types.now.items supertypes.now.items flags.now.items own }
{
    let Some(declared) = supertypes.get(own) else {
        return false;
    };
    let Some(above) = *declared else {
        return true;
    };
    let Some(ty) = types.get(own) else {
        return false;
    };
    let Some(upper) = types.get(above.number() as usize) else {
        return false;
    };
    let Some(flag) = flags.get(above.number() as usize) else {
        return false;
    };
    if !*flag {
        return false;
    }
    are_alike(ty, upper)
}

/// Says of the types that were added since whether they are of one kind with all above them, while there is memory.
pub(crate) fn fill(
    types: &SnapshotList<SubType>,
    supertypes: &Displays,
    flags: &mut SnapshotList<bool>,
)
    requires { AreUniform types.now.items supertypes.now.items flags.old.items }
    ensures { AreUniform types.now.items supertypes.now.items flags.new.items }
{
    'types: for _further in flags.len()..types.len() {
        let own = flags.len();
        let flag = is_uniform(types, supertypes, flags, own);
        if flags.push(flag).is_err() {
            return;
        }
    }
}
