//! The laws of types, each on the contract of a function that does nothing.

ghost use Rattle.wasm_types.specs.GroupsLaws.{SubTypesAreToldApart, GroupsAreToldApart, GroupsAreOrderedByTypes, TiesDeclareTheSame};
ghost use Rattle.wasm_types.specs.GroupsLaws.{GroupsAreHashedByTypes, SubTypesAreCloned, GroupsAreCloned, ValuesDeclareTheSame};
ghost use Rattle.wasm_types.specs.GroupsLaws.{GroupValuesDeclareTheSame, CompositeTypesAreSpelledAsTrees, SubTypesAreSpelledAsTrees};
ghost use Rattle.wasm_types.specs.GroupsLaws.{GroupsAreSpelledAsTrees, GroupTreesAreRead, ShapesAndIndicesAreAll};
ghost use Rattle.wasm_types.specs.WorkedGroupLaws.{CompositeTypesAreRead, SubTypesAreRead, GroupsAreRead, KindsAreTold, TextsAreWritten};

use wasm_types_fields::equality_is_identity;

/// `==` of subtypes and of groups compares what they declare, and nothing else.
pub fn equality_is_of_declarations()
    ensures subtypes { SubTypesAreToldApart }
    ensures groups { GroupsAreToldApart }
{
    equality_is_identity();
}

/// Groups are ordered and hashed as the lists of their types.
pub fn order_is_of_types()
    ensures order { GroupsAreOrderedByTypes }
    ensures ties { TiesDeclareTheSame }
    ensures hash { GroupsAreHashedByTypes }
{
    equality_is_of_declarations();
}

/// What a clone of a subtype or of a group keeps: all that it declares, and of a group its offsets and form.
pub fn clones_declare_the_same()
    ensures subtypes { SubTypesAreCloned }
    ensures groups { GroupsAreCloned }
{}

/// The values by which contracts of readers speak of subtypes and of groups declare what these do.
pub fn read_values_declare_the_same()
    ensures subtypes { ValuesDeclareTheSame }
    ensures groups { GroupValuesDeclareTheSame }
{}

/// Worked composite types, subtypes and groups: what their bytes are read as, and how parts of them are written.
pub fn groups_are_worked()
    ensures composite_types { CompositeTypesAreRead }
    ensures subtypes { SubTypesAreRead }
    ensures groups { GroupsAreRead }
    ensures kinds { KindsAreTold }
    ensures texts { TextsAreWritten }
{}

/// Bytes spell the value that is read of them just where they spell the tree that it declares, by the rules of
/// `specs/Spells.antt`; and each tree that they spell is declared by a value.
pub fn bytes_spell_trees()
    ensures composite_types { CompositeTypesAreSpelledAsTrees }
    ensures subtypes { SubTypesAreSpelledAsTrees }
    ensures groups { GroupsAreSpelledAsTrees }
    ensures trees { GroupTreesAreRead }
{}

/// A subtype is its shape and its indices in order, of which `remap_indices` speaks: a map of the indices maps all of it.
pub fn indices_and_shape_are_all()
    ensures { ShapesAndIndicesAreAll }
{}
