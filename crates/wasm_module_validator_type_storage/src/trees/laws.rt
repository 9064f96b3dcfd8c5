//! The laws of lists of groups, each on the contract of a function that does nothing.

ghost use Rattle.wasm_module_validator_type_storage.specs.trees.laws.Statements.{TypesStay, EqualTypesHaveEqualIds, GroupsAreKnownByTrees};
ghost use Rattle.wasm_module_validator_type_storage.specs.trees.laws.Statements.{TypesOpen, SupertypesAreIds, SupertypesAreEarlier, IdsAreBelowAsTypes};
ghost use Rattle.wasm_module_validator_type_storage.specs.trees.laws.Statements.{ValuesAreBelowAsTypes, ValuesAreSharedAsTypes, ConstructorsAreOfTypes, GroupIdsUnfold};
ghost use Rattle.wasm_module_validator_type_storage.specs.trees.Worked.{NumbersWorked, TreesWorked, FormsWorked, BelowWorked, ValuesWorked};

/// What an id stands for never changes as groups are added.
pub fn types_stay()
    ensures { TypesStay }
{}

/// In a list of groups in canonical form, none of which stands twice, two ids have one type exactly if they are one
/// id; and a group is missing exactly if its tree is.
pub fn ids_are_types()
    ensures ids { EqualTypesHaveEqualIds }
    ensures groups { GroupsAreKnownByTrees }
{}

/// The ids of a group are as many as its types, one after the other, and each stands for a place of the group's tree.
pub fn group_ids_unfold()
    ensures { GroupIdsUnfold }
{}

/// What is said of ids is what is said of their types: what a type declares, its supertype, and what it is below by
/// declaration. A supertype has a lower id.
pub fn ids_speak_of_types()
    ensures open { TypesOpen }
    ensures supertypes { SupertypesAreIds }
    ensures earlier { SupertypesAreEarlier }
    ensures below { IdsAreBelowAsTypes }
{}

/// What is said of value types over ids is what is said of value types over the types that the ids stand for.
pub fn values_speak_of_types()
    ensures below { ValuesAreBelowAsTypes }
    ensures shared { ValuesAreSharedAsTypes }
    ensures constructors { ConstructorsAreOfTypes }
{}

/// Worked lists: their numbers, their trees, which are formed, and which ids are below which.
pub fn groups_worked()
    ensures numbers { NumbersWorked }
    ensures trees { TreesWorked }
    ensures forms { FormsWorked }
    ensures below { BelowWorked }
    ensures values { ValuesWorked }
{}
