//! Subtype tests by the ancestors that each type keeps, and by the chain of declared supertypes where more than 255 types are above
//! one of the two: no valid type is so deep.

ghost use Rattle.std.specs.Prelude.{◌≡◌, ◌↔◌, ◌<◌, IsTrue, IsSome, IfSome};
ghost use Rattle.wasm_module_validator_type_storage.specs.trees.Groups.{count, supertype_ids};
ghost use Rattle.wasm_module_validator_type_storage.specs.displays.Chains.{HasDepth};
ghost use Rattle.wasm_module_validator_type_storage.specs.displays.Entries.{IsShallow};
ghost use Rattle.wasm_module_validator_type_storage.specs.trees.ByIds.{IdBelow};

use crate::TypeList;
use wasm_types::CoreTypeId;

impl TypeList {
    // Whether the first id is the second or below it, by the ancestors that types keep: those with at most 255 types above them.
    fn is_below_at_once(&self, a: CoreTypeId, b: CoreTypeId) -> Option<bool>
        ensures below { IfSome result (λ is_below. IsTrue is_below ↔ IdBelow self.now.groups a b) }
        ensures told { IsShallow (supertype_ids self.now.groups) a → IsShallow (supertype_ids self.now.groups) b
            → IsSome result }
    {
        self.lists.supertypes.is_below(a, b)
    }

    /// How many types are declared above the type of an id, where there are at most 255.
    pub fn count_above(&self, id: CoreTypeId) -> Option<u32>
        ensures depth { IfSome result (HasDepth (supertype_ids self.now.groups) id) }
        ensures told { IsShallow (supertype_ids self.now.groups) id → IsSome result }
    {
        self.lists.supertypes.depth(id)
    }

    // The same, by the chain of supertypes.
    fn is_below_by_chain(&self, a: CoreTypeId, b: CoreTypeId) -> bool
        requires { a.0 < count self.now.groups }
        ensures { IsTrue result ↔ IdBelow self.now.groups a b }
    {
        let mut at = a;
        'chain: loop {
            if at == b {
                return true;
            }
            match self.supertype_of(at) {
                Some(above) => at = above,
                None => return false,
            }
        }
    }

    /// Whether the first id is the second, or was declared below it by supertypes, in any number of steps (WebAssembly 3.0,
    /// validation, matching, defined types). Where all groups are in canonical form, that is whether its type is below the
    /// other's by declaration (`ids_speak_of_types` of `wasm_module_validator_type_storage::trees`).
    pub fn id_is_subtype(&self, a: CoreTypeId, b: CoreTypeId) -> bool
        requires { a.0 < count self.now.groups }
        ensures { IsTrue result ↔ IdBelow self.now.groups a b }
    {
        match self.is_below_at_once(a, b) {
            Some(is_below) => is_below,
            None => self.is_below_by_chain(a, b),
        }
    }
}
