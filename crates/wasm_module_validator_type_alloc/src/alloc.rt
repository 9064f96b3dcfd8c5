//! A list of types that takes more.

ghost use Rattle.std.specs.Prelude.{◌≡◌, ◌<◌, [], true, List, Some, slice_get};

use crate::TypeIdentifier;
use std::alloc::Global;
use std::ops::{Deref, DerefMut, Index};
use wasm_module_validator_type_list::TypeList;
use wasm_types::Limits;

/// A list of types that takes more, until it is committed.
#[derive(Drop)]
pub struct TypeAlloc {
    list: TypeList,
}

impl TypeAlloc {
    /// A list with no types, of a validator that judges by these limits. It takes no memory.
    pub fn new(alloc: Global, limits: Limits) -> TypeAlloc
        ensures groups { result.list.groups ≡ [] }
        ensures can_intern { result.list.can_intern ≡ true }
        ensures depths { result.list.depths ≡ [] }
        ensures limits { result.list.limits ≡ limits }
    {
        TypeAlloc {
            list: TypeList::new(alloc, limits),
        }
    }
}

impl Deref for TypeAlloc {
    type Target = TypeList;

    ghost deref_gives = { λ types list. list ≡ types.list };

    fn deref(&self) -> &TypeList {
        &self.list
    }
}

impl DerefMut for TypeAlloc {
    ghost use Rattle.std.specs.Borrow.{Lends, sem};
    ghost use Rattle.wasm_module_validator_type_alloc.specs.contracts.alloc.TypeAlloc.{the_row};
    ghost use Rattle.wasm_module_validator_type_alloc.specs.Lent.{list_row};

    ghost deref_mut_gives = { λ types list. list ≡ types.list };

    fn deref_mut(&mut self) -> &mut TypeList
        ensures* writes_back { sem 𝓛 (Lends the_row list_row self.entry result (λ list. record { list = list })) }
        ensures shows { result.now ≡ self.old.list }
    {
        &mut self.list
    }
}

impl<T: TypeIdentifier> Index<T> for TypeAlloc {
    type Output = T::Data;

    ghost can_index = { λ types id. T.number id < T.named types.list.groups };

    ghost index_gives = { λ types id item. (items : List T.Data) × T.are_listed types.list.groups items
        × (slice_get items (T.number id) ≡ Some item) };

    fn index(&self, id: T) -> &T::Data {
        let list = T::list(&self.list);
        &list[id.index()]
    }
}
