//! What is asked of a module to which groups of types are added.

ghost use Rattle.std.specs.Prelude.{◌≡◌, ◌∷◌, ◌++◌, ◌+◌, ◌<◌, ◌≤◌, ◌^◌, ℕ, [], List, Some, OnOk, IfOk, length, slice_get};
ghost use Rattle.wasm_types.specs.decoding.Denials.{Tells};
ghost use Rattle.wasm_types.specs.trees.declared.index.CoreTypeId.{CoreTypeId as TheId};
ghost use Rattle.wasm_types.specs.settings.Settings.{Settings};
ghost use Rattle.wasm_module_validator_canonical_types.specs.Refused.{FailsAt};

use std::alloc::AllocError;
use wasm_types::{CoreTypeId, Limits, Result as Reading, WasmFeatures};

/// A module to which groups of types are added, by the ids of its types in order.
pub trait InternRecGroup {
    /// The ids of the module's types, in the order of their indices.
    ghost ids: { Self → List TheId };

    /// How many ids may be added without memory being taken.
    ghost room: { Self → ℕ };

    /// The features that are allowed, and the limits that hold.
    ghost settings: { Self → Settings };

    /// Makes room for so many further ids. The ids stay, whether there is memory or not.
    fn reserve_type_ids(&mut self, additional: usize) -> Result<(), AllocError>
        ensures ids { ids self.new ≡ ids self.old }
        ensures room { OnOk result (additional ≤ room self.new) }
        ensures settings { settings self.new ≡ settings self.old };

    /// Adds the next type by its id, in room that is there.
    fn add_type_id(&mut self, id: CoreTypeId)
        requires room { 0 < room self.old }
        requires short { length (ids self.old) + 1 < 2 ^ 32 }
        ensures ids { ids self.new ≡ ids self.old ++ id ∷ [] }
        ensures room { room self.old ≤ room self.new + 1 }
        ensures settings { settings self.new ≡ settings self.old };

    /// The id of the type with an index. An index past the last is refused.
    fn type_id_at(&self, idx: u32, offset: u64) -> Reading<CoreTypeId>
        ensures answer { Tells result (idx < length (ids self.now)) }
        ensures id { IfOk result (λ id. slice_get (ids self.now) idx ≡ Some id) }
        ensures at { FailsAt offset result };

    /// The ids of the types, in order.
    fn type_ids(&self) -> &[CoreTypeId]
        ensures { result.now ≡ ids self.now };

    /// How many types there are.
    fn types_len(&self) -> u32
        ensures { result ≡ length (ids self.now) };

    /// The features that are allowed.
    fn features(&self) -> &WasmFeatures
        ensures { result.now.0 ≡ (settings self.now).features };

    /// The limits that hold.
    fn limits(&self) -> &Limits
        ensures { result.now ≡ (settings self.now).limits };
}
