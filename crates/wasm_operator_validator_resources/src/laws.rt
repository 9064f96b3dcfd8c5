//! What every module promises, on the contracts of functions that do nothing.

ghost use Rattle.std.specs.Prelude.{All};
ghost use Rattle.wasm_types.specs.trees.Chains.{IsSound};

use crate::WasmModuleResources;

/// Each type above a type by declaration is of its constructor, and as shared.
pub fn types_are_sound<R: WasmModuleResources>(resources: &R)
    ensures types { All IsSound (R.meaning resources.now).«module».types }
    ensures ids { All IsSound (R.meaning resources.now).ids }
{
    let _resources = resources;
}
