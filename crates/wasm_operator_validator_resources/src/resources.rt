//! What a validator of operators asks of a module.

ghost use Rattle.std.specs.Prelude.{◌≡◌, ◌↔◌, ◌<◌, IsTrue, All, IfSome, IfErr, OnOk, option_map, slice_get, length};
ghost use Rattle.wasm_types.specs.decoding.Denials.{Tells, RefusedAt};
ghost use Rattle.wasm_types.specs.decoding.declared.error.ErrorKind.TheVariants.{Other};
ghost use Rattle.wasm_types.specs.trees.Below.{Below, heap_is_shared, expanded};
ghost use Rattle.wasm_types.specs.trees.Trees.{opened};
ghost use Rattle.wasm_types.specs.trees.Chains.{IsSound};
ghost use Rattle.wasm_operator_validator_rules.specs.Context.{IsType};
ghost use Rattle.wasm_operator_validator_rules.specs.Row.{IsOneOf};
ghost use Rattle.wasm_operator_validator_resources.specs.Meaning.{Meaning, IsKnown, type_of_id, type_in, heap_in, reference_in, function_in, entry_in, global_in, table_in, top_heap};
ghost use Rattle.wasm_operator_validator_resources.specs.Answers.{IsTypeOf, IsWritten, IsNamed, IsNamedReference};

use crate::gates::check_value_type_features;
use wasm_types::{
    CoreTypeId, FuncType, GlobalType, HeapType, MemoryType, RefType, Result, SubType, TableType,
    ValType, WasmFeatures,
};

/// The module that operators are validated in. Its meaning is the module of the rules, and what each id stands for; each
/// answer is what the meaning says (WebAssembly 3.0, validation, conventions, contexts).
pub trait WasmModuleResources {
    /// The module, and the type of each id.
    ghost meaning: { Self → Meaning };

    /// The table at an index.
    fn table_at(&self, at: u32) -> Option<TableType>
        ensures { option_map (table_in (meaning self.now)) result ≡ slice_get (meaning self.now).«module».tables at };

    /// The memory at an index.
    fn memory_at(&self, at: u32) -> Option<MemoryType>
        ensures { result ≡ slice_get (meaning self.now).«module».memories at };

    /// The function type of the tag at an index.
    fn tag_at(&self, at: u32) -> Option<&FuncType>
        ensures { option_map (λ f. function_in (meaning self.now) f.now) result ≡ option_map expanded
            (slice_get (meaning self.now).«module».tags at) };

    /// The global at an index.
    fn global_at(&self, at: u32) -> Option<GlobalType>
        ensures { option_map (global_in (meaning self.now)) result ≡ slice_get (meaning self.now).«module».globals at };

    /// The type at an index of the module.
    fn sub_type_at(&self, type_index: u32) -> Option<&SubType>
        ensures { option_map (λ t. entry_in (meaning self.now) t.now) result ≡ option_map opened
            (slice_get (meaning self.now).«module».types type_index) };

    /// Whether a type has this id.
    fn knows_id(&self, id: CoreTypeId) -> bool
        ensures { IsTrue result ↔ IsKnown (meaning self.now) id };

    /// The type with an id.
    fn sub_type_at_id(&self, id: CoreTypeId) -> &SubType
        requires { IsKnown (meaning self.now) id }
        ensures { entry_in (meaning self.now) result.now ≡ opened (type_of_id (meaning self.now) id) };

    /// The id of a function's type.
    fn type_id_of_function(&self, function_index: u32) -> Option<CoreTypeId>
        ensures value { option_map (type_of_id (meaning self.now)) result ≡ slice_get
            (meaning self.now).«module».functions function_index }
        ensures known { IfSome result (IsKnown (meaning self.now)) };

    /// The index of a function's type.
    fn type_index_of_function(&self, function_index: u32) -> Option<u32>
        ensures { IsTypeOf (meaning self.now).«module» function_index result };

    /// The type of the element segment at an index.
    fn element_type_at(&self, at: u32) -> Option<RefType>
        ensures { option_map (reference_in (meaning self.now)) result ≡ slice_get
            (meaning self.now).«module».elements at };

    /// How many element segments there are.
    fn element_count(&self) -> u32
        ensures { result ≡ length (meaning self.now).«module».elements };

    /// How many data segments the data count section names, where it stands.
    fn data_count(&self) -> Option<u32>
        ensures { result ≡ (meaning self.now).«module».data_count };

    /// Whether the first type is below the second (WebAssembly 3.0, validation, matching, value types).
    fn is_subtype(&self, a: ValType, b: ValType) -> bool
        ensures { IsTrue result ↔ Below (type_in (meaning self.now) a) (type_in (meaning self.now) b) };

    /// Whether what a reference refers to is shared.
    fn is_shared(&self, ty: RefType) -> bool
        ensures { result ≡ heap_is_shared (heap_in (meaning self.now) ty.heap) };

    /// The type above all types of its hierarchy, and as shared.
    fn top_type(&self, heap_type: &HeapType) -> HeapType
        ensures { heap_in (meaning self.now) result ≡ top_heap (heap_in (meaning self.now) heap_type.now) };

    /// Whether code may refer to a function.
    fn is_function_referenced(&self, function_index: u32) -> bool
        ensures { IsTrue result ↔ IsOneOf function_index (meaning self.now).«module».referenced };

    /// Whether a function's type is known exactly: of each function but an inexact import.
    fn has_function_exact_type(&self, function_index: u32) -> bool
        ensures { IsTrue result ↔ IsOneOf function_index (meaning self.now).«module».exact_functions };

    /// Checks a value type as a module writes it, under these features, and names the types in it by their ids. A refused
    /// one stays as it was.
    fn check_value_type(&self, ty: &mut ValType, features: &WasmFeatures, offset: u64) -> Result<()>
        ensures answer { Tells result (IsType features.now.0 (meaning self.now).«module» ty.old
            (type_in (meaning self.now) ty.new)) }
        ensures refused { IfErr result (λ _. ty.new ≡ ty.old) }
        ensures at { RefusedAt offset result }
    {
        check_value_type_features(features, ty, offset)?;
        if let ValType::Ref(reference) = ty {
            return self.check_ref_type(reference, offset);
        }
        Ok(())
    }

    /// The same of a reference type, whatever the features are.
    fn check_ref_type(&self, ty: &mut RefType, offset: u64) -> Result<()>
        ensures answer { Tells result (IsWritten (meaning self.now) ty.old.heap) }
        ensures named { OnOk result (IsNamedReference (meaning self.now) ty.old ty.new) }
        ensures refused { IfErr result (λ e. (e.kind ≡ Other) × (e.offset ≡ offset) × (ty.new ≡ ty.old)) }
    {
        let mut heap_type = ty.heap_type();
        self.check_heap_type(&mut heap_type, offset)?;
        let Some(named) = RefType::new(ty.is_nullable(), heap_type) else {
            unreachable!()
        };
        *ty = named;
        Ok(())
    }

    /// The same of a heap type.
    fn check_heap_type(&self, ty: &mut HeapType, offset: u64) -> Result<()>
        ensures answer { Tells result (IsWritten (meaning self.now) ty.old) }
        ensures named { OnOk result (IsNamed (meaning self.now) ty.old ty.new) }
        ensures refused { IfErr result (λ e. (e.kind ≡ Other) × (e.offset ≡ offset) × (ty.new ≡ ty.old)) };

    /// Each type above a type by declaration is of its constructor, and as shared.
    ghost types_sound: { (r : Self) → All IsSound (meaning r).«module».types };

    /// The same of each type that has an id.
    ghost ids_sound: { (r : Self) → All IsSound (meaning r).ids };
}
