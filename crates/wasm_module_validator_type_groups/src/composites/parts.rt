//! The parts of composite types.

ghost use Rattle.std.specs.Prelude.{◌≡◌, IsTrue, IfErr, false, map};
ghost use Rattle.wasm_types.specs.decoding.Denials.{Tells, RefusedAt};
ghost use Rattle.wasm_types.specs.decoding.declared.error.ErrorKind.TheVariants.{MissingFeature};
ghost use Rattle.wasm_types.specs.trees.Each.{EachValue, EachValues, EachStorage, EachFields};
ghost use Rattle.wasm_types.specs.values.Values.{value_of, storage_of};
ghost use Rattle.wasm_types.specs.fields.Fields.{field_of};
ghost use Rattle.wasm_types.specs.reader.Reading.{NeedsNoMemory};
ghost use Rattle.wasm_module_validator_type_storage.specs.trees.Groups.{count};
ghost use Rattle.wasm_module_validator_type_storage.specs.trees.BelowIds.{IsIdBelow};
ghost use Rattle.wasm_module_validator_type_groups.specs.composites.Composites.{WhereCanonical, IsPartValid, ArePartsValid, IsStorageValid, AreFieldsValid};

use wasm_module_validator_type_list::TypeList;
use wasm_operator_validator_resources::check_value_type_features;
use wasm_types::{
    Error, FieldType, ModuleWords, Result, StorageType, ValType, WasmFeatures, Words,
};

/// Asks for a feature that is there or not.
pub fn require(has: bool, feature: WasmFeatures, message: Words, offset: u64) -> Result<()>
    ensures answer { Tells result (IsTrue has) }
    ensures refused { IfErr result (λ e. (e.kind ≡ MissingFeature feature) × (e.offset ≡ offset)) }
{
    if has {
        return Ok(());
    }
    Err(Error::missing_feature(feature, message, offset))
}

/// Where parts are checked: under which features, over which types, and at which offset a part is refused.
#[derive(Clone, Copy)]
pub(crate) struct Check<'a> {
    pub features: WasmFeatures,
    pub types: &'a TypeList,
    pub offset: u64,
}

impl<'a> Check<'a> {
    // Refuses a value type that the features don't allow, and one that is not shared in a composite type that is.
    fn check_part(&self, shared: bool, ty: &ValType) -> Result<()>
        requires { WhereCanonical self.now.features.0 (EachValue (IsIdBelow (count self.now.types.now.groups))
            (value_of ty.now)) }
        ensures answer { Tells result (IsPartValid self.now.types.now.groups self.now.features.0 shared
            (value_of ty.now)) }
        ensures at { RefusedAt self.now.offset result }
        ensures memory { NeedsNoMemory result }
    {
        check_value_type_features(&self.features, ty, self.offset)?;
        if shared && !self.types.valtype_is_shared(*ty) {
            return Err(Error::new(
                Words::Module(ModuleWords::SharedCompositeTypeMustContainSharedTypes),
                self.offset,
            ));
        }
        Ok(())
    }

    /// The same of each of these value types, in order.
    pub(crate) fn check_parts(&self, shared: bool, types: &[ValType]) -> Result<()>
        requires { WhereCanonical self.now.features.0 (EachValues (IsIdBelow (count self.now.types.now.groups))
            (map value_of types.now)) }
        ensures answer { Tells result (ArePartsValid self.now.types.now.groups self.now.features.0 shared
            (map value_of types.now)) }
        ensures at { RefusedAt self.now.offset result }
        ensures memory { NeedsNoMemory result }
    {
        for i in 0..types.len() {
            self.check_part(shared, &types[i])?;
        }
        Ok(())
    }

    /// The same of a storage type: packed types are always valid.
    pub(crate) fn check_storage(&self, shared: bool, ty: &StorageType) -> Result<()>
        requires { WhereCanonical self.now.features.0 (EachStorage (IsIdBelow (count self.now.types.now.groups))
            (storage_of ty.now)) }
        ensures answer { Tells result (IsStorageValid self.now.types.now.groups self.now.features.0 shared
            (storage_of ty.now)) }
        ensures at { RefusedAt self.now.offset result }
        ensures memory { NeedsNoMemory result }
    {
        match ty {
            StorageType::I8 => Ok(()),
            StorageType::I16 => Ok(()),
            StorageType::Val(ty) => self.check_part(shared, ty),
        }
    }

    /// The same of each of these fields, in order.
    pub(crate) fn check_fields(&self, shared: bool, fields: &[FieldType]) -> Result<()>
        requires { WhereCanonical self.now.features.0 (EachFields (IsIdBelow (count self.now.types.now.groups))
            (map field_of fields.now)) }
        ensures answer { Tells result (AreFieldsValid self.now.types.now.groups self.now.features.0 shared
            (map field_of fields.now)) }
        ensures at { RefusedAt self.now.offset result }
        ensures memory { NeedsNoMemory result }
    {
        for i in 0..fields.len() {
            self.check_storage(shared, &fields[i].element_type)?;
        }
        Ok(())
    }
}
