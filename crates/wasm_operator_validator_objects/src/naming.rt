//! What operators name by an index, and heap types that code writes, where the function may use them.

ghost use Rattle.std.specs.Prelude.{◌≡◌, ◌∷◌, ◌<◌, [], MatchResult, None, Some, is_some, length, option_map, slice_get};
ghost use Rattle.wasm_types.specs.trees.Types.{ref};
ghost use Rattle.wasm_types.specs.values.declared.value.ValType.TheVariants.{I32, Ref};
ghost use Rattle.wasm_operator_validator_rules.specs.Aggregates.{struct_named, array_named, heap_named};
ghost use Rattle.wasm_operator_validator_rules.specs.InstructionTypes.{allocated};
ghost use Rattle.wasm_operator_validator_rules.specs.Named.{used_type};
ghost use Rattle.wasm_operator_validator_rules.specs.Places.{field_place, element_place};
ghost use Rattle.wasm_operator_validator_resources.specs.Meaning.{entry_in, heap_in, type_in};
ghost use Rattle.wasm_operator_validator_objects.specs.Rows.{here};
ghost use Rattle.wasm_operator_validator_objects.specs.Found.{IsUsed, IsStruct, IsArray, TypeAt, struct_fields, array_element, place_in, written_heap, heap_to};

use wasm_operator_validator_stacks::determined::{
    OperatorValidator, Reason, Refusal, Space, WasmModuleResources, may_use,
};
use wasm_types::{
    AbstractHeapType, CompositeInnerType, FieldType, HeapType, RefType, SubType, UnpackedIndex,
    ValType,
};

/// The type at an index, where the function may use it.
pub fn used_type<'a, R: WasmModuleResources>(
    validator: &OperatorValidator,
    resources: &'a R,
    type_index: u32,
) -> Result<&'a SubType, Refusal>
    ensures { MatchResult result (λ t. IsUsed (R.meaning resources.now) validator.now type_index
        (entry_in (R.meaning resources.now) t.now)) (λ r. used_type
        (here (R.meaning resources.now) validator.now) type_index ≡ None) }
{
    let sub_type = match resources.sub_type_at(type_index) {
        Some(sub_type) => sub_type,
        None => {
            return Err(Refusal::Unknown {
                space: Space::Type,
                index: type_index,
            });
        }
    };
    if !may_use(validator, sub_type.composite_type.shared) {
        return Err(Refusal::Because(Reason::NotShared));
    }
    Ok(sub_type)
}

// The fields of a type, if it is a struct.
fn fields_of(sub_type: &SubType) -> Option<&[FieldType]>
    ensures { option_map (λ f. f.now) result ≡ struct_fields sub_type.now.composite_type.inner }
{
    match &sub_type.composite_type.inner {
        CompositeInnerType::Struct(fields) => Some(fields.fields.as_slice()),
        CompositeInnerType::Array(_) => None,
        CompositeInnerType::Func(_) => None,
        CompositeInnerType::Cont(_) => None,
    }
}

// The element of a type, if it is an array.
fn element_of(sub_type: &SubType) -> Option<FieldType>
    ensures { result ≡ array_element sub_type.now.composite_type.inner }
{
    match &sub_type.composite_type.inner {
        CompositeInnerType::Array(array) => Some(array.0),
        CompositeInnerType::Struct(_) => None,
        CompositeInnerType::Func(_) => None,
        CompositeInnerType::Cont(_) => None,
    }
}

// Whether a type has a descriptor.
fn has_descriptor(sub_type: &SubType) -> bool
    ensures { result ≡ is_some sub_type.now.composite_type.descriptor_idx }
{
    match sub_type.composite_type.descriptor_idx {
        Some(_) => true,
        None => false,
    }
}

/// The fields of the struct type at an index, and whether it has a descriptor.
pub fn struct_at<'a, R: WasmModuleResources>(
    validator: &OperatorValidator,
    resources: &'a R,
    type_index: u32,
) -> Result<(&'a [FieldType], bool), Refusal>
    ensures { MatchResult result (λ p. IsStruct (R.meaning resources.now) validator.now type_index p.0.now p.1)
        (λ r. struct_named (here (R.meaning resources.now) validator.now) type_index ≡ None) }
{
    let sub_type = match used_type(validator, resources, type_index) {
        Ok(sub_type) => sub_type,
        Err(refusal) => return Err(refusal),
    };
    let fields = match fields_of(sub_type) {
        Some(fields) => fields,
        None => {
            return Err(Refusal::Unknown {
                space: Space::StructType,
                index: type_index,
            });
        }
    };
    Ok((fields, has_descriptor(sub_type)))
}

/// The element of the array type at an index.
pub(crate) fn array_at<R: WasmModuleResources>(
    validator: &OperatorValidator,
    resources: &R,
    type_index: u32,
) -> Result<FieldType, Refusal>
    ensures { MatchResult result (λ f. IsArray (R.meaning resources.now) validator.now type_index f)
        (λ r. array_named (here (R.meaning resources.now) validator.now) type_index ≡ None) }
{
    let sub_type = match used_type(validator, resources, type_index) {
        Ok(sub_type) => sub_type,
        Err(refusal) => return Err(refusal),
    };
    match element_of(sub_type) {
        Some(element) => Ok(element),
        None => Err(Refusal::Unknown {
            space: Space::ArrayType,
            index: type_index,
        }),
    }
}

/// The reference by which the struct type at an index is reached, and one of its fields.
pub fn field_at<R: WasmModuleResources>(
    validator: &OperatorValidator,
    resources: &R,
    type_index: u32,
    field_index: u32,
) -> Result<(ValType, FieldType), Refusal>
    ensures { MatchResult result (λ p. field_place (here (R.meaning resources.now) validator.now) type_index field_index
        ≡ Some (place_in (R.meaning resources.now) (p.0 ∷ []) p.1))
        (λ r. field_place (here (R.meaning resources.now) validator.now) type_index field_index ≡ None) }
{
    let (fields, _described) = match struct_at(validator, resources, type_index) {
        Ok(found) => found,
        Err(refusal) => return Err(refusal),
    };
    let field = match field_in(fields, field_index) {
        Some(field) => field,
        None => {
            return Err(Refusal::Unknown {
                space: Space::Field,
                index: field_index,
            });
        }
    };
    Ok((reference_at(resources, type_index, true, false), field))
}

// One of these fields, if there is one at this index.
fn field_in(fields: &[FieldType], field_index: u32) -> Option<FieldType>
    ensures { result ≡ slice_get fields.now field_index }
{
    let at = field_index as usize;
    if at >= fields.len() {
        return None;
    }
    Some(fields[at])
}

/// The reference by which the array type at an index is reached, and its element.
pub fn element_at<R: WasmModuleResources>(
    validator: &OperatorValidator,
    resources: &R,
    type_index: u32,
) -> Result<(ValType, FieldType), Refusal>
    ensures { MatchResult result (λ p. element_place (here (R.meaning resources.now) validator.now) type_index ≡ Some
        (place_in (R.meaning resources.now) (p.0 ∷ I32 ∷ []) p.1))
        (λ r. element_place (here (R.meaning resources.now) validator.now) type_index ≡ None) }
{
    let element = match array_at(validator, resources, type_index) {
        Ok(element) => element,
        Err(refusal) => return Err(refusal),
    };
    Ok((reference_at(resources, type_index, true, false), element))
}

/// A reference to the type at an index, or exactly that type. The index is named by its id, which fits into a reference.
pub fn reference_at<R: WasmModuleResources>(
    resources: &R,
    type_index: u32,
    nullable: bool,
    exactly: bool,
) -> ValType
    requires { type_index < length (R.meaning resources.now).«module».types }
    ensures { type_in (R.meaning resources.now) result ≡ ref nullable
        (heap_to exactly (TypeAt (R.meaning resources.now) type_index)) }
{
    let mut heap_type = written(type_index, exactly);
    match resources.check_heap_type(&mut heap_type, 0) {
        Ok(()) => (),
        Err(_) => unreachable!(),
    }
    match RefType::new(nullable, heap_type) {
        Some(reference) => ValType::Ref(reference),
        None => unreachable!(),
    }
}

// The heap type as a module writes it.
fn written(type_index: u32, exactly: bool) -> HeapType
    ensures { result ≡ written_heap exactly type_index }
{
    if exactly {
        return HeapType::Exact(UnpackedIndex::Module(type_index));
    }
    HeapType::Concrete(UnpackedIndex::Module(type_index))
}

/// What an allocation of the type at an index gives.
pub fn allocated<R: WasmModuleResources>(
    validator: &OperatorValidator,
    resources: &R,
    type_index: u32,
) -> ValType
    requires { type_index < length (R.meaning resources.now).«module».types }
    ensures { type_in (R.meaning resources.now) result ≡ allocated (here (R.meaning resources.now) validator.now)
        (TypeAt (R.meaning resources.now) type_index) }
{
    let features = validator.features();
    reference_at(resources, type_index, false, features.custom_descriptors())
}

/// A reference to a heap type that code writes, with the types in it named by their ids, whatever the features are.
pub fn heap_at<R: WasmModuleResources>(
    validator: &OperatorValidator,
    resources: &R,
    nullable: bool,
    written: &HeapType,
) -> Result<RefType, Refusal>
    ensures { MatchResult result (λ r. (r.nullable ≡ nullable)
        × (heap_named (here (R.meaning resources.now) validator.now) written.now ≡ Some
        (heap_in (R.meaning resources.now) r.heap))) (λ r. heap_named
        (here (R.meaning resources.now) validator.now) written.now ≡ None) }
{
    let mut named = *written;
    match resources.check_heap_type(&mut named, 0) {
        Ok(()) => (),
        Err(_) => return Err(Refusal::unknown_heap(*written)),
    }
    let reference = match RefType::new(nullable, named) {
        Some(reference) => reference,
        None => unreachable!(),
    };
    if !may_use(validator, resources.is_shared(reference)) {
        return Err(Refusal::Because(Reason::NotShared));
    }
    Ok(reference)
}

/// A reference to an abstract type.
pub fn abstract_reference(nullable: bool, shared: bool, ty: AbstractHeapType) -> ValType
    ensures { result ≡ Ref (record { nullable = nullable; heap = HeapType.Abstract shared ty }) }
{
    match RefType::new(nullable, HeapType::Abstract { shared, ty }) {
        Some(reference) => ValType::Ref(reference),
        None => unreachable!(),
    }
}
