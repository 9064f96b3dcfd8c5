//! Subtype tests of value types by the declared supertypes, and what is asked of heap types (WebAssembly 3.0, validation,
//! matching). The contracts speak of ids (`specs/BelowIds.antt` of `wasm_module_validator_type_storage::trees`); where all groups are
//! in canonical form, that is what the types say that the ids stand for (`values_speak_of_types` there). None takes memory.

ghost use Rattle.std.specs.Prelude.{◌≡◌, ◌↔◌, ◌<◌, IsTrue};
ghost use Rattle.wasm_types.specs.trees.AbstractOrder.{AbstractBelow, top_of};
ghost use Rattle.wasm_types.specs.trees.Below.{abstract_above, bottom_of, NullBelow};
ghost use Rattle.wasm_types.specs.trees.Types.{abstract, concrete, exact, ref};
ghost use Rattle.wasm_types.specs.trees.Each.{EachHeap, EachValue};
ghost use Rattle.wasm_types.specs.values.Trees.{heap_of, abstract_of as abstract_in};
ghost use Rattle.wasm_types.specs.values.Values.{value_of};
ghost use Rattle.wasm_types.specs.Entries.{declared_of, inner_of};
ghost use Rattle.wasm_module_validator_type_storage.specs.trees.Groups.{count};
ghost use Rattle.wasm_module_validator_type_storage.specs.trees.ByIds.{IdBelow};
ghost use Rattle.wasm_module_validator_type_list.specs.Uniform.{AreAlike};
ghost use Rattle.wasm_module_validator_type_storage.specs.trees.BelowIds.{IsIdBelow, id_named, entry_by_id, heap_is_shared_by_id, value_is_shared_by_id, top_heap_by_id};
ghost use Rattle.wasm_module_validator_type_storage.specs.trees.BelowIds.{IsUnder, IsOver, IdBelowAbstract, AbstractBelowId, HeapBelowById, ValueBelowById};

use crate::TypeList;
use wasm_types::{
    AbstractHeapType, CompositeInnerType, CoreTypeId, HeapType, RefType, SubType, UnpackedIndex,
    ValType, equality_is_identity,
};

/// The abstract type of a constructor.
pub(crate) fn abstract_type_of(inner: &CompositeInnerType) -> AbstractHeapType
    ensures { abstract_in result ≡ abstract_above (inner_of inner.now) }
{
    match inner {
        CompositeInnerType::Func(_) => AbstractHeapType::Func,
        CompositeInnerType::Array(_) => AbstractHeapType::Array,
        CompositeInnerType::Struct(_) => AbstractHeapType::Struct,
        CompositeInnerType::Cont(_) => AbstractHeapType::Cont,
    }
}

// The bottom type of a constructor.
fn bottom_type_of(inner: &CompositeInnerType) -> AbstractHeapType
    ensures { abstract_in result ≡ bottom_of (inner_of inner.now) }
{
    match inner {
        CompositeInnerType::Func(_) => AbstractHeapType::NoFunc,
        CompositeInnerType::Array(_) => AbstractHeapType::None,
        CompositeInnerType::Struct(_) => AbstractHeapType::None,
        CompositeInnerType::Cont(_) => AbstractHeapType::NoCont,
    }
}

// The top of the hierarchy of an abstract type.
fn top_type_of(ty: AbstractHeapType) -> AbstractHeapType
    ensures { abstract_in result ≡ top_of (abstract_in ty) }
{
    match ty {
        AbstractHeapType::Func => AbstractHeapType::Func,
        AbstractHeapType::NoFunc => AbstractHeapType::Func,
        AbstractHeapType::Extern => AbstractHeapType::Extern,
        AbstractHeapType::NoExtern => AbstractHeapType::Extern,
        AbstractHeapType::Any => AbstractHeapType::Any,
        AbstractHeapType::Eq => AbstractHeapType::Any,
        AbstractHeapType::Struct => AbstractHeapType::Any,
        AbstractHeapType::Array => AbstractHeapType::Any,
        AbstractHeapType::I31 => AbstractHeapType::Any,
        AbstractHeapType::None => AbstractHeapType::Any,
        AbstractHeapType::Exn => AbstractHeapType::Exn,
        AbstractHeapType::NoExn => AbstractHeapType::Exn,
        AbstractHeapType::Cont => AbstractHeapType::Cont,
        AbstractHeapType::NoCont => AbstractHeapType::Cont,
    }
}

// Whether null is no value of the first, or one of both.
fn null_is_below(a: bool, b: bool) -> bool
    ensures { IsTrue result ↔ NullBelow a b }
{
    !a || b
}

// The id that an index is.
fn id_in(index: UnpackedIndex, known: usize) -> CoreTypeId
    requires { IsIdBelow known index }
    ensures id { result ≡ id_named index }
    ensures known { result.0 < known }
{
    match index {
        UnpackedIndex::Id(id) => id,
        UnpackedIndex::Module(_) => unreachable!(),
        UnpackedIndex::RecGroup(_) => unreachable!(),
    }
}

impl TypeList {
    // The type of an id.
    fn stored(&self, id: CoreTypeId) -> &SubType
        requires { id.0 < count self.now.groups }
        ensures { (declared_of result.now).entry ≡ entry_by_id self.now.groups id }
    {
        match self.get(id) {
            Some(ty) => ty,
            None => unreachable!(),
        }
    }

    // Whether the type of an id is of this sharedness, and of a constructor below the abstract type.
    fn is_under(&self, id: CoreTypeId, shared: bool, ty: AbstractHeapType) -> bool
        requires { id.0 < count self.now.groups }
        ensures { IsTrue result ↔ IsUnder self.now.groups shared (abstract_in ty) id }
    {
        let stored = self.stored(id);
        stored.composite_type.shared == shared
            && abstract_type_of(&stored.composite_type.inner).is_subtype_of(ty)
    }

    // Whether the abstract type is the bottom type of this id's type, of the same sharedness.
    fn is_over(&self, id: CoreTypeId, shared: bool, ty: AbstractHeapType) -> bool
        requires { id.0 < count self.now.groups }
        ensures { IsTrue result ↔ IsOver self.now.groups shared (abstract_in ty) id }
    {
        let stored = self.stored(id);
        shared == stored.composite_type.shared && ty == bottom_type_of(&stored.composite_type.inner)
    }

    // Whether all that the type of an id is declared below is of one kind with it, so that it stands for all.
    fn is_like_all_above(&self, id: CoreTypeId) -> bool
        ensures { IsTrue result → (j : CoreTypeId) → IdBelow self.now.groups id j → AreAlike (entry_by_id self.now.groups id)
            (entry_by_id self.now.groups j) }
    {
        match self.lists.uniform.get(id.number() as usize) {
            Some(flag) => *flag,
            None => false,
        }
    }

    // Whether the type of an id is below an abstract type, by itself or by what it is declared below.
    fn id_is_below_abstract(&self, id: CoreTypeId, shared: bool, ty: AbstractHeapType) -> bool
        requires { id.0 < count self.now.groups }
        ensures { IsTrue result ↔ IdBelowAbstract self.now.groups id shared (abstract_in ty) }
    {
        let mut at = id;
        'chain: loop {
            if self.is_under(at, shared, ty) {
                return true;
            }
            match self.supertype_of(at) {
                Some(above) => at = above,
                None => return false,
            }
        }
    }

    // Whether an abstract type is below the type of an id, and below all that this is declared below.
    fn abstract_is_below_id(&self, shared: bool, ty: AbstractHeapType, id: CoreTypeId) -> bool
        requires { id.0 < count self.now.groups }
        ensures { IsTrue result ↔ AbstractBelowId self.now.groups id shared (abstract_in ty) }
    {
        let mut at = id;
        'chain: loop {
            if !self.is_over(at, shared, ty) {
                return false;
            }
            match self.supertype_of(at) {
                Some(above) => at = above,
                None => return true,
            }
        }
    }
}

impl TypeList {
    // Whether the type of an id is below an abstract type: by itself alone, where all above it is of one kind with it.
    fn concrete_is_below_abstract(&self, id: CoreTypeId, shared: bool, ty: AbstractHeapType) -> bool
        requires { id.0 < count self.now.groups }
        ensures { IsTrue result ↔ IdBelowAbstract self.now.groups id shared (abstract_in ty) }
    {
        if self.is_like_all_above(id) {
            return self.is_under(id, shared, ty);
        }
        self.id_is_below_abstract(id, shared, ty)
    }

    // Whether an abstract type is below the type of an id and all above it: below the type alone, where all are of one kind.
    fn abstract_is_below_concrete(&self, shared: bool, ty: AbstractHeapType, id: CoreTypeId) -> bool
        requires { id.0 < count self.now.groups }
        ensures { IsTrue result ↔ AbstractBelowId self.now.groups id shared (abstract_in ty) }
    {
        if self.is_like_all_above(id) {
            return self.is_over(id, shared, ty);
        }
        self.abstract_is_below_id(shared, ty, id)
    }

    // Whether an abstract type is below a heap type.
    fn abstract_is_below(&self, shared: bool, ty: AbstractHeapType, b: HeapType) -> bool
        requires { EachHeap (IsIdBelow (count self.now.groups)) (heap_of b) }
        ensures { IsTrue result ↔ HeapBelowById self.now.groups (abstract shared (abstract_in ty)) (heap_of b) }
    {
        match b {
            HeapType::Abstract {
                shared: b_shared,
                ty: b_ty,
            } => shared == b_shared && ty.is_subtype_of(b_ty),
            HeapType::Concrete(index) => {
                self.abstract_is_below_concrete(shared, ty, id_in(index, self.type_count()))
            }
            HeapType::Exact(index) => {
                self.abstract_is_below_concrete(shared, ty, id_in(index, self.type_count()))
            }
        }
    }

    // Whether a type, or what is below it, is below a heap type.
    fn concrete_is_below(&self, a: UnpackedIndex, b: HeapType) -> bool
        requires first { IsIdBelow (count self.now.groups) a }
        requires second { EachHeap (IsIdBelow (count self.now.groups)) (heap_of b) }
        ensures { IsTrue result ↔ HeapBelowById self.now.groups (concrete a) (heap_of b) }
    {
        let id = id_in(a, self.type_count());
        match b {
            HeapType::Abstract { shared, ty } => self.concrete_is_below_abstract(id, shared, ty),
            HeapType::Concrete(index) => self.id_is_subtype(id, id_in(index, self.type_count())),
            HeapType::Exact(_) => false,
        }
    }

    // Whether a type exactly is below a heap type.
    fn exact_is_below(&self, a: UnpackedIndex, b: HeapType) -> bool
        requires first { IsIdBelow (count self.now.groups) a }
        requires second { EachHeap (IsIdBelow (count self.now.groups)) (heap_of b) }
        ensures { IsTrue result ↔ HeapBelowById self.now.groups (exact a) (heap_of b) }
    {
        let id = id_in(a, self.type_count());
        match b {
            HeapType::Abstract { shared, ty } => self.concrete_is_below_abstract(id, shared, ty),
            HeapType::Concrete(index) => self.id_is_subtype(id, id_in(index, self.type_count())),
            HeapType::Exact(index) => id == id_in(index, self.type_count()),
        }
    }

    // Whether one heap type is below another.
    fn heaptype_is_subtype(&self, a: HeapType, b: HeapType) -> bool
        requires first { EachHeap (IsIdBelow (count self.now.groups)) (heap_of a) }
        requires second { EachHeap (IsIdBelow (count self.now.groups)) (heap_of b) }
        ensures { IsTrue result ↔ HeapBelowById self.now.groups (heap_of a) (heap_of b) }
    {
        match a {
            HeapType::Abstract { shared, ty } => self.abstract_is_below(shared, ty, b),
            HeapType::Concrete(index) => self.concrete_is_below(index, b),
            HeapType::Exact(index) => self.exact_is_below(index, b),
        }
    }

    /// Whether the first reference type is below the second.
    pub fn reftype_is_subtype(&self, a: RefType, b: RefType) -> bool
        requires first { EachHeap (IsIdBelow (count self.now.groups)) (heap_of a.heap) }
        requires second { EachHeap (IsIdBelow (count self.now.groups)) (heap_of b.heap) }
        ensures { IsTrue result ↔ ValueBelowById self.now.groups (ref a.nullable (heap_of a.heap))
            (ref b.nullable (heap_of b.heap)) }
    {
        null_is_below(a.is_nullable(), b.is_nullable())
            && self.heaptype_is_subtype(a.heap_type(), b.heap_type())
    }

    /// Whether the first value type is below the second.
    pub fn valtype_is_subtype(&self, a: ValType, b: ValType) -> bool
        requires first { EachValue (IsIdBelow (count self.now.groups)) (value_of a) }
        requires second { EachValue (IsIdBelow (count self.now.groups)) (value_of b) }
        ensures { IsTrue result ↔ ValueBelowById self.now.groups (value_of a) (value_of b) }
    {
        match a.as_reference_type() {
            Some(a_ref) => match b.as_reference_type() {
                Some(b_ref) => self.reftype_is_subtype(a_ref, b_ref),
                None => false,
            },
            None => {
                equality_is_identity();
                a == b
            }
        }
    }

    /// Whether a reference type is shared (the proposal on shared everything).
    pub fn reftype_is_shared(&self, ty: RefType) -> bool
        requires { EachHeap (IsIdBelow (count self.now.groups)) (heap_of ty.heap) }
        ensures { result ≡ heap_is_shared_by_id self.now.groups (heap_of ty.heap) }
    {
        match ty.heap_type() {
            HeapType::Abstract { shared, ty: _ } => shared,
            HeapType::Concrete(index) => {
                self.stored(id_in(index, self.type_count()))
                    .composite_type
                    .shared
            }
            HeapType::Exact(index) => {
                self.stored(id_in(index, self.type_count()))
                    .composite_type
                    .shared
            }
        }
    }

    /// Whether a value type is shared: numbers and vectors always are.
    pub fn valtype_is_shared(&self, ty: ValType) -> bool
        requires { EachValue (IsIdBelow (count self.now.groups)) (value_of ty) }
        ensures { result ≡ value_is_shared_by_id self.now.groups (value_of ty) }
    {
        match ty.as_reference_type() {
            Some(reference) => self.reftype_is_shared(reference),
            None => true,
        }
    }

    // The top of the hierarchy that the type of an id stands in.
    fn top_of_id(&self, id: CoreTypeId) -> HeapType
        requires { id.0 < count self.now.groups }
        ensures { heap_of result ≡ abstract (entry_by_id self.now.groups id).shared
            (top_of (abstract_above (entry_by_id self.now.groups id).inner)) }
    {
        let stored = self.stored(id);
        HeapType::Abstract {
            shared: stored.composite_type.shared,
            ty: top_type_of(abstract_type_of(&stored.composite_type.inner)),
        }
    }

    /// The top of the hierarchy that a heap type stands in, of the same sharedness.
    pub fn top_type(&self, heap_type: &HeapType) -> HeapType
        requires { EachHeap (IsIdBelow (count self.now.groups)) (heap_of heap_type.now) }
        ensures { heap_of result ≡ top_heap_by_id self.now.groups (heap_of heap_type.now) }
    {
        match *heap_type {
            HeapType::Abstract { shared, ty } => HeapType::Abstract {
                shared,
                ty: top_type_of(ty),
            },
            HeapType::Concrete(index) => self.top_of_id(id_in(index, self.type_count())),
            HeapType::Exact(index) => self.top_of_id(id_in(index, self.type_count())),
        }
    }
}
