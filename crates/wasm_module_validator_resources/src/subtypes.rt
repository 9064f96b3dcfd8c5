//! Subtyping of the types that code names (WebAssembly 3.0, validation, matching), and what is asked of heap types.
//!
//! Where no feature asks for canonical forms, types have no references, and two ids may have one type: then their groups are
//! compared.

ghost use Rattle.std.specs.Prelude.{◌≡◌, ◌↔◌, ◌+◌, ◌-◌, ◌<◌, ◌≤◌, IsTrue, false, get_or};
ghost use Rattle.wasm_types.specs.settings.Features.{needs_canonical_types};
ghost use Rattle.wasm_types.specs.trees.Types.{abstract, ref};
ghost use Rattle.wasm_types.specs.trees.AbstractOrder.{top_of};
ghost use Rattle.wasm_types.specs.trees.Below.{DeclaredBelow, HeapBelow, NullBelow, Below, heap_is_shared};
ghost use Rattle.wasm_types.specs.values.Trees.{abstract_of as abstract_in};
ghost use Rattle.wasm_operator_validator_resources.specs.Meaning.{heap_in, type_in, top_heap};
ghost use Rattle.wasm_module_validator_type_storage.specs.trees.Groups.{count, tree_of, declared_by_id};
ghost use Rattle.wasm_module_validator_type_storage.specs.trees.BelowIds.{undeclared};
ghost use Rattle.wasm_module_validator_resources.specs.Reading.{names_in};
ghost use Rattle.wasm_module_validator_resources.specs.Named.{tree_meant, IsInList, AreStoredAlike, HasSpan, IsUnderKind, IsOverKind, bottom_under};

use crate::named::{Named, Span};
use crate::resources::OperatorValidatorResources;
use crate::types::stored_type;
use wasm_module_validator_type_list::TypeList;
use wasm_types::laws::equality_is_of_declarations;
use wasm_types::{AbstractHeapType, CoreTypeId, HeapType, RefType, ValType, equality_is_identity};

// The bottom type below an abstract type that is a constructor's.
fn bottom_of(kind: AbstractHeapType) -> AbstractHeapType
    ensures { abstract_in result ≡ bottom_under (abstract_in kind) }
{
    match kind {
        AbstractHeapType::Func => AbstractHeapType::NoFunc,
        AbstractHeapType::Array => AbstractHeapType::None,
        AbstractHeapType::Struct => AbstractHeapType::None,
        AbstractHeapType::Cont => AbstractHeapType::NoCont,
        AbstractHeapType::Extern
        | AbstractHeapType::Any
        | AbstractHeapType::None
        | AbstractHeapType::NoExtern
        | AbstractHeapType::NoFunc
        | AbstractHeapType::Eq
        | AbstractHeapType::I31
        | AbstractHeapType::Exn
        | AbstractHeapType::NoExn
        | AbstractHeapType::NoCont => kind,
    }
}

// Whether null is no value of the first, or one of both.
fn null_is_below(a: bool, b: bool) -> bool
    ensures { IsTrue result ↔ NullBelow a b }
{
    !a || b
}

// Whether the types of two ids are stored alike.
fn is_stored_alike(types: &TypeList, a: u32, b: u32) -> bool
    requires a_known { a < count types.now.groups }
    requires b_known { b < count types.now.groups }
    ensures { IsTrue result ↔ (get_or (declared_by_id types.now.groups) a undeclared ≡ get_or
        (declared_by_id types.now.groups) b undeclared) }
{
    equality_is_of_declarations();
    let first = stored_type(types, CoreTypeId::new(a));
    let other = stored_type(types, CoreTypeId::new(b));
    first == other
}

// The ids of the group that the type of an id stands in.
fn span_of(types: &TypeList, id: CoreTypeId) -> Span
    requires { id.0 < count types.now.groups }
    ensures { HasSpan types.now.groups id.0 result.first result.len }
{
    let _count = types.type_count();
    let number = types.rec_group_id_of(id);
    let elements = types.rec_group_elements(number);
    let first = elements.start.number();
    let end = elements.end.number();
    Span {
        first,
        len: end - first,
    }
}

// Whether the types of so many ids from these two on are stored alike.
fn are_stored_alike(types: &TypeList, first: u32, other: u32, len: u32) -> bool
    requires first { first + len ≤ count types.now.groups }
    requires other { other + len ≤ count types.now.groups }
    ensures { IsTrue result ↔ AreStoredAlike types.now.groups first other len }
{
    let _count = types.type_count();
    for place in 0..len {
        if !is_stored_alike(types, first + place, other + place) {
            return false;
        }
    }
    true
}

impl<'a> OperatorValidatorResources<'a> {
    // Whether all groups are in canonical form, so that one type has one id.
    fn has_one_id_each(&self) -> bool
        ensures { result ≡ needs_canonical_types self.now.«module».now.settings.features }
    {
        self.module.features().needs_type_canonicalization()
    }

    // Whether two ids have one type, where types have no references.
    fn unroll_alike(&self, a: CoreTypeId, b: CoreTypeId) -> bool
        requires plain { needs_canonical_types self.now.«module».now.settings.features ≡ false }
        requires a_known { a.0 < count self.now.types.now.groups }
        requires b_known { b.0 < count self.now.types.now.groups }
        ensures { IsTrue result ↔ (tree_of self.now.types.now.groups a.0 ≡ tree_of self.now.types.now.groups b.0) }
    {
        let _count = self.types.type_count();
        let first = span_of(self.types, a);
        let other = span_of(self.types, b);
        if a.number() - first.first != b.number() - other.first {
            return false;
        }
        if first.len != other.len {
            return false;
        }
        are_stored_alike(self.types, first.first, other.first, first.len)
    }

    // Whether two ids have one type.
    fn is_same_type(&self, a: CoreTypeId, b: CoreTypeId) -> bool
        requires a_known { a.0 < count self.now.types.now.groups }
        requires b_known { b.0 < count self.now.types.now.groups }
        ensures { IsTrue result ↔ (tree_of self.now.types.now.groups a.0 ≡ tree_of self.now.types.now.groups b.0) }
    {
        let _count = self.types.type_count();
        if self.has_one_id_each() {
            return a == b;
        }
        self.unroll_alike(a, b)
    }

    // Whether the type of an id is that of another, or declared below it in any number of steps.
    fn is_declared_below(&self, a: CoreTypeId, b: CoreTypeId) -> bool
        requires a_known { a.0 < count self.now.types.now.groups }
        requires b_known { b.0 < count self.now.types.now.groups }
        ensures { IsTrue result ↔ DeclaredBelow (tree_of self.now.types.now.groups a.0)
            (tree_of self.now.types.now.groups b.0) }
    {
        let _count = self.types.type_count();
        if self.has_one_id_each() {
            return self.types.id_is_subtype(a, b);
        }
        self.unroll_alike(a, b)
    }

    // Whether two names have one type.
    fn is_same(&self, a: Named, b: Named) -> bool
        requires a_known { IsInList self.now.types.now.groups a }
        requires b_known { IsInList self.now.types.now.groups b }
        ensures { IsTrue result ↔ (tree_meant self.now.types.now.groups a ≡ tree_meant self.now.types.now.groups b) }
    {
        match a {
            Named::Known(a) => match b {
                Named::Known(b) => self.is_same_type(a, b),
                Named::Unknown(_) => false,
            },
            Named::Unknown(a) => match b {
                Named::Known(_) => false,
                Named::Unknown(b) => a == b,
            },
        }
    }

    // Whether the type of a name is that of another, or declared below it.
    fn is_below(&self, a: Named, b: Named) -> bool
        requires a_known { IsInList self.now.types.now.groups a }
        requires b_known { IsInList self.now.types.now.groups b }
        ensures { IsTrue result ↔ DeclaredBelow (tree_meant self.now.types.now.groups a)
            (tree_meant self.now.types.now.groups b) }
    {
        let _count = self.types.type_count();
        match a {
            Named::Known(a) => match b {
                Named::Known(b) => self.is_declared_below(a, b),
                Named::Unknown(_) => false,
            },
            Named::Unknown(a) => match b {
                Named::Known(_) => false,
                Named::Unknown(b) => a == b,
            },
        }
    }

    // Whether the type of a name is of this sharedness, and of a constructor below the abstract type.
    fn is_under(&self, name: Named, shared: bool, ty: AbstractHeapType) -> bool
        requires { IsInList self.now.types.now.groups name }
        ensures { IsTrue result ↔ IsUnderKind (tree_meant self.now.types.now.groups name) shared (abstract_in ty) }
    {
        let shape = self.shape(name);
        shape.shared == shared && shape.kind.is_subtype_of(ty)
    }

    // Whether an abstract type is the bottom type of a name's type, of the same sharedness.
    fn is_over(&self, name: Named, shared: bool, ty: AbstractHeapType) -> bool
        requires { IsInList self.now.types.now.groups name }
        ensures { IsTrue result ↔ IsOverKind (tree_meant self.now.types.now.groups name) shared (abstract_in ty) }
    {
        let shape = self.shape(name);
        shared == shape.shared && ty == bottom_of(shape.kind)
    }

    // Whether an abstract type is below a heap type.
    fn abstract_is_below(&self, shared: bool, ty: AbstractHeapType, b: HeapType) -> bool
        ensures { IsTrue result ↔ HeapBelow (abstract shared (abstract_in ty))
            (heap_in (names_in self.now.types.now.groups self.now.«module».now.types) b) }
    {
        match b {
            HeapType::Abstract {
                shared: b_shared,
                ty: b_ty,
            } => shared == b_shared && ty.is_subtype_of(b_ty),
            HeapType::Concrete(index) => self.is_over(self.named(index), shared, ty),
            HeapType::Exact(index) => self.is_over(self.named(index), shared, ty),
        }
    }

    // Whether a heap type is below another.
    fn heap_type_is_below(&self, a: HeapType, b: HeapType) -> bool
        ensures { IsTrue result
            ↔ HeapBelow (heap_in (names_in self.now.types.now.groups self.now.«module».now.types) a) (heap_in (names_in self.now.types.now.groups
            self.now.«module».now.types) b) }
    {
        match a {
            HeapType::Abstract { shared, ty } => self.abstract_is_below(shared, ty, b),
            HeapType::Concrete(index) => match b {
                HeapType::Abstract { shared, ty } => self.is_under(self.named(index), shared, ty),
                HeapType::Concrete(other) => self.is_below(self.named(index), self.named(other)),
                HeapType::Exact(_) => false,
            },
            HeapType::Exact(index) => match b {
                HeapType::Abstract { shared, ty } => self.is_under(self.named(index), shared, ty),
                HeapType::Concrete(other) => self.is_below(self.named(index), self.named(other)),
                HeapType::Exact(other) => self.is_same(self.named(index), self.named(other)),
            },
        }
    }

    // Whether a reference type is below another.
    fn reference_is_below(&self, a: RefType, b: RefType) -> bool
        ensures { IsTrue result
            ↔ Below (ref a.nullable (heap_in (names_in self.now.types.now.groups self.now.«module».now.types) a.heap)) (ref b.nullable (heap_in
            (names_in self.now.types.now.groups self.now.«module».now.types) b.heap)) }
    {
        null_is_below(a.is_nullable(), b.is_nullable())
            && self.heap_type_is_below(a.heap_type(), b.heap_type())
    }

    /// Whether a value type is below another.
    pub(crate) fn value_is_below(&self, a: ValType, b: ValType) -> bool
        ensures { IsTrue result
            ↔ Below (type_in (names_in self.now.types.now.groups self.now.«module».now.types) a) (type_in (names_in self.now.types.now.groups
            self.now.«module».now.types) b) }
    {
        match a.as_reference_type() {
            Some(a_ref) => match b.as_reference_type() {
                Some(b_ref) => self.reference_is_below(a_ref, b_ref),
                None => false,
            },
            None => {
                equality_is_identity();
                a == b
            }
        }
    }

    /// Whether what a heap type stands for is shared.
    pub(crate) fn heap_type_is_shared(&self, ty: HeapType) -> bool
        ensures { result ≡ heap_is_shared (heap_in (names_in self.now.types.now.groups
            self.now.«module».now.types) ty) }
    {
        match ty {
            HeapType::Abstract { shared, ty: _ } => shared,
            HeapType::Concrete(index) => self.shape(self.named(index)).shared,
            HeapType::Exact(index) => self.shape(self.named(index)).shared,
        }
    }

    // The type above an abstract type and all of its hierarchy, and as shared.
    fn top_above(&self, shared: bool, ty: AbstractHeapType) -> HeapType
        ensures { heap_in (names_in self.now.types.now.groups self.now.«module».now.types) result ≡ abstract shared
            (top_of (abstract_in ty)) }
    {
        self.types.top_type(&HeapType::Abstract { shared, ty })
    }

    /// The type above all types of a heap type's hierarchy, and as shared.
    pub(crate) fn top_heap_type(&self, ty: &HeapType) -> HeapType
        ensures { heap_in (names_in self.now.types.now.groups self.now.«module».now.types) result
            ≡ top_heap (heap_in (names_in self.now.types.now.groups self.now.«module».now.types) ty.now) }
    {
        match *ty {
            HeapType::Abstract { shared, ty } => self.top_above(shared, ty),
            HeapType::Concrete(index) => {
                let shape = self.shape(self.named(index));
                self.top_above(shape.shared, shape.kind)
            }
            HeapType::Exact(index) => {
                let shape = self.shape(self.named(index));
                self.top_above(shape.shared, shape.kind)
            }
        }
    }
}
