//! The visitor told of an operator on objects or references straight from its bytes, each shape of operator in a function of its own.

ghost use Rattle.std.specs.Prelude.{◌≡◌, ◌<◌, length, get_or, true, IfSome, IfNone};
ghost use Rattle.wasm_operator_validator_state.specs.State.{Visits};
ghost use Rattle.wasm_operator_validator_state.specs.Refusals.{refused};
ghost use Rattle.wasm_operators_frequent.specs.Short.{Begins, BeginsPrefixed, IsTold};
ghost use Rattle.wasm_types.specs.values.Decode.{begins_index, heap_type, type_of_byte};
ghost use Rattle.wasm_types.specs.decoding.Numbers.{GivesAt};

use wasm_operator_validator_stacks::{Refusal, WasmModuleResources};
use wasm_operator_validator_visits::{AsRefusal, ValidatingVisitor};
use wasm_operators_visit_operator::{VisitControl, VisitGc, VisitMemory};
use wasm_types::{AbstractHeapType, HeapType, UnpackedIndex, WasmFeatures};
use wasm_types_decoding::{short_s33_at, short_u32_at};

/// Of one behind the prefix `fb`: `object_at`, with a place of its own for the answer, so that none is made ready in the loop.
#[inline(always)]
pub(crate) fn tell_object<'a, R: WasmModuleResources>(
    visitor: &mut ValidatingVisitor<'_, '_, R, AsRefusal>,
    bytes: &'a [u8],
    at: usize,
    features: WasmFeatures,
) -> Option<(Result<(), Refusal>, usize)>
    requires { Begins bytes.now at 0xfb }
    ensures told { IfSome result (λ r. IsTold features.0 bytes.now at r.1 (λ o.
        Visits (R.meaning visitor.old.resources.now) visitor.old.inner.now o (refused r.0) visitor.new.inner.now
        × (visitor.new.inner.ghost_name ≡ visitor.old.inner.ghost_name)
        × (visitor.new.resources.now ≡ visitor.old.resources.now))) }
    ensures none { IfNone result (visitor.new ≡ visitor.old) }
{
    let Some((answer, end)) = object_at(visitor, bytes, at, features) else {
        return None;
    };
    Some((answer, end))
}

/// The same, out of line.
#[inline(never)]
fn object_at<'a, R: WasmModuleResources>(
    visitor: &mut ValidatingVisitor<'_, '_, R, AsRefusal>,
    bytes: &'a [u8],
    at: usize,
    features: WasmFeatures,
) -> Option<(Result<(), Refusal>, usize)>
    requires { Begins bytes.now at 0xfb }
    ensures told { IfSome result (λ r. IsTold features.0 bytes.now at r.1 (λ o.
        Visits (R.meaning visitor.old.resources.now) visitor.old.inner.now o (refused r.0) visitor.new.inner.now
        × (visitor.new.inner.ghost_name ≡ visitor.old.inner.ghost_name)
        × (visitor.new.resources.now ≡ visitor.old.resources.now))) }
    ensures none { IfNone result (visitor.new ≡ visitor.old) }
{
    object(bytes, at, features, visitor)
}

/// Of one on references or on a table's element, of one byte and at most one number or heap type: `reference_at`, with a place of its own
/// for the answer.
#[inline(always)]
pub(crate) fn tell_reference<'a, R: WasmModuleResources>(
    visitor: &mut ValidatingVisitor<'_, '_, R, AsRefusal>,
    bytes: &'a [u8],
    at: usize,
    code: u8,
    features: WasmFeatures,
) -> Option<(Result<(), Refusal>, usize)>
    requires { Begins bytes.now at code }
    ensures told { IfSome result (λ r. IsTold features.0 bytes.now at r.1 (λ o.
        Visits (R.meaning visitor.old.resources.now) visitor.old.inner.now o (refused r.0) visitor.new.inner.now
        × (visitor.new.inner.ghost_name ≡ visitor.old.inner.ghost_name)
        × (visitor.new.resources.now ≡ visitor.old.resources.now))) }
    ensures none { IfNone result (visitor.new ≡ visitor.old) }
{
    let Some((answer, end)) = reference_at(visitor, bytes, at, code, features) else {
        return None;
    };
    Some((answer, end))
}

/// The same, out of line.
#[inline(never)]
fn reference_at<'a, R: WasmModuleResources>(
    visitor: &mut ValidatingVisitor<'_, '_, R, AsRefusal>,
    bytes: &'a [u8],
    at: usize,
    code: u8,
    features: WasmFeatures,
) -> Option<(Result<(), Refusal>, usize)>
    requires { Begins bytes.now at code }
    ensures told { IfSome result (λ r. IsTold features.0 bytes.now at r.1 (λ o.
        Visits (R.meaning visitor.old.resources.now) visitor.old.inner.now o (refused r.0) visitor.new.inner.now
        × (visitor.new.inner.ghost_name ≡ visitor.old.inner.ghost_name)
        × (visitor.new.resources.now ≡ visitor.old.resources.now))) }
    ensures none { IfNone result (visitor.new ≡ visitor.old) }
{
    match code {
        0x14..=0x15 => tell_control(visitor, bytes, at, code, features),
        0xd3 => tell_equal(visitor, bytes, at, code, features),
        0xd4..=0xd6 => tell_control(visitor, bytes, at, code, features),
        _ => tell_made(visitor, bytes, at, code, features),
    }
}

/// Of one on a table's element, or that makes a reference or asks whether it is null.
#[inline(always)]
fn tell_made<'a, R: WasmModuleResources>(
    visitor: &mut ValidatingVisitor<'_, '_, R, AsRefusal>,
    bytes: &'a [u8],
    at: usize,
    code: u8,
    features: WasmFeatures,
) -> Option<(Result<(), Refusal>, usize)>
    requires { Begins bytes.now at code }
    ensures told { IfSome result (λ r. IsTold features.0 bytes.now at r.1 (λ o.
        Visits (R.meaning visitor.old.resources.now) visitor.old.inner.now o (refused r.0) visitor.new.inner.now
        × (visitor.new.inner.ghost_name ≡ visitor.old.inner.ghost_name)
        × (visitor.new.resources.now ≡ visitor.old.resources.now))) }
    ensures none { IfNone result (visitor.new ≡ visitor.old) }
{
    reference(bytes, at, code, features, visitor)
}

/// Of one that compares two references.
#[inline(always)]
fn tell_equal<'a, R: WasmModuleResources>(
    visitor: &mut ValidatingVisitor<'_, '_, R, AsRefusal>,
    bytes: &'a [u8],
    at: usize,
    code: u8,
    features: WasmFeatures,
) -> Option<(Result<(), Refusal>, usize)>
    requires { Begins bytes.now at code }
    ensures told { IfSome result (λ r. IsTold features.0 bytes.now at r.1 (λ o.
        Visits (R.meaning visitor.old.resources.now) visitor.old.inner.now o (refused r.0) visitor.new.inner.now
        × (visitor.new.inner.ghost_name ≡ visitor.old.inner.ghost_name)
        × (visitor.new.resources.now ≡ visitor.old.resources.now))) }
    ensures none { IfNone result (visitor.new ≡ visitor.old) }
{
    equal_references(bytes, at, code, features, visitor)
}

/// Of one that goes on with a reference that is not null, or branches or calls by a reference.
#[inline(always)]
fn tell_control<'a, R: WasmModuleResources>(
    visitor: &mut ValidatingVisitor<'_, '_, R, AsRefusal>,
    bytes: &'a [u8],
    at: usize,
    code: u8,
    features: WasmFeatures,
) -> Option<(Result<(), Refusal>, usize)>
    requires { Begins bytes.now at code }
    ensures told { IfSome result (λ r. IsTold features.0 bytes.now at r.1 (λ o.
        Visits (R.meaning visitor.old.resources.now) visitor.old.inner.now o (refused r.0) visitor.new.inner.now
        × (visitor.new.inner.ghost_name ≡ visitor.old.inner.ghost_name)
        × (visitor.new.resources.now ≡ visitor.old.resources.now))) }
    ensures none { IfNone result (visitor.new ≡ visitor.old) }
{
    control_reference(bytes, at, code, features, visitor)
}

/// One behind the prefix `fb`.
#[inline(always)]
fn object<'a, V: VisitGc<'a>>(
    bytes: &'a [u8],
    at: usize,
    features: WasmFeatures,
    visitor: &mut V,
) -> Option<(V::Output, usize)>
    requires { Begins bytes.now at 0xfb }
    ensures told { IfSome result (λ r. IsTold features.0 bytes.now at r.1
        (λ o. V.visits visitor.old o r.0 visitor.new)) }
    ensures none { IfNone result (visitor.new ≡ visitor.old) }
{
    let Some((code, middle)) = short_u32_at(bytes, at + 1) else {
        return None;
    };
    match code {
        0x02..=0x05 => object_field(bytes, at, code, middle, features, visitor),
        0x08 => object_field(bytes, at, code, middle, features, visitor),
        0x11 => object_field(bytes, at, code, middle, features, visitor),
        0x0f => object_alone(bytes, at, code, middle, features, visitor),
        0x1a..=0x1e => object_alone(bytes, at, code, middle, features, visitor),
        0x14..=0x17 => object_cast(bytes, at, code, middle, features, visitor),
        _ => object_type(bytes, at, code, middle, features, visitor),
    }
}

/// One behind the prefix `fb` that carries two numbers: the index of a type, and that of a field, a number of elements, or the index of
/// another type. Its code ends at `middle`.
#[inline(always)]
fn object_field<'a, V: VisitGc<'a>>(
    bytes: &'a [u8],
    at: usize,
    code: u32,
    middle: usize,
    features: WasmFeatures,
    visitor: &mut V,
) -> Option<(V::Output, usize)>
    requires { BeginsPrefixed bytes.now at 0xfb code middle }
    ensures told { IfSome result (λ r. IsTold features.0 bytes.now at r.1
        (λ o. V.visits visitor.old o r.0 visitor.new)) }
    ensures none { IfNone result (visitor.new ≡ visitor.old) }
{
    let Some((ty, next)) = short_u32_at(bytes, middle) else {
        return None;
    };
    let Some((second, end)) = short_u32_at(bytes, next) else {
        return None;
    };
    match code {
        0x02 => Some((visitor.visit_struct_get(ty, second), end)),
        0x03 => Some((visitor.visit_struct_get_s(ty, second), end)),
        0x04 => Some((visitor.visit_struct_get_u(ty, second), end)),
        0x05 => Some((visitor.visit_struct_set(ty, second), end)),
        0x08 => Some((visitor.visit_array_new_fixed(ty, second), end)),
        0x11 => Some((visitor.visit_array_copy(ty, second), end)),
        _ => None,
    }
}

/// One behind the prefix `fb` that carries the index of a type. Its code ends at `middle`.
#[inline(always)]
fn object_type<'a, V: VisitGc<'a>>(
    bytes: &'a [u8],
    at: usize,
    code: u32,
    middle: usize,
    features: WasmFeatures,
    visitor: &mut V,
) -> Option<(V::Output, usize)>
    requires { BeginsPrefixed bytes.now at 0xfb code middle }
    ensures told { IfSome result (λ r. IsTold features.0 bytes.now at r.1
        (λ o. V.visits visitor.old o r.0 visitor.new)) }
    ensures none { IfNone result (visitor.new ≡ visitor.old) }
{
    let Some((ty, end)) = short_u32_at(bytes, middle) else {
        return None;
    };
    match code {
        0x00 => Some((visitor.visit_struct_new(ty), end)),
        0x01 => Some((visitor.visit_struct_new_default(ty), end)),
        0x06 => Some((visitor.visit_array_new(ty), end)),
        0x07 => Some((visitor.visit_array_new_default(ty), end)),
        0x0b => Some((visitor.visit_array_get(ty), end)),
        0x0c => Some((visitor.visit_array_get_s(ty), end)),
        0x0d => Some((visitor.visit_array_get_u(ty), end)),
        0x0e => Some((visitor.visit_array_set(ty), end)),
        0x10 => Some((visitor.visit_array_fill(ty), end)),
        _ => None,
    }
}

/// One behind the prefix `fb` that carries nothing. Its code ends at `end`.
#[inline(always)]
fn object_alone<'a, V: VisitGc<'a>>(
    bytes: &'a [u8],
    at: usize,
    code: u32,
    end: usize,
    features: WasmFeatures,
    visitor: &mut V,
) -> Option<(V::Output, usize)>
    requires { BeginsPrefixed bytes.now at 0xfb code end }
    ensures told { IfSome result (λ r. IsTold features.0 bytes.now at r.1
        (λ o. V.visits visitor.old o r.0 visitor.new)) }
    ensures none { IfNone result (visitor.new ≡ visitor.old) }
{
    match code {
        0x0f => Some((visitor.visit_array_len(), end)),
        0x1a => Some((visitor.visit_any_convert_extern(), end)),
        0x1b => Some((visitor.visit_extern_convert_any(), end)),
        0x1c => Some((visitor.visit_ref_i31(), end)),
        0x1d => Some((visitor.visit_i31_get_s(), end)),
        0x1e => Some((visitor.visit_i31_get_u(), end)),
        _ => None,
    }
}

/// One behind the prefix `fb` that carries a heap type, to which a reference is tested or cast. Its code ends at `middle`.
#[inline(always)]
fn object_cast<'a, V: VisitGc<'a>>(
    bytes: &'a [u8],
    at: usize,
    code: u32,
    middle: usize,
    features: WasmFeatures,
    visitor: &mut V,
) -> Option<(V::Output, usize)>
    requires { BeginsPrefixed bytes.now at 0xfb code middle }
    ensures told { IfSome result (λ r. IsTold features.0 bytes.now at r.1
        (λ o. V.visits visitor.old o r.0 visitor.new)) }
    ensures none { IfNone result (visitor.new ≡ visitor.old) }
{
    let Some((hty, end)) = heap_type_at(bytes, middle) else {
        return None;
    };
    match code {
        0x14 => Some((visitor.visit_ref_test_non_null(hty), end)),
        0x15 => Some((visitor.visit_ref_test_nullable(hty), end)),
        0x16 => Some((visitor.visit_ref_cast_non_null(hty), end)),
        0x17 => Some((visitor.visit_ref_cast_nullable(hty), end)),
        _ => None,
    }
}

/// One on a table's element, or that makes a reference or asks whether it is null.
#[inline(always)]
fn reference<'a, V: VisitMemory<'a>>(
    bytes: &'a [u8],
    at: usize,
    code: u8,
    features: WasmFeatures,
    visitor: &mut V,
) -> Option<(V::Output, usize)>
    requires { Begins bytes.now at code }
    ensures told { IfSome result (λ r. IsTold features.0 bytes.now at r.1
        (λ o. V.visits visitor.old o r.0 visitor.new)) }
    ensures none { IfNone result (visitor.new ≡ visitor.old) }
{
    match code {
        0xd0 => null_reference(bytes, at, code, features, visitor),
        0xd1 => Some((visitor.visit_ref_is_null(), at + 1)),
        _ => indexed_reference(bytes, at, code, features, visitor),
    }
}

/// One that makes a null reference, which carries a heap type.
#[inline(always)]
fn null_reference<'a, V: VisitMemory<'a>>(
    bytes: &'a [u8],
    at: usize,
    code: u8,
    features: WasmFeatures,
    visitor: &mut V,
) -> Option<(V::Output, usize)>
    requires { Begins bytes.now at code }
    ensures told { IfSome result (λ r. IsTold features.0 bytes.now at r.1
        (λ o. V.visits visitor.old o r.0 visitor.new)) }
    ensures none { IfNone result (visitor.new ≡ visitor.old) }
{
    let Some((hty, end)) = heap_type_at(bytes, at + 1) else {
        return None;
    };
    match code {
        0xd0 => Some((visitor.visit_ref_null(hty), end)),
        _ => None,
    }
}

/// One that carries the index of a function or of a table.
#[inline(always)]
fn indexed_reference<'a, V: VisitMemory<'a>>(
    bytes: &'a [u8],
    at: usize,
    code: u8,
    features: WasmFeatures,
    visitor: &mut V,
) -> Option<(V::Output, usize)>
    requires { Begins bytes.now at code }
    ensures told { IfSome result (λ r. IsTold features.0 bytes.now at r.1
        (λ o. V.visits visitor.old o r.0 visitor.new)) }
    ensures none { IfNone result (visitor.new ≡ visitor.old) }
{
    let Some((index, end)) = short_u32_at(bytes, at + 1) else {
        return None;
    };
    match code {
        0x25 => Some((visitor.visit_table_get(index), end)),
        0x26 => Some((visitor.visit_table_set(index), end)),
        0xd2 => Some((visitor.visit_ref_func(index), end)),
        _ => None,
    }
}

/// One that compares two references.
#[inline(always)]
fn equal_references<'a, V: VisitGc<'a>>(
    bytes: &'a [u8],
    at: usize,
    code: u8,
    features: WasmFeatures,
    visitor: &mut V,
) -> Option<(V::Output, usize)>
    requires { Begins bytes.now at code }
    ensures told { IfSome result (λ r. IsTold features.0 bytes.now at r.1
        (λ o. V.visits visitor.old o r.0 visitor.new)) }
    ensures none { IfNone result (visitor.new ≡ visitor.old) }
{
    match code {
        0xd3 => Some((visitor.visit_ref_eq(), at + 1)),
        _ => None,
    }
}

/// One that goes on with a reference that is not null, or branches or calls by a reference.
#[inline(always)]
fn control_reference<'a, V: VisitControl<'a>>(
    bytes: &'a [u8],
    at: usize,
    code: u8,
    features: WasmFeatures,
    visitor: &mut V,
) -> Option<(V::Output, usize)>
    requires { Begins bytes.now at code }
    ensures told { IfSome result (λ r. IsTold features.0 bytes.now at r.1
        (λ o. V.visits visitor.old o r.0 visitor.new)) }
    ensures none { IfNone result (visitor.new ≡ visitor.old) }
{
    match code {
        0xd4 => Some((visitor.visit_ref_as_non_null(), at + 1)),
        _ => branch_reference(bytes, at, code, features, visitor),
    }
}

/// One that branches or calls by a reference, which carries a label or the index of a type.
#[inline(always)]
fn branch_reference<'a, V: VisitControl<'a>>(
    bytes: &'a [u8],
    at: usize,
    code: u8,
    features: WasmFeatures,
    visitor: &mut V,
) -> Option<(V::Output, usize)>
    requires { Begins bytes.now at code }
    ensures told { IfSome result (λ r. IsTold features.0 bytes.now at r.1
        (λ o. V.visits visitor.old o r.0 visitor.new)) }
    ensures none { IfNone result (visitor.new ≡ visitor.old) }
{
    let Some((index, end)) = short_u32_at(bytes, at + 1) else {
        return None;
    };
    match code {
        0x14 => Some((visitor.visit_call_ref(index), end)),
        0x15 => Some((visitor.visit_return_call_ref(index), end)),
        0xd5 => Some((visitor.visit_br_on_null(index), end)),
        0xd6 => Some((visitor.visit_br_on_non_null(index), end)),
        _ => None,
    }
}

/// An abstract heap type that is not shared, or a type by its index.
#[inline(always)]
fn heap_type_at(bytes: &[u8], at: usize) -> Option<(HeapType, usize)>
    ensures { IfSome result (λ r. GivesAt heap_type bytes.now at r.0 r.1) }
{
    if at >= bytes.len() {
        return None;
    }
    let byte = bytes[at];
    if begins_index(byte) {
        return heap_index_at(bytes, at);
    }
    // The marks of shared and of exact types are lower.
    if byte < 0x66 {
        return None;
    }
    match abstract_type(byte) {
        Some(ty) => Some((HeapType::Abstract { shared: false, ty }, at + 1)),
        None => None,
    }
}

/// A type by its index, where the first byte begins a number that is not negative.
#[inline(always)]
fn heap_index_at(bytes: &[u8], at: usize) -> Option<(HeapType, usize)>
    requires inside { at < length bytes.now }
    requires begins { begins_index (get_or bytes.now at 0) ≡ true }
    ensures { IfSome result (λ r. GivesAt heap_type bytes.now at r.0 r.1) }
{
    let Some((index, end)) = short_s33_at(bytes, at) else {
        return None;
    };
    // The index of a type is below 2^20.
    if index < 0 || index >= 0x10_0000 {
        return None;
    }
    Some((HeapType::Concrete(UnpackedIndex::Module(index as u32)), end))
}

/// Whether a number that is not negative begins with this byte.
#[inline(always)]
fn begins_index(byte: u8) -> bool
    ensures { result ≡ begins_index byte }
{
    byte < 0x40 || 0x7f < byte
}

/// The abstract heap type that a byte stands for.
#[inline(always)]
fn abstract_type(byte: u8) -> Option<AbstractHeapType>
    ensures { result ≡ type_of_byte byte }
{
    match byte {
        0x68 => Some(AbstractHeapType::Cont),
        0x69 => Some(AbstractHeapType::Exn),
        0x6a => Some(AbstractHeapType::Array),
        0x6b => Some(AbstractHeapType::Struct),
        0x6c => Some(AbstractHeapType::I31),
        0x6d => Some(AbstractHeapType::Eq),
        0x6e => Some(AbstractHeapType::Any),
        0x6f => Some(AbstractHeapType::Extern),
        0x70 => Some(AbstractHeapType::Func),
        0x71 => Some(AbstractHeapType::None),
        0x72 => Some(AbstractHeapType::NoExtern),
        0x73 => Some(AbstractHeapType::NoFunc),
        0x74 => Some(AbstractHeapType::NoExn),
        0x75 => Some(AbstractHeapType::NoCont),
        _ => None,
    }
}
