//! The visit that belongs to an operator.

ghost use Rattle.wasm_operators_enums.specs.Op.{Op};

use crate::gc::VisitGc;
use wasm_operators_visit::{DescriptorOperator, GcOperator};

/// Tells a visitor of this operator on structs, arrays or `i31`, or cast, by the visit that belongs to it.
#[inline]
pub fn visit_gc<'a, V: VisitGc<'a>>(visitor: &mut V, op: GcOperator) -> V::Output
    ensures { V.visits visitor.old (Op.Gc op) result visitor.new }
{
    match op {
        GcOperator::RefEq => visitor.visit_ref_eq(),
        GcOperator::StructNew { struct_type_index } => visitor.visit_struct_new(struct_type_index),
        GcOperator::StructNewDefault { struct_type_index } => visitor.visit_struct_new_default(
            struct_type_index,
        ),
        GcOperator::StructGet {
            struct_type_index,
            field_index,
        } => visitor.visit_struct_get(struct_type_index, field_index),
        GcOperator::StructGetS {
            struct_type_index,
            field_index,
        } => visitor.visit_struct_get_s(struct_type_index, field_index),
        GcOperator::StructGetU {
            struct_type_index,
            field_index,
        } => visitor.visit_struct_get_u(struct_type_index, field_index),
        GcOperator::StructSet {
            struct_type_index,
            field_index,
        } => visitor.visit_struct_set(struct_type_index, field_index),
        GcOperator::ArrayNew { array_type_index } => visitor.visit_array_new(array_type_index),
        GcOperator::ArrayNewDefault { array_type_index } => visitor.visit_array_new_default(
            array_type_index,
        ),
        GcOperator::ArrayNewFixed {
            array_type_index,
            array_size,
        } => visitor.visit_array_new_fixed(array_type_index, array_size),
        GcOperator::ArrayNewData {
            array_type_index,
            array_data_index,
        } => visitor.visit_array_new_data(array_type_index, array_data_index),
        GcOperator::ArrayNewElem {
            array_type_index,
            array_elem_index,
        } => visitor.visit_array_new_elem(array_type_index, array_elem_index),
        GcOperator::ArrayGet { array_type_index } => visitor.visit_array_get(array_type_index),
        GcOperator::ArrayGetS { array_type_index } => visitor.visit_array_get_s(array_type_index),
        GcOperator::ArrayGetU { array_type_index } => visitor.visit_array_get_u(array_type_index),
        GcOperator::ArraySet { array_type_index } => visitor.visit_array_set(array_type_index),
        GcOperator::ArrayLen => visitor.visit_array_len(),
        GcOperator::ArrayFill { array_type_index } => visitor.visit_array_fill(array_type_index),
        GcOperator::ArrayCopy {
            array_type_index_dst,
            array_type_index_src,
        } => visitor.visit_array_copy(array_type_index_dst, array_type_index_src),
        GcOperator::ArrayInitData {
            array_type_index,
            array_data_index,
        } => visitor.visit_array_init_data(array_type_index, array_data_index),
        GcOperator::ArrayInitElem {
            array_type_index,
            array_elem_index,
        } => visitor.visit_array_init_elem(array_type_index, array_elem_index),
        GcOperator::RefTestNonNull { hty } => visitor.visit_ref_test_non_null(hty),
        GcOperator::RefTestNullable { hty } => visitor.visit_ref_test_nullable(hty),
        GcOperator::RefCastNonNull { hty } => visitor.visit_ref_cast_non_null(hty),
        GcOperator::RefCastNullable { hty } => visitor.visit_ref_cast_nullable(hty),
        GcOperator::BrOnCast {
            relative_depth,
            from_ref_type,
            to_ref_type,
        } => visitor.visit_br_on_cast(relative_depth, from_ref_type, to_ref_type),
        GcOperator::BrOnCastFail {
            relative_depth,
            from_ref_type,
            to_ref_type,
        } => visitor.visit_br_on_cast_fail(relative_depth, from_ref_type, to_ref_type),
        GcOperator::AnyConvertExtern => visitor.visit_any_convert_extern(),
        GcOperator::ExternConvertAny => visitor.visit_extern_convert_any(),
        GcOperator::RefI31 => visitor.visit_ref_i31(),
        GcOperator::I31GetS => visitor.visit_i31_get_s(),
        GcOperator::I31GetU => visitor.visit_i31_get_u(),
    }
}

/// Tells a visitor of this operator on descriptors, by the visit that belongs to it.
#[inline]
pub fn visit_descriptor<'a, V: VisitGc<'a>>(visitor: &mut V, op: DescriptorOperator) -> V::Output
    ensures { V.visits visitor.old (Op.Descriptor op) result visitor.new }
{
    match op {
        DescriptorOperator::StructNewDesc { struct_type_index } => visitor.visit_struct_new_desc(
            struct_type_index,
        ),
        DescriptorOperator::StructNewDefaultDesc { struct_type_index } =>
            visitor.visit_struct_new_default_desc(struct_type_index),
        DescriptorOperator::RefGetDesc { type_index } => visitor.visit_ref_get_desc(type_index),
        DescriptorOperator::RefCastDescEqNonNull { hty } => visitor.visit_ref_cast_desc_eq_non_null(
            hty,
        ),
        DescriptorOperator::RefCastDescEqNullable { hty } =>
            visitor.visit_ref_cast_desc_eq_nullable(hty),
        DescriptorOperator::BrOnCastDescEq {
            relative_depth,
            from_ref_type,
            to_ref_type,
        } => visitor.visit_br_on_cast_desc_eq(relative_depth, from_ref_type, to_ref_type),
        DescriptorOperator::BrOnCastDescEqFail {
            relative_depth,
            from_ref_type,
            to_ref_type,
        } => visitor.visit_br_on_cast_desc_eq_fail(relative_depth, from_ref_type, to_ref_type),
    }
}
