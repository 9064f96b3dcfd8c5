//! The visit that belongs to an operator.

ghost use Rattle.wasm_operators_enums.specs.Op.{Op};

use crate::atomic::SharedOperator;
use crate::shared::VisitShared;

/// Tells a visitor of this atomic access to a global, a table, a struct or an array, by the visit that belongs to it.
#[inline]
pub fn visit_shared<'a, V: VisitShared<'a>>(visitor: &mut V, op: SharedOperator) -> V::Output
    ensures { V.visits visitor.old (Op.Shared op) result visitor.new }
{
    match op {
        SharedOperator::GlobalAtomicGet {
            ordering,
            global_index,
        } => visitor.visit_global_atomic_get(ordering, global_index),
        SharedOperator::GlobalAtomicSet {
            ordering,
            global_index,
        } => visitor.visit_global_atomic_set(ordering, global_index),
        SharedOperator::GlobalAtomicRmwAdd {
            ordering,
            global_index,
        } => visitor.visit_global_atomic_rmw_add(ordering, global_index),
        SharedOperator::GlobalAtomicRmwSub {
            ordering,
            global_index,
        } => visitor.visit_global_atomic_rmw_sub(ordering, global_index),
        SharedOperator::GlobalAtomicRmwAnd {
            ordering,
            global_index,
        } => visitor.visit_global_atomic_rmw_and(ordering, global_index),
        SharedOperator::GlobalAtomicRmwOr {
            ordering,
            global_index,
        } => visitor.visit_global_atomic_rmw_or(ordering, global_index),
        SharedOperator::GlobalAtomicRmwXor {
            ordering,
            global_index,
        } => visitor.visit_global_atomic_rmw_xor(ordering, global_index),
        SharedOperator::GlobalAtomicRmwXchg {
            ordering,
            global_index,
        } => visitor.visit_global_atomic_rmw_xchg(ordering, global_index),
        SharedOperator::GlobalAtomicRmwCmpxchg {
            ordering,
            global_index,
        } => visitor.visit_global_atomic_rmw_cmpxchg(ordering, global_index),
        SharedOperator::TableAtomicGet {
            ordering,
            table_index,
        } => visitor.visit_table_atomic_get(ordering, table_index),
        SharedOperator::TableAtomicSet {
            ordering,
            table_index,
        } => visitor.visit_table_atomic_set(ordering, table_index),
        SharedOperator::TableAtomicRmwXchg {
            ordering,
            table_index,
        } => visitor.visit_table_atomic_rmw_xchg(ordering, table_index),
        SharedOperator::TableAtomicRmwCmpxchg {
            ordering,
            table_index,
        } => visitor.visit_table_atomic_rmw_cmpxchg(ordering, table_index),
        SharedOperator::StructAtomicGet {
            ordering,
            struct_type_index,
            field_index,
        } => visitor.visit_struct_atomic_get(ordering, struct_type_index, field_index),
        SharedOperator::StructAtomicGetS {
            ordering,
            struct_type_index,
            field_index,
        } => visitor.visit_struct_atomic_get_s(ordering, struct_type_index, field_index),
        SharedOperator::StructAtomicGetU {
            ordering,
            struct_type_index,
            field_index,
        } => visitor.visit_struct_atomic_get_u(ordering, struct_type_index, field_index),
        SharedOperator::StructAtomicSet {
            ordering,
            struct_type_index,
            field_index,
        } => visitor.visit_struct_atomic_set(ordering, struct_type_index, field_index),
        SharedOperator::StructAtomicRmwAdd {
            ordering,
            struct_type_index,
            field_index,
        } => visitor.visit_struct_atomic_rmw_add(ordering, struct_type_index, field_index),
        SharedOperator::StructAtomicRmwSub {
            ordering,
            struct_type_index,
            field_index,
        } => visitor.visit_struct_atomic_rmw_sub(ordering, struct_type_index, field_index),
        SharedOperator::StructAtomicRmwAnd {
            ordering,
            struct_type_index,
            field_index,
        } => visitor.visit_struct_atomic_rmw_and(ordering, struct_type_index, field_index),
        SharedOperator::StructAtomicRmwOr {
            ordering,
            struct_type_index,
            field_index,
        } => visitor.visit_struct_atomic_rmw_or(ordering, struct_type_index, field_index),
        SharedOperator::StructAtomicRmwXor {
            ordering,
            struct_type_index,
            field_index,
        } => visitor.visit_struct_atomic_rmw_xor(ordering, struct_type_index, field_index),
        SharedOperator::StructAtomicRmwXchg {
            ordering,
            struct_type_index,
            field_index,
        } => visitor.visit_struct_atomic_rmw_xchg(ordering, struct_type_index, field_index),
        SharedOperator::StructAtomicRmwCmpxchg {
            ordering,
            struct_type_index,
            field_index,
        } => visitor.visit_struct_atomic_rmw_cmpxchg(ordering, struct_type_index, field_index),
        SharedOperator::ArrayAtomicGet {
            ordering,
            array_type_index,
        } => visitor.visit_array_atomic_get(ordering, array_type_index),
        SharedOperator::ArrayAtomicGetS {
            ordering,
            array_type_index,
        } => visitor.visit_array_atomic_get_s(ordering, array_type_index),
        SharedOperator::ArrayAtomicGetU {
            ordering,
            array_type_index,
        } => visitor.visit_array_atomic_get_u(ordering, array_type_index),
        SharedOperator::ArrayAtomicSet {
            ordering,
            array_type_index,
        } => visitor.visit_array_atomic_set(ordering, array_type_index),
        SharedOperator::ArrayAtomicRmwAdd {
            ordering,
            array_type_index,
        } => visitor.visit_array_atomic_rmw_add(ordering, array_type_index),
        SharedOperator::ArrayAtomicRmwSub {
            ordering,
            array_type_index,
        } => visitor.visit_array_atomic_rmw_sub(ordering, array_type_index),
        SharedOperator::ArrayAtomicRmwAnd {
            ordering,
            array_type_index,
        } => visitor.visit_array_atomic_rmw_and(ordering, array_type_index),
        SharedOperator::ArrayAtomicRmwOr {
            ordering,
            array_type_index,
        } => visitor.visit_array_atomic_rmw_or(ordering, array_type_index),
        SharedOperator::ArrayAtomicRmwXor {
            ordering,
            array_type_index,
        } => visitor.visit_array_atomic_rmw_xor(ordering, array_type_index),
        SharedOperator::ArrayAtomicRmwXchg {
            ordering,
            array_type_index,
        } => visitor.visit_array_atomic_rmw_xchg(ordering, array_type_index),
        SharedOperator::ArrayAtomicRmwCmpxchg {
            ordering,
            array_type_index,
        } => visitor.visit_array_atomic_rmw_cmpxchg(ordering, array_type_index),
        SharedOperator::RefI31Shared => visitor.visit_ref_i31_shared(),
    }
}
