//! The visit that belongs to an operator.

ghost use Rattle.wasm_operators_enums.specs.Op.{Op};

use crate::VisitMemory;
use wasm_operators_visit::{BulkOperator, ConstOperator, MemoryOperator};

/// Tells a visitor of this operator on variables or memories, by the visit that belongs to it.
#[inline]
pub fn visit_memory<'a, V: VisitMemory<'a>>(visitor: &mut V, op: MemoryOperator) -> V::Output
    ensures { V.visits visitor.old (Op.Memory op) result visitor.new }
{
    match op {
        MemoryOperator::LocalGet { local_index } => visitor.visit_local_get(local_index),
        MemoryOperator::LocalSet { local_index } => visitor.visit_local_set(local_index),
        MemoryOperator::LocalTee { local_index } => visitor.visit_local_tee(local_index),
        MemoryOperator::GlobalGet { global_index } => visitor.visit_global_get(global_index),
        MemoryOperator::GlobalSet { global_index } => visitor.visit_global_set(global_index),
        MemoryOperator::I32Load { memarg } => visitor.visit_i32_load(memarg),
        MemoryOperator::I64Load { memarg } => visitor.visit_i64_load(memarg),
        MemoryOperator::F32Load { memarg } => visitor.visit_f32_load(memarg),
        MemoryOperator::F64Load { memarg } => visitor.visit_f64_load(memarg),
        MemoryOperator::I32Load8S { memarg } => visitor.visit_i32_load8_s(memarg),
        MemoryOperator::I32Load8U { memarg } => visitor.visit_i32_load8_u(memarg),
        MemoryOperator::I32Load16S { memarg } => visitor.visit_i32_load16_s(memarg),
        MemoryOperator::I32Load16U { memarg } => visitor.visit_i32_load16_u(memarg),
        MemoryOperator::I64Load8S { memarg } => visitor.visit_i64_load8_s(memarg),
        MemoryOperator::I64Load8U { memarg } => visitor.visit_i64_load8_u(memarg),
        MemoryOperator::I64Load16S { memarg } => visitor.visit_i64_load16_s(memarg),
        MemoryOperator::I64Load16U { memarg } => visitor.visit_i64_load16_u(memarg),
        MemoryOperator::I64Load32S { memarg } => visitor.visit_i64_load32_s(memarg),
        MemoryOperator::I64Load32U { memarg } => visitor.visit_i64_load32_u(memarg),
        MemoryOperator::I32Store { memarg } => visitor.visit_i32_store(memarg),
        MemoryOperator::I64Store { memarg } => visitor.visit_i64_store(memarg),
        MemoryOperator::F32Store { memarg } => visitor.visit_f32_store(memarg),
        MemoryOperator::F64Store { memarg } => visitor.visit_f64_store(memarg),
        MemoryOperator::I32Store8 { memarg } => visitor.visit_i32_store8(memarg),
        MemoryOperator::I32Store16 { memarg } => visitor.visit_i32_store16(memarg),
        MemoryOperator::I64Store8 { memarg } => visitor.visit_i64_store8(memarg),
        MemoryOperator::I64Store16 { memarg } => visitor.visit_i64_store16(memarg),
        MemoryOperator::I64Store32 { memarg } => visitor.visit_i64_store32(memarg),
        MemoryOperator::MemorySize { mem } => visitor.visit_memory_size(mem),
        MemoryOperator::MemoryGrow { mem } => visitor.visit_memory_grow(mem),
    }
}

/// Tells a visitor of this operator on ranges, tables or references, by the visit that belongs to it.
#[inline]
pub fn visit_bulk<'a, V: VisitMemory<'a>>(visitor: &mut V, op: BulkOperator) -> V::Output
    ensures { V.visits visitor.old (Op.Bulk op) result visitor.new }
{
    match op {
        BulkOperator::TableGet { table } => visitor.visit_table_get(table),
        BulkOperator::TableSet { table } => visitor.visit_table_set(table),
        BulkOperator::RefNull { hty } => visitor.visit_ref_null(hty),
        BulkOperator::RefIsNull => visitor.visit_ref_is_null(),
        BulkOperator::RefFunc { function_index } => visitor.visit_ref_func(function_index),
        BulkOperator::MemoryInit { data_index, mem } => visitor.visit_memory_init(data_index, mem),
        BulkOperator::DataDrop { data_index } => visitor.visit_data_drop(data_index),
        BulkOperator::MemoryCopy { dst_mem, src_mem } => visitor.visit_memory_copy(
            dst_mem, src_mem,
        ),
        BulkOperator::MemoryFill { mem } => visitor.visit_memory_fill(mem),
        BulkOperator::TableInit { elem_index, table } => visitor.visit_table_init(
            elem_index, table,
        ),
        BulkOperator::ElemDrop { elem_index } => visitor.visit_elem_drop(elem_index),
        BulkOperator::TableCopy {
            dst_table,
            src_table,
        } => visitor.visit_table_copy(dst_table, src_table),
        BulkOperator::TableGrow { table } => visitor.visit_table_grow(table),
        BulkOperator::TableSize { table } => visitor.visit_table_size(table),
        BulkOperator::TableFill { table } => visitor.visit_table_fill(table),
        BulkOperator::MemoryDiscard { mem } => visitor.visit_memory_discard(mem),
    }
}

/// Tells a visitor of this constant, by the visit that belongs to it.
#[inline]
pub fn visit_const<'a, V: VisitMemory<'a>>(visitor: &mut V, op: ConstOperator) -> V::Output
    ensures { V.visits visitor.old (Op.Const op) result visitor.new }
{
    match op {
        ConstOperator::I32Const { value } => visitor.visit_i32_const(value),
        ConstOperator::I64Const { value } => visitor.visit_i64_const(value),
        ConstOperator::F32Const { value } => visitor.visit_f32_const(value),
        ConstOperator::F64Const { value } => visitor.visit_f64_const(value),
    }
}
