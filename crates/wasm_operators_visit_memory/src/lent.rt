//! What lends a visitor.

use crate::VisitMemory;
use wasm_operators_visit::{Lender, MemArg};
use wasm_types::{HeapType, Ieee32, Ieee64};

/// What lends a visitor is told by the visits of what it lends.
impl<'a, P: Lender> VisitMemory<'a> for P
where
    P::Lent: VisitMemory<'a>,
{
    fn visit_local_get(&mut self, local_index: u32) -> Self::Output {
        self.lend().visit_local_get(local_index)
    }

    fn visit_local_set(&mut self, local_index: u32) -> Self::Output {
        self.lend().visit_local_set(local_index)
    }

    fn visit_local_tee(&mut self, local_index: u32) -> Self::Output {
        self.lend().visit_local_tee(local_index)
    }

    fn visit_global_get(&mut self, global_index: u32) -> Self::Output {
        self.lend().visit_global_get(global_index)
    }

    fn visit_global_set(&mut self, global_index: u32) -> Self::Output {
        self.lend().visit_global_set(global_index)
    }

    fn visit_i32_load(&mut self, memarg: MemArg) -> Self::Output {
        self.lend().visit_i32_load(memarg)
    }

    fn visit_i64_load(&mut self, memarg: MemArg) -> Self::Output {
        self.lend().visit_i64_load(memarg)
    }

    fn visit_f32_load(&mut self, memarg: MemArg) -> Self::Output {
        self.lend().visit_f32_load(memarg)
    }

    fn visit_f64_load(&mut self, memarg: MemArg) -> Self::Output {
        self.lend().visit_f64_load(memarg)
    }

    fn visit_i32_load8_s(&mut self, memarg: MemArg) -> Self::Output {
        self.lend().visit_i32_load8_s(memarg)
    }

    fn visit_i32_load8_u(&mut self, memarg: MemArg) -> Self::Output {
        self.lend().visit_i32_load8_u(memarg)
    }

    fn visit_i32_load16_s(&mut self, memarg: MemArg) -> Self::Output {
        self.lend().visit_i32_load16_s(memarg)
    }

    fn visit_i32_load16_u(&mut self, memarg: MemArg) -> Self::Output {
        self.lend().visit_i32_load16_u(memarg)
    }

    fn visit_i64_load8_s(&mut self, memarg: MemArg) -> Self::Output {
        self.lend().visit_i64_load8_s(memarg)
    }

    fn visit_i64_load8_u(&mut self, memarg: MemArg) -> Self::Output {
        self.lend().visit_i64_load8_u(memarg)
    }

    fn visit_i64_load16_s(&mut self, memarg: MemArg) -> Self::Output {
        self.lend().visit_i64_load16_s(memarg)
    }

    fn visit_i64_load16_u(&mut self, memarg: MemArg) -> Self::Output {
        self.lend().visit_i64_load16_u(memarg)
    }

    fn visit_i64_load32_s(&mut self, memarg: MemArg) -> Self::Output {
        self.lend().visit_i64_load32_s(memarg)
    }

    fn visit_i64_load32_u(&mut self, memarg: MemArg) -> Self::Output {
        self.lend().visit_i64_load32_u(memarg)
    }

    fn visit_i32_store(&mut self, memarg: MemArg) -> Self::Output {
        self.lend().visit_i32_store(memarg)
    }

    fn visit_i64_store(&mut self, memarg: MemArg) -> Self::Output {
        self.lend().visit_i64_store(memarg)
    }

    fn visit_f32_store(&mut self, memarg: MemArg) -> Self::Output {
        self.lend().visit_f32_store(memarg)
    }

    fn visit_f64_store(&mut self, memarg: MemArg) -> Self::Output {
        self.lend().visit_f64_store(memarg)
    }

    fn visit_i32_store8(&mut self, memarg: MemArg) -> Self::Output {
        self.lend().visit_i32_store8(memarg)
    }

    fn visit_i32_store16(&mut self, memarg: MemArg) -> Self::Output {
        self.lend().visit_i32_store16(memarg)
    }

    fn visit_i64_store8(&mut self, memarg: MemArg) -> Self::Output {
        self.lend().visit_i64_store8(memarg)
    }

    fn visit_i64_store16(&mut self, memarg: MemArg) -> Self::Output {
        self.lend().visit_i64_store16(memarg)
    }

    fn visit_i64_store32(&mut self, memarg: MemArg) -> Self::Output {
        self.lend().visit_i64_store32(memarg)
    }

    fn visit_memory_size(&mut self, mem: u32) -> Self::Output {
        self.lend().visit_memory_size(mem)
    }

    fn visit_memory_grow(&mut self, mem: u32) -> Self::Output {
        self.lend().visit_memory_grow(mem)
    }

    fn visit_table_get(&mut self, table: u32) -> Self::Output {
        self.lend().visit_table_get(table)
    }

    fn visit_table_set(&mut self, table: u32) -> Self::Output {
        self.lend().visit_table_set(table)
    }

    fn visit_ref_null(&mut self, hty: HeapType) -> Self::Output {
        self.lend().visit_ref_null(hty)
    }

    fn visit_ref_is_null(&mut self) -> Self::Output {
        self.lend().visit_ref_is_null()
    }

    fn visit_ref_func(&mut self, function_index: u32) -> Self::Output {
        self.lend().visit_ref_func(function_index)
    }

    fn visit_memory_init(&mut self, data_index: u32, mem: u32) -> Self::Output {
        self.lend().visit_memory_init(data_index, mem)
    }

    fn visit_data_drop(&mut self, data_index: u32) -> Self::Output {
        self.lend().visit_data_drop(data_index)
    }

    fn visit_memory_copy(&mut self, dst_mem: u32, src_mem: u32) -> Self::Output {
        self.lend().visit_memory_copy(dst_mem, src_mem)
    }

    fn visit_memory_fill(&mut self, mem: u32) -> Self::Output {
        self.lend().visit_memory_fill(mem)
    }

    fn visit_table_init(&mut self, elem_index: u32, table: u32) -> Self::Output {
        self.lend().visit_table_init(elem_index, table)
    }

    fn visit_elem_drop(&mut self, elem_index: u32) -> Self::Output {
        self.lend().visit_elem_drop(elem_index)
    }

    fn visit_table_copy(&mut self, dst_table: u32, src_table: u32) -> Self::Output {
        self.lend().visit_table_copy(dst_table, src_table)
    }

    fn visit_table_grow(&mut self, table: u32) -> Self::Output {
        self.lend().visit_table_grow(table)
    }

    fn visit_table_size(&mut self, table: u32) -> Self::Output {
        self.lend().visit_table_size(table)
    }

    fn visit_table_fill(&mut self, table: u32) -> Self::Output {
        self.lend().visit_table_fill(table)
    }

    fn visit_memory_discard(&mut self, mem: u32) -> Self::Output {
        self.lend().visit_memory_discard(mem)
    }

    fn visit_i32_const(&mut self, value: i32) -> Self::Output {
        self.lend().visit_i32_const(value)
    }

    fn visit_i64_const(&mut self, value: i64) -> Self::Output {
        self.lend().visit_i64_const(value)
    }

    fn visit_f32_const(&mut self, value: Ieee32) -> Self::Output {
        self.lend().visit_f32_const(value)
    }

    fn visit_f64_const(&mut self, value: Ieee64) -> Self::Output {
        self.lend().visit_f64_const(value)
    }
}
