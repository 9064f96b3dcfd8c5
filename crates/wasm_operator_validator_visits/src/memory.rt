//! Visits of constants, variables, memories, tables and references.

use crate::{AnswerAs, ValidatingVisitor};
use wasm_operator_validator_control::{ConstOperator, MemArg, MemoryOperator, WasmModuleResources};
use wasm_operator_validator_memory::atomics::{
    check_data_drop, check_memory_copy, check_memory_discard, check_memory_fill, check_memory_grow,
    check_memory_init, check_memory_size,
};
use wasm_operator_validator_memory::{
    check_elem_drop, check_global_get, check_global_set, check_local_get, check_local_set,
    check_local_tee, check_ref_func, check_ref_is_null, check_ref_null, check_table_copy,
    check_table_fill, check_table_get, check_table_grow, check_table_init, check_table_set,
    check_table_size,
};
use wasm_operator_validator_stacks::determined::numbers::check_constant;
use wasm_operators_visit_operator::VisitMemory;
use wasm_types::{HeapType, Ieee32, Ieee64, ValType};

impl<'a, 'v, 'r, R: WasmModuleResources, A: AnswerAs> VisitMemory<'a>
    for ValidatingVisitor<'v, 'r, R, A> {
    #[inline(always)]
    fn visit_local_get(&mut self, local_index: u32) -> A::Output {
        let checked = check_local_get(self.inner, self.resources, local_index);
        self.tell(checked)
    }

    #[inline(always)]
    fn visit_local_set(&mut self, local_index: u32) -> A::Output {
        let checked = check_local_set(self.inner, self.resources, local_index);
        self.tell(checked)
    }

    #[inline(always)]
    fn visit_local_tee(&mut self, local_index: u32) -> A::Output {
        let checked = check_local_tee(self.inner, self.resources, local_index);
        self.tell(checked)
    }

    fn visit_global_get(&mut self, global_index: u32) -> A::Output {
        let checked = check_global_get(self.inner, self.resources, global_index);
        self.tell(checked)
    }

    fn visit_global_set(&mut self, global_index: u32) -> A::Output {
        let checked = check_global_set(self.inner, self.resources, global_index);
        self.tell(checked)
    }

    fn visit_i32_load(&mut self, memarg: MemArg) -> A::Output {
        self.load(
            MemoryOperator::I32Load { memarg },
            &memarg,
            false,
            &ValType::I32,
        )
    }

    fn visit_i64_load(&mut self, memarg: MemArg) -> A::Output {
        self.load(
            MemoryOperator::I64Load { memarg },
            &memarg,
            false,
            &ValType::I64,
        )
    }

    fn visit_f32_load(&mut self, memarg: MemArg) -> A::Output {
        self.load(
            MemoryOperator::F32Load { memarg },
            &memarg,
            true,
            &ValType::F32,
        )
    }

    fn visit_f64_load(&mut self, memarg: MemArg) -> A::Output {
        self.load(
            MemoryOperator::F64Load { memarg },
            &memarg,
            true,
            &ValType::F64,
        )
    }

    fn visit_i32_load8_s(&mut self, memarg: MemArg) -> A::Output {
        self.load(
            MemoryOperator::I32Load8S { memarg },
            &memarg,
            false,
            &ValType::I32,
        )
    }

    fn visit_i32_load8_u(&mut self, memarg: MemArg) -> A::Output {
        self.load(
            MemoryOperator::I32Load8U { memarg },
            &memarg,
            false,
            &ValType::I32,
        )
    }

    fn visit_i32_load16_s(&mut self, memarg: MemArg) -> A::Output {
        self.load(
            MemoryOperator::I32Load16S { memarg },
            &memarg,
            false,
            &ValType::I32,
        )
    }

    fn visit_i32_load16_u(&mut self, memarg: MemArg) -> A::Output {
        self.load(
            MemoryOperator::I32Load16U { memarg },
            &memarg,
            false,
            &ValType::I32,
        )
    }

    fn visit_i64_load8_s(&mut self, memarg: MemArg) -> A::Output {
        self.load(
            MemoryOperator::I64Load8S { memarg },
            &memarg,
            false,
            &ValType::I64,
        )
    }

    fn visit_i64_load8_u(&mut self, memarg: MemArg) -> A::Output {
        self.load(
            MemoryOperator::I64Load8U { memarg },
            &memarg,
            false,
            &ValType::I64,
        )
    }

    fn visit_i64_load16_s(&mut self, memarg: MemArg) -> A::Output {
        self.load(
            MemoryOperator::I64Load16S { memarg },
            &memarg,
            false,
            &ValType::I64,
        )
    }

    fn visit_i64_load16_u(&mut self, memarg: MemArg) -> A::Output {
        self.load(
            MemoryOperator::I64Load16U { memarg },
            &memarg,
            false,
            &ValType::I64,
        )
    }

    fn visit_i64_load32_s(&mut self, memarg: MemArg) -> A::Output {
        self.load(
            MemoryOperator::I64Load32S { memarg },
            &memarg,
            false,
            &ValType::I64,
        )
    }

    fn visit_i64_load32_u(&mut self, memarg: MemArg) -> A::Output {
        self.load(
            MemoryOperator::I64Load32U { memarg },
            &memarg,
            false,
            &ValType::I64,
        )
    }

    fn visit_i32_store(&mut self, memarg: MemArg) -> A::Output {
        self.store(
            MemoryOperator::I32Store { memarg },
            &memarg,
            false,
            &ValType::I32,
        )
    }

    fn visit_i64_store(&mut self, memarg: MemArg) -> A::Output {
        self.store(
            MemoryOperator::I64Store { memarg },
            &memarg,
            false,
            &ValType::I64,
        )
    }

    fn visit_f32_store(&mut self, memarg: MemArg) -> A::Output {
        self.store(
            MemoryOperator::F32Store { memarg },
            &memarg,
            true,
            &ValType::F32,
        )
    }

    fn visit_f64_store(&mut self, memarg: MemArg) -> A::Output {
        self.store(
            MemoryOperator::F64Store { memarg },
            &memarg,
            true,
            &ValType::F64,
        )
    }

    fn visit_i32_store8(&mut self, memarg: MemArg) -> A::Output {
        self.store(
            MemoryOperator::I32Store8 { memarg },
            &memarg,
            false,
            &ValType::I32,
        )
    }

    fn visit_i32_store16(&mut self, memarg: MemArg) -> A::Output {
        self.store(
            MemoryOperator::I32Store16 { memarg },
            &memarg,
            false,
            &ValType::I32,
        )
    }

    fn visit_i64_store8(&mut self, memarg: MemArg) -> A::Output {
        self.store(
            MemoryOperator::I64Store8 { memarg },
            &memarg,
            false,
            &ValType::I64,
        )
    }

    fn visit_i64_store16(&mut self, memarg: MemArg) -> A::Output {
        self.store(
            MemoryOperator::I64Store16 { memarg },
            &memarg,
            false,
            &ValType::I64,
        )
    }

    fn visit_i64_store32(&mut self, memarg: MemArg) -> A::Output {
        self.store(
            MemoryOperator::I64Store32 { memarg },
            &memarg,
            false,
            &ValType::I64,
        )
    }

    fn visit_memory_size(&mut self, mem: u32) -> A::Output {
        let checked = check_memory_size(self.inner, self.resources, mem);
        self.tell(checked)
    }

    fn visit_memory_grow(&mut self, mem: u32) -> A::Output {
        let checked = check_memory_grow(self.inner, self.resources, mem);
        self.tell(checked)
    }

    fn visit_table_get(&mut self, table: u32) -> A::Output {
        let checked = check_table_get(self.inner, self.resources, table);
        self.tell(checked)
    }

    fn visit_table_set(&mut self, table: u32) -> A::Output {
        let checked = check_table_set(self.inner, self.resources, table);
        self.tell(checked)
    }

    fn visit_ref_null(&mut self, hty: HeapType) -> A::Output {
        let checked = check_ref_null(self.inner, self.resources, hty);
        self.tell(checked)
    }

    fn visit_ref_is_null(&mut self) -> A::Output {
        let checked = check_ref_is_null(self.inner, self.resources);
        self.tell(checked)
    }

    fn visit_ref_func(&mut self, function_index: u32) -> A::Output {
        let checked = check_ref_func(self.inner, self.resources, function_index);
        self.tell(checked)
    }

    fn visit_memory_init(&mut self, data_index: u32, mem: u32) -> A::Output {
        let checked = check_memory_init(self.inner, self.resources, data_index, mem);
        self.tell(checked)
    }

    fn visit_data_drop(&mut self, data_index: u32) -> A::Output {
        let checked = check_data_drop(self.inner, self.resources, data_index);
        self.tell(checked)
    }

    fn visit_memory_copy(&mut self, dst_mem: u32, src_mem: u32) -> A::Output {
        let checked = check_memory_copy(self.inner, self.resources, dst_mem, src_mem);
        self.tell(checked)
    }

    fn visit_memory_fill(&mut self, mem: u32) -> A::Output {
        let checked = check_memory_fill(self.inner, self.resources, mem);
        self.tell(checked)
    }

    fn visit_table_init(&mut self, elem_index: u32, table: u32) -> A::Output {
        let checked = check_table_init(self.inner, self.resources, elem_index, table);
        self.tell(checked)
    }

    fn visit_elem_drop(&mut self, elem_index: u32) -> A::Output {
        let checked = check_elem_drop(self.inner, self.resources, elem_index);
        self.tell(checked)
    }

    fn visit_table_copy(&mut self, dst_table: u32, src_table: u32) -> A::Output {
        let checked = check_table_copy(self.inner, self.resources, dst_table, src_table);
        self.tell(checked)
    }

    fn visit_table_grow(&mut self, table: u32) -> A::Output {
        let checked = check_table_grow(self.inner, self.resources, table);
        self.tell(checked)
    }

    fn visit_table_size(&mut self, table: u32) -> A::Output {
        let checked = check_table_size(self.inner, self.resources, table);
        self.tell(checked)
    }

    fn visit_table_fill(&mut self, table: u32) -> A::Output {
        let checked = check_table_fill(self.inner, self.resources, table);
        self.tell(checked)
    }

    fn visit_memory_discard(&mut self, mem: u32) -> A::Output {
        let checked = check_memory_discard(self.inner, self.resources, mem);
        self.tell(checked)
    }

    #[inline(always)]
    fn visit_i32_const(&mut self, value: i32) -> A::Output {
        let checked = check_constant(
            self.inner,
            self.resources,
            ConstOperator::I32Const { value },
            false,
            &ValType::I32,
        );
        self.tell(checked)
    }

    fn visit_i64_const(&mut self, value: i64) -> A::Output {
        let checked = check_constant(
            self.inner,
            self.resources,
            ConstOperator::I64Const { value },
            false,
            &ValType::I64,
        );
        self.tell(checked)
    }

    fn visit_f32_const(&mut self, value: Ieee32) -> A::Output {
        let checked = check_constant(
            self.inner,
            self.resources,
            ConstOperator::F32Const { value },
            true,
            &ValType::F32,
        );
        self.tell(checked)
    }

    fn visit_f64_const(&mut self, value: Ieee64) -> A::Output {
        let checked = check_constant(
            self.inner,
            self.resources,
            ConstOperator::F64Const { value },
            true,
            &ValType::F64,
        );
        self.tell(checked)
    }
}
