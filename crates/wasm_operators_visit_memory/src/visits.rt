//! One visit for each operator.

ghost use Rattle.wasm_operators_enums.specs.Op.{Op};
ghost use Rattle.wasm_operators_enums.specs.declared.memory.MemoryOperator.{MemoryOperator};
ghost use Rattle.wasm_operators_enums.specs.declared.bulk.BulkOperator.{BulkOperator};
ghost use Rattle.wasm_operators_enums.specs.declared.constant.ConstOperator.{ConstOperator};

use wasm_operators_visit::{MemArg, Visitor};
use wasm_types::{HeapType, Ieee32, Ieee64};

/// A visit for each operator on variables, memories and tables, for what makes and tests references, and for constants
/// (WebAssembly 3.0, structure, variable, memory, table and numeric instructions).
pub trait VisitMemory<'a>: Visitor<'a> {
    /// Visits `local.get`.
    fn visit_local_get(&mut self, local_index: u32) -> Self::Output
        ensures { Self.visits self.old (Op.Memory (MemoryOperator.LocalGet local_index)) result self.new };

    /// Visits `local.set`.
    fn visit_local_set(&mut self, local_index: u32) -> Self::Output
        ensures { Self.visits self.old (Op.Memory (MemoryOperator.LocalSet local_index)) result self.new };

    /// Visits `local.tee`.
    fn visit_local_tee(&mut self, local_index: u32) -> Self::Output
        ensures { Self.visits self.old (Op.Memory (MemoryOperator.LocalTee local_index)) result self.new };

    /// Visits `global.get`.
    fn visit_global_get(&mut self, global_index: u32) -> Self::Output
        ensures { Self.visits self.old (Op.Memory (MemoryOperator.GlobalGet global_index)) result self.new };

    /// Visits `global.set`.
    fn visit_global_set(&mut self, global_index: u32) -> Self::Output
        ensures { Self.visits self.old (Op.Memory (MemoryOperator.GlobalSet global_index)) result self.new };

    /// Visits `i32.load`.
    fn visit_i32_load(&mut self, memarg: MemArg) -> Self::Output
        ensures { Self.visits self.old (Op.Memory (MemoryOperator.I32Load memarg)) result self.new };

    /// Visits `i64.load`.
    fn visit_i64_load(&mut self, memarg: MemArg) -> Self::Output
        ensures { Self.visits self.old (Op.Memory (MemoryOperator.I64Load memarg)) result self.new };

    /// Visits `f32.load`.
    fn visit_f32_load(&mut self, memarg: MemArg) -> Self::Output
        ensures { Self.visits self.old (Op.Memory (MemoryOperator.F32Load memarg)) result self.new };

    /// Visits `f64.load`.
    fn visit_f64_load(&mut self, memarg: MemArg) -> Self::Output
        ensures { Self.visits self.old (Op.Memory (MemoryOperator.F64Load memarg)) result self.new };

    /// Visits `i32.load8_s`.
    fn visit_i32_load8_s(&mut self, memarg: MemArg) -> Self::Output
        ensures { Self.visits self.old (Op.Memory (MemoryOperator.I32Load8S memarg)) result self.new };

    /// Visits `i32.load8_u`.
    fn visit_i32_load8_u(&mut self, memarg: MemArg) -> Self::Output
        ensures { Self.visits self.old (Op.Memory (MemoryOperator.I32Load8U memarg)) result self.new };

    /// Visits `i32.load16_s`.
    fn visit_i32_load16_s(&mut self, memarg: MemArg) -> Self::Output
        ensures { Self.visits self.old (Op.Memory (MemoryOperator.I32Load16S memarg)) result self.new };

    /// Visits `i32.load16_u`.
    fn visit_i32_load16_u(&mut self, memarg: MemArg) -> Self::Output
        ensures { Self.visits self.old (Op.Memory (MemoryOperator.I32Load16U memarg)) result self.new };

    /// Visits `i64.load8_s`.
    fn visit_i64_load8_s(&mut self, memarg: MemArg) -> Self::Output
        ensures { Self.visits self.old (Op.Memory (MemoryOperator.I64Load8S memarg)) result self.new };

    /// Visits `i64.load8_u`.
    fn visit_i64_load8_u(&mut self, memarg: MemArg) -> Self::Output
        ensures { Self.visits self.old (Op.Memory (MemoryOperator.I64Load8U memarg)) result self.new };

    /// Visits `i64.load16_s`.
    fn visit_i64_load16_s(&mut self, memarg: MemArg) -> Self::Output
        ensures { Self.visits self.old (Op.Memory (MemoryOperator.I64Load16S memarg)) result self.new };

    /// Visits `i64.load16_u`.
    fn visit_i64_load16_u(&mut self, memarg: MemArg) -> Self::Output
        ensures { Self.visits self.old (Op.Memory (MemoryOperator.I64Load16U memarg)) result self.new };

    /// Visits `i64.load32_s`.
    fn visit_i64_load32_s(&mut self, memarg: MemArg) -> Self::Output
        ensures { Self.visits self.old (Op.Memory (MemoryOperator.I64Load32S memarg)) result self.new };

    /// Visits `i64.load32_u`.
    fn visit_i64_load32_u(&mut self, memarg: MemArg) -> Self::Output
        ensures { Self.visits self.old (Op.Memory (MemoryOperator.I64Load32U memarg)) result self.new };

    /// Visits `i32.store`.
    fn visit_i32_store(&mut self, memarg: MemArg) -> Self::Output
        ensures { Self.visits self.old (Op.Memory (MemoryOperator.I32Store memarg)) result self.new };

    /// Visits `i64.store`.
    fn visit_i64_store(&mut self, memarg: MemArg) -> Self::Output
        ensures { Self.visits self.old (Op.Memory (MemoryOperator.I64Store memarg)) result self.new };

    /// Visits `f32.store`.
    fn visit_f32_store(&mut self, memarg: MemArg) -> Self::Output
        ensures { Self.visits self.old (Op.Memory (MemoryOperator.F32Store memarg)) result self.new };

    /// Visits `f64.store`.
    fn visit_f64_store(&mut self, memarg: MemArg) -> Self::Output
        ensures { Self.visits self.old (Op.Memory (MemoryOperator.F64Store memarg)) result self.new };

    /// Visits `i32.store8`.
    fn visit_i32_store8(&mut self, memarg: MemArg) -> Self::Output
        ensures { Self.visits self.old (Op.Memory (MemoryOperator.I32Store8 memarg)) result self.new };

    /// Visits `i32.store16`.
    fn visit_i32_store16(&mut self, memarg: MemArg) -> Self::Output
        ensures { Self.visits self.old (Op.Memory (MemoryOperator.I32Store16 memarg)) result self.new };

    /// Visits `i64.store8`.
    fn visit_i64_store8(&mut self, memarg: MemArg) -> Self::Output
        ensures { Self.visits self.old (Op.Memory (MemoryOperator.I64Store8 memarg)) result self.new };

    /// Visits `i64.store16`.
    fn visit_i64_store16(&mut self, memarg: MemArg) -> Self::Output
        ensures { Self.visits self.old (Op.Memory (MemoryOperator.I64Store16 memarg)) result self.new };

    /// Visits `i64.store32`.
    fn visit_i64_store32(&mut self, memarg: MemArg) -> Self::Output
        ensures { Self.visits self.old (Op.Memory (MemoryOperator.I64Store32 memarg)) result self.new };

    /// Visits `memory.size`.
    fn visit_memory_size(&mut self, mem: u32) -> Self::Output
        ensures { Self.visits self.old (Op.Memory (MemoryOperator.MemorySize mem)) result self.new };

    /// Visits `memory.grow`.
    fn visit_memory_grow(&mut self, mem: u32) -> Self::Output
        ensures { Self.visits self.old (Op.Memory (MemoryOperator.MemoryGrow mem)) result self.new };

    /// Visits `table.get`.
    fn visit_table_get(&mut self, table: u32) -> Self::Output
        ensures { Self.visits self.old (Op.Bulk (BulkOperator.TableGet table)) result self.new };

    /// Visits `table.set`.
    fn visit_table_set(&mut self, table: u32) -> Self::Output
        ensures { Self.visits self.old (Op.Bulk (BulkOperator.TableSet table)) result self.new };

    /// Visits `ref.null`.
    fn visit_ref_null(&mut self, hty: HeapType) -> Self::Output
        ensures { Self.visits self.old (Op.Bulk (BulkOperator.RefNull hty)) result self.new };

    /// Visits `ref.is_null`.
    fn visit_ref_is_null(&mut self) -> Self::Output
        ensures { Self.visits self.old (Op.Bulk BulkOperator.RefIsNull) result self.new };

    /// Visits `ref.func`.
    fn visit_ref_func(&mut self, function_index: u32) -> Self::Output
        ensures { Self.visits self.old (Op.Bulk (BulkOperator.RefFunc function_index)) result self.new };

    /// Visits `memory.init`.
    fn visit_memory_init(&mut self, data_index: u32, mem: u32) -> Self::Output
        ensures { Self.visits self.old (Op.Bulk (BulkOperator.MemoryInit data_index mem)) result self.new };

    /// Visits `data.drop`.
    fn visit_data_drop(&mut self, data_index: u32) -> Self::Output
        ensures { Self.visits self.old (Op.Bulk (BulkOperator.DataDrop data_index)) result self.new };

    /// Visits `memory.copy`.
    fn visit_memory_copy(&mut self, dst_mem: u32, src_mem: u32) -> Self::Output
        ensures { Self.visits self.old (Op.Bulk (BulkOperator.MemoryCopy dst_mem src_mem)) result self.new };

    /// Visits `memory.fill`.
    fn visit_memory_fill(&mut self, mem: u32) -> Self::Output
        ensures { Self.visits self.old (Op.Bulk (BulkOperator.MemoryFill mem)) result self.new };

    /// Visits `table.init`.
    fn visit_table_init(&mut self, elem_index: u32, table: u32) -> Self::Output
        ensures { Self.visits self.old (Op.Bulk (BulkOperator.TableInit elem_index table)) result self.new };

    /// Visits `elem.drop`.
    fn visit_elem_drop(&mut self, elem_index: u32) -> Self::Output
        ensures { Self.visits self.old (Op.Bulk (BulkOperator.ElemDrop elem_index)) result self.new };

    /// Visits `table.copy`.
    fn visit_table_copy(&mut self, dst_table: u32, src_table: u32) -> Self::Output
        ensures { Self.visits self.old (Op.Bulk (BulkOperator.TableCopy dst_table src_table)) result self.new };

    /// Visits `table.grow`.
    fn visit_table_grow(&mut self, table: u32) -> Self::Output
        ensures { Self.visits self.old (Op.Bulk (BulkOperator.TableGrow table)) result self.new };

    /// Visits `table.size`.
    fn visit_table_size(&mut self, table: u32) -> Self::Output
        ensures { Self.visits self.old (Op.Bulk (BulkOperator.TableSize table)) result self.new };

    /// Visits `table.fill`.
    fn visit_table_fill(&mut self, table: u32) -> Self::Output
        ensures { Self.visits self.old (Op.Bulk (BulkOperator.TableFill table)) result self.new };

    /// Visits `memory.discard`.
    fn visit_memory_discard(&mut self, mem: u32) -> Self::Output
        ensures { Self.visits self.old (Op.Bulk (BulkOperator.MemoryDiscard mem)) result self.new };

    /// Visits `i32.const`.
    fn visit_i32_const(&mut self, value: i32) -> Self::Output
        ensures { Self.visits self.old (Op.Const (ConstOperator.I32Const value)) result self.new };

    /// Visits `i64.const`.
    fn visit_i64_const(&mut self, value: i64) -> Self::Output
        ensures { Self.visits self.old (Op.Const (ConstOperator.I64Const value)) result self.new };

    /// Visits `f32.const`.
    fn visit_f32_const(&mut self, value: Ieee32) -> Self::Output
        ensures { Self.visits self.old (Op.Const (ConstOperator.F32Const value)) result self.new };

    /// Visits `f64.const`.
    fn visit_f64_const(&mut self, value: Ieee64) -> Self::Output
        ensures { Self.visits self.old (Op.Const (ConstOperator.F64Const value)) result self.new };
}
