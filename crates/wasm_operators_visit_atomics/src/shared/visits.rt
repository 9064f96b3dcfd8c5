//! One visit for each operator.

ghost use Rattle.wasm_operators_enums.specs.Op.{Op};
ghost use Rattle.wasm_operators_enums.specs.declared.atomic.SharedOperator.{SharedOperator};

use wasm_operators_visit::{Ordering, Visitor};

/// A visit for each atomic access to globals, tables, structs and arrays (the proposal on shared everything).
pub trait VisitShared<'a>: Visitor<'a> {
    /// Visits `global.atomic.get`.
    fn visit_global_atomic_get(&mut self, ordering: Ordering, global_index: u32) -> Self::Output
        ensures { Self.visits self.old (Op.Shared (SharedOperator.GlobalAtomicGet ordering global_index))
            result self.new };

    /// Visits `global.atomic.set`.
    fn visit_global_atomic_set(&mut self, ordering: Ordering, global_index: u32) -> Self::Output
        ensures { Self.visits self.old (Op.Shared (SharedOperator.GlobalAtomicSet ordering global_index))
            result self.new };

    /// Visits `global.atomic.rmw.add`.
    fn visit_global_atomic_rmw_add(&mut self, ordering: Ordering, global_index: u32) -> Self::Output
        ensures { Self.visits self.old (Op.Shared (SharedOperator.GlobalAtomicRmwAdd ordering global_index))
            result self.new };

    /// Visits `global.atomic.rmw.sub`.
    fn visit_global_atomic_rmw_sub(&mut self, ordering: Ordering, global_index: u32) -> Self::Output
        ensures { Self.visits self.old (Op.Shared (SharedOperator.GlobalAtomicRmwSub ordering global_index))
            result self.new };

    /// Visits `global.atomic.rmw.and`.
    fn visit_global_atomic_rmw_and(&mut self, ordering: Ordering, global_index: u32) -> Self::Output
        ensures { Self.visits self.old (Op.Shared (SharedOperator.GlobalAtomicRmwAnd ordering global_index))
            result self.new };

    /// Visits `global.atomic.rmw.or`.
    fn visit_global_atomic_rmw_or(&mut self, ordering: Ordering, global_index: u32) -> Self::Output
        ensures { Self.visits self.old (Op.Shared (SharedOperator.GlobalAtomicRmwOr ordering global_index))
            result self.new };

    /// Visits `global.atomic.rmw.xor`.
    fn visit_global_atomic_rmw_xor(&mut self, ordering: Ordering, global_index: u32) -> Self::Output
        ensures { Self.visits self.old (Op.Shared (SharedOperator.GlobalAtomicRmwXor ordering global_index))
            result self.new };

    /// Visits `global.atomic.rmw.xchg`.
    fn visit_global_atomic_rmw_xchg(
        &mut self,
        ordering: Ordering,
        global_index: u32,
    ) -> Self::Output
        ensures { Self.visits self.old (Op.Shared (SharedOperator.GlobalAtomicRmwXchg ordering global_index))
            result self.new };

    /// Visits `global.atomic.rmw.cmpxchg`.
    fn visit_global_atomic_rmw_cmpxchg(
        &mut self,
        ordering: Ordering,
        global_index: u32,
    ) -> Self::Output
        ensures { Self.visits self.old (Op.Shared (SharedOperator.GlobalAtomicRmwCmpxchg ordering global_index))
            result self.new };

    /// Visits `table.atomic.get`.
    fn visit_table_atomic_get(&mut self, ordering: Ordering, table_index: u32) -> Self::Output
        ensures { Self.visits self.old (Op.Shared (SharedOperator.TableAtomicGet ordering table_index))
            result self.new };

    /// Visits `table.atomic.set`.
    fn visit_table_atomic_set(&mut self, ordering: Ordering, table_index: u32) -> Self::Output
        ensures { Self.visits self.old (Op.Shared (SharedOperator.TableAtomicSet ordering table_index))
            result self.new };

    /// Visits `table.atomic.rmw.xchg`.
    fn visit_table_atomic_rmw_xchg(&mut self, ordering: Ordering, table_index: u32) -> Self::Output
        ensures { Self.visits self.old (Op.Shared (SharedOperator.TableAtomicRmwXchg ordering table_index))
            result self.new };

    /// Visits `table.atomic.rmw.cmpxchg`.
    fn visit_table_atomic_rmw_cmpxchg(
        &mut self,
        ordering: Ordering,
        table_index: u32,
    ) -> Self::Output
        ensures { Self.visits self.old (Op.Shared (SharedOperator.TableAtomicRmwCmpxchg ordering table_index))
            result self.new };

    /// Visits `struct.atomic.get`.
    fn visit_struct_atomic_get(
        &mut self,
        ordering: Ordering,
        struct_type_index: u32,
        field_index: u32,
    ) -> Self::Output
        ensures { Self.visits self.old (Op.Shared (SharedOperator.StructAtomicGet ordering struct_type_index
            field_index)) result self.new };

    /// Visits `struct.atomic.get_s`.
    fn visit_struct_atomic_get_s(
        &mut self,
        ordering: Ordering,
        struct_type_index: u32,
        field_index: u32,
    ) -> Self::Output
        ensures { Self.visits self.old (Op.Shared (SharedOperator.StructAtomicGetS ordering struct_type_index
            field_index)) result self.new };

    /// Visits `struct.atomic.get_u`.
    fn visit_struct_atomic_get_u(
        &mut self,
        ordering: Ordering,
        struct_type_index: u32,
        field_index: u32,
    ) -> Self::Output
        ensures { Self.visits self.old (Op.Shared (SharedOperator.StructAtomicGetU ordering struct_type_index
            field_index)) result self.new };

    /// Visits `struct.atomic.set`.
    fn visit_struct_atomic_set(
        &mut self,
        ordering: Ordering,
        struct_type_index: u32,
        field_index: u32,
    ) -> Self::Output
        ensures { Self.visits self.old (Op.Shared (SharedOperator.StructAtomicSet ordering struct_type_index
            field_index)) result self.new };

    /// Visits `struct.atomic.rmw.add`.
    fn visit_struct_atomic_rmw_add(
        &mut self,
        ordering: Ordering,
        struct_type_index: u32,
        field_index: u32,
    ) -> Self::Output
        ensures { Self.visits self.old (Op.Shared (SharedOperator.StructAtomicRmwAdd ordering struct_type_index
            field_index)) result self.new };

    /// Visits `struct.atomic.rmw.sub`.
    fn visit_struct_atomic_rmw_sub(
        &mut self,
        ordering: Ordering,
        struct_type_index: u32,
        field_index: u32,
    ) -> Self::Output
        ensures { Self.visits self.old (Op.Shared (SharedOperator.StructAtomicRmwSub ordering struct_type_index
            field_index)) result self.new };

    /// Visits `struct.atomic.rmw.and`.
    fn visit_struct_atomic_rmw_and(
        &mut self,
        ordering: Ordering,
        struct_type_index: u32,
        field_index: u32,
    ) -> Self::Output
        ensures { Self.visits self.old (Op.Shared (SharedOperator.StructAtomicRmwAnd ordering struct_type_index
            field_index)) result self.new };

    /// Visits `struct.atomic.rmw.or`.
    fn visit_struct_atomic_rmw_or(
        &mut self,
        ordering: Ordering,
        struct_type_index: u32,
        field_index: u32,
    ) -> Self::Output
        ensures { Self.visits self.old (Op.Shared (SharedOperator.StructAtomicRmwOr ordering struct_type_index
            field_index)) result self.new };

    /// Visits `struct.atomic.rmw.xor`.
    fn visit_struct_atomic_rmw_xor(
        &mut self,
        ordering: Ordering,
        struct_type_index: u32,
        field_index: u32,
    ) -> Self::Output
        ensures { Self.visits self.old (Op.Shared (SharedOperator.StructAtomicRmwXor ordering struct_type_index
            field_index)) result self.new };

    /// Visits `struct.atomic.rmw.xchg`.
    fn visit_struct_atomic_rmw_xchg(
        &mut self,
        ordering: Ordering,
        struct_type_index: u32,
        field_index: u32,
    ) -> Self::Output
        ensures { Self.visits self.old (Op.Shared (SharedOperator.StructAtomicRmwXchg ordering struct_type_index
            field_index)) result self.new };

    /// Visits `struct.atomic.rmw.cmpxchg`.
    fn visit_struct_atomic_rmw_cmpxchg(
        &mut self,
        ordering: Ordering,
        struct_type_index: u32,
        field_index: u32,
    ) -> Self::Output
        ensures { Self.visits self.old (Op.Shared (SharedOperator.StructAtomicRmwCmpxchg ordering struct_type_index
            field_index)) result self.new };

    /// Visits `array.atomic.get`.
    fn visit_array_atomic_get(&mut self, ordering: Ordering, array_type_index: u32) -> Self::Output
        ensures { Self.visits self.old (Op.Shared (SharedOperator.ArrayAtomicGet ordering array_type_index))
            result self.new };

    /// Visits `array.atomic.get_s`.
    fn visit_array_atomic_get_s(
        &mut self,
        ordering: Ordering,
        array_type_index: u32,
    ) -> Self::Output
        ensures { Self.visits self.old (Op.Shared (SharedOperator.ArrayAtomicGetS ordering array_type_index))
            result self.new };

    /// Visits `array.atomic.get_u`.
    fn visit_array_atomic_get_u(
        &mut self,
        ordering: Ordering,
        array_type_index: u32,
    ) -> Self::Output
        ensures { Self.visits self.old (Op.Shared (SharedOperator.ArrayAtomicGetU ordering array_type_index))
            result self.new };

    /// Visits `array.atomic.set`.
    fn visit_array_atomic_set(&mut self, ordering: Ordering, array_type_index: u32) -> Self::Output
        ensures { Self.visits self.old (Op.Shared (SharedOperator.ArrayAtomicSet ordering array_type_index))
            result self.new };

    /// Visits `array.atomic.rmw.add`.
    fn visit_array_atomic_rmw_add(
        &mut self,
        ordering: Ordering,
        array_type_index: u32,
    ) -> Self::Output
        ensures { Self.visits self.old (Op.Shared (SharedOperator.ArrayAtomicRmwAdd ordering array_type_index))
            result self.new };

    /// Visits `array.atomic.rmw.sub`.
    fn visit_array_atomic_rmw_sub(
        &mut self,
        ordering: Ordering,
        array_type_index: u32,
    ) -> Self::Output
        ensures { Self.visits self.old (Op.Shared (SharedOperator.ArrayAtomicRmwSub ordering array_type_index))
            result self.new };

    /// Visits `array.atomic.rmw.and`.
    fn visit_array_atomic_rmw_and(
        &mut self,
        ordering: Ordering,
        array_type_index: u32,
    ) -> Self::Output
        ensures { Self.visits self.old (Op.Shared (SharedOperator.ArrayAtomicRmwAnd ordering array_type_index))
            result self.new };

    /// Visits `array.atomic.rmw.or`.
    fn visit_array_atomic_rmw_or(
        &mut self,
        ordering: Ordering,
        array_type_index: u32,
    ) -> Self::Output
        ensures { Self.visits self.old (Op.Shared (SharedOperator.ArrayAtomicRmwOr ordering array_type_index))
            result self.new };

    /// Visits `array.atomic.rmw.xor`.
    fn visit_array_atomic_rmw_xor(
        &mut self,
        ordering: Ordering,
        array_type_index: u32,
    ) -> Self::Output
        ensures { Self.visits self.old (Op.Shared (SharedOperator.ArrayAtomicRmwXor ordering array_type_index))
            result self.new };

    /// Visits `array.atomic.rmw.xchg`.
    fn visit_array_atomic_rmw_xchg(
        &mut self,
        ordering: Ordering,
        array_type_index: u32,
    ) -> Self::Output
        ensures { Self.visits self.old (Op.Shared (SharedOperator.ArrayAtomicRmwXchg ordering array_type_index))
            result self.new };

    /// Visits `array.atomic.rmw.cmpxchg`.
    fn visit_array_atomic_rmw_cmpxchg(
        &mut self,
        ordering: Ordering,
        array_type_index: u32,
    ) -> Self::Output
        ensures { Self.visits self.old (Op.Shared (SharedOperator.ArrayAtomicRmwCmpxchg ordering array_type_index))
            result self.new };

    /// Visits `ref.i31_shared`.
    fn visit_ref_i31_shared(&mut self) -> Self::Output
        ensures { Self.visits self.old (Op.Shared SharedOperator.RefI31Shared) result self.new };
}
