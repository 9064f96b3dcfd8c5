//! One visit for each operator.

ghost use Rattle.wasm_operators_enums.specs.Op.{Op};
ghost use Rattle.wasm_operators_enums.specs.declared.atomic.AtomicOperator.{AtomicOperator};

use wasm_operators_visit::{MemArg, Visitor};

/// A visit for each atomic access to a memory (the proposal on threads).
pub trait VisitAtomic<'a>: Visitor<'a> {
    /// Visits `memory.atomic.notify`.
    fn visit_memory_atomic_notify(&mut self, memarg: MemArg) -> Self::Output
        ensures { Self.visits self.old (Op.Atomic (AtomicOperator.MemoryAtomicNotify memarg)) result self.new };

    /// Visits `memory.atomic.wait32`.
    fn visit_memory_atomic_wait32(&mut self, memarg: MemArg) -> Self::Output
        ensures { Self.visits self.old (Op.Atomic (AtomicOperator.MemoryAtomicWait32 memarg)) result self.new };

    /// Visits `memory.atomic.wait64`.
    fn visit_memory_atomic_wait64(&mut self, memarg: MemArg) -> Self::Output
        ensures { Self.visits self.old (Op.Atomic (AtomicOperator.MemoryAtomicWait64 memarg)) result self.new };

    /// Visits `atomic.fence`.
    fn visit_atomic_fence(&mut self) -> Self::Output
        ensures { Self.visits self.old (Op.Atomic AtomicOperator.AtomicFence) result self.new };

    /// Visits `i32.atomic.load`.
    fn visit_i32_atomic_load(&mut self, memarg: MemArg) -> Self::Output
        ensures { Self.visits self.old (Op.Atomic (AtomicOperator.I32AtomicLoad memarg)) result self.new };

    /// Visits `i64.atomic.load`.
    fn visit_i64_atomic_load(&mut self, memarg: MemArg) -> Self::Output
        ensures { Self.visits self.old (Op.Atomic (AtomicOperator.I64AtomicLoad memarg)) result self.new };

    /// Visits `i32.atomic.load8_u`.
    fn visit_i32_atomic_load8_u(&mut self, memarg: MemArg) -> Self::Output
        ensures { Self.visits self.old (Op.Atomic (AtomicOperator.I32AtomicLoad8U memarg)) result self.new };

    /// Visits `i32.atomic.load16_u`.
    fn visit_i32_atomic_load16_u(&mut self, memarg: MemArg) -> Self::Output
        ensures { Self.visits self.old (Op.Atomic (AtomicOperator.I32AtomicLoad16U memarg)) result self.new };

    /// Visits `i64.atomic.load8_u`.
    fn visit_i64_atomic_load8_u(&mut self, memarg: MemArg) -> Self::Output
        ensures { Self.visits self.old (Op.Atomic (AtomicOperator.I64AtomicLoad8U memarg)) result self.new };

    /// Visits `i64.atomic.load16_u`.
    fn visit_i64_atomic_load16_u(&mut self, memarg: MemArg) -> Self::Output
        ensures { Self.visits self.old (Op.Atomic (AtomicOperator.I64AtomicLoad16U memarg)) result self.new };

    /// Visits `i64.atomic.load32_u`.
    fn visit_i64_atomic_load32_u(&mut self, memarg: MemArg) -> Self::Output
        ensures { Self.visits self.old (Op.Atomic (AtomicOperator.I64AtomicLoad32U memarg)) result self.new };

    /// Visits `i32.atomic.store`.
    fn visit_i32_atomic_store(&mut self, memarg: MemArg) -> Self::Output
        ensures { Self.visits self.old (Op.Atomic (AtomicOperator.I32AtomicStore memarg)) result self.new };

    /// Visits `i64.atomic.store`.
    fn visit_i64_atomic_store(&mut self, memarg: MemArg) -> Self::Output
        ensures { Self.visits self.old (Op.Atomic (AtomicOperator.I64AtomicStore memarg)) result self.new };

    /// Visits `i32.atomic.store8`.
    fn visit_i32_atomic_store8(&mut self, memarg: MemArg) -> Self::Output
        ensures { Self.visits self.old (Op.Atomic (AtomicOperator.I32AtomicStore8 memarg)) result self.new };

    /// Visits `i32.atomic.store16`.
    fn visit_i32_atomic_store16(&mut self, memarg: MemArg) -> Self::Output
        ensures { Self.visits self.old (Op.Atomic (AtomicOperator.I32AtomicStore16 memarg)) result self.new };

    /// Visits `i64.atomic.store8`.
    fn visit_i64_atomic_store8(&mut self, memarg: MemArg) -> Self::Output
        ensures { Self.visits self.old (Op.Atomic (AtomicOperator.I64AtomicStore8 memarg)) result self.new };

    /// Visits `i64.atomic.store16`.
    fn visit_i64_atomic_store16(&mut self, memarg: MemArg) -> Self::Output
        ensures { Self.visits self.old (Op.Atomic (AtomicOperator.I64AtomicStore16 memarg)) result self.new };

    /// Visits `i64.atomic.store32`.
    fn visit_i64_atomic_store32(&mut self, memarg: MemArg) -> Self::Output
        ensures { Self.visits self.old (Op.Atomic (AtomicOperator.I64AtomicStore32 memarg)) result self.new };

    /// Visits `i32.atomic.rmw.add`.
    fn visit_i32_atomic_rmw_add(&mut self, memarg: MemArg) -> Self::Output
        ensures { Self.visits self.old (Op.Atomic (AtomicOperator.I32AtomicRmwAdd memarg)) result self.new };

    /// Visits `i64.atomic.rmw.add`.
    fn visit_i64_atomic_rmw_add(&mut self, memarg: MemArg) -> Self::Output
        ensures { Self.visits self.old (Op.Atomic (AtomicOperator.I64AtomicRmwAdd memarg)) result self.new };

    /// Visits `i32.atomic.rmw8.add_u`.
    fn visit_i32_atomic_rmw8_add_u(&mut self, memarg: MemArg) -> Self::Output
        ensures { Self.visits self.old (Op.Atomic (AtomicOperator.I32AtomicRmw8AddU memarg)) result self.new };

    /// Visits `i32.atomic.rmw16.add_u`.
    fn visit_i32_atomic_rmw16_add_u(&mut self, memarg: MemArg) -> Self::Output
        ensures { Self.visits self.old (Op.Atomic (AtomicOperator.I32AtomicRmw16AddU memarg)) result self.new };

    /// Visits `i64.atomic.rmw8.add_u`.
    fn visit_i64_atomic_rmw8_add_u(&mut self, memarg: MemArg) -> Self::Output
        ensures { Self.visits self.old (Op.Atomic (AtomicOperator.I64AtomicRmw8AddU memarg)) result self.new };

    /// Visits `i64.atomic.rmw16.add_u`.
    fn visit_i64_atomic_rmw16_add_u(&mut self, memarg: MemArg) -> Self::Output
        ensures { Self.visits self.old (Op.Atomic (AtomicOperator.I64AtomicRmw16AddU memarg)) result self.new };

    /// Visits `i64.atomic.rmw32.add_u`.
    fn visit_i64_atomic_rmw32_add_u(&mut self, memarg: MemArg) -> Self::Output
        ensures { Self.visits self.old (Op.Atomic (AtomicOperator.I64AtomicRmw32AddU memarg)) result self.new };

    /// Visits `i32.atomic.rmw.sub`.
    fn visit_i32_atomic_rmw_sub(&mut self, memarg: MemArg) -> Self::Output
        ensures { Self.visits self.old (Op.Atomic (AtomicOperator.I32AtomicRmwSub memarg)) result self.new };

    /// Visits `i64.atomic.rmw.sub`.
    fn visit_i64_atomic_rmw_sub(&mut self, memarg: MemArg) -> Self::Output
        ensures { Self.visits self.old (Op.Atomic (AtomicOperator.I64AtomicRmwSub memarg)) result self.new };

    /// Visits `i32.atomic.rmw8.sub_u`.
    fn visit_i32_atomic_rmw8_sub_u(&mut self, memarg: MemArg) -> Self::Output
        ensures { Self.visits self.old (Op.Atomic (AtomicOperator.I32AtomicRmw8SubU memarg)) result self.new };

    /// Visits `i32.atomic.rmw16.sub_u`.
    fn visit_i32_atomic_rmw16_sub_u(&mut self, memarg: MemArg) -> Self::Output
        ensures { Self.visits self.old (Op.Atomic (AtomicOperator.I32AtomicRmw16SubU memarg)) result self.new };

    /// Visits `i64.atomic.rmw8.sub_u`.
    fn visit_i64_atomic_rmw8_sub_u(&mut self, memarg: MemArg) -> Self::Output
        ensures { Self.visits self.old (Op.Atomic (AtomicOperator.I64AtomicRmw8SubU memarg)) result self.new };

    /// Visits `i64.atomic.rmw16.sub_u`.
    fn visit_i64_atomic_rmw16_sub_u(&mut self, memarg: MemArg) -> Self::Output
        ensures { Self.visits self.old (Op.Atomic (AtomicOperator.I64AtomicRmw16SubU memarg)) result self.new };

    /// Visits `i64.atomic.rmw32.sub_u`.
    fn visit_i64_atomic_rmw32_sub_u(&mut self, memarg: MemArg) -> Self::Output
        ensures { Self.visits self.old (Op.Atomic (AtomicOperator.I64AtomicRmw32SubU memarg)) result self.new };

    /// Visits `i32.atomic.rmw.and`.
    fn visit_i32_atomic_rmw_and(&mut self, memarg: MemArg) -> Self::Output
        ensures { Self.visits self.old (Op.Atomic (AtomicOperator.I32AtomicRmwAnd memarg)) result self.new };

    /// Visits `i64.atomic.rmw.and`.
    fn visit_i64_atomic_rmw_and(&mut self, memarg: MemArg) -> Self::Output
        ensures { Self.visits self.old (Op.Atomic (AtomicOperator.I64AtomicRmwAnd memarg)) result self.new };

    /// Visits `i32.atomic.rmw8.and_u`.
    fn visit_i32_atomic_rmw8_and_u(&mut self, memarg: MemArg) -> Self::Output
        ensures { Self.visits self.old (Op.Atomic (AtomicOperator.I32AtomicRmw8AndU memarg)) result self.new };

    /// Visits `i32.atomic.rmw16.and_u`.
    fn visit_i32_atomic_rmw16_and_u(&mut self, memarg: MemArg) -> Self::Output
        ensures { Self.visits self.old (Op.Atomic (AtomicOperator.I32AtomicRmw16AndU memarg)) result self.new };

    /// Visits `i64.atomic.rmw8.and_u`.
    fn visit_i64_atomic_rmw8_and_u(&mut self, memarg: MemArg) -> Self::Output
        ensures { Self.visits self.old (Op.Atomic (AtomicOperator.I64AtomicRmw8AndU memarg)) result self.new };

    /// Visits `i64.atomic.rmw16.and_u`.
    fn visit_i64_atomic_rmw16_and_u(&mut self, memarg: MemArg) -> Self::Output
        ensures { Self.visits self.old (Op.Atomic (AtomicOperator.I64AtomicRmw16AndU memarg)) result self.new };

    /// Visits `i64.atomic.rmw32.and_u`.
    fn visit_i64_atomic_rmw32_and_u(&mut self, memarg: MemArg) -> Self::Output
        ensures { Self.visits self.old (Op.Atomic (AtomicOperator.I64AtomicRmw32AndU memarg)) result self.new };

    /// Visits `i32.atomic.rmw.or`.
    fn visit_i32_atomic_rmw_or(&mut self, memarg: MemArg) -> Self::Output
        ensures { Self.visits self.old (Op.Atomic (AtomicOperator.I32AtomicRmwOr memarg)) result self.new };

    /// Visits `i64.atomic.rmw.or`.
    fn visit_i64_atomic_rmw_or(&mut self, memarg: MemArg) -> Self::Output
        ensures { Self.visits self.old (Op.Atomic (AtomicOperator.I64AtomicRmwOr memarg)) result self.new };

    /// Visits `i32.atomic.rmw8.or_u`.
    fn visit_i32_atomic_rmw8_or_u(&mut self, memarg: MemArg) -> Self::Output
        ensures { Self.visits self.old (Op.Atomic (AtomicOperator.I32AtomicRmw8OrU memarg)) result self.new };

    /// Visits `i32.atomic.rmw16.or_u`.
    fn visit_i32_atomic_rmw16_or_u(&mut self, memarg: MemArg) -> Self::Output
        ensures { Self.visits self.old (Op.Atomic (AtomicOperator.I32AtomicRmw16OrU memarg)) result self.new };

    /// Visits `i64.atomic.rmw8.or_u`.
    fn visit_i64_atomic_rmw8_or_u(&mut self, memarg: MemArg) -> Self::Output
        ensures { Self.visits self.old (Op.Atomic (AtomicOperator.I64AtomicRmw8OrU memarg)) result self.new };

    /// Visits `i64.atomic.rmw16.or_u`.
    fn visit_i64_atomic_rmw16_or_u(&mut self, memarg: MemArg) -> Self::Output
        ensures { Self.visits self.old (Op.Atomic (AtomicOperator.I64AtomicRmw16OrU memarg)) result self.new };

    /// Visits `i64.atomic.rmw32.or_u`.
    fn visit_i64_atomic_rmw32_or_u(&mut self, memarg: MemArg) -> Self::Output
        ensures { Self.visits self.old (Op.Atomic (AtomicOperator.I64AtomicRmw32OrU memarg)) result self.new };

    /// Visits `i32.atomic.rmw.xor`.
    fn visit_i32_atomic_rmw_xor(&mut self, memarg: MemArg) -> Self::Output
        ensures { Self.visits self.old (Op.Atomic (AtomicOperator.I32AtomicRmwXor memarg)) result self.new };

    /// Visits `i64.atomic.rmw.xor`.
    fn visit_i64_atomic_rmw_xor(&mut self, memarg: MemArg) -> Self::Output
        ensures { Self.visits self.old (Op.Atomic (AtomicOperator.I64AtomicRmwXor memarg)) result self.new };

    /// Visits `i32.atomic.rmw8.xor_u`.
    fn visit_i32_atomic_rmw8_xor_u(&mut self, memarg: MemArg) -> Self::Output
        ensures { Self.visits self.old (Op.Atomic (AtomicOperator.I32AtomicRmw8XorU memarg)) result self.new };

    /// Visits `i32.atomic.rmw16.xor_u`.
    fn visit_i32_atomic_rmw16_xor_u(&mut self, memarg: MemArg) -> Self::Output
        ensures { Self.visits self.old (Op.Atomic (AtomicOperator.I32AtomicRmw16XorU memarg)) result self.new };

    /// Visits `i64.atomic.rmw8.xor_u`.
    fn visit_i64_atomic_rmw8_xor_u(&mut self, memarg: MemArg) -> Self::Output
        ensures { Self.visits self.old (Op.Atomic (AtomicOperator.I64AtomicRmw8XorU memarg)) result self.new };

    /// Visits `i64.atomic.rmw16.xor_u`.
    fn visit_i64_atomic_rmw16_xor_u(&mut self, memarg: MemArg) -> Self::Output
        ensures { Self.visits self.old (Op.Atomic (AtomicOperator.I64AtomicRmw16XorU memarg)) result self.new };

    /// Visits `i64.atomic.rmw32.xor_u`.
    fn visit_i64_atomic_rmw32_xor_u(&mut self, memarg: MemArg) -> Self::Output
        ensures { Self.visits self.old (Op.Atomic (AtomicOperator.I64AtomicRmw32XorU memarg)) result self.new };

    /// Visits `i32.atomic.rmw.xchg`.
    fn visit_i32_atomic_rmw_xchg(&mut self, memarg: MemArg) -> Self::Output
        ensures { Self.visits self.old (Op.Atomic (AtomicOperator.I32AtomicRmwXchg memarg)) result self.new };

    /// Visits `i64.atomic.rmw.xchg`.
    fn visit_i64_atomic_rmw_xchg(&mut self, memarg: MemArg) -> Self::Output
        ensures { Self.visits self.old (Op.Atomic (AtomicOperator.I64AtomicRmwXchg memarg)) result self.new };

    /// Visits `i32.atomic.rmw8.xchg_u`.
    fn visit_i32_atomic_rmw8_xchg_u(&mut self, memarg: MemArg) -> Self::Output
        ensures { Self.visits self.old (Op.Atomic (AtomicOperator.I32AtomicRmw8XchgU memarg)) result self.new };

    /// Visits `i32.atomic.rmw16.xchg_u`.
    fn visit_i32_atomic_rmw16_xchg_u(&mut self, memarg: MemArg) -> Self::Output
        ensures { Self.visits self.old (Op.Atomic (AtomicOperator.I32AtomicRmw16XchgU memarg)) result self.new };

    /// Visits `i64.atomic.rmw8.xchg_u`.
    fn visit_i64_atomic_rmw8_xchg_u(&mut self, memarg: MemArg) -> Self::Output
        ensures { Self.visits self.old (Op.Atomic (AtomicOperator.I64AtomicRmw8XchgU memarg)) result self.new };

    /// Visits `i64.atomic.rmw16.xchg_u`.
    fn visit_i64_atomic_rmw16_xchg_u(&mut self, memarg: MemArg) -> Self::Output
        ensures { Self.visits self.old (Op.Atomic (AtomicOperator.I64AtomicRmw16XchgU memarg)) result self.new };

    /// Visits `i64.atomic.rmw32.xchg_u`.
    fn visit_i64_atomic_rmw32_xchg_u(&mut self, memarg: MemArg) -> Self::Output
        ensures { Self.visits self.old (Op.Atomic (AtomicOperator.I64AtomicRmw32XchgU memarg)) result self.new };

    /// Visits `i32.atomic.rmw.cmpxchg`.
    fn visit_i32_atomic_rmw_cmpxchg(&mut self, memarg: MemArg) -> Self::Output
        ensures { Self.visits self.old (Op.Atomic (AtomicOperator.I32AtomicRmwCmpxchg memarg)) result self.new };

    /// Visits `i64.atomic.rmw.cmpxchg`.
    fn visit_i64_atomic_rmw_cmpxchg(&mut self, memarg: MemArg) -> Self::Output
        ensures { Self.visits self.old (Op.Atomic (AtomicOperator.I64AtomicRmwCmpxchg memarg)) result self.new };

    /// Visits `i32.atomic.rmw8.cmpxchg_u`.
    fn visit_i32_atomic_rmw8_cmpxchg_u(&mut self, memarg: MemArg) -> Self::Output
        ensures { Self.visits self.old (Op.Atomic (AtomicOperator.I32AtomicRmw8CmpxchgU memarg)) result self.new };

    /// Visits `i32.atomic.rmw16.cmpxchg_u`.
    fn visit_i32_atomic_rmw16_cmpxchg_u(&mut self, memarg: MemArg) -> Self::Output
        ensures { Self.visits self.old (Op.Atomic (AtomicOperator.I32AtomicRmw16CmpxchgU memarg)) result self.new };

    /// Visits `i64.atomic.rmw8.cmpxchg_u`.
    fn visit_i64_atomic_rmw8_cmpxchg_u(&mut self, memarg: MemArg) -> Self::Output
        ensures { Self.visits self.old (Op.Atomic (AtomicOperator.I64AtomicRmw8CmpxchgU memarg)) result self.new };

    /// Visits `i64.atomic.rmw16.cmpxchg_u`.
    fn visit_i64_atomic_rmw16_cmpxchg_u(&mut self, memarg: MemArg) -> Self::Output
        ensures { Self.visits self.old (Op.Atomic (AtomicOperator.I64AtomicRmw16CmpxchgU memarg)) result self.new };

    /// Visits `i64.atomic.rmw32.cmpxchg_u`.
    fn visit_i64_atomic_rmw32_cmpxchg_u(&mut self, memarg: MemArg) -> Self::Output
        ensures { Self.visits self.old (Op.Atomic (AtomicOperator.I64AtomicRmw32CmpxchgU memarg)) result self.new };
}
