//! The visit that belongs to an operator.

ghost use Rattle.wasm_operators_enums.specs.Op.{Op};

use crate::atomic::{AtomicOperator, VisitAtomic};

/// Tells a visitor of this atomic access to a memory, by the visit that belongs to it.
#[inline]
pub fn visit_atomic<'a, V: VisitAtomic<'a>>(visitor: &mut V, op: AtomicOperator) -> V::Output
    ensures { V.visits visitor.old (Op.Atomic op) result visitor.new }
{
    match op {
        AtomicOperator::MemoryAtomicNotify { memarg } => visitor.visit_memory_atomic_notify(memarg),
        AtomicOperator::MemoryAtomicWait32 { memarg } => visitor.visit_memory_atomic_wait32(memarg),
        AtomicOperator::MemoryAtomicWait64 { memarg } => visitor.visit_memory_atomic_wait64(memarg),
        AtomicOperator::AtomicFence => visitor.visit_atomic_fence(),
        AtomicOperator::I32AtomicLoad { memarg } => visitor.visit_i32_atomic_load(memarg),
        AtomicOperator::I64AtomicLoad { memarg } => visitor.visit_i64_atomic_load(memarg),
        AtomicOperator::I32AtomicLoad8U { memarg } => visitor.visit_i32_atomic_load8_u(memarg),
        AtomicOperator::I32AtomicLoad16U { memarg } => visitor.visit_i32_atomic_load16_u(memarg),
        AtomicOperator::I64AtomicLoad8U { memarg } => visitor.visit_i64_atomic_load8_u(memarg),
        AtomicOperator::I64AtomicLoad16U { memarg } => visitor.visit_i64_atomic_load16_u(memarg),
        AtomicOperator::I64AtomicLoad32U { memarg } => visitor.visit_i64_atomic_load32_u(memarg),
        AtomicOperator::I32AtomicStore { memarg } => visitor.visit_i32_atomic_store(memarg),
        AtomicOperator::I64AtomicStore { memarg } => visitor.visit_i64_atomic_store(memarg),
        AtomicOperator::I32AtomicStore8 { memarg } => visitor.visit_i32_atomic_store8(memarg),
        AtomicOperator::I32AtomicStore16 { memarg } => visitor.visit_i32_atomic_store16(memarg),
        AtomicOperator::I64AtomicStore8 { memarg } => visitor.visit_i64_atomic_store8(memarg),
        AtomicOperator::I64AtomicStore16 { memarg } => visitor.visit_i64_atomic_store16(memarg),
        AtomicOperator::I64AtomicStore32 { memarg } => visitor.visit_i64_atomic_store32(memarg),
        AtomicOperator::I32AtomicRmwAdd { memarg } => visitor.visit_i32_atomic_rmw_add(memarg),
        AtomicOperator::I64AtomicRmwAdd { memarg } => visitor.visit_i64_atomic_rmw_add(memarg),
        AtomicOperator::I32AtomicRmw8AddU { memarg } => visitor.visit_i32_atomic_rmw8_add_u(memarg),
        AtomicOperator::I32AtomicRmw16AddU { memarg } => visitor.visit_i32_atomic_rmw16_add_u(
            memarg,
        ),
        AtomicOperator::I64AtomicRmw8AddU { memarg } => visitor.visit_i64_atomic_rmw8_add_u(memarg),
        AtomicOperator::I64AtomicRmw16AddU { memarg } => visitor.visit_i64_atomic_rmw16_add_u(
            memarg,
        ),
        AtomicOperator::I64AtomicRmw32AddU { memarg } => visitor.visit_i64_atomic_rmw32_add_u(
            memarg,
        ),
        AtomicOperator::I32AtomicRmwSub { memarg } => visitor.visit_i32_atomic_rmw_sub(memarg),
        AtomicOperator::I64AtomicRmwSub { memarg } => visitor.visit_i64_atomic_rmw_sub(memarg),
        AtomicOperator::I32AtomicRmw8SubU { memarg } => visitor.visit_i32_atomic_rmw8_sub_u(memarg),
        AtomicOperator::I32AtomicRmw16SubU { memarg } => visitor.visit_i32_atomic_rmw16_sub_u(
            memarg,
        ),
        AtomicOperator::I64AtomicRmw8SubU { memarg } => visitor.visit_i64_atomic_rmw8_sub_u(memarg),
        AtomicOperator::I64AtomicRmw16SubU { memarg } => visitor.visit_i64_atomic_rmw16_sub_u(
            memarg,
        ),
        AtomicOperator::I64AtomicRmw32SubU { memarg } => visitor.visit_i64_atomic_rmw32_sub_u(
            memarg,
        ),
        AtomicOperator::I32AtomicRmwAnd { memarg } => visitor.visit_i32_atomic_rmw_and(memarg),
        AtomicOperator::I64AtomicRmwAnd { memarg } => visitor.visit_i64_atomic_rmw_and(memarg),
        AtomicOperator::I32AtomicRmw8AndU { memarg } => visitor.visit_i32_atomic_rmw8_and_u(memarg),
        AtomicOperator::I32AtomicRmw16AndU { memarg } => visitor.visit_i32_atomic_rmw16_and_u(
            memarg,
        ),
        AtomicOperator::I64AtomicRmw8AndU { memarg } => visitor.visit_i64_atomic_rmw8_and_u(memarg),
        AtomicOperator::I64AtomicRmw16AndU { memarg } => visitor.visit_i64_atomic_rmw16_and_u(
            memarg,
        ),
        AtomicOperator::I64AtomicRmw32AndU { memarg } => visitor.visit_i64_atomic_rmw32_and_u(
            memarg,
        ),
        AtomicOperator::I32AtomicRmwOr { memarg } => visitor.visit_i32_atomic_rmw_or(memarg),
        AtomicOperator::I64AtomicRmwOr { memarg } => visitor.visit_i64_atomic_rmw_or(memarg),
        AtomicOperator::I32AtomicRmw8OrU { memarg } => visitor.visit_i32_atomic_rmw8_or_u(memarg),
        AtomicOperator::I32AtomicRmw16OrU { memarg } => visitor.visit_i32_atomic_rmw16_or_u(memarg),
        AtomicOperator::I64AtomicRmw8OrU { memarg } => visitor.visit_i64_atomic_rmw8_or_u(memarg),
        AtomicOperator::I64AtomicRmw16OrU { memarg } => visitor.visit_i64_atomic_rmw16_or_u(memarg),
        AtomicOperator::I64AtomicRmw32OrU { memarg } => visitor.visit_i64_atomic_rmw32_or_u(memarg),
        AtomicOperator::I32AtomicRmwXor { memarg } => visitor.visit_i32_atomic_rmw_xor(memarg),
        AtomicOperator::I64AtomicRmwXor { memarg } => visitor.visit_i64_atomic_rmw_xor(memarg),
        AtomicOperator::I32AtomicRmw8XorU { memarg } => visitor.visit_i32_atomic_rmw8_xor_u(memarg),
        AtomicOperator::I32AtomicRmw16XorU { memarg } => visitor.visit_i32_atomic_rmw16_xor_u(
            memarg,
        ),
        AtomicOperator::I64AtomicRmw8XorU { memarg } => visitor.visit_i64_atomic_rmw8_xor_u(memarg),
        AtomicOperator::I64AtomicRmw16XorU { memarg } => visitor.visit_i64_atomic_rmw16_xor_u(
            memarg,
        ),
        AtomicOperator::I64AtomicRmw32XorU { memarg } => visitor.visit_i64_atomic_rmw32_xor_u(
            memarg,
        ),
        AtomicOperator::I32AtomicRmwXchg { memarg } => visitor.visit_i32_atomic_rmw_xchg(memarg),
        AtomicOperator::I64AtomicRmwXchg { memarg } => visitor.visit_i64_atomic_rmw_xchg(memarg),
        AtomicOperator::I32AtomicRmw8XchgU { memarg } => visitor.visit_i32_atomic_rmw8_xchg_u(
            memarg,
        ),
        AtomicOperator::I32AtomicRmw16XchgU { memarg } => visitor.visit_i32_atomic_rmw16_xchg_u(
            memarg,
        ),
        AtomicOperator::I64AtomicRmw8XchgU { memarg } => visitor.visit_i64_atomic_rmw8_xchg_u(
            memarg,
        ),
        AtomicOperator::I64AtomicRmw16XchgU { memarg } => visitor.visit_i64_atomic_rmw16_xchg_u(
            memarg,
        ),
        AtomicOperator::I64AtomicRmw32XchgU { memarg } => visitor.visit_i64_atomic_rmw32_xchg_u(
            memarg,
        ),
        AtomicOperator::I32AtomicRmwCmpxchg { memarg } => visitor.visit_i32_atomic_rmw_cmpxchg(
            memarg,
        ),
        AtomicOperator::I64AtomicRmwCmpxchg { memarg } => visitor.visit_i64_atomic_rmw_cmpxchg(
            memarg,
        ),
        AtomicOperator::I32AtomicRmw8CmpxchgU { memarg } => visitor.visit_i32_atomic_rmw8_cmpxchg_u(
            memarg,
        ),
        AtomicOperator::I32AtomicRmw16CmpxchgU { memarg } =>
            visitor.visit_i32_atomic_rmw16_cmpxchg_u(memarg),
        AtomicOperator::I64AtomicRmw8CmpxchgU { memarg } => visitor.visit_i64_atomic_rmw8_cmpxchg_u(
            memarg,
        ),
        AtomicOperator::I64AtomicRmw16CmpxchgU { memarg } =>
            visitor.visit_i64_atomic_rmw16_cmpxchg_u(memarg),
        AtomicOperator::I64AtomicRmw32CmpxchgU { memarg } =>
            visitor.visit_i64_atomic_rmw32_cmpxchg_u(memarg),
    }
}
