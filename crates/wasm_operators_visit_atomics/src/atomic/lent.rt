//! What lends a visitor.

use crate::atomic::VisitAtomic;
use wasm_operators_visit::{Lender, MemArg};

/// What lends a visitor is told by the visits of what it lends.
impl<'a, P: Lender> VisitAtomic<'a> for P
where
    P::Lent: VisitAtomic<'a>,
{
    fn visit_memory_atomic_notify(&mut self, memarg: MemArg) -> Self::Output {
        self.lend().visit_memory_atomic_notify(memarg)
    }

    fn visit_memory_atomic_wait32(&mut self, memarg: MemArg) -> Self::Output {
        self.lend().visit_memory_atomic_wait32(memarg)
    }

    fn visit_memory_atomic_wait64(&mut self, memarg: MemArg) -> Self::Output {
        self.lend().visit_memory_atomic_wait64(memarg)
    }

    fn visit_atomic_fence(&mut self) -> Self::Output {
        self.lend().visit_atomic_fence()
    }

    fn visit_i32_atomic_load(&mut self, memarg: MemArg) -> Self::Output {
        self.lend().visit_i32_atomic_load(memarg)
    }

    fn visit_i64_atomic_load(&mut self, memarg: MemArg) -> Self::Output {
        self.lend().visit_i64_atomic_load(memarg)
    }

    fn visit_i32_atomic_load8_u(&mut self, memarg: MemArg) -> Self::Output {
        self.lend().visit_i32_atomic_load8_u(memarg)
    }

    fn visit_i32_atomic_load16_u(&mut self, memarg: MemArg) -> Self::Output {
        self.lend().visit_i32_atomic_load16_u(memarg)
    }

    fn visit_i64_atomic_load8_u(&mut self, memarg: MemArg) -> Self::Output {
        self.lend().visit_i64_atomic_load8_u(memarg)
    }

    fn visit_i64_atomic_load16_u(&mut self, memarg: MemArg) -> Self::Output {
        self.lend().visit_i64_atomic_load16_u(memarg)
    }

    fn visit_i64_atomic_load32_u(&mut self, memarg: MemArg) -> Self::Output {
        self.lend().visit_i64_atomic_load32_u(memarg)
    }

    fn visit_i32_atomic_store(&mut self, memarg: MemArg) -> Self::Output {
        self.lend().visit_i32_atomic_store(memarg)
    }

    fn visit_i64_atomic_store(&mut self, memarg: MemArg) -> Self::Output {
        self.lend().visit_i64_atomic_store(memarg)
    }

    fn visit_i32_atomic_store8(&mut self, memarg: MemArg) -> Self::Output {
        self.lend().visit_i32_atomic_store8(memarg)
    }

    fn visit_i32_atomic_store16(&mut self, memarg: MemArg) -> Self::Output {
        self.lend().visit_i32_atomic_store16(memarg)
    }

    fn visit_i64_atomic_store8(&mut self, memarg: MemArg) -> Self::Output {
        self.lend().visit_i64_atomic_store8(memarg)
    }

    fn visit_i64_atomic_store16(&mut self, memarg: MemArg) -> Self::Output {
        self.lend().visit_i64_atomic_store16(memarg)
    }

    fn visit_i64_atomic_store32(&mut self, memarg: MemArg) -> Self::Output {
        self.lend().visit_i64_atomic_store32(memarg)
    }

    fn visit_i32_atomic_rmw_add(&mut self, memarg: MemArg) -> Self::Output {
        self.lend().visit_i32_atomic_rmw_add(memarg)
    }

    fn visit_i64_atomic_rmw_add(&mut self, memarg: MemArg) -> Self::Output {
        self.lend().visit_i64_atomic_rmw_add(memarg)
    }

    fn visit_i32_atomic_rmw8_add_u(&mut self, memarg: MemArg) -> Self::Output {
        self.lend().visit_i32_atomic_rmw8_add_u(memarg)
    }

    fn visit_i32_atomic_rmw16_add_u(&mut self, memarg: MemArg) -> Self::Output {
        self.lend().visit_i32_atomic_rmw16_add_u(memarg)
    }

    fn visit_i64_atomic_rmw8_add_u(&mut self, memarg: MemArg) -> Self::Output {
        self.lend().visit_i64_atomic_rmw8_add_u(memarg)
    }

    fn visit_i64_atomic_rmw16_add_u(&mut self, memarg: MemArg) -> Self::Output {
        self.lend().visit_i64_atomic_rmw16_add_u(memarg)
    }

    fn visit_i64_atomic_rmw32_add_u(&mut self, memarg: MemArg) -> Self::Output {
        self.lend().visit_i64_atomic_rmw32_add_u(memarg)
    }

    fn visit_i32_atomic_rmw_sub(&mut self, memarg: MemArg) -> Self::Output {
        self.lend().visit_i32_atomic_rmw_sub(memarg)
    }

    fn visit_i64_atomic_rmw_sub(&mut self, memarg: MemArg) -> Self::Output {
        self.lend().visit_i64_atomic_rmw_sub(memarg)
    }

    fn visit_i32_atomic_rmw8_sub_u(&mut self, memarg: MemArg) -> Self::Output {
        self.lend().visit_i32_atomic_rmw8_sub_u(memarg)
    }

    fn visit_i32_atomic_rmw16_sub_u(&mut self, memarg: MemArg) -> Self::Output {
        self.lend().visit_i32_atomic_rmw16_sub_u(memarg)
    }

    fn visit_i64_atomic_rmw8_sub_u(&mut self, memarg: MemArg) -> Self::Output {
        self.lend().visit_i64_atomic_rmw8_sub_u(memarg)
    }

    fn visit_i64_atomic_rmw16_sub_u(&mut self, memarg: MemArg) -> Self::Output {
        self.lend().visit_i64_atomic_rmw16_sub_u(memarg)
    }

    fn visit_i64_atomic_rmw32_sub_u(&mut self, memarg: MemArg) -> Self::Output {
        self.lend().visit_i64_atomic_rmw32_sub_u(memarg)
    }

    fn visit_i32_atomic_rmw_and(&mut self, memarg: MemArg) -> Self::Output {
        self.lend().visit_i32_atomic_rmw_and(memarg)
    }

    fn visit_i64_atomic_rmw_and(&mut self, memarg: MemArg) -> Self::Output {
        self.lend().visit_i64_atomic_rmw_and(memarg)
    }

    fn visit_i32_atomic_rmw8_and_u(&mut self, memarg: MemArg) -> Self::Output {
        self.lend().visit_i32_atomic_rmw8_and_u(memarg)
    }

    fn visit_i32_atomic_rmw16_and_u(&mut self, memarg: MemArg) -> Self::Output {
        self.lend().visit_i32_atomic_rmw16_and_u(memarg)
    }

    fn visit_i64_atomic_rmw8_and_u(&mut self, memarg: MemArg) -> Self::Output {
        self.lend().visit_i64_atomic_rmw8_and_u(memarg)
    }

    fn visit_i64_atomic_rmw16_and_u(&mut self, memarg: MemArg) -> Self::Output {
        self.lend().visit_i64_atomic_rmw16_and_u(memarg)
    }

    fn visit_i64_atomic_rmw32_and_u(&mut self, memarg: MemArg) -> Self::Output {
        self.lend().visit_i64_atomic_rmw32_and_u(memarg)
    }

    fn visit_i32_atomic_rmw_or(&mut self, memarg: MemArg) -> Self::Output {
        self.lend().visit_i32_atomic_rmw_or(memarg)
    }

    fn visit_i64_atomic_rmw_or(&mut self, memarg: MemArg) -> Self::Output {
        self.lend().visit_i64_atomic_rmw_or(memarg)
    }

    fn visit_i32_atomic_rmw8_or_u(&mut self, memarg: MemArg) -> Self::Output {
        self.lend().visit_i32_atomic_rmw8_or_u(memarg)
    }

    fn visit_i32_atomic_rmw16_or_u(&mut self, memarg: MemArg) -> Self::Output {
        self.lend().visit_i32_atomic_rmw16_or_u(memarg)
    }

    fn visit_i64_atomic_rmw8_or_u(&mut self, memarg: MemArg) -> Self::Output {
        self.lend().visit_i64_atomic_rmw8_or_u(memarg)
    }

    fn visit_i64_atomic_rmw16_or_u(&mut self, memarg: MemArg) -> Self::Output {
        self.lend().visit_i64_atomic_rmw16_or_u(memarg)
    }

    fn visit_i64_atomic_rmw32_or_u(&mut self, memarg: MemArg) -> Self::Output {
        self.lend().visit_i64_atomic_rmw32_or_u(memarg)
    }

    fn visit_i32_atomic_rmw_xor(&mut self, memarg: MemArg) -> Self::Output {
        self.lend().visit_i32_atomic_rmw_xor(memarg)
    }

    fn visit_i64_atomic_rmw_xor(&mut self, memarg: MemArg) -> Self::Output {
        self.lend().visit_i64_atomic_rmw_xor(memarg)
    }

    fn visit_i32_atomic_rmw8_xor_u(&mut self, memarg: MemArg) -> Self::Output {
        self.lend().visit_i32_atomic_rmw8_xor_u(memarg)
    }

    fn visit_i32_atomic_rmw16_xor_u(&mut self, memarg: MemArg) -> Self::Output {
        self.lend().visit_i32_atomic_rmw16_xor_u(memarg)
    }

    fn visit_i64_atomic_rmw8_xor_u(&mut self, memarg: MemArg) -> Self::Output {
        self.lend().visit_i64_atomic_rmw8_xor_u(memarg)
    }

    fn visit_i64_atomic_rmw16_xor_u(&mut self, memarg: MemArg) -> Self::Output {
        self.lend().visit_i64_atomic_rmw16_xor_u(memarg)
    }

    fn visit_i64_atomic_rmw32_xor_u(&mut self, memarg: MemArg) -> Self::Output {
        self.lend().visit_i64_atomic_rmw32_xor_u(memarg)
    }

    fn visit_i32_atomic_rmw_xchg(&mut self, memarg: MemArg) -> Self::Output {
        self.lend().visit_i32_atomic_rmw_xchg(memarg)
    }

    fn visit_i64_atomic_rmw_xchg(&mut self, memarg: MemArg) -> Self::Output {
        self.lend().visit_i64_atomic_rmw_xchg(memarg)
    }

    fn visit_i32_atomic_rmw8_xchg_u(&mut self, memarg: MemArg) -> Self::Output {
        self.lend().visit_i32_atomic_rmw8_xchg_u(memarg)
    }

    fn visit_i32_atomic_rmw16_xchg_u(&mut self, memarg: MemArg) -> Self::Output {
        self.lend().visit_i32_atomic_rmw16_xchg_u(memarg)
    }

    fn visit_i64_atomic_rmw8_xchg_u(&mut self, memarg: MemArg) -> Self::Output {
        self.lend().visit_i64_atomic_rmw8_xchg_u(memarg)
    }

    fn visit_i64_atomic_rmw16_xchg_u(&mut self, memarg: MemArg) -> Self::Output {
        self.lend().visit_i64_atomic_rmw16_xchg_u(memarg)
    }

    fn visit_i64_atomic_rmw32_xchg_u(&mut self, memarg: MemArg) -> Self::Output {
        self.lend().visit_i64_atomic_rmw32_xchg_u(memarg)
    }

    fn visit_i32_atomic_rmw_cmpxchg(&mut self, memarg: MemArg) -> Self::Output {
        self.lend().visit_i32_atomic_rmw_cmpxchg(memarg)
    }

    fn visit_i64_atomic_rmw_cmpxchg(&mut self, memarg: MemArg) -> Self::Output {
        self.lend().visit_i64_atomic_rmw_cmpxchg(memarg)
    }

    fn visit_i32_atomic_rmw8_cmpxchg_u(&mut self, memarg: MemArg) -> Self::Output {
        self.lend().visit_i32_atomic_rmw8_cmpxchg_u(memarg)
    }

    fn visit_i32_atomic_rmw16_cmpxchg_u(&mut self, memarg: MemArg) -> Self::Output {
        self.lend().visit_i32_atomic_rmw16_cmpxchg_u(memarg)
    }

    fn visit_i64_atomic_rmw8_cmpxchg_u(&mut self, memarg: MemArg) -> Self::Output {
        self.lend().visit_i64_atomic_rmw8_cmpxchg_u(memarg)
    }

    fn visit_i64_atomic_rmw16_cmpxchg_u(&mut self, memarg: MemArg) -> Self::Output {
        self.lend().visit_i64_atomic_rmw16_cmpxchg_u(memarg)
    }

    fn visit_i64_atomic_rmw32_cmpxchg_u(&mut self, memarg: MemArg) -> Self::Output {
        self.lend().visit_i64_atomic_rmw32_cmpxchg_u(memarg)
    }
}
