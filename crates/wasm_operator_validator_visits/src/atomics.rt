//! Visits of atomic accesses to memories.

use crate::{AnswerAs, ValidatingVisitor};
use wasm_operator_validator_control::{MemArg, WasmModuleResources};
use wasm_operator_validator_memory::atomics::{check_atomic_fence, check_atomic_notify};
use wasm_operators_visit::AtomicOperator;
use wasm_operators_visit_operator::VisitAtomic;
use wasm_types::ValType;

impl<'a, 'v, 'r, R: WasmModuleResources, A: AnswerAs> VisitAtomic<'a>
    for ValidatingVisitor<'v, 'r, R, A> {
    fn visit_memory_atomic_notify(&mut self, memarg: MemArg) -> A::Output {
        let checked = check_atomic_notify(self.inner, self.resources, memarg);
        self.tell(checked)
    }

    fn visit_memory_atomic_wait32(&mut self, memarg: MemArg) -> A::Output {
        self.atomic_wait(
            AtomicOperator::MemoryAtomicWait32 { memarg },
            &memarg,
            &ValType::I32,
        )
    }

    fn visit_memory_atomic_wait64(&mut self, memarg: MemArg) -> A::Output {
        self.atomic_wait(
            AtomicOperator::MemoryAtomicWait64 { memarg },
            &memarg,
            &ValType::I64,
        )
    }

    fn visit_atomic_fence(&mut self) -> A::Output {
        let checked = check_atomic_fence(self.inner, self.resources);
        self.tell(checked)
    }

    fn visit_i32_atomic_load(&mut self, memarg: MemArg) -> A::Output {
        self.atomic_load(
            AtomicOperator::I32AtomicLoad { memarg },
            &memarg,
            &ValType::I32,
        )
    }

    fn visit_i64_atomic_load(&mut self, memarg: MemArg) -> A::Output {
        self.atomic_load(
            AtomicOperator::I64AtomicLoad { memarg },
            &memarg,
            &ValType::I64,
        )
    }

    fn visit_i32_atomic_load8_u(&mut self, memarg: MemArg) -> A::Output {
        self.atomic_load(
            AtomicOperator::I32AtomicLoad8U { memarg },
            &memarg,
            &ValType::I32,
        )
    }

    fn visit_i32_atomic_load16_u(&mut self, memarg: MemArg) -> A::Output {
        self.atomic_load(
            AtomicOperator::I32AtomicLoad16U { memarg },
            &memarg,
            &ValType::I32,
        )
    }

    fn visit_i64_atomic_load8_u(&mut self, memarg: MemArg) -> A::Output {
        self.atomic_load(
            AtomicOperator::I64AtomicLoad8U { memarg },
            &memarg,
            &ValType::I64,
        )
    }

    fn visit_i64_atomic_load16_u(&mut self, memarg: MemArg) -> A::Output {
        self.atomic_load(
            AtomicOperator::I64AtomicLoad16U { memarg },
            &memarg,
            &ValType::I64,
        )
    }

    fn visit_i64_atomic_load32_u(&mut self, memarg: MemArg) -> A::Output {
        self.atomic_load(
            AtomicOperator::I64AtomicLoad32U { memarg },
            &memarg,
            &ValType::I64,
        )
    }

    fn visit_i32_atomic_store(&mut self, memarg: MemArg) -> A::Output {
        self.atomic_store(
            AtomicOperator::I32AtomicStore { memarg },
            &memarg,
            &ValType::I32,
        )
    }

    fn visit_i64_atomic_store(&mut self, memarg: MemArg) -> A::Output {
        self.atomic_store(
            AtomicOperator::I64AtomicStore { memarg },
            &memarg,
            &ValType::I64,
        )
    }

    fn visit_i32_atomic_store8(&mut self, memarg: MemArg) -> A::Output {
        self.atomic_store(
            AtomicOperator::I32AtomicStore8 { memarg },
            &memarg,
            &ValType::I32,
        )
    }

    fn visit_i32_atomic_store16(&mut self, memarg: MemArg) -> A::Output {
        self.atomic_store(
            AtomicOperator::I32AtomicStore16 { memarg },
            &memarg,
            &ValType::I32,
        )
    }

    fn visit_i64_atomic_store8(&mut self, memarg: MemArg) -> A::Output {
        self.atomic_store(
            AtomicOperator::I64AtomicStore8 { memarg },
            &memarg,
            &ValType::I64,
        )
    }

    fn visit_i64_atomic_store16(&mut self, memarg: MemArg) -> A::Output {
        self.atomic_store(
            AtomicOperator::I64AtomicStore16 { memarg },
            &memarg,
            &ValType::I64,
        )
    }

    fn visit_i64_atomic_store32(&mut self, memarg: MemArg) -> A::Output {
        self.atomic_store(
            AtomicOperator::I64AtomicStore32 { memarg },
            &memarg,
            &ValType::I64,
        )
    }

    fn visit_i32_atomic_rmw_add(&mut self, memarg: MemArg) -> A::Output {
        self.atomic_modify(
            AtomicOperator::I32AtomicRmwAdd { memarg },
            &memarg,
            &ValType::I32,
        )
    }

    fn visit_i64_atomic_rmw_add(&mut self, memarg: MemArg) -> A::Output {
        self.atomic_modify(
            AtomicOperator::I64AtomicRmwAdd { memarg },
            &memarg,
            &ValType::I64,
        )
    }

    fn visit_i32_atomic_rmw8_add_u(&mut self, memarg: MemArg) -> A::Output {
        self.atomic_modify(
            AtomicOperator::I32AtomicRmw8AddU { memarg },
            &memarg,
            &ValType::I32,
        )
    }

    fn visit_i32_atomic_rmw16_add_u(&mut self, memarg: MemArg) -> A::Output {
        self.atomic_modify(
            AtomicOperator::I32AtomicRmw16AddU { memarg },
            &memarg,
            &ValType::I32,
        )
    }

    fn visit_i64_atomic_rmw8_add_u(&mut self, memarg: MemArg) -> A::Output {
        self.atomic_modify(
            AtomicOperator::I64AtomicRmw8AddU { memarg },
            &memarg,
            &ValType::I64,
        )
    }

    fn visit_i64_atomic_rmw16_add_u(&mut self, memarg: MemArg) -> A::Output {
        self.atomic_modify(
            AtomicOperator::I64AtomicRmw16AddU { memarg },
            &memarg,
            &ValType::I64,
        )
    }

    fn visit_i64_atomic_rmw32_add_u(&mut self, memarg: MemArg) -> A::Output {
        self.atomic_modify(
            AtomicOperator::I64AtomicRmw32AddU { memarg },
            &memarg,
            &ValType::I64,
        )
    }

    fn visit_i32_atomic_rmw_sub(&mut self, memarg: MemArg) -> A::Output {
        self.atomic_modify(
            AtomicOperator::I32AtomicRmwSub { memarg },
            &memarg,
            &ValType::I32,
        )
    }

    fn visit_i64_atomic_rmw_sub(&mut self, memarg: MemArg) -> A::Output {
        self.atomic_modify(
            AtomicOperator::I64AtomicRmwSub { memarg },
            &memarg,
            &ValType::I64,
        )
    }

    fn visit_i32_atomic_rmw8_sub_u(&mut self, memarg: MemArg) -> A::Output {
        self.atomic_modify(
            AtomicOperator::I32AtomicRmw8SubU { memarg },
            &memarg,
            &ValType::I32,
        )
    }

    fn visit_i32_atomic_rmw16_sub_u(&mut self, memarg: MemArg) -> A::Output {
        self.atomic_modify(
            AtomicOperator::I32AtomicRmw16SubU { memarg },
            &memarg,
            &ValType::I32,
        )
    }

    fn visit_i64_atomic_rmw8_sub_u(&mut self, memarg: MemArg) -> A::Output {
        self.atomic_modify(
            AtomicOperator::I64AtomicRmw8SubU { memarg },
            &memarg,
            &ValType::I64,
        )
    }

    fn visit_i64_atomic_rmw16_sub_u(&mut self, memarg: MemArg) -> A::Output {
        self.atomic_modify(
            AtomicOperator::I64AtomicRmw16SubU { memarg },
            &memarg,
            &ValType::I64,
        )
    }

    fn visit_i64_atomic_rmw32_sub_u(&mut self, memarg: MemArg) -> A::Output {
        self.atomic_modify(
            AtomicOperator::I64AtomicRmw32SubU { memarg },
            &memarg,
            &ValType::I64,
        )
    }

    fn visit_i32_atomic_rmw_and(&mut self, memarg: MemArg) -> A::Output {
        self.atomic_modify(
            AtomicOperator::I32AtomicRmwAnd { memarg },
            &memarg,
            &ValType::I32,
        )
    }

    fn visit_i64_atomic_rmw_and(&mut self, memarg: MemArg) -> A::Output {
        self.atomic_modify(
            AtomicOperator::I64AtomicRmwAnd { memarg },
            &memarg,
            &ValType::I64,
        )
    }

    fn visit_i32_atomic_rmw8_and_u(&mut self, memarg: MemArg) -> A::Output {
        self.atomic_modify(
            AtomicOperator::I32AtomicRmw8AndU { memarg },
            &memarg,
            &ValType::I32,
        )
    }

    fn visit_i32_atomic_rmw16_and_u(&mut self, memarg: MemArg) -> A::Output {
        self.atomic_modify(
            AtomicOperator::I32AtomicRmw16AndU { memarg },
            &memarg,
            &ValType::I32,
        )
    }

    fn visit_i64_atomic_rmw8_and_u(&mut self, memarg: MemArg) -> A::Output {
        self.atomic_modify(
            AtomicOperator::I64AtomicRmw8AndU { memarg },
            &memarg,
            &ValType::I64,
        )
    }

    fn visit_i64_atomic_rmw16_and_u(&mut self, memarg: MemArg) -> A::Output {
        self.atomic_modify(
            AtomicOperator::I64AtomicRmw16AndU { memarg },
            &memarg,
            &ValType::I64,
        )
    }

    fn visit_i64_atomic_rmw32_and_u(&mut self, memarg: MemArg) -> A::Output {
        self.atomic_modify(
            AtomicOperator::I64AtomicRmw32AndU { memarg },
            &memarg,
            &ValType::I64,
        )
    }

    fn visit_i32_atomic_rmw_or(&mut self, memarg: MemArg) -> A::Output {
        self.atomic_modify(
            AtomicOperator::I32AtomicRmwOr { memarg },
            &memarg,
            &ValType::I32,
        )
    }

    fn visit_i64_atomic_rmw_or(&mut self, memarg: MemArg) -> A::Output {
        self.atomic_modify(
            AtomicOperator::I64AtomicRmwOr { memarg },
            &memarg,
            &ValType::I64,
        )
    }

    fn visit_i32_atomic_rmw8_or_u(&mut self, memarg: MemArg) -> A::Output {
        self.atomic_modify(
            AtomicOperator::I32AtomicRmw8OrU { memarg },
            &memarg,
            &ValType::I32,
        )
    }

    fn visit_i32_atomic_rmw16_or_u(&mut self, memarg: MemArg) -> A::Output {
        self.atomic_modify(
            AtomicOperator::I32AtomicRmw16OrU { memarg },
            &memarg,
            &ValType::I32,
        )
    }

    fn visit_i64_atomic_rmw8_or_u(&mut self, memarg: MemArg) -> A::Output {
        self.atomic_modify(
            AtomicOperator::I64AtomicRmw8OrU { memarg },
            &memarg,
            &ValType::I64,
        )
    }

    fn visit_i64_atomic_rmw16_or_u(&mut self, memarg: MemArg) -> A::Output {
        self.atomic_modify(
            AtomicOperator::I64AtomicRmw16OrU { memarg },
            &memarg,
            &ValType::I64,
        )
    }

    fn visit_i64_atomic_rmw32_or_u(&mut self, memarg: MemArg) -> A::Output {
        self.atomic_modify(
            AtomicOperator::I64AtomicRmw32OrU { memarg },
            &memarg,
            &ValType::I64,
        )
    }

    fn visit_i32_atomic_rmw_xor(&mut self, memarg: MemArg) -> A::Output {
        self.atomic_modify(
            AtomicOperator::I32AtomicRmwXor { memarg },
            &memarg,
            &ValType::I32,
        )
    }

    fn visit_i64_atomic_rmw_xor(&mut self, memarg: MemArg) -> A::Output {
        self.atomic_modify(
            AtomicOperator::I64AtomicRmwXor { memarg },
            &memarg,
            &ValType::I64,
        )
    }

    fn visit_i32_atomic_rmw8_xor_u(&mut self, memarg: MemArg) -> A::Output {
        self.atomic_modify(
            AtomicOperator::I32AtomicRmw8XorU { memarg },
            &memarg,
            &ValType::I32,
        )
    }

    fn visit_i32_atomic_rmw16_xor_u(&mut self, memarg: MemArg) -> A::Output {
        self.atomic_modify(
            AtomicOperator::I32AtomicRmw16XorU { memarg },
            &memarg,
            &ValType::I32,
        )
    }

    fn visit_i64_atomic_rmw8_xor_u(&mut self, memarg: MemArg) -> A::Output {
        self.atomic_modify(
            AtomicOperator::I64AtomicRmw8XorU { memarg },
            &memarg,
            &ValType::I64,
        )
    }

    fn visit_i64_atomic_rmw16_xor_u(&mut self, memarg: MemArg) -> A::Output {
        self.atomic_modify(
            AtomicOperator::I64AtomicRmw16XorU { memarg },
            &memarg,
            &ValType::I64,
        )
    }

    fn visit_i64_atomic_rmw32_xor_u(&mut self, memarg: MemArg) -> A::Output {
        self.atomic_modify(
            AtomicOperator::I64AtomicRmw32XorU { memarg },
            &memarg,
            &ValType::I64,
        )
    }

    fn visit_i32_atomic_rmw_xchg(&mut self, memarg: MemArg) -> A::Output {
        self.atomic_modify(
            AtomicOperator::I32AtomicRmwXchg { memarg },
            &memarg,
            &ValType::I32,
        )
    }

    fn visit_i64_atomic_rmw_xchg(&mut self, memarg: MemArg) -> A::Output {
        self.atomic_modify(
            AtomicOperator::I64AtomicRmwXchg { memarg },
            &memarg,
            &ValType::I64,
        )
    }

    fn visit_i32_atomic_rmw8_xchg_u(&mut self, memarg: MemArg) -> A::Output {
        self.atomic_modify(
            AtomicOperator::I32AtomicRmw8XchgU { memarg },
            &memarg,
            &ValType::I32,
        )
    }

    fn visit_i32_atomic_rmw16_xchg_u(&mut self, memarg: MemArg) -> A::Output {
        self.atomic_modify(
            AtomicOperator::I32AtomicRmw16XchgU { memarg },
            &memarg,
            &ValType::I32,
        )
    }

    fn visit_i64_atomic_rmw8_xchg_u(&mut self, memarg: MemArg) -> A::Output {
        self.atomic_modify(
            AtomicOperator::I64AtomicRmw8XchgU { memarg },
            &memarg,
            &ValType::I64,
        )
    }

    fn visit_i64_atomic_rmw16_xchg_u(&mut self, memarg: MemArg) -> A::Output {
        self.atomic_modify(
            AtomicOperator::I64AtomicRmw16XchgU { memarg },
            &memarg,
            &ValType::I64,
        )
    }

    fn visit_i64_atomic_rmw32_xchg_u(&mut self, memarg: MemArg) -> A::Output {
        self.atomic_modify(
            AtomicOperator::I64AtomicRmw32XchgU { memarg },
            &memarg,
            &ValType::I64,
        )
    }

    fn visit_i32_atomic_rmw_cmpxchg(&mut self, memarg: MemArg) -> A::Output {
        self.atomic_compare_exchange(
            AtomicOperator::I32AtomicRmwCmpxchg { memarg },
            &memarg,
            &ValType::I32,
        )
    }

    fn visit_i64_atomic_rmw_cmpxchg(&mut self, memarg: MemArg) -> A::Output {
        self.atomic_compare_exchange(
            AtomicOperator::I64AtomicRmwCmpxchg { memarg },
            &memarg,
            &ValType::I64,
        )
    }

    fn visit_i32_atomic_rmw8_cmpxchg_u(&mut self, memarg: MemArg) -> A::Output {
        self.atomic_compare_exchange(
            AtomicOperator::I32AtomicRmw8CmpxchgU { memarg },
            &memarg,
            &ValType::I32,
        )
    }

    fn visit_i32_atomic_rmw16_cmpxchg_u(&mut self, memarg: MemArg) -> A::Output {
        self.atomic_compare_exchange(
            AtomicOperator::I32AtomicRmw16CmpxchgU { memarg },
            &memarg,
            &ValType::I32,
        )
    }

    fn visit_i64_atomic_rmw8_cmpxchg_u(&mut self, memarg: MemArg) -> A::Output {
        self.atomic_compare_exchange(
            AtomicOperator::I64AtomicRmw8CmpxchgU { memarg },
            &memarg,
            &ValType::I64,
        )
    }

    fn visit_i64_atomic_rmw16_cmpxchg_u(&mut self, memarg: MemArg) -> A::Output {
        self.atomic_compare_exchange(
            AtomicOperator::I64AtomicRmw16CmpxchgU { memarg },
            &memarg,
            &ValType::I64,
        )
    }

    fn visit_i64_atomic_rmw32_cmpxchg_u(&mut self, memarg: MemArg) -> A::Output {
        self.atomic_compare_exchange(
            AtomicOperator::I64AtomicRmw32CmpxchgU { memarg },
            &memarg,
            &ValType::I64,
        )
    }
}
