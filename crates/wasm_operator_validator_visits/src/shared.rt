//! Visits of atomic accesses to globals, tables, structs and arrays.

use crate::{AnswerAs, ValidatingVisitor};
use wasm_operator_validator_control::WasmModuleResources;
use wasm_operator_validator_proposals::{
    AtomicAccess, check_element_access, check_field_access, check_global_access,
    check_ref_i31_shared, check_table_access,
};
use wasm_operators_visit::{Ordering, SharedOperator};
use wasm_operators_visit_operator::VisitShared;

impl<'a, 'v, 'r, R: WasmModuleResources, A: AnswerAs> VisitShared<'a>
    for ValidatingVisitor<'v, 'r, R, A> {
    fn visit_global_atomic_get(&mut self, ordering: Ordering, global_index: u32) -> A::Output {
        let op = SharedOperator::GlobalAtomicGet {
            ordering,
            global_index,
        };
        let access = AtomicAccess::Reads;
        let checked = check_global_access(self.inner, self.resources, op, access, global_index);
        self.tell(checked)
    }

    fn visit_global_atomic_set(&mut self, ordering: Ordering, global_index: u32) -> A::Output {
        let op = SharedOperator::GlobalAtomicSet {
            ordering,
            global_index,
        };
        let access = AtomicAccess::Writes;
        let checked = check_global_access(self.inner, self.resources, op, access, global_index);
        self.tell(checked)
    }

    fn visit_global_atomic_rmw_add(&mut self, ordering: Ordering, global_index: u32) -> A::Output {
        let op = SharedOperator::GlobalAtomicRmwAdd {
            ordering,
            global_index,
        };
        let access = AtomicAccess::Modifies;
        let checked = check_global_access(self.inner, self.resources, op, access, global_index);
        self.tell(checked)
    }

    fn visit_global_atomic_rmw_sub(&mut self, ordering: Ordering, global_index: u32) -> A::Output {
        let op = SharedOperator::GlobalAtomicRmwSub {
            ordering,
            global_index,
        };
        let access = AtomicAccess::Modifies;
        let checked = check_global_access(self.inner, self.resources, op, access, global_index);
        self.tell(checked)
    }

    fn visit_global_atomic_rmw_and(&mut self, ordering: Ordering, global_index: u32) -> A::Output {
        let op = SharedOperator::GlobalAtomicRmwAnd {
            ordering,
            global_index,
        };
        let access = AtomicAccess::Modifies;
        let checked = check_global_access(self.inner, self.resources, op, access, global_index);
        self.tell(checked)
    }

    fn visit_global_atomic_rmw_or(&mut self, ordering: Ordering, global_index: u32) -> A::Output {
        let op = SharedOperator::GlobalAtomicRmwOr {
            ordering,
            global_index,
        };
        let access = AtomicAccess::Modifies;
        let checked = check_global_access(self.inner, self.resources, op, access, global_index);
        self.tell(checked)
    }

    fn visit_global_atomic_rmw_xor(&mut self, ordering: Ordering, global_index: u32) -> A::Output {
        let op = SharedOperator::GlobalAtomicRmwXor {
            ordering,
            global_index,
        };
        let access = AtomicAccess::Modifies;
        let checked = check_global_access(self.inner, self.resources, op, access, global_index);
        self.tell(checked)
    }

    fn visit_global_atomic_rmw_xchg(&mut self, ordering: Ordering, global_index: u32) -> A::Output {
        let op = SharedOperator::GlobalAtomicRmwXchg {
            ordering,
            global_index,
        };
        let access = AtomicAccess::Exchanges;
        let checked = check_global_access(self.inner, self.resources, op, access, global_index);
        self.tell(checked)
    }

    fn visit_global_atomic_rmw_cmpxchg(
        &mut self,
        ordering: Ordering,
        global_index: u32,
    ) -> A::Output {
        let op = SharedOperator::GlobalAtomicRmwCmpxchg {
            ordering,
            global_index,
        };
        let access = AtomicAccess::Compares;
        let checked = check_global_access(self.inner, self.resources, op, access, global_index);
        self.tell(checked)
    }

    fn visit_table_atomic_get(&mut self, ordering: Ordering, table_index: u32) -> A::Output {
        let op = SharedOperator::TableAtomicGet {
            ordering,
            table_index,
        };
        let access = AtomicAccess::Reads;
        let checked = check_table_access(self.inner, self.resources, op, access, table_index);
        self.tell(checked)
    }

    fn visit_table_atomic_set(&mut self, ordering: Ordering, table_index: u32) -> A::Output {
        let op = SharedOperator::TableAtomicSet {
            ordering,
            table_index,
        };
        let access = AtomicAccess::Writes;
        let checked = check_table_access(self.inner, self.resources, op, access, table_index);
        self.tell(checked)
    }

    fn visit_table_atomic_rmw_xchg(&mut self, ordering: Ordering, table_index: u32) -> A::Output {
        let op = SharedOperator::TableAtomicRmwXchg {
            ordering,
            table_index,
        };
        let access = AtomicAccess::Exchanges;
        let checked = check_table_access(self.inner, self.resources, op, access, table_index);
        self.tell(checked)
    }

    fn visit_table_atomic_rmw_cmpxchg(
        &mut self,
        ordering: Ordering,
        table_index: u32,
    ) -> A::Output {
        let op = SharedOperator::TableAtomicRmwCmpxchg {
            ordering,
            table_index,
        };
        let access = AtomicAccess::Compares;
        let checked = check_table_access(self.inner, self.resources, op, access, table_index);
        self.tell(checked)
    }

    fn visit_struct_atomic_get(
        &mut self,
        ordering: Ordering,
        struct_type_index: u32,
        field_index: u32,
    ) -> A::Output {
        let op = SharedOperator::StructAtomicGet {
            ordering,
            struct_type_index,
            field_index,
        };
        let access = AtomicAccess::Reads;
        let checked = check_field_access(
            self.inner,
            self.resources,
            op,
            access,
            struct_type_index,
            field_index,
        );
        self.tell(checked)
    }

    fn visit_struct_atomic_get_s(
        &mut self,
        ordering: Ordering,
        struct_type_index: u32,
        field_index: u32,
    ) -> A::Output {
        let op = SharedOperator::StructAtomicGetS {
            ordering,
            struct_type_index,
            field_index,
        };
        let access = AtomicAccess::ReadsPacked;
        let checked = check_field_access(
            self.inner,
            self.resources,
            op,
            access,
            struct_type_index,
            field_index,
        );
        self.tell(checked)
    }

    fn visit_struct_atomic_get_u(
        &mut self,
        ordering: Ordering,
        struct_type_index: u32,
        field_index: u32,
    ) -> A::Output {
        let op = SharedOperator::StructAtomicGetU {
            ordering,
            struct_type_index,
            field_index,
        };
        let access = AtomicAccess::ReadsPacked;
        let checked = check_field_access(
            self.inner,
            self.resources,
            op,
            access,
            struct_type_index,
            field_index,
        );
        self.tell(checked)
    }

    fn visit_struct_atomic_set(
        &mut self,
        ordering: Ordering,
        struct_type_index: u32,
        field_index: u32,
    ) -> A::Output {
        let op = SharedOperator::StructAtomicSet {
            ordering,
            struct_type_index,
            field_index,
        };
        let access = AtomicAccess::Writes;
        let checked = check_field_access(
            self.inner,
            self.resources,
            op,
            access,
            struct_type_index,
            field_index,
        );
        self.tell(checked)
    }

    fn visit_struct_atomic_rmw_add(
        &mut self,
        ordering: Ordering,
        struct_type_index: u32,
        field_index: u32,
    ) -> A::Output {
        let op = SharedOperator::StructAtomicRmwAdd {
            ordering,
            struct_type_index,
            field_index,
        };
        let access = AtomicAccess::Modifies;
        let checked = check_field_access(
            self.inner,
            self.resources,
            op,
            access,
            struct_type_index,
            field_index,
        );
        self.tell(checked)
    }

    fn visit_struct_atomic_rmw_sub(
        &mut self,
        ordering: Ordering,
        struct_type_index: u32,
        field_index: u32,
    ) -> A::Output {
        let op = SharedOperator::StructAtomicRmwSub {
            ordering,
            struct_type_index,
            field_index,
        };
        let access = AtomicAccess::Modifies;
        let checked = check_field_access(
            self.inner,
            self.resources,
            op,
            access,
            struct_type_index,
            field_index,
        );
        self.tell(checked)
    }

    fn visit_struct_atomic_rmw_and(
        &mut self,
        ordering: Ordering,
        struct_type_index: u32,
        field_index: u32,
    ) -> A::Output {
        let op = SharedOperator::StructAtomicRmwAnd {
            ordering,
            struct_type_index,
            field_index,
        };
        let access = AtomicAccess::Modifies;
        let checked = check_field_access(
            self.inner,
            self.resources,
            op,
            access,
            struct_type_index,
            field_index,
        );
        self.tell(checked)
    }

    fn visit_struct_atomic_rmw_or(
        &mut self,
        ordering: Ordering,
        struct_type_index: u32,
        field_index: u32,
    ) -> A::Output {
        let op = SharedOperator::StructAtomicRmwOr {
            ordering,
            struct_type_index,
            field_index,
        };
        let access = AtomicAccess::Modifies;
        let checked = check_field_access(
            self.inner,
            self.resources,
            op,
            access,
            struct_type_index,
            field_index,
        );
        self.tell(checked)
    }

    fn visit_struct_atomic_rmw_xor(
        &mut self,
        ordering: Ordering,
        struct_type_index: u32,
        field_index: u32,
    ) -> A::Output {
        let op = SharedOperator::StructAtomicRmwXor {
            ordering,
            struct_type_index,
            field_index,
        };
        let access = AtomicAccess::Modifies;
        let checked = check_field_access(
            self.inner,
            self.resources,
            op,
            access,
            struct_type_index,
            field_index,
        );
        self.tell(checked)
    }

    fn visit_struct_atomic_rmw_xchg(
        &mut self,
        ordering: Ordering,
        struct_type_index: u32,
        field_index: u32,
    ) -> A::Output {
        let op = SharedOperator::StructAtomicRmwXchg {
            ordering,
            struct_type_index,
            field_index,
        };
        let access = AtomicAccess::Exchanges;
        let checked = check_field_access(
            self.inner,
            self.resources,
            op,
            access,
            struct_type_index,
            field_index,
        );
        self.tell(checked)
    }

    fn visit_struct_atomic_rmw_cmpxchg(
        &mut self,
        ordering: Ordering,
        struct_type_index: u32,
        field_index: u32,
    ) -> A::Output {
        let op = SharedOperator::StructAtomicRmwCmpxchg {
            ordering,
            struct_type_index,
            field_index,
        };
        let access = AtomicAccess::Compares;
        let checked = check_field_access(
            self.inner,
            self.resources,
            op,
            access,
            struct_type_index,
            field_index,
        );
        self.tell(checked)
    }

    fn visit_array_atomic_get(&mut self, ordering: Ordering, array_type_index: u32) -> A::Output {
        let op = SharedOperator::ArrayAtomicGet {
            ordering,
            array_type_index,
        };
        let access = AtomicAccess::Reads;
        let checked = check_element_access(
            self.inner,
            self.resources,
            op,
            access,
            array_type_index,
        );
        self.tell(checked)
    }

    fn visit_array_atomic_get_s(&mut self, ordering: Ordering, array_type_index: u32) -> A::Output {
        let op = SharedOperator::ArrayAtomicGetS {
            ordering,
            array_type_index,
        };
        let access = AtomicAccess::ReadsPacked;
        let checked = check_element_access(
            self.inner,
            self.resources,
            op,
            access,
            array_type_index,
        );
        self.tell(checked)
    }

    fn visit_array_atomic_get_u(&mut self, ordering: Ordering, array_type_index: u32) -> A::Output {
        let op = SharedOperator::ArrayAtomicGetU {
            ordering,
            array_type_index,
        };
        let access = AtomicAccess::ReadsPacked;
        let checked = check_element_access(
            self.inner,
            self.resources,
            op,
            access,
            array_type_index,
        );
        self.tell(checked)
    }

    fn visit_array_atomic_set(&mut self, ordering: Ordering, array_type_index: u32) -> A::Output {
        let op = SharedOperator::ArrayAtomicSet {
            ordering,
            array_type_index,
        };
        let access = AtomicAccess::Writes;
        let checked = check_element_access(
            self.inner,
            self.resources,
            op,
            access,
            array_type_index,
        );
        self.tell(checked)
    }

    fn visit_array_atomic_rmw_add(
        &mut self,
        ordering: Ordering,
        array_type_index: u32,
    ) -> A::Output {
        let op = SharedOperator::ArrayAtomicRmwAdd {
            ordering,
            array_type_index,
        };
        let access = AtomicAccess::Modifies;
        let checked = check_element_access(
            self.inner,
            self.resources,
            op,
            access,
            array_type_index,
        );
        self.tell(checked)
    }

    fn visit_array_atomic_rmw_sub(
        &mut self,
        ordering: Ordering,
        array_type_index: u32,
    ) -> A::Output {
        let op = SharedOperator::ArrayAtomicRmwSub {
            ordering,
            array_type_index,
        };
        let access = AtomicAccess::Modifies;
        let checked = check_element_access(
            self.inner,
            self.resources,
            op,
            access,
            array_type_index,
        );
        self.tell(checked)
    }

    fn visit_array_atomic_rmw_and(
        &mut self,
        ordering: Ordering,
        array_type_index: u32,
    ) -> A::Output {
        let op = SharedOperator::ArrayAtomicRmwAnd {
            ordering,
            array_type_index,
        };
        let access = AtomicAccess::Modifies;
        let checked = check_element_access(
            self.inner,
            self.resources,
            op,
            access,
            array_type_index,
        );
        self.tell(checked)
    }

    fn visit_array_atomic_rmw_or(
        &mut self,
        ordering: Ordering,
        array_type_index: u32,
    ) -> A::Output {
        let op = SharedOperator::ArrayAtomicRmwOr {
            ordering,
            array_type_index,
        };
        let access = AtomicAccess::Modifies;
        let checked = check_element_access(
            self.inner,
            self.resources,
            op,
            access,
            array_type_index,
        );
        self.tell(checked)
    }

    fn visit_array_atomic_rmw_xor(
        &mut self,
        ordering: Ordering,
        array_type_index: u32,
    ) -> A::Output {
        let op = SharedOperator::ArrayAtomicRmwXor {
            ordering,
            array_type_index,
        };
        let access = AtomicAccess::Modifies;
        let checked = check_element_access(
            self.inner,
            self.resources,
            op,
            access,
            array_type_index,
        );
        self.tell(checked)
    }

    fn visit_array_atomic_rmw_xchg(
        &mut self,
        ordering: Ordering,
        array_type_index: u32,
    ) -> A::Output {
        let op = SharedOperator::ArrayAtomicRmwXchg {
            ordering,
            array_type_index,
        };
        let access = AtomicAccess::Exchanges;
        let checked = check_element_access(
            self.inner,
            self.resources,
            op,
            access,
            array_type_index,
        );
        self.tell(checked)
    }

    fn visit_array_atomic_rmw_cmpxchg(
        &mut self,
        ordering: Ordering,
        array_type_index: u32,
    ) -> A::Output {
        let op = SharedOperator::ArrayAtomicRmwCmpxchg {
            ordering,
            array_type_index,
        };
        let access = AtomicAccess::Compares;
        let checked = check_element_access(
            self.inner,
            self.resources,
            op,
            access,
            array_type_index,
        );
        self.tell(checked)
    }

    fn visit_ref_i31_shared(&mut self) -> A::Output {
        let checked = check_ref_i31_shared(self.inner, self.resources);
        self.tell(checked)
    }
}
