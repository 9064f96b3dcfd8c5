//! What lends a visitor.

use crate::shared::VisitShared;
use wasm_operators_visit::{Lender, Ordering};

/// What lends a visitor is told by the visits of what it lends.
impl<'a, P: Lender> VisitShared<'a> for P
where
    P::Lent: VisitShared<'a>,
{
    fn visit_global_atomic_get(&mut self, ordering: Ordering, global_index: u32) -> Self::Output {
        self.lend().visit_global_atomic_get(ordering, global_index)
    }

    fn visit_global_atomic_set(&mut self, ordering: Ordering, global_index: u32) -> Self::Output {
        self.lend().visit_global_atomic_set(ordering, global_index)
    }

    fn visit_global_atomic_rmw_add(
        &mut self,
        ordering: Ordering,
        global_index: u32,
    ) -> Self::Output {
        self.lend()
            .visit_global_atomic_rmw_add(ordering, global_index)
    }

    fn visit_global_atomic_rmw_sub(
        &mut self,
        ordering: Ordering,
        global_index: u32,
    ) -> Self::Output {
        self.lend()
            .visit_global_atomic_rmw_sub(ordering, global_index)
    }

    fn visit_global_atomic_rmw_and(
        &mut self,
        ordering: Ordering,
        global_index: u32,
    ) -> Self::Output {
        self.lend()
            .visit_global_atomic_rmw_and(ordering, global_index)
    }

    fn visit_global_atomic_rmw_or(
        &mut self,
        ordering: Ordering,
        global_index: u32,
    ) -> Self::Output {
        self.lend()
            .visit_global_atomic_rmw_or(ordering, global_index)
    }

    fn visit_global_atomic_rmw_xor(
        &mut self,
        ordering: Ordering,
        global_index: u32,
    ) -> Self::Output {
        self.lend()
            .visit_global_atomic_rmw_xor(ordering, global_index)
    }

    fn visit_global_atomic_rmw_xchg(
        &mut self,
        ordering: Ordering,
        global_index: u32,
    ) -> Self::Output {
        self.lend()
            .visit_global_atomic_rmw_xchg(ordering, global_index)
    }

    fn visit_global_atomic_rmw_cmpxchg(
        &mut self,
        ordering: Ordering,
        global_index: u32,
    ) -> Self::Output {
        self.lend()
            .visit_global_atomic_rmw_cmpxchg(ordering, global_index)
    }

    fn visit_table_atomic_get(&mut self, ordering: Ordering, table_index: u32) -> Self::Output {
        self.lend().visit_table_atomic_get(ordering, table_index)
    }

    fn visit_table_atomic_set(&mut self, ordering: Ordering, table_index: u32) -> Self::Output {
        self.lend().visit_table_atomic_set(ordering, table_index)
    }

    fn visit_table_atomic_rmw_xchg(
        &mut self,
        ordering: Ordering,
        table_index: u32,
    ) -> Self::Output {
        self.lend()
            .visit_table_atomic_rmw_xchg(ordering, table_index)
    }

    fn visit_table_atomic_rmw_cmpxchg(
        &mut self,
        ordering: Ordering,
        table_index: u32,
    ) -> Self::Output {
        self.lend()
            .visit_table_atomic_rmw_cmpxchg(ordering, table_index)
    }

    fn visit_struct_atomic_get(
        &mut self,
        ordering: Ordering,
        struct_type_index: u32,
        field_index: u32,
    ) -> Self::Output {
        self.lend()
            .visit_struct_atomic_get(ordering, struct_type_index, field_index)
    }

    fn visit_struct_atomic_get_s(
        &mut self,
        ordering: Ordering,
        struct_type_index: u32,
        field_index: u32,
    ) -> Self::Output {
        self.lend()
            .visit_struct_atomic_get_s(ordering, struct_type_index, field_index)
    }

    fn visit_struct_atomic_get_u(
        &mut self,
        ordering: Ordering,
        struct_type_index: u32,
        field_index: u32,
    ) -> Self::Output {
        self.lend()
            .visit_struct_atomic_get_u(ordering, struct_type_index, field_index)
    }

    fn visit_struct_atomic_set(
        &mut self,
        ordering: Ordering,
        struct_type_index: u32,
        field_index: u32,
    ) -> Self::Output {
        self.lend()
            .visit_struct_atomic_set(ordering, struct_type_index, field_index)
    }

    fn visit_struct_atomic_rmw_add(
        &mut self,
        ordering: Ordering,
        struct_type_index: u32,
        field_index: u32,
    ) -> Self::Output {
        self.lend()
            .visit_struct_atomic_rmw_add(ordering, struct_type_index, field_index)
    }

    fn visit_struct_atomic_rmw_sub(
        &mut self,
        ordering: Ordering,
        struct_type_index: u32,
        field_index: u32,
    ) -> Self::Output {
        self.lend()
            .visit_struct_atomic_rmw_sub(ordering, struct_type_index, field_index)
    }

    fn visit_struct_atomic_rmw_and(
        &mut self,
        ordering: Ordering,
        struct_type_index: u32,
        field_index: u32,
    ) -> Self::Output {
        self.lend()
            .visit_struct_atomic_rmw_and(ordering, struct_type_index, field_index)
    }

    fn visit_struct_atomic_rmw_or(
        &mut self,
        ordering: Ordering,
        struct_type_index: u32,
        field_index: u32,
    ) -> Self::Output {
        self.lend()
            .visit_struct_atomic_rmw_or(ordering, struct_type_index, field_index)
    }

    fn visit_struct_atomic_rmw_xor(
        &mut self,
        ordering: Ordering,
        struct_type_index: u32,
        field_index: u32,
    ) -> Self::Output {
        self.lend()
            .visit_struct_atomic_rmw_xor(ordering, struct_type_index, field_index)
    }

    fn visit_struct_atomic_rmw_xchg(
        &mut self,
        ordering: Ordering,
        struct_type_index: u32,
        field_index: u32,
    ) -> Self::Output {
        self.lend()
            .visit_struct_atomic_rmw_xchg(ordering, struct_type_index, field_index)
    }

    fn visit_struct_atomic_rmw_cmpxchg(
        &mut self,
        ordering: Ordering,
        struct_type_index: u32,
        field_index: u32,
    ) -> Self::Output {
        self.lend()
            .visit_struct_atomic_rmw_cmpxchg(ordering, struct_type_index, field_index)
    }

    fn visit_array_atomic_get(
        &mut self,
        ordering: Ordering,
        array_type_index: u32,
    ) -> Self::Output {
        self.lend()
            .visit_array_atomic_get(ordering, array_type_index)
    }

    fn visit_array_atomic_get_s(
        &mut self,
        ordering: Ordering,
        array_type_index: u32,
    ) -> Self::Output {
        self.lend()
            .visit_array_atomic_get_s(ordering, array_type_index)
    }

    fn visit_array_atomic_get_u(
        &mut self,
        ordering: Ordering,
        array_type_index: u32,
    ) -> Self::Output {
        self.lend()
            .visit_array_atomic_get_u(ordering, array_type_index)
    }

    fn visit_array_atomic_set(
        &mut self,
        ordering: Ordering,
        array_type_index: u32,
    ) -> Self::Output {
        self.lend()
            .visit_array_atomic_set(ordering, array_type_index)
    }

    fn visit_array_atomic_rmw_add(
        &mut self,
        ordering: Ordering,
        array_type_index: u32,
    ) -> Self::Output {
        self.lend()
            .visit_array_atomic_rmw_add(ordering, array_type_index)
    }

    fn visit_array_atomic_rmw_sub(
        &mut self,
        ordering: Ordering,
        array_type_index: u32,
    ) -> Self::Output {
        self.lend()
            .visit_array_atomic_rmw_sub(ordering, array_type_index)
    }

    fn visit_array_atomic_rmw_and(
        &mut self,
        ordering: Ordering,
        array_type_index: u32,
    ) -> Self::Output {
        self.lend()
            .visit_array_atomic_rmw_and(ordering, array_type_index)
    }

    fn visit_array_atomic_rmw_or(
        &mut self,
        ordering: Ordering,
        array_type_index: u32,
    ) -> Self::Output {
        self.lend()
            .visit_array_atomic_rmw_or(ordering, array_type_index)
    }

    fn visit_array_atomic_rmw_xor(
        &mut self,
        ordering: Ordering,
        array_type_index: u32,
    ) -> Self::Output {
        self.lend()
            .visit_array_atomic_rmw_xor(ordering, array_type_index)
    }

    fn visit_array_atomic_rmw_xchg(
        &mut self,
        ordering: Ordering,
        array_type_index: u32,
    ) -> Self::Output {
        self.lend()
            .visit_array_atomic_rmw_xchg(ordering, array_type_index)
    }

    fn visit_array_atomic_rmw_cmpxchg(
        &mut self,
        ordering: Ordering,
        array_type_index: u32,
    ) -> Self::Output {
        self.lend()
            .visit_array_atomic_rmw_cmpxchg(ordering, array_type_index)
    }

    fn visit_ref_i31_shared(&mut self) -> Self::Output {
        self.lend().visit_ref_i31_shared()
    }
}
