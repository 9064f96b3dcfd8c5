//! What lends a visitor.

use crate::gc::VisitGc;
use wasm_operators_visit::Lender;
use wasm_types::{HeapType, RefType};

/// What lends a visitor is told by the visits of what it lends.
impl<'a, P: Lender> VisitGc<'a> for P
where
    P::Lent: VisitGc<'a>,
{
    fn visit_ref_eq(&mut self) -> Self::Output {
        self.lend().visit_ref_eq()
    }

    fn visit_struct_new(&mut self, struct_type_index: u32) -> Self::Output {
        self.lend().visit_struct_new(struct_type_index)
    }

    fn visit_struct_new_default(&mut self, struct_type_index: u32) -> Self::Output {
        self.lend().visit_struct_new_default(struct_type_index)
    }

    fn visit_struct_get(&mut self, struct_type_index: u32, field_index: u32) -> Self::Output {
        self.lend().visit_struct_get(struct_type_index, field_index)
    }

    fn visit_struct_get_s(&mut self, struct_type_index: u32, field_index: u32) -> Self::Output {
        self.lend()
            .visit_struct_get_s(struct_type_index, field_index)
    }

    fn visit_struct_get_u(&mut self, struct_type_index: u32, field_index: u32) -> Self::Output {
        self.lend()
            .visit_struct_get_u(struct_type_index, field_index)
    }

    fn visit_struct_set(&mut self, struct_type_index: u32, field_index: u32) -> Self::Output {
        self.lend().visit_struct_set(struct_type_index, field_index)
    }

    fn visit_array_new(&mut self, array_type_index: u32) -> Self::Output {
        self.lend().visit_array_new(array_type_index)
    }

    fn visit_array_new_default(&mut self, array_type_index: u32) -> Self::Output {
        self.lend().visit_array_new_default(array_type_index)
    }

    fn visit_array_new_fixed(&mut self, array_type_index: u32, array_size: u32) -> Self::Output {
        self.lend()
            .visit_array_new_fixed(array_type_index, array_size)
    }

    fn visit_array_new_data(
        &mut self,
        array_type_index: u32,
        array_data_index: u32,
    ) -> Self::Output {
        self.lend()
            .visit_array_new_data(array_type_index, array_data_index)
    }

    fn visit_array_new_elem(
        &mut self,
        array_type_index: u32,
        array_elem_index: u32,
    ) -> Self::Output {
        self.lend()
            .visit_array_new_elem(array_type_index, array_elem_index)
    }

    fn visit_array_get(&mut self, array_type_index: u32) -> Self::Output {
        self.lend().visit_array_get(array_type_index)
    }

    fn visit_array_get_s(&mut self, array_type_index: u32) -> Self::Output {
        self.lend().visit_array_get_s(array_type_index)
    }

    fn visit_array_get_u(&mut self, array_type_index: u32) -> Self::Output {
        self.lend().visit_array_get_u(array_type_index)
    }

    fn visit_array_set(&mut self, array_type_index: u32) -> Self::Output {
        self.lend().visit_array_set(array_type_index)
    }

    fn visit_array_len(&mut self) -> Self::Output {
        self.lend().visit_array_len()
    }

    fn visit_array_fill(&mut self, array_type_index: u32) -> Self::Output {
        self.lend().visit_array_fill(array_type_index)
    }

    fn visit_array_copy(
        &mut self,
        array_type_index_dst: u32,
        array_type_index_src: u32,
    ) -> Self::Output {
        self.lend()
            .visit_array_copy(array_type_index_dst, array_type_index_src)
    }

    fn visit_array_init_data(
        &mut self,
        array_type_index: u32,
        array_data_index: u32,
    ) -> Self::Output {
        self.lend()
            .visit_array_init_data(array_type_index, array_data_index)
    }

    fn visit_array_init_elem(
        &mut self,
        array_type_index: u32,
        array_elem_index: u32,
    ) -> Self::Output {
        self.lend()
            .visit_array_init_elem(array_type_index, array_elem_index)
    }

    fn visit_ref_test_non_null(&mut self, hty: HeapType) -> Self::Output {
        self.lend().visit_ref_test_non_null(hty)
    }

    fn visit_ref_test_nullable(&mut self, hty: HeapType) -> Self::Output {
        self.lend().visit_ref_test_nullable(hty)
    }

    fn visit_ref_cast_non_null(&mut self, hty: HeapType) -> Self::Output {
        self.lend().visit_ref_cast_non_null(hty)
    }

    fn visit_ref_cast_nullable(&mut self, hty: HeapType) -> Self::Output {
        self.lend().visit_ref_cast_nullable(hty)
    }

    fn visit_br_on_cast(
        &mut self,
        relative_depth: u32,
        from_ref_type: RefType,
        to_ref_type: RefType,
    ) -> Self::Output {
        self.lend()
            .visit_br_on_cast(relative_depth, from_ref_type, to_ref_type)
    }

    fn visit_br_on_cast_fail(
        &mut self,
        relative_depth: u32,
        from_ref_type: RefType,
        to_ref_type: RefType,
    ) -> Self::Output {
        self.lend()
            .visit_br_on_cast_fail(relative_depth, from_ref_type, to_ref_type)
    }

    fn visit_any_convert_extern(&mut self) -> Self::Output {
        self.lend().visit_any_convert_extern()
    }

    fn visit_extern_convert_any(&mut self) -> Self::Output {
        self.lend().visit_extern_convert_any()
    }

    fn visit_ref_i31(&mut self) -> Self::Output {
        self.lend().visit_ref_i31()
    }

    fn visit_i31_get_s(&mut self) -> Self::Output {
        self.lend().visit_i31_get_s()
    }

    fn visit_i31_get_u(&mut self) -> Self::Output {
        self.lend().visit_i31_get_u()
    }

    fn visit_struct_new_desc(&mut self, struct_type_index: u32) -> Self::Output {
        self.lend().visit_struct_new_desc(struct_type_index)
    }

    fn visit_struct_new_default_desc(&mut self, struct_type_index: u32) -> Self::Output {
        self.lend().visit_struct_new_default_desc(struct_type_index)
    }

    fn visit_ref_get_desc(&mut self, type_index: u32) -> Self::Output {
        self.lend().visit_ref_get_desc(type_index)
    }

    fn visit_ref_cast_desc_eq_non_null(&mut self, hty: HeapType) -> Self::Output {
        self.lend().visit_ref_cast_desc_eq_non_null(hty)
    }

    fn visit_ref_cast_desc_eq_nullable(&mut self, hty: HeapType) -> Self::Output {
        self.lend().visit_ref_cast_desc_eq_nullable(hty)
    }

    fn visit_br_on_cast_desc_eq(
        &mut self,
        relative_depth: u32,
        from_ref_type: RefType,
        to_ref_type: RefType,
    ) -> Self::Output {
        self.lend()
            .visit_br_on_cast_desc_eq(relative_depth, from_ref_type, to_ref_type)
    }

    fn visit_br_on_cast_desc_eq_fail(
        &mut self,
        relative_depth: u32,
        from_ref_type: RefType,
        to_ref_type: RefType,
    ) -> Self::Output {
        self.lend()
            .visit_br_on_cast_desc_eq_fail(relative_depth, from_ref_type, to_ref_type)
    }
}
