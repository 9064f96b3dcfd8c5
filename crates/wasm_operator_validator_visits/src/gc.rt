//! Visits of operators on structs, arrays, references and descriptors.

use crate::{AnswerAs, ValidatingVisitor};
use wasm_operator_validator_control::WasmModuleResources;
use wasm_operator_validator_objects::{
    check_any_convert_extern, check_array_copy, check_array_fill, check_array_get,
    check_array_init_data, check_array_init_elem, check_array_len, check_array_new,
    check_array_new_data, check_array_new_default, check_array_new_elem, check_array_new_fixed,
    check_array_set, check_br_on_cast, check_extern_convert_any, check_i31_get, check_ref_cast,
    check_ref_eq, check_ref_i31, check_ref_test, check_struct_get, check_struct_new,
    check_struct_new_default, check_struct_set,
};
use wasm_operator_validator_proposals::{
    check_br_on_cast_desc_eq, check_ref_cast_desc_eq, check_ref_get_desc,
    check_struct_new_default_desc, check_struct_new_desc,
};
use wasm_operators_visit::{DescriptorOperator, GcOperator};
use wasm_operators_visit_operator::VisitGc;
use wasm_types::{HeapType, RefType};

impl<'a, 'v, 'r, R: WasmModuleResources, A: AnswerAs> VisitGc<'a>
    for ValidatingVisitor<'v, 'r, R, A> {
    fn visit_ref_eq(&mut self) -> A::Output {
        let checked = check_ref_eq(self.inner, self.resources);
        self.tell(checked)
    }

    fn visit_struct_new(&mut self, struct_type_index: u32) -> A::Output {
        let checked = check_struct_new(self.inner, self.resources, struct_type_index);
        self.tell(checked)
    }

    fn visit_struct_new_default(&mut self, struct_type_index: u32) -> A::Output {
        let checked = check_struct_new_default(self.inner, self.resources, struct_type_index);
        self.tell(checked)
    }

    fn visit_struct_get(&mut self, struct_type_index: u32, field_index: u32) -> A::Output {
        let checked = check_struct_get(
            self.inner,
            self.resources,
            GcOperator::StructGet {
                struct_type_index,
                field_index,
            },
            struct_type_index,
            field_index,
            false,
        );
        self.tell(checked)
    }

    fn visit_struct_get_s(&mut self, struct_type_index: u32, field_index: u32) -> A::Output {
        let checked = check_struct_get(
            self.inner,
            self.resources,
            GcOperator::StructGetS {
                struct_type_index,
                field_index,
            },
            struct_type_index,
            field_index,
            true,
        );
        self.tell(checked)
    }

    fn visit_struct_get_u(&mut self, struct_type_index: u32, field_index: u32) -> A::Output {
        let checked = check_struct_get(
            self.inner,
            self.resources,
            GcOperator::StructGetU {
                struct_type_index,
                field_index,
            },
            struct_type_index,
            field_index,
            true,
        );
        self.tell(checked)
    }

    fn visit_struct_set(&mut self, struct_type_index: u32, field_index: u32) -> A::Output {
        let checked = check_struct_set(self.inner, self.resources, struct_type_index, field_index);
        self.tell(checked)
    }

    fn visit_array_new(&mut self, array_type_index: u32) -> A::Output {
        let checked = check_array_new(self.inner, self.resources, array_type_index);
        self.tell(checked)
    }

    fn visit_array_new_default(&mut self, array_type_index: u32) -> A::Output {
        let checked = check_array_new_default(self.inner, self.resources, array_type_index);
        self.tell(checked)
    }

    fn visit_array_new_fixed(&mut self, array_type_index: u32, array_size: u32) -> A::Output {
        let checked = check_array_new_fixed(
            self.inner,
            self.resources,
            array_type_index,
            array_size,
        );
        self.tell(checked)
    }

    fn visit_array_new_data(&mut self, array_type_index: u32, array_data_index: u32) -> A::Output {
        let checked = check_array_new_data(
            self.inner,
            self.resources,
            array_type_index,
            array_data_index,
        );
        self.tell(checked)
    }

    fn visit_array_new_elem(&mut self, array_type_index: u32, array_elem_index: u32) -> A::Output {
        let checked = check_array_new_elem(
            self.inner,
            self.resources,
            array_type_index,
            array_elem_index,
        );
        self.tell(checked)
    }

    fn visit_array_get(&mut self, array_type_index: u32) -> A::Output {
        let checked = check_array_get(
            self.inner,
            self.resources,
            GcOperator::ArrayGet { array_type_index },
            array_type_index,
            false,
        );
        self.tell(checked)
    }

    fn visit_array_get_s(&mut self, array_type_index: u32) -> A::Output {
        let checked = check_array_get(
            self.inner,
            self.resources,
            GcOperator::ArrayGetS { array_type_index },
            array_type_index,
            true,
        );
        self.tell(checked)
    }

    fn visit_array_get_u(&mut self, array_type_index: u32) -> A::Output {
        let checked = check_array_get(
            self.inner,
            self.resources,
            GcOperator::ArrayGetU { array_type_index },
            array_type_index,
            true,
        );
        self.tell(checked)
    }

    fn visit_array_set(&mut self, array_type_index: u32) -> A::Output {
        let checked = check_array_set(self.inner, self.resources, array_type_index);
        self.tell(checked)
    }

    fn visit_array_len(&mut self) -> A::Output {
        let checked = check_array_len(self.inner, self.resources);
        self.tell(checked)
    }

    fn visit_array_fill(&mut self, array_type_index: u32) -> A::Output {
        let checked = check_array_fill(self.inner, self.resources, array_type_index);
        self.tell(checked)
    }

    fn visit_array_copy(
        &mut self,
        array_type_index_dst: u32,
        array_type_index_src: u32,
    ) -> A::Output {
        let checked = check_array_copy(
            self.inner,
            self.resources,
            array_type_index_dst,
            array_type_index_src,
        );
        self.tell(checked)
    }

    fn visit_array_init_data(&mut self, array_type_index: u32, array_data_index: u32) -> A::Output {
        let checked = check_array_init_data(
            self.inner,
            self.resources,
            array_type_index,
            array_data_index,
        );
        self.tell(checked)
    }

    fn visit_array_init_elem(&mut self, array_type_index: u32, array_elem_index: u32) -> A::Output {
        let checked = check_array_init_elem(
            self.inner,
            self.resources,
            array_type_index,
            array_elem_index,
        );
        self.tell(checked)
    }

    fn visit_ref_test_non_null(&mut self, hty: HeapType) -> A::Output {
        let checked = check_ref_test(
            self.inner,
            self.resources,
            GcOperator::RefTestNonNull { hty },
            &hty,
        );
        self.tell(checked)
    }

    fn visit_ref_test_nullable(&mut self, hty: HeapType) -> A::Output {
        let checked = check_ref_test(
            self.inner,
            self.resources,
            GcOperator::RefTestNullable { hty },
            &hty,
        );
        self.tell(checked)
    }

    fn visit_ref_cast_non_null(&mut self, hty: HeapType) -> A::Output {
        let checked = check_ref_cast(
            self.inner,
            self.resources,
            GcOperator::RefCastNonNull { hty },
            &hty,
            false,
        );
        self.tell(checked)
    }

    fn visit_ref_cast_nullable(&mut self, hty: HeapType) -> A::Output {
        let checked = check_ref_cast(
            self.inner,
            self.resources,
            GcOperator::RefCastNullable { hty },
            &hty,
            true,
        );
        self.tell(checked)
    }

    fn visit_br_on_cast(
        &mut self,
        relative_depth: u32,
        from_ref_type: RefType,
        to_ref_type: RefType,
    ) -> A::Output {
        let checked = check_br_on_cast(
            self.inner,
            self.resources,
            GcOperator::BrOnCast {
                relative_depth,
                from_ref_type,
                to_ref_type,
            },
            relative_depth,
            &from_ref_type,
            &to_ref_type,
            false,
        );
        self.tell(checked)
    }

    fn visit_br_on_cast_fail(
        &mut self,
        relative_depth: u32,
        from_ref_type: RefType,
        to_ref_type: RefType,
    ) -> A::Output {
        let checked = check_br_on_cast(
            self.inner,
            self.resources,
            GcOperator::BrOnCastFail {
                relative_depth,
                from_ref_type,
                to_ref_type,
            },
            relative_depth,
            &from_ref_type,
            &to_ref_type,
            true,
        );
        self.tell(checked)
    }

    fn visit_any_convert_extern(&mut self) -> A::Output {
        let checked = check_any_convert_extern(self.inner, self.resources);
        self.tell(checked)
    }

    fn visit_extern_convert_any(&mut self) -> A::Output {
        let checked = check_extern_convert_any(self.inner, self.resources);
        self.tell(checked)
    }

    fn visit_ref_i31(&mut self) -> A::Output {
        let checked = check_ref_i31(self.inner, self.resources);
        self.tell(checked)
    }

    fn visit_i31_get_s(&mut self) -> A::Output {
        let checked = check_i31_get(self.inner, self.resources, GcOperator::I31GetS);
        self.tell(checked)
    }

    fn visit_i31_get_u(&mut self) -> A::Output {
        let checked = check_i31_get(self.inner, self.resources, GcOperator::I31GetU);
        self.tell(checked)
    }

    fn visit_struct_new_desc(&mut self, struct_type_index: u32) -> A::Output {
        let checked = check_struct_new_desc(self.inner, self.resources, struct_type_index);
        self.tell(checked)
    }

    fn visit_struct_new_default_desc(&mut self, struct_type_index: u32) -> A::Output {
        let checked = check_struct_new_default_desc(self.inner, self.resources, struct_type_index);
        self.tell(checked)
    }

    fn visit_ref_get_desc(&mut self, type_index: u32) -> A::Output {
        let checked = check_ref_get_desc(self.inner, self.resources, type_index);
        self.tell(checked)
    }

    fn visit_ref_cast_desc_eq_non_null(&mut self, hty: HeapType) -> A::Output {
        let op = DescriptorOperator::RefCastDescEqNonNull { hty };
        let checked = check_ref_cast_desc_eq(self.inner, self.resources, op, &hty, false);
        self.tell(checked)
    }

    fn visit_ref_cast_desc_eq_nullable(&mut self, hty: HeapType) -> A::Output {
        let op = DescriptorOperator::RefCastDescEqNullable { hty };
        let checked = check_ref_cast_desc_eq(self.inner, self.resources, op, &hty, true);
        self.tell(checked)
    }

    fn visit_br_on_cast_desc_eq(
        &mut self,
        relative_depth: u32,
        from_ref_type: RefType,
        to_ref_type: RefType,
    ) -> A::Output {
        let op = DescriptorOperator::BrOnCastDescEq {
            relative_depth,
            from_ref_type,
            to_ref_type,
        };
        let checked = check_br_on_cast_desc_eq(
            self.inner,
            self.resources,
            op,
            relative_depth,
            &from_ref_type,
            &to_ref_type,
            false,
        );
        self.tell(checked)
    }

    fn visit_br_on_cast_desc_eq_fail(
        &mut self,
        relative_depth: u32,
        from_ref_type: RefType,
        to_ref_type: RefType,
    ) -> A::Output {
        let op = DescriptorOperator::BrOnCastDescEqFail {
            relative_depth,
            from_ref_type,
            to_ref_type,
        };
        let checked = check_br_on_cast_desc_eq(
            self.inner,
            self.resources,
            op,
            relative_depth,
            &from_ref_type,
            &to_ref_type,
            true,
        );
        self.tell(checked)
    }
}
