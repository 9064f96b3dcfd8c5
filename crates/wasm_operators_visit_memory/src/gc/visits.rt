//! One visit for each operator.

ghost use Rattle.wasm_operators_enums.specs.Op.{Op};
ghost use Rattle.wasm_operators_enums.specs.declared.gc.GcOperator.{GcOperator};
ghost use Rattle.wasm_operators_enums.specs.declared.gc.DescriptorOperator.{DescriptorOperator};

use wasm_operators_visit::Visitor;
use wasm_types::{HeapType, RefType};

/// A visit for each operator on structs, arrays, `i31` and descriptors, and for casts (WebAssembly 3.0, structure,
/// aggregate instructions and reference instructions).
pub trait VisitGc<'a>: Visitor<'a> {
    /// Visits `ref.eq`.
    fn visit_ref_eq(&mut self) -> Self::Output
        ensures { Self.visits self.old (Op.Gc GcOperator.RefEq) result self.new };

    /// Visits `struct.new`.
    fn visit_struct_new(&mut self, struct_type_index: u32) -> Self::Output
        ensures { Self.visits self.old (Op.Gc (GcOperator.StructNew struct_type_index)) result self.new };

    /// Visits `struct.new_default`.
    fn visit_struct_new_default(&mut self, struct_type_index: u32) -> Self::Output
        ensures { Self.visits self.old (Op.Gc (GcOperator.StructNewDefault struct_type_index)) result self.new };

    /// Visits `struct.get`.
    fn visit_struct_get(&mut self, struct_type_index: u32, field_index: u32) -> Self::Output
        ensures { Self.visits self.old (Op.Gc (GcOperator.StructGet struct_type_index field_index)) result self.new };

    /// Visits `struct.get_s`.
    fn visit_struct_get_s(&mut self, struct_type_index: u32, field_index: u32) -> Self::Output
        ensures { Self.visits self.old (Op.Gc (GcOperator.StructGetS struct_type_index field_index)) result self.new };

    /// Visits `struct.get_u`.
    fn visit_struct_get_u(&mut self, struct_type_index: u32, field_index: u32) -> Self::Output
        ensures { Self.visits self.old (Op.Gc (GcOperator.StructGetU struct_type_index field_index)) result self.new };

    /// Visits `struct.set`.
    fn visit_struct_set(&mut self, struct_type_index: u32, field_index: u32) -> Self::Output
        ensures { Self.visits self.old (Op.Gc (GcOperator.StructSet struct_type_index field_index)) result self.new };

    /// Visits `array.new`.
    fn visit_array_new(&mut self, array_type_index: u32) -> Self::Output
        ensures { Self.visits self.old (Op.Gc (GcOperator.ArrayNew array_type_index)) result self.new };

    /// Visits `array.new_default`.
    fn visit_array_new_default(&mut self, array_type_index: u32) -> Self::Output
        ensures { Self.visits self.old (Op.Gc (GcOperator.ArrayNewDefault array_type_index)) result self.new };

    /// Visits `array.new_fixed`.
    fn visit_array_new_fixed(&mut self, array_type_index: u32, array_size: u32) -> Self::Output
        ensures { Self.visits self.old (Op.Gc (GcOperator.ArrayNewFixed array_type_index array_size)) result self.new };

    /// Visits `array.new_data`.
    fn visit_array_new_data(&mut self, array_type_index: u32, array_data_index: u32) -> Self::Output
        ensures { Self.visits self.old (Op.Gc (GcOperator.ArrayNewData array_type_index array_data_index))
            result self.new };

    /// Visits `array.new_elem`.
    fn visit_array_new_elem(&mut self, array_type_index: u32, array_elem_index: u32) -> Self::Output
        ensures { Self.visits self.old (Op.Gc (GcOperator.ArrayNewElem array_type_index array_elem_index))
            result self.new };

    /// Visits `array.get`.
    fn visit_array_get(&mut self, array_type_index: u32) -> Self::Output
        ensures { Self.visits self.old (Op.Gc (GcOperator.ArrayGet array_type_index)) result self.new };

    /// Visits `array.get_s`.
    fn visit_array_get_s(&mut self, array_type_index: u32) -> Self::Output
        ensures { Self.visits self.old (Op.Gc (GcOperator.ArrayGetS array_type_index)) result self.new };

    /// Visits `array.get_u`.
    fn visit_array_get_u(&mut self, array_type_index: u32) -> Self::Output
        ensures { Self.visits self.old (Op.Gc (GcOperator.ArrayGetU array_type_index)) result self.new };

    /// Visits `array.set`.
    fn visit_array_set(&mut self, array_type_index: u32) -> Self::Output
        ensures { Self.visits self.old (Op.Gc (GcOperator.ArraySet array_type_index)) result self.new };

    /// Visits `array.len`.
    fn visit_array_len(&mut self) -> Self::Output
        ensures { Self.visits self.old (Op.Gc GcOperator.ArrayLen) result self.new };

    /// Visits `array.fill`.
    fn visit_array_fill(&mut self, array_type_index: u32) -> Self::Output
        ensures { Self.visits self.old (Op.Gc (GcOperator.ArrayFill array_type_index)) result self.new };

    /// Visits `array.copy`.
    fn visit_array_copy(
        &mut self,
        array_type_index_dst: u32,
        array_type_index_src: u32,
    ) -> Self::Output
        ensures { Self.visits self.old (Op.Gc (GcOperator.ArrayCopy array_type_index_dst array_type_index_src))
            result self.new };

    /// Visits `array.init_data`.
    fn visit_array_init_data(
        &mut self,
        array_type_index: u32,
        array_data_index: u32,
    ) -> Self::Output
        ensures { Self.visits self.old (Op.Gc (GcOperator.ArrayInitData array_type_index array_data_index))
            result self.new };

    /// Visits `array.init_elem`.
    fn visit_array_init_elem(
        &mut self,
        array_type_index: u32,
        array_elem_index: u32,
    ) -> Self::Output
        ensures { Self.visits self.old (Op.Gc (GcOperator.ArrayInitElem array_type_index array_elem_index))
            result self.new };

    /// Visits `ref.test` to a non-null type.
    fn visit_ref_test_non_null(&mut self, hty: HeapType) -> Self::Output
        ensures { Self.visits self.old (Op.Gc (GcOperator.RefTestNonNull hty)) result self.new };

    /// Visits `ref.test` to a nullable type.
    fn visit_ref_test_nullable(&mut self, hty: HeapType) -> Self::Output
        ensures { Self.visits self.old (Op.Gc (GcOperator.RefTestNullable hty)) result self.new };

    /// Visits `ref.cast` to a non-null type.
    fn visit_ref_cast_non_null(&mut self, hty: HeapType) -> Self::Output
        ensures { Self.visits self.old (Op.Gc (GcOperator.RefCastNonNull hty)) result self.new };

    /// Visits `ref.cast` to a nullable type.
    fn visit_ref_cast_nullable(&mut self, hty: HeapType) -> Self::Output
        ensures { Self.visits self.old (Op.Gc (GcOperator.RefCastNullable hty)) result self.new };

    /// Visits `br_on_cast`.
    fn visit_br_on_cast(
        &mut self,
        relative_depth: u32,
        from_ref_type: RefType,
        to_ref_type: RefType,
    ) -> Self::Output
        ensures { Self.visits self.old (Op.Gc (GcOperator.BrOnCast relative_depth from_ref_type to_ref_type))
            result self.new };

    /// Visits `br_on_cast_fail`.
    fn visit_br_on_cast_fail(
        &mut self,
        relative_depth: u32,
        from_ref_type: RefType,
        to_ref_type: RefType,
    ) -> Self::Output
        ensures { Self.visits self.old (Op.Gc (GcOperator.BrOnCastFail relative_depth from_ref_type to_ref_type))
            result self.new };

    /// Visits `any.convert_extern`.
    fn visit_any_convert_extern(&mut self) -> Self::Output
        ensures { Self.visits self.old (Op.Gc GcOperator.AnyConvertExtern) result self.new };

    /// Visits `extern.convert_any`.
    fn visit_extern_convert_any(&mut self) -> Self::Output
        ensures { Self.visits self.old (Op.Gc GcOperator.ExternConvertAny) result self.new };

    /// Visits `ref.i31`.
    fn visit_ref_i31(&mut self) -> Self::Output
        ensures { Self.visits self.old (Op.Gc GcOperator.RefI31) result self.new };

    /// Visits `i31.get_s`.
    fn visit_i31_get_s(&mut self) -> Self::Output
        ensures { Self.visits self.old (Op.Gc GcOperator.I31GetS) result self.new };

    /// Visits `i31.get_u`.
    fn visit_i31_get_u(&mut self) -> Self::Output
        ensures { Self.visits self.old (Op.Gc GcOperator.I31GetU) result self.new };

    /// Visits `struct.new_desc`.
    fn visit_struct_new_desc(&mut self, struct_type_index: u32) -> Self::Output
        ensures { Self.visits self.old (Op.Descriptor (DescriptorOperator.StructNewDesc struct_type_index))
            result self.new };

    /// Visits `struct.new_default_desc`.
    fn visit_struct_new_default_desc(&mut self, struct_type_index: u32) -> Self::Output
        ensures { Self.visits self.old (Op.Descriptor (DescriptorOperator.StructNewDefaultDesc struct_type_index))
            result self.new };

    /// Visits `ref.get_desc`.
    fn visit_ref_get_desc(&mut self, type_index: u32) -> Self::Output
        ensures { Self.visits self.old (Op.Descriptor (DescriptorOperator.RefGetDesc type_index)) result self.new };

    /// Visits `ref.cast_desc_eq` to a non-null type.
    fn visit_ref_cast_desc_eq_non_null(&mut self, hty: HeapType) -> Self::Output
        ensures { Self.visits self.old (Op.Descriptor (DescriptorOperator.RefCastDescEqNonNull hty)) result self.new };

    /// Visits `ref.cast_desc_eq` to a nullable type.
    fn visit_ref_cast_desc_eq_nullable(&mut self, hty: HeapType) -> Self::Output
        ensures { Self.visits self.old (Op.Descriptor (DescriptorOperator.RefCastDescEqNullable hty)) result self.new };

    /// Visits `br_on_cast_desc_eq`.
    fn visit_br_on_cast_desc_eq(
        &mut self,
        relative_depth: u32,
        from_ref_type: RefType,
        to_ref_type: RefType,
    ) -> Self::Output
        ensures { Self.visits self.old (Op.Descriptor (DescriptorOperator.BrOnCastDescEq relative_depth from_ref_type
            to_ref_type)) result self.new };

    /// Visits `br_on_cast_desc_eq_fail`.
    fn visit_br_on_cast_desc_eq_fail(
        &mut self,
        relative_depth: u32,
        from_ref_type: RefType,
        to_ref_type: RefType,
    ) -> Self::Output
        ensures { Self.visits self.old (Op.Descriptor (DescriptorOperator.BrOnCastDescEqFail relative_depth
            from_ref_type to_ref_type)) result self.new };
}
