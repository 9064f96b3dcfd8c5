//! Aggregates, casts and descriptors.

ghost use Rattle.std.specs.Prelude.{◌≡◌, Some};
ghost use Rattle.wasm_operators_immediates.specs.Info.{told, row};
ghost use Rattle.wasm_operators_immediates.specs.declared.proposal.Proposal.TheVariants as Proposal;

use wasm_operators_immediates::{HeapType, OperatorInfo, Proposal, RefType};

// A row of the proposal, behind `fb`.
fn gc(name: &'static str, code: u32) -> OperatorInfo
    ensures { told result ≡ row Proposal.Gc name.now (Some 0xfb) code }
{
    OperatorInfo::prefixed(Proposal::Gc, name, 0xfb, code)
}

// A row of the proposal, behind `fb`.
fn custom_descriptors(name: &'static str, code: u32) -> OperatorInfo
    ensures { told result ≡ row Proposal.CustomDescriptors name.now (Some 0xfb) code }
{
    OperatorInfo::prefixed(Proposal::CustomDescriptors, name, 0xfb, code)
}

/// Structs, arrays, casts and `i31` (WebAssembly 3.0, structure, aggregate instructions and reference instructions).
#[derive(Clone, Copy, PartialEq, Eq)]
pub enum GcOperator {
    /// `ref.eq`, opcode `d3`.
    RefEq,
    /// `struct.new`, opcode `fb 00`.
    StructNew {
        struct_type_index: u32,
    },
    /// `struct.new_default`, opcode `fb 01`.
    StructNewDefault {
        struct_type_index: u32,
    },
    /// `struct.get`, opcode `fb 02`.
    StructGet {
        struct_type_index: u32,
        field_index: u32,
    },
    /// `struct.get_s`, opcode `fb 03`.
    StructGetS {
        struct_type_index: u32,
        field_index: u32,
    },
    /// `struct.get_u`, opcode `fb 04`.
    StructGetU {
        struct_type_index: u32,
        field_index: u32,
    },
    /// `struct.set`, opcode `fb 05`.
    StructSet {
        struct_type_index: u32,
        field_index: u32,
    },
    /// `array.new`, opcode `fb 06`.
    ArrayNew {
        array_type_index: u32,
    },
    /// `array.new_default`, opcode `fb 07`.
    ArrayNewDefault {
        array_type_index: u32,
    },
    /// `array.new_fixed`, opcode `fb 08`.
    ArrayNewFixed {
        array_type_index: u32,
        array_size: u32,
    },
    /// `array.new_data`, opcode `fb 09`.
    ArrayNewData {
        array_type_index: u32,
        array_data_index: u32,
    },
    /// `array.new_elem`, opcode `fb 0a`.
    ArrayNewElem {
        array_type_index: u32,
        array_elem_index: u32,
    },
    /// `array.get`, opcode `fb 0b`.
    ArrayGet {
        array_type_index: u32,
    },
    /// `array.get_s`, opcode `fb 0c`.
    ArrayGetS {
        array_type_index: u32,
    },
    /// `array.get_u`, opcode `fb 0d`.
    ArrayGetU {
        array_type_index: u32,
    },
    /// `array.set`, opcode `fb 0e`.
    ArraySet {
        array_type_index: u32,
    },
    /// `array.len`, opcode `fb 0f`.
    ArrayLen,
    /// `array.fill`, opcode `fb 10`.
    ArrayFill {
        array_type_index: u32,
    },
    /// `array.copy`, opcode `fb 11`.
    ArrayCopy {
        array_type_index_dst: u32,
        array_type_index_src: u32,
    },
    /// `array.init_data`, opcode `fb 12`.
    ArrayInitData {
        array_type_index: u32,
        array_data_index: u32,
    },
    /// `array.init_elem`, opcode `fb 13`.
    ArrayInitElem {
        array_type_index: u32,
        array_elem_index: u32,
    },
    /// `ref.test` to a non-null type, opcode `fb 14`.
    RefTestNonNull {
        hty: HeapType,
    },
    /// `ref.test` to a nullable type, opcode `fb 15`.
    RefTestNullable {
        hty: HeapType,
    },
    /// `ref.cast` to a non-null type, opcode `fb 16`.
    RefCastNonNull {
        hty: HeapType,
    },
    /// `ref.cast` to a nullable type, opcode `fb 17`.
    RefCastNullable {
        hty: HeapType,
    },
    /// `br_on_cast`, opcode `fb 18`.
    BrOnCast {
        relative_depth: u32,
        from_ref_type: RefType,
        to_ref_type: RefType,
    },
    /// `br_on_cast_fail`, opcode `fb 19`.
    BrOnCastFail {
        relative_depth: u32,
        from_ref_type: RefType,
        to_ref_type: RefType,
    },
    /// `any.convert_extern`, opcode `fb 1a`.
    AnyConvertExtern,
    /// `extern.convert_any`, opcode `fb 1b`.
    ExternConvertAny,
    /// `ref.i31`, opcode `fb 1c`.
    RefI31,
    /// `i31.get_s`, opcode `fb 1d`.
    I31GetS,
    /// `i31.get_u`, opcode `fb 1e`.
    I31GetU,
}

impl GcOperator {
    ghost use Rattle.wasm_operators_enums.specs.gc.Table.{gc_info};

    /// What is told of it: its proposal, name, prefix and code.
    pub fn info(&self) -> OperatorInfo
        ensures { told result ≡ gc_info self.now }
    {
        match self {
            Self::RefEq => OperatorInfo::plain(Proposal::Gc, "ref.eq", 0xd3),
            Self::StructNew { .. } => gc("struct.new", 0x00),
            Self::StructNewDefault { .. } => gc("struct.new_default", 0x01),
            Self::StructGet { .. } => gc("struct.get", 0x02),
            Self::StructGetS { .. } => gc("struct.get_s", 0x03),
            Self::StructGetU { .. } => gc("struct.get_u", 0x04),
            Self::StructSet { .. } => gc("struct.set", 0x05),
            Self::ArrayNew { .. } => gc("array.new", 0x06),
            Self::ArrayNewDefault { .. } => gc("array.new_default", 0x07),
            Self::ArrayNewFixed { .. } => gc("array.new_fixed", 0x08),
            Self::ArrayNewData { .. } => gc("array.new_data", 0x09),
            Self::ArrayNewElem { .. } => gc("array.new_elem", 0x0a),
            Self::ArrayGet { .. } => gc("array.get", 0x0b),
            Self::ArrayGetS { .. } => gc("array.get_s", 0x0c),
            Self::ArrayGetU { .. } => gc("array.get_u", 0x0d),
            Self::ArraySet { .. } => gc("array.set", 0x0e),
            Self::ArrayLen => gc("array.len", 0x0f),
            Self::ArrayFill { .. } => gc("array.fill", 0x10),
            Self::ArrayCopy { .. } => gc("array.copy", 0x11),
            Self::ArrayInitData { .. } => gc("array.init_data", 0x12),
            Self::ArrayInitElem { .. } => gc("array.init_elem", 0x13),
            Self::RefTestNonNull { .. } => gc("ref.test", 0x14),
            Self::RefTestNullable { .. } => gc("ref.test", 0x15),
            Self::RefCastNonNull { .. } => gc("ref.cast", 0x16),
            Self::RefCastNullable { .. } => gc("ref.cast", 0x17),
            Self::BrOnCast { .. } => gc("br_on_cast", 0x18),
            Self::BrOnCastFail { .. } => gc("br_on_cast_fail", 0x19),
            Self::AnyConvertExtern => gc("any.convert_extern", 0x1a),
            Self::ExternConvertAny => gc("extern.convert_any", 0x1b),
            Self::RefI31 => gc("ref.i31", 0x1c),
            Self::I31GetS => gc("i31.get_s", 0x1d),
            Self::I31GetU => gc("i31.get_u", 0x1e),
        }
    }
}

/// Structs with descriptors (the proposal on custom descriptors).
#[derive(Clone, Copy, PartialEq, Eq)]
pub enum DescriptorOperator {
    /// `struct.new_desc`, opcode `fb 20`.
    StructNewDesc {
        struct_type_index: u32,
    },
    /// `struct.new_default_desc`, opcode `fb 21`.
    StructNewDefaultDesc {
        struct_type_index: u32,
    },
    /// `ref.get_desc`, opcode `fb 22`.
    RefGetDesc {
        type_index: u32,
    },
    /// `ref.cast_desc_eq` to a non-null type, opcode `fb 23`.
    RefCastDescEqNonNull {
        hty: HeapType,
    },
    /// `ref.cast_desc_eq` to a nullable type, opcode `fb 24`.
    RefCastDescEqNullable {
        hty: HeapType,
    },
    /// `br_on_cast_desc_eq`, opcode `fb 25`.
    BrOnCastDescEq {
        relative_depth: u32,
        from_ref_type: RefType,
        to_ref_type: RefType,
    },
    /// `br_on_cast_desc_eq_fail`, opcode `fb 26`.
    BrOnCastDescEqFail {
        relative_depth: u32,
        from_ref_type: RefType,
        to_ref_type: RefType,
    },
}

impl DescriptorOperator {
    ghost use Rattle.wasm_operators_enums.specs.gc.Table.{descriptor_info};

    /// What is told of it: its proposal, name, prefix and code.
    pub fn info(&self) -> OperatorInfo
        ensures { told result ≡ descriptor_info self.now }
    {
        match self {
            Self::StructNewDesc { .. } => custom_descriptors("struct.new_desc", 0x20),
            Self::StructNewDefaultDesc { .. } => custom_descriptors(
                "struct.new_default_desc",
                0x21,
            ),
            Self::RefGetDesc { .. } => custom_descriptors("ref.get_desc", 0x22),
            Self::RefCastDescEqNonNull { .. } => custom_descriptors("ref.cast_desc_eq", 0x23),
            Self::RefCastDescEqNullable { .. } => custom_descriptors("ref.cast_desc_eq", 0x24),
            Self::BrOnCastDescEq { .. } => custom_descriptors("br_on_cast_desc_eq", 0x25),
            Self::BrOnCastDescEqFail { .. } => custom_descriptors("br_on_cast_desc_eq_fail", 0x26),
        }
    }
}
