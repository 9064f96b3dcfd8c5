//! Atomic accesses to globals, tables, structs and arrays that are shared, from their bytes.

ghost use Rattle.std.specs.Prelude.{◌≡◌, ◌≤◌, IfOk, option_map, Some, None, [], ◌∷◌};
ghost use Rattle.wasm_types.specs.reader.Reading.{Gives, NeedsNoMemory};
ghost use Rattle.wasm_operators_immediates.specs.Info.{Info};
ghost use Rattle.wasm_operators_immediates.specs.Kinds.{Fields, Globals, Tables, Types};
ghost use Rattle.wasm_operators_immediates.specs.Immediates.{Index, MemoryOrdering};
ghost use Rattle.wasm_operators_enums.specs.threads.Immediates.{shared_immediates};
ghost use Rattle.wasm_operators_enums.specs.threads.Table.{shared_info};
ghost use Rattle.wasm_operators_encoding.specs.Groups.{shared_kinds};
ghost use Rattle.wasm_operators_encoding.specs.Sequences.{immediates};
ghost use Rattle.wasm_operators_decode.specs.declared.shared.SharedShape.TheVariants as SharedShape;
ghost use Rattle.wasm_operators_decode.specs.Shared.{shared_shape_kinds};

use wasm_operators_encoding::immediates::{Ordering, read_ordering};
use wasm_operators_enums::SharedOperator;
use wasm_types::{BinaryReader, Result};

/// What stands behind an opcode of the group.
#[derive(Clone, Copy, Debug, PartialEq, Eq)]
pub enum SharedShape {
    /// An ordering and the index of a global.
    OrderingGlobal,
    /// An ordering and the index of a table.
    OrderingTable,
    /// An ordering, and the indices of a type and a field.
    OrderingTypeField,
    /// An ordering and the index of a type.
    OrderingType,
    /// Nothing.
    Nothing,
}

/// The shape of what stands behind `fe` and this code, if the code is one of the group's.
pub fn shared_shape(code: u32) -> Option<SharedShape>
    ensures { shared_kinds code ≡ option_map shared_shape_kinds result }
{
    Some(match code {
        0x4f | 0x50 | 0x51 | 0x52 | 0x53 | 0x54 | 0x55 | 0x56 | 0x57 => SharedShape::OrderingGlobal,
        0x58 | 0x59 | 0x5a | 0x5b => SharedShape::OrderingTable,
        0x5c | 0x5d | 0x5e | 0x5f | 0x60 | 0x61 | 0x62 | 0x63 | 0x64 | 0x65 | 0x66 =>
            SharedShape::OrderingTypeField,
        0x67 | 0x68 | 0x69 | 0x6a | 0x6b | 0x6c | 0x6d | 0x6e | 0x6f | 0x70 | 0x71 =>
            SharedShape::OrderingType,
        0x72 => SharedShape::Nothing,
        _ => return None,
    })
}

// The operator with this code, which carries this.
fn of_ordering_global(code: u32, ordering: Ordering, global_index: u32) -> SharedOperator
    requires { shared_kinds code ≡ Some (shared_shape_kinds SharedShape.OrderingGlobal) }
    ensures immediates { shared_immediates result ≡ MemoryOrdering ordering ∷ Index Globals global_index ∷ [] }
    ensures code { (shared_info result).code ≡ code }
    ensures prefix { (shared_info result).prefix ≡ Some 0xfe }
{
    match code {
        0x4f => SharedOperator::GlobalAtomicGet {
            ordering,
            global_index,
        },
        0x50 => SharedOperator::GlobalAtomicSet {
            ordering,
            global_index,
        },
        0x51..=0x53 => of_global_add_sub_and(code, ordering, global_index),
        0x54..=0x57 => of_global_or_xor_exchange(code, ordering, global_index),
        _ => unreachable!(),
    }
}

// The operator with this code, which carries this.
fn of_global_add_sub_and(code: u32, ordering: Ordering, global_index: u32) -> SharedOperator
    requires kinds { shared_kinds code ≡ Some (shared_shape_kinds SharedShape.OrderingGlobal) }
    requires from { 0x51 ≤ code }
    requires to { code ≤ 0x53 }
    ensures immediates { shared_immediates result ≡ MemoryOrdering ordering ∷ Index Globals global_index ∷ [] }
    ensures code { (shared_info result).code ≡ code }
    ensures prefix { (shared_info result).prefix ≡ Some 0xfe }
{
    match code {
        0x51 => SharedOperator::GlobalAtomicRmwAdd {
            ordering,
            global_index,
        },
        0x52 => SharedOperator::GlobalAtomicRmwSub {
            ordering,
            global_index,
        },
        0x53 => SharedOperator::GlobalAtomicRmwAnd {
            ordering,
            global_index,
        },
        _ => unreachable!(),
    }
}

// The operator with this code, which carries this.
fn of_global_or_xor_exchange(code: u32, ordering: Ordering, global_index: u32) -> SharedOperator
    requires kinds { shared_kinds code ≡ Some (shared_shape_kinds SharedShape.OrderingGlobal) }
    requires from { 0x54 ≤ code }
    requires to { code ≤ 0x57 }
    ensures immediates { shared_immediates result ≡ MemoryOrdering ordering ∷ Index Globals global_index ∷ [] }
    ensures code { (shared_info result).code ≡ code }
    ensures prefix { (shared_info result).prefix ≡ Some 0xfe }
{
    match code {
        0x54 => SharedOperator::GlobalAtomicRmwOr {
            ordering,
            global_index,
        },
        0x55 => SharedOperator::GlobalAtomicRmwXor {
            ordering,
            global_index,
        },
        0x56 => SharedOperator::GlobalAtomicRmwXchg {
            ordering,
            global_index,
        },
        0x57 => SharedOperator::GlobalAtomicRmwCmpxchg {
            ordering,
            global_index,
        },
        _ => unreachable!(),
    }
}

// The operator with this code, which carries this.
fn of_ordering_table(code: u32, ordering: Ordering, table_index: u32) -> SharedOperator
    requires { shared_kinds code ≡ Some (shared_shape_kinds SharedShape.OrderingTable) }
    ensures immediates { shared_immediates result ≡ MemoryOrdering ordering ∷ Index Tables table_index ∷ [] }
    ensures code { (shared_info result).code ≡ code }
    ensures prefix { (shared_info result).prefix ≡ Some 0xfe }
{
    match code {
        0x58 => SharedOperator::TableAtomicGet {
            ordering,
            table_index,
        },
        0x59 => SharedOperator::TableAtomicSet {
            ordering,
            table_index,
        },
        0x5a => SharedOperator::TableAtomicRmwXchg {
            ordering,
            table_index,
        },
        0x5b => SharedOperator::TableAtomicRmwCmpxchg {
            ordering,
            table_index,
        },
        _ => unreachable!(),
    }
}

// The operator with this code, which carries this.
fn of_ordering_type_field(
    code: u32,
    ordering: Ordering,
    struct_type_index: u32,
    field_index: u32,
) -> SharedOperator
    requires { shared_kinds code ≡ Some (shared_shape_kinds SharedShape.OrderingTypeField) }
    ensures immediates { shared_immediates result ≡ MemoryOrdering ordering ∷ Index Types struct_type_index ∷ Index
        Fields field_index ∷ [] }
    ensures code { (shared_info result).code ≡ code }
    ensures prefix { (shared_info result).prefix ≡ Some 0xfe }
{
    match code {
        0x5c => SharedOperator::StructAtomicGet {
            ordering,
            struct_type_index,
            field_index,
        },
        0x5d => SharedOperator::StructAtomicGetS {
            ordering,
            struct_type_index,
            field_index,
        },
        0x5e => SharedOperator::StructAtomicGetU {
            ordering,
            struct_type_index,
            field_index,
        },
        0x5f => SharedOperator::StructAtomicSet {
            ordering,
            struct_type_index,
            field_index,
        },
        0x60..=0x62 => of_field_add_sub_and(code, ordering, struct_type_index, field_index),
        0x63..=0x66 => of_field_or_xor_exchange(code, ordering, struct_type_index, field_index),
        _ => unreachable!(),
    }
}

// The operator with this code, which carries this.
fn of_field_add_sub_and(
    code: u32,
    ordering: Ordering,
    struct_type_index: u32,
    field_index: u32,
) -> SharedOperator
    requires kinds { shared_kinds code ≡ Some (shared_shape_kinds SharedShape.OrderingTypeField) }
    requires from { 0x60 ≤ code }
    requires to { code ≤ 0x62 }
    ensures immediates { shared_immediates result ≡ MemoryOrdering ordering ∷ Index Types struct_type_index ∷ Index
        Fields field_index ∷ [] }
    ensures code { (shared_info result).code ≡ code }
    ensures prefix { (shared_info result).prefix ≡ Some 0xfe }
{
    match code {
        0x60 => SharedOperator::StructAtomicRmwAdd {
            ordering,
            struct_type_index,
            field_index,
        },
        0x61 => SharedOperator::StructAtomicRmwSub {
            ordering,
            struct_type_index,
            field_index,
        },
        0x62 => SharedOperator::StructAtomicRmwAnd {
            ordering,
            struct_type_index,
            field_index,
        },
        _ => unreachable!(),
    }
}

// The operator with this code, which carries this.
fn of_field_or_xor_exchange(
    code: u32,
    ordering: Ordering,
    struct_type_index: u32,
    field_index: u32,
) -> SharedOperator
    requires kinds { shared_kinds code ≡ Some (shared_shape_kinds SharedShape.OrderingTypeField) }
    requires from { 0x63 ≤ code }
    requires to { code ≤ 0x66 }
    ensures immediates { shared_immediates result ≡ MemoryOrdering ordering ∷ Index Types struct_type_index ∷ Index
        Fields field_index ∷ [] }
    ensures code { (shared_info result).code ≡ code }
    ensures prefix { (shared_info result).prefix ≡ Some 0xfe }
{
    match code {
        0x63 => SharedOperator::StructAtomicRmwOr {
            ordering,
            struct_type_index,
            field_index,
        },
        0x64 => SharedOperator::StructAtomicRmwXor {
            ordering,
            struct_type_index,
            field_index,
        },
        0x65 => SharedOperator::StructAtomicRmwXchg {
            ordering,
            struct_type_index,
            field_index,
        },
        0x66 => SharedOperator::StructAtomicRmwCmpxchg {
            ordering,
            struct_type_index,
            field_index,
        },
        _ => unreachable!(),
    }
}

// The operator with this code, which carries this.
fn of_ordering_type(code: u32, ordering: Ordering, array_type_index: u32) -> SharedOperator
    requires { shared_kinds code ≡ Some (shared_shape_kinds SharedShape.OrderingType) }
    ensures immediates { shared_immediates result ≡ MemoryOrdering ordering ∷ Index Types array_type_index ∷ [] }
    ensures code { (shared_info result).code ≡ code }
    ensures prefix { (shared_info result).prefix ≡ Some 0xfe }
{
    match code {
        0x67 => SharedOperator::ArrayAtomicGet {
            ordering,
            array_type_index,
        },
        0x68 => SharedOperator::ArrayAtomicGetS {
            ordering,
            array_type_index,
        },
        0x69 => SharedOperator::ArrayAtomicGetU {
            ordering,
            array_type_index,
        },
        0x6a => SharedOperator::ArrayAtomicSet {
            ordering,
            array_type_index,
        },
        0x6b..=0x6d => of_item_add_sub_and(code, ordering, array_type_index),
        0x6e..=0x71 => of_item_or_xor_exchange(code, ordering, array_type_index),
        _ => unreachable!(),
    }
}

// The operator with this code, which carries this.
fn of_item_add_sub_and(code: u32, ordering: Ordering, array_type_index: u32) -> SharedOperator
    requires kinds { shared_kinds code ≡ Some (shared_shape_kinds SharedShape.OrderingType) }
    requires from { 0x6b ≤ code }
    requires to { code ≤ 0x6d }
    ensures immediates { shared_immediates result ≡ MemoryOrdering ordering ∷ Index Types array_type_index ∷ [] }
    ensures code { (shared_info result).code ≡ code }
    ensures prefix { (shared_info result).prefix ≡ Some 0xfe }
{
    match code {
        0x6b => SharedOperator::ArrayAtomicRmwAdd {
            ordering,
            array_type_index,
        },
        0x6c => SharedOperator::ArrayAtomicRmwSub {
            ordering,
            array_type_index,
        },
        0x6d => SharedOperator::ArrayAtomicRmwAnd {
            ordering,
            array_type_index,
        },
        _ => unreachable!(),
    }
}

// The operator with this code, which carries this.
fn of_item_or_xor_exchange(code: u32, ordering: Ordering, array_type_index: u32) -> SharedOperator
    requires kinds { shared_kinds code ≡ Some (shared_shape_kinds SharedShape.OrderingType) }
    requires from { 0x6e ≤ code }
    requires to { code ≤ 0x71 }
    ensures immediates { shared_immediates result ≡ MemoryOrdering ordering ∷ Index Types array_type_index ∷ [] }
    ensures code { (shared_info result).code ≡ code }
    ensures prefix { (shared_info result).prefix ≡ Some 0xfe }
{
    match code {
        0x6e => SharedOperator::ArrayAtomicRmwOr {
            ordering,
            array_type_index,
        },
        0x6f => SharedOperator::ArrayAtomicRmwXor {
            ordering,
            array_type_index,
        },
        0x70 => SharedOperator::ArrayAtomicRmwXchg {
            ordering,
            array_type_index,
        },
        0x71 => SharedOperator::ArrayAtomicRmwCmpxchg {
            ordering,
            array_type_index,
        },
        _ => unreachable!(),
    }
}

// The operator with this code.
fn of_nothing(code: u32) -> SharedOperator
    requires { shared_kinds code ≡ Some (shared_shape_kinds SharedShape.Nothing) }
    ensures immediates { shared_immediates result ≡ [] }
    ensures code { (shared_info result).code ≡ code }
    ensures prefix { (shared_info result).prefix ≡ Some 0xfe }
{
    match code {
        0x72 => SharedOperator::RefI31Shared,
        _ => unreachable!(),
    }
}

/// Reads what stands behind this code, of this shape, and answers the operator.
///
/// # Errors
///
/// Where the bytes spell no such immediates. The reader may then stand behind some of them.
#[tactic(auto, unfolding(wasm_operators_encoding::specs::immediates::Immediates::immediate))]
pub fn read_shared<'a>(
    code: u32,
    shape: SharedShape,
    reader: &mut BinaryReader<'a>,
) -> Result<SharedOperator>
    requires { shared_kinds code ≡ Some (shared_shape_kinds shape) }
    ensures answer { Gives shared_immediates result reader.new
        (immediates reader.old.settings (shared_shape_kinds shape) reader.old) }
    ensures code { IfOk result (λ o. (shared_info o).code ≡ code) }
    ensures prefix { IfOk result (λ o. (shared_info o).prefix ≡ Some 0xfe) }
    ensures no_memory { NeedsNoMemory result }
{
    match shape {
        SharedShape::OrderingGlobal => {
            let ordering = read_ordering(reader)?;
            let global_index = reader.read_var_u32()?;
            Ok(of_ordering_global(code, ordering, global_index))
        }
        SharedShape::OrderingTable => {
            let ordering = read_ordering(reader)?;
            let table_index = reader.read_var_u32()?;
            Ok(of_ordering_table(code, ordering, table_index))
        }
        SharedShape::OrderingTypeField => {
            let ordering = read_ordering(reader)?;
            let struct_type_index = reader.read_var_u32()?;
            let field_index = reader.read_var_u32()?;
            Ok(of_ordering_type_field(code, ordering, struct_type_index, field_index))
        }
        SharedShape::OrderingType => {
            let ordering = read_ordering(reader)?;
            let array_type_index = reader.read_var_u32()?;
            Ok(of_ordering_type(code, ordering, array_type_index))
        }
        SharedShape::Nothing => Ok(of_nothing(code)),
    }
}
