//! What kind of step an operator on vectors is, and what it does to its operands, by its code after the prefix `fd`.

ghost use Rattle.std.specs.Prelude.{◌<◌, ◌∷◌, []};
ghost use Rattle.wasm_types.specs.trees.Types.{v128};
ghost use Rattle.wasm_operator_validator_rules.specs.Accesses.{load as load_of, store as store_of, load_lane as lane_load};
ghost use Rattle.wasm_operator_validator_fast_tables.specs.Tables.{no_code};
ghost use Rattle.wasm_operator_validator_fast_objects.specs.Vectors.{IsVectorClass, IsLanesAt, IsLaneAt, IsReachAt, IsLaneReachAt};

use wasm_operator_validator_fast_tables::NO_CODE;

/// What kind of step an operator on vectors is.
#[derive(Clone, Copy)]
pub enum VectorClass {
    /// None of the others.
    Other,
    /// An operator that makes a vector of one.
    Unary,
    /// An operator that makes a vector of two.
    Binary,
    /// An operator that makes a vector of three.
    Ternary,
    /// An operator that makes a number of a vector.
    Test,
    /// An operator that makes a vector of one and a number.
    Shift,
    /// An operator that makes a vector of a number, which is in each lane.
    Splat,
    /// A constant.
    Const,
    /// Lanes of two vectors in an order that is written.
    Shuffle,
    /// One lane of a vector.
    Extract,
    /// A vector with another number in one lane.
    Replace,
    /// A load.
    Load,
    /// A store.
    Store,
    /// A load of one lane.
    LoadLane,
    /// A store of one lane.
    StoreLane,
}

/// No alignment is doubled so many times.
pub const NO_ALIGNMENT: u8 = 16;

/// The class of the operator on vectors with this code. A match with an arm for each code becomes one jump to the step.
#[inline(always)]
pub fn vector_class_of(code: u32) -> VectorClass
    ensures { IsVectorClass result code }
{
    match code {
        0x00 => VectorClass::Load,
        0x01 => VectorClass::Load,
        0x02 => VectorClass::Load,
        0x03 => VectorClass::Load,
        0x04 => VectorClass::Load,
        0x05 => VectorClass::Load,
        0x06 => VectorClass::Load,
        0x07 => VectorClass::Load,
        0x08 => VectorClass::Load,
        0x09 => VectorClass::Load,
        0x0a => VectorClass::Load,
        0x0b => VectorClass::Store,
        0x0c => VectorClass::Const,
        0x0d => VectorClass::Shuffle,
        0x0e => VectorClass::Binary,
        0x0f => VectorClass::Splat,
        0x10 => VectorClass::Splat,
        0x11 => VectorClass::Splat,
        0x12 => VectorClass::Splat,
        0x13 => VectorClass::Splat,
        0x14 => VectorClass::Splat,
        0x15 => VectorClass::Extract,
        0x16 => VectorClass::Extract,
        0x17 => VectorClass::Replace,
        0x18 => VectorClass::Extract,
        0x19 => VectorClass::Extract,
        0x1a => VectorClass::Replace,
        0x1b => VectorClass::Extract,
        0x1c => VectorClass::Replace,
        0x1d => VectorClass::Extract,
        0x1e => VectorClass::Replace,
        0x1f => VectorClass::Extract,
        0x20 => VectorClass::Replace,
        0x21 => VectorClass::Extract,
        0x22 => VectorClass::Replace,
        0x23 => VectorClass::Binary,
        0x24 => VectorClass::Binary,
        0x25 => VectorClass::Binary,
        0x26 => VectorClass::Binary,
        0x27 => VectorClass::Binary,
        0x28 => VectorClass::Binary,
        0x29 => VectorClass::Binary,
        0x2a => VectorClass::Binary,
        0x2b => VectorClass::Binary,
        0x2c => VectorClass::Binary,
        0x2d => VectorClass::Binary,
        0x2e => VectorClass::Binary,
        0x2f => VectorClass::Binary,
        0x30 => VectorClass::Binary,
        0x31 => VectorClass::Binary,
        0x32 => VectorClass::Binary,
        0x33 => VectorClass::Binary,
        0x34 => VectorClass::Binary,
        0x35 => VectorClass::Binary,
        0x36 => VectorClass::Binary,
        0x37 => VectorClass::Binary,
        0x38 => VectorClass::Binary,
        0x39 => VectorClass::Binary,
        0x3a => VectorClass::Binary,
        0x3b => VectorClass::Binary,
        0x3c => VectorClass::Binary,
        0x3d => VectorClass::Binary,
        0x3e => VectorClass::Binary,
        0x3f => VectorClass::Binary,
        0x40 => VectorClass::Binary,
        0x41 => VectorClass::Binary,
        0x42 => VectorClass::Binary,
        0x43 => VectorClass::Binary,
        0x44 => VectorClass::Binary,
        0x45 => VectorClass::Binary,
        0x46 => VectorClass::Binary,
        0x47 => VectorClass::Binary,
        0x48 => VectorClass::Binary,
        0x49 => VectorClass::Binary,
        0x4a => VectorClass::Binary,
        0x4b => VectorClass::Binary,
        0x4c => VectorClass::Binary,
        0x4d => VectorClass::Unary,
        0x4e => VectorClass::Binary,
        0x4f => VectorClass::Binary,
        0x50 => VectorClass::Binary,
        0x51 => VectorClass::Binary,
        0x52 => VectorClass::Ternary,
        0x53 => VectorClass::Test,
        0x54 => VectorClass::LoadLane,
        0x55 => VectorClass::LoadLane,
        0x56 => VectorClass::LoadLane,
        0x57 => VectorClass::LoadLane,
        0x58 => VectorClass::StoreLane,
        0x59 => VectorClass::StoreLane,
        0x5a => VectorClass::StoreLane,
        0x5b => VectorClass::StoreLane,
        0x5c => VectorClass::Load,
        0x5d => VectorClass::Load,
        0x5e => VectorClass::Unary,
        0x5f => VectorClass::Unary,
        0x60 => VectorClass::Unary,
        0x61 => VectorClass::Unary,
        0x62 => VectorClass::Unary,
        0x63 => VectorClass::Test,
        0x64 => VectorClass::Test,
        0x65 => VectorClass::Binary,
        0x66 => VectorClass::Binary,
        0x67 => VectorClass::Unary,
        0x68 => VectorClass::Unary,
        0x69 => VectorClass::Unary,
        0x6a => VectorClass::Unary,
        0x6b => VectorClass::Shift,
        0x6c => VectorClass::Shift,
        0x6d => VectorClass::Shift,
        0x6e => VectorClass::Binary,
        0x6f => VectorClass::Binary,
        0x70 => VectorClass::Binary,
        0x71 => VectorClass::Binary,
        0x72 => VectorClass::Binary,
        0x73 => VectorClass::Binary,
        0x74 => VectorClass::Unary,
        0x75 => VectorClass::Unary,
        0x76 => VectorClass::Binary,
        0x77 => VectorClass::Binary,
        0x78 => VectorClass::Binary,
        0x79 => VectorClass::Binary,
        0x7a => VectorClass::Unary,
        0x7b => VectorClass::Binary,
        0x7c => VectorClass::Unary,
        0x7d => VectorClass::Unary,
        0x7e => VectorClass::Unary,
        0x7f => VectorClass::Unary,
        0x80 => VectorClass::Unary,
        0x81 => VectorClass::Unary,
        0x82 => VectorClass::Binary,
        0x83 => VectorClass::Test,
        0x84 => VectorClass::Test,
        0x85 => VectorClass::Binary,
        0x86 => VectorClass::Binary,
        0x87 => VectorClass::Unary,
        0x88 => VectorClass::Unary,
        0x89 => VectorClass::Unary,
        0x8a => VectorClass::Unary,
        0x8b => VectorClass::Shift,
        0x8c => VectorClass::Shift,
        0x8d => VectorClass::Shift,
        0x8e => VectorClass::Binary,
        0x8f => VectorClass::Binary,
        0x90 => VectorClass::Binary,
        0x91 => VectorClass::Binary,
        0x92 => VectorClass::Binary,
        0x93 => VectorClass::Binary,
        0x94 => VectorClass::Unary,
        0x95 => VectorClass::Binary,
        0x96 => VectorClass::Binary,
        0x97 => VectorClass::Binary,
        0x98 => VectorClass::Binary,
        0x99 => VectorClass::Binary,
        0x9b => VectorClass::Binary,
        0x9c => VectorClass::Binary,
        0x9d => VectorClass::Binary,
        0x9e => VectorClass::Binary,
        0x9f => VectorClass::Binary,
        0xa0 => VectorClass::Unary,
        0xa1 => VectorClass::Unary,
        0xa3 => VectorClass::Test,
        0xa4 => VectorClass::Test,
        0xa7 => VectorClass::Unary,
        0xa8 => VectorClass::Unary,
        0xa9 => VectorClass::Unary,
        0xaa => VectorClass::Unary,
        0xab => VectorClass::Shift,
        0xac => VectorClass::Shift,
        0xad => VectorClass::Shift,
        0xae => VectorClass::Binary,
        0xb1 => VectorClass::Binary,
        0xb5 => VectorClass::Binary,
        0xb6 => VectorClass::Binary,
        0xb7 => VectorClass::Binary,
        0xb8 => VectorClass::Binary,
        0xb9 => VectorClass::Binary,
        0xba => VectorClass::Binary,
        0xbc => VectorClass::Binary,
        0xbd => VectorClass::Binary,
        0xbe => VectorClass::Binary,
        0xbf => VectorClass::Binary,
        0xc0 => VectorClass::Unary,
        0xc1 => VectorClass::Unary,
        0xc3 => VectorClass::Test,
        0xc4 => VectorClass::Test,
        0xc7 => VectorClass::Unary,
        0xc8 => VectorClass::Unary,
        0xc9 => VectorClass::Unary,
        0xca => VectorClass::Unary,
        0xcb => VectorClass::Shift,
        0xcc => VectorClass::Shift,
        0xcd => VectorClass::Shift,
        0xce => VectorClass::Binary,
        0xd1 => VectorClass::Binary,
        0xd5 => VectorClass::Binary,
        0xd6 => VectorClass::Binary,
        0xd7 => VectorClass::Binary,
        0xd8 => VectorClass::Binary,
        0xd9 => VectorClass::Binary,
        0xda => VectorClass::Binary,
        0xdb => VectorClass::Binary,
        0xdc => VectorClass::Binary,
        0xdd => VectorClass::Binary,
        0xde => VectorClass::Binary,
        0xdf => VectorClass::Binary,
        0xe0 => VectorClass::Unary,
        0xe1 => VectorClass::Unary,
        0xe3 => VectorClass::Unary,
        0xe4 => VectorClass::Binary,
        0xe5 => VectorClass::Binary,
        0xe6 => VectorClass::Binary,
        0xe7 => VectorClass::Binary,
        0xe8 => VectorClass::Binary,
        0xe9 => VectorClass::Binary,
        0xea => VectorClass::Binary,
        0xeb => VectorClass::Binary,
        0xec => VectorClass::Unary,
        0xed => VectorClass::Unary,
        0xef => VectorClass::Unary,
        0xf0 => VectorClass::Binary,
        0xf1 => VectorClass::Binary,
        0xf2 => VectorClass::Binary,
        0xf3 => VectorClass::Binary,
        0xf4 => VectorClass::Binary,
        0xf5 => VectorClass::Binary,
        0xf6 => VectorClass::Binary,
        0xf7 => VectorClass::Binary,
        0xf8 => VectorClass::Unary,
        0xf9 => VectorClass::Unary,
        0xfa => VectorClass::Unary,
        0xfb => VectorClass::Unary,
        0xfc => VectorClass::Unary,
        0xfd => VectorClass::Unary,
        0xfe => VectorClass::Unary,
        0xff => VectorClass::Unary,
        0x100 => VectorClass::Binary,
        0x101 => VectorClass::Unary,
        0x102 => VectorClass::Unary,
        0x103 => VectorClass::Unary,
        0x104 => VectorClass::Unary,
        0x105 => VectorClass::Ternary,
        0x106 => VectorClass::Ternary,
        0x107 => VectorClass::Ternary,
        0x108 => VectorClass::Ternary,
        0x109 => VectorClass::Ternary,
        0x10a => VectorClass::Ternary,
        0x10b => VectorClass::Ternary,
        0x10c => VectorClass::Ternary,
        0x10d => VectorClass::Binary,
        0x10e => VectorClass::Binary,
        0x10f => VectorClass::Binary,
        0x110 => VectorClass::Binary,
        0x111 => VectorClass::Binary,
        0x112 => VectorClass::Binary,
        0x113 => VectorClass::Ternary,
        _ => VectorClass::Other,
    }
}

/// The type of the number that an operator repeats in each lane.
#[inline(always)]
pub fn splat_shape(code: u32) -> u32
    ensures { result < no_code → IsLanesAt code (result ∷ []) (4 ∷ []) }
{
    match code {
        0x0f => 0,
        0x10 => 0,
        0x11 => 0,
        0x12 => 1,
        0x13 => 2,
        0x14 => 3,
        _ => NO_CODE,
    }
}

/// How many lanes there are of which an operator gives one, and the type that it gives.
#[inline(always)]
pub fn extract_shape(code: u32) -> (u8, u32)
    ensures { result.1 < no_code → IsLaneAt code result.0 (4 ∷ []) (result.1 ∷ []) }
{
    match code {
        0x15 => (16, 0),
        0x16 => (16, 0),
        0x18 => (8, 0),
        0x19 => (8, 0),
        0x1b => (4, 0),
        0x1d => (2, 1),
        0x1f => (4, 2),
        0x21 => (2, 3),
        _ => (0, NO_CODE),
    }
}

/// How many lanes there are of which an operator replaces one, and the type that it takes for it.
#[inline(always)]
pub fn replace_shape(code: u32) -> (u8, u32)
    ensures { result.1 < no_code → IsLaneAt code result.0 (4 ∷ result.1 ∷ []) (4 ∷ []) }
{
    match code {
        0x17 => (16, 0),
        0x1a => (8, 0),
        0x1c => (4, 0),
        0x1e => (2, 1),
        0x20 => (4, 2),
        0x22 => (2, 3),
        _ => (0, NO_CODE),
    }
}

/// How many times the natural alignment of a load is doubled.
#[inline(always)]
pub fn vector_load_shape(code: u32) -> u8
    ensures { result < 16 → IsReachAt (load_of v128) code result }
{
    match code {
        0x00 => 4,
        0x01 => 3,
        0x02 => 3,
        0x03 => 3,
        0x04 => 3,
        0x05 => 3,
        0x06 => 3,
        0x07 => 0,
        0x08 => 1,
        0x09 => 2,
        0x0a => 3,
        0x5c => 2,
        0x5d => 3,
        _ => NO_ALIGNMENT,
    }
}

/// The same of a load of one lane, and how many lanes there are.
#[inline(always)]
pub fn lane_load_shape(code: u32) -> (u8, u8)
    ensures { result.0 < 16 → IsLaneReachAt lane_load code result.0 result.1 }
{
    match code {
        0x54 => (0, 16),
        0x55 => (1, 8),
        0x56 => (2, 4),
        0x57 => (3, 2),
        _ => (NO_ALIGNMENT, 0),
    }
}

/// The same of a store of one lane.
#[inline(always)]
pub fn lane_store_shape(code: u32) -> (u8, u8)
    ensures { result.0 < 16 → IsLaneReachAt (store_of v128) code result.0 result.1 }
{
    match code {
        0x58 => (0, 16),
        0x59 => (1, 8),
        0x5a => (2, 4),
        0x5b => (3, 2),
        _ => (NO_ALIGNMENT, 0),
    }
}
