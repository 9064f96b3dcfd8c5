//! The list of operators (`docs/operators/operators.csv`) beside the tables of opcodes and immediates: 627 rows, each of which
//! computes, and a row more for each that carries something. The crate has no code of its own.

ghost use Rattle.std.specs.Prelude.{◌≡◌, length};
ghost use Rattle.wasm_operators_tests.specs.list.Listed.{AreInTables, AreCarried, Carried};
ghost use Rattle.wasm_operators_tests.specs.list.ControlRows.{control_rows, parametric_rows, exception_rows, continuation_rows};
ghost use Rattle.wasm_operators_tests.specs.list.MemoryRows.{memory_rows, const_rows, bulk_rows};
ghost use Rattle.wasm_operators_tests.specs.list.NumbersRows.{numeric_rows};
ghost use Rattle.wasm_operators_tests.specs.list.GcRows.{gc_rows, descriptor_rows};
ghost use Rattle.wasm_operators_tests.specs.list.ThreadsRows.{atomic_rows, shared_rows};
ghost use Rattle.wasm_operators_tests.specs.list.VectorsRows.{simd_rows};
ghost use Rattle.wasm_operators_tests.specs.list.VectorNumbersRows.{simd_numeric_rows};
ghost use Rattle.wasm_operators_tests.specs.list.Every.{every_row};
ghost use Rattle.wasm_operators_tests.specs.list.CarriedRows.{control_carries, parametric_carries, exception_carries, continuation_carries, memory_carries, const_carries};
ghost use Rattle.wasm_operators_tests.specs.list.CarriedRows.{bulk_carries, gc_carries, descriptor_carries, atomic_carries, shared_carries, simd_carries};
ghost use Rattle.wasm_operators_tests.specs.list.FrameRows.{FrameRows};
ghost use Rattle.wasm_operators_tests.specs.list.EqualityRows.{EqualityRows};
ghost use Rattle.wasm_operators_tests.specs.list.FeatureRows.{FeatureRows};
ghost use Rattle.wasm_operators_tests.specs.list.OperatorRows.{ToldAsWorked, TreeRows, RoleRows, CanonicalRows, KeptRows};
ghost use Rattle.wasm_operators_tests.specs.list.ShapeRows.{ShapeRows};

/// Each operator of the list, whatever it carries, has the proposal, the name, the prefix and the code of its row, and behind
/// its opcode immediates of the row's kinds.
pub const fn operators_are_as_listed()
    ensures control { AreInTables control_rows }
    ensures parametric { AreInTables parametric_rows }
    ensures exception { AreInTables exception_rows }
    ensures continuation { AreInTables continuation_rows }
    ensures memory { AreInTables memory_rows }
    ensures constant { AreInTables const_rows }
    ensures bulk { AreInTables bulk_rows }
    ensures numeric { AreInTables numeric_rows }
    ensures gc { AreInTables gc_rows }
    ensures descriptor { AreInTables descriptor_rows }
    ensures atomic { AreInTables atomic_rows }
    ensures shared { AreInTables shared_rows }
    ensures simd { AreInTables simd_rows }
    ensures simd_numeric { AreInTables simd_numeric_rows }
{}

/// Behind the opcode of each operator of the list stands what it carries, in the order of the bytes.
pub const fn operators_carry_as_listed()
    ensures control { AreCarried control_carries }
    ensures parametric { AreCarried parametric_carries }
    ensures exception { AreCarried exception_carries }
    ensures continuation { AreCarried continuation_carries }
    ensures memory { AreCarried memory_carries }
    ensures constant { AreCarried const_carries }
    ensures bulk { AreCarried bulk_carries }
    ensures gc { AreCarried gc_carries }
    ensures descriptor { AreCarried descriptor_carries }
    ensures atomic { AreCarried atomic_carries }
    ensures shared { AreCarried shared_carries }
    ensures simd { AreCarried simd_carries }
{}

/// The list has 627 rows.
pub const fn list_is_whole()
    ensures { (c : Carried) → length (every_row c) ≡ 627 }
{}

/// Which operators fit which frame, which are equal, and which features a proposal asks for, in worked rows.
pub const fn rules_are_worked()
    ensures frames { FrameRows }
    ensures equality { EqualityRows }
    ensures features { FeatureRows }
{}

/// Operators of the code as trees, what is told of them, their roles, their canonical forms, which of them keep a list, and the
/// kinds of immediates of each shape, in worked rows (WebAssembly 3.0, structure and binary format, instructions).
pub const fn trees_and_shapes_are_worked()
    ensures told { ToldAsWorked }
    ensures trees { TreeRows }
    ensures roles { RoleRows }
    ensures canonical { CanonicalRows }
    ensures kept { KeptRows }
    ensures shapes { ShapeRows }
{}
