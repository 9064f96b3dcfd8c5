// The set of features: its bits, the named sets and the operations of `bitflags`.

ghost use Rattle.std.specs.Prelude.{◌≡◌, ⊤, List, [], ◌∷◌, codes};
ghost use Rattle.wasm_types_settings.specs.Features.{mask, MutableGlobal, SaturatingFloatToInt, SignExtension, ReferenceTypes, MultiValue, BulkMemory};
ghost use Rattle.wasm_types_settings.specs.Features.{Simd, RelaxedSimd, Threads, SharedEverythingThreads, TailCall, Floats, MultiMemory, Exceptions};
ghost use Rattle.wasm_types_settings.specs.Features.{Memory64, ExtendedConst, ComponentModel, FunctionReferences, MemoryControl, Gc, CustomPageSizes};
ghost use Rattle.wasm_types_settings.specs.Features.{LegacyExceptions, GcTypes, StackSwitching, WideArithmetic, CallIndirectOverlong, BulkMemoryOpt};
ghost use Rattle.wasm_types_settings.specs.Features.{CustomDescriptors};
ghost use Rattle.wasm_types_settings.specs.Sets.{bits_of, default_features};

use bitflags::{Flag, Flags, bitflag_items};

/// A set of features of WebAssembly.
///
/// Each feature has a bit of its own, from bit 0 upwards in the order of the constants. The names
/// `REFERENCE_TYPES` and `BULK_MEMORY` stand for two bits each, so that a part of what they allow
/// can be allowed alone. The operations of a set are those of `bitflags::Flags`, as `contains`, `insert` and
/// `union`; the operators, as `|`, have no contract that promises their result.
#[derive(Clone, Copy, PartialEq, Eq, Hash, Debug)]
pub struct WasmFeatures(u32);

bitflag_items! {
    impl WasmFeatures: u32 {
        /// Mutable globals may be imported and exported.
        const MUTABLE_GLOBAL = 1 << 0;
        /// Conversions of floats to integers that saturate.
        const SATURATING_FLOAT_TO_INT = 1 << 1;
        /// Operators that extend the sign of a part of an integer.
        const SIGN_EXTENSION = 1 << 2;
        /// Reference types as values, several tables and operators on tables.
        ///
        /// This stands for two bits: its own, and that of `CALL_INDIRECT_OVERLONG`.
        const REFERENCE_TYPES = 1 << 3 | 1 << 25;
        /// Functions and blocks with several results, and blocks with parameters.
        const MULTI_VALUE = 1 << 4;
        /// Operators on whole ranges of memories and tables, and passive segments.
        ///
        /// This stands for two bits: its own, and that of `BULK_MEMORY_OPT`.
        const BULK_MEMORY = 1 << 5 | 1 << 26;
        /// Vectors of 128 bits and their operators.
        const SIMD = 1 << 6;
        /// Vector operators whose results may differ from machine to machine.
        const RELAXED_SIMD = 1 << 7;
        /// Shared memories and atomic operators.
        const THREADS = 1 << 8;
        /// Shared types, tables, globals and functions.
        const SHARED_EVERYTHING_THREADS = 1 << 9;
        /// Calls that replace the frame of their caller.
        const TAIL_CALL = 1 << 10;
        /// Floating-point types and operators.
        const FLOATS = 1 << 11;
        /// Several memories in one module.
        const MULTI_MEMORY = 1 << 12;
        /// Tags, `throw`, `throw_ref` and `try_table`.
        const EXCEPTIONS = 1 << 13;
        /// Memories and tables that are indexed by 64 bits.
        const MEMORY64 = 1 << 14;
        /// Sums, differences and products of integers in constant expressions.
        const EXTENDED_CONST = 1 << 15;
        /// The component model.
        const COMPONENT_MODEL = 1 << 16;
        /// Typed references to functions, and references that are never null.
        const FUNCTION_REFERENCES = 1 << 17;
        /// `memory.discard`.
        const MEMORY_CONTROL = 1 << 18;
        /// Structures, arrays, `i31` and casts between references.
        const GC = 1 << 19;
        /// Memories whose pages are not 64 KiB.
        const CUSTOM_PAGE_SIZES = 1 << 20;
        /// The older `try`, `catch`, `delegate` and `rethrow`.
        const LEGACY_EXCEPTIONS = 1 << 21;
        /// References other than to functions and exceptions, as `externref`, which a collector may have to trace.
        const GC_TYPES = 1 << 22;
        /// Continuations.
        const STACK_SWITCHING = 1 << 23;
        /// Sums, differences and products of 128 bits.
        const WIDE_ARITHMETIC = 1 << 24;
        /// The table index of `call_indirect` is a number in any padded form, and not the single byte 0.
        const CALL_INDIRECT_OVERLONG = 1 << 25;
        /// `memory.copy` and `memory.fill`, without the rest of `BULK_MEMORY`.
        const BULK_MEMORY_OPT = 1 << 26;
        /// Structures with descriptors of their own, and exact references.
        const CUSTOM_DESCRIPTORS = 1 << 27;
    }
}

impl Flags for WasmFeatures {
    type Bits = u32;

    ghost exact = { ⊤ };

    ghost table = { (codes "MUTABLE_GLOBAL", mask MutableGlobal)
        ∷ (codes "SATURATING_FLOAT_TO_INT", mask SaturatingFloatToInt)
        ∷ (codes "SIGN_EXTENSION", mask SignExtension)
        ∷ (codes "REFERENCE_TYPES", mask ReferenceTypes)
        ∷ (codes "MULTI_VALUE", mask MultiValue)
        ∷ (codes "BULK_MEMORY", mask BulkMemory)
        ∷ (codes "SIMD", mask Simd)
        ∷ (codes "RELAXED_SIMD", mask RelaxedSimd)
        ∷ (codes "THREADS", mask Threads)
        ∷ (codes "SHARED_EVERYTHING_THREADS", mask SharedEverythingThreads)
        ∷ (codes "TAIL_CALL", mask TailCall)
        ∷ (codes "FLOATS", mask Floats)
        ∷ (codes "MULTI_MEMORY", mask MultiMemory)
        ∷ (codes "EXCEPTIONS", mask Exceptions)
        ∷ (codes "MEMORY64", mask Memory64)
        ∷ (codes "EXTENDED_CONST", mask ExtendedConst)
        ∷ (codes "COMPONENT_MODEL", mask ComponentModel)
        ∷ (codes "FUNCTION_REFERENCES", mask FunctionReferences)
        ∷ (codes "MEMORY_CONTROL", mask MemoryControl)
        ∷ (codes "GC", mask Gc)
        ∷ (codes "CUSTOM_PAGE_SIZES", mask CustomPageSizes)
        ∷ (codes "LEGACY_EXCEPTIONS", mask LegacyExceptions)
        ∷ (codes "GC_TYPES", mask GcTypes)
        ∷ (codes "STACK_SWITCHING", mask StackSwitching)
        ∷ (codes "WIDE_ARITHMETIC", mask WideArithmetic)
        ∷ (codes "CALL_INDIRECT_OVERLONG", mask CallIndirectOverlong)
        ∷ (codes "BULK_MEMORY_OPT", mask BulkMemoryOpt)
        ∷ (codes "CUSTOM_DESCRIPTORS", mask CustomDescriptors)
        ∷ [] };

    ghost set_of = { λ w. w.0 };

    fn flags<'a>() -> &'a [Flag<WasmFeatures>] {
        WasmFeatures::FLAGS
    }

    fn bits(&self) -> u32 {
        self.0
    }

    fn from_bits_retain(bits: u32) -> WasmFeatures {
        WasmFeatures(bits)
    }
}

impl WasmFeatures {
    /// The switch by which operators on vectors are judged as all others are; without it they are refused.
    ///
    /// It is no feature: `all`, the named sets, `iter` and `from_name` leave it out, and the operators need `SIMD` or
    /// `RELAXED_SIMD` besides.
    pub const VECTOR_OPERATORS: WasmFeatures = WasmFeatures(1 << 28);

    /// The first release of WebAssembly, without mutable globals at a module's border.
    pub const MVP: WasmFeatures = WasmFeatures(Self::FLOATS.0 | Self::GC_TYPES.0);

    /// WebAssembly 1.0.
    pub const WASM1: WasmFeatures = WasmFeatures(Self::MVP.0 | Self::MUTABLE_GLOBAL.0);

    /// WebAssembly 2.0.
    pub const WASM2: WasmFeatures = WasmFeatures(
        Self::WASM1.0
            | Self::MULTI_VALUE.0
            | Self::SIGN_EXTENSION.0
            | Self::SATURATING_FLOAT_TO_INT.0
            | Self::BULK_MEMORY.0
            | Self::REFERENCE_TYPES.0
            | Self::SIMD.0,
    );

    /// WebAssembly 3.0, and threads.
    pub const WASM3: WasmFeatures = WasmFeatures(
        Self::WASM2.0
            | Self::TAIL_CALL.0
            | Self::EXTENDED_CONST.0
            | Self::FUNCTION_REFERENCES.0
            | Self::GC.0
            | Self::MULTI_MEMORY.0
            | Self::RELAXED_SIMD.0
            | Self::THREADS.0
            | Self::EXCEPTIONS.0
            | Self::MEMORY64.0,
    );

    /// Lime1, the set that toolchains agreed on between 1.0 and 2.0.
    pub const LIME1: WasmFeatures = WasmFeatures(
        Self::WASM1.0
            | Self::MULTI_VALUE.0
            | Self::SIGN_EXTENSION.0
            | Self::SATURATING_FLOAT_TO_INT.0
            | Self::EXTENDED_CONST.0
            | Self::BULK_MEMORY_OPT.0
            | Self::CALL_INDIRECT_OVERLONG.0,
    );
}

impl Default for WasmFeatures {
    ghost is_default = { λ w. w.0 ≡ bits_of default_features };

    /// The set `WASM3` and the component model.
    fn default() -> WasmFeatures {
        WasmFeatures(Self::WASM3.0 | Self::COMPONENT_MODEL.0)
    }
}
