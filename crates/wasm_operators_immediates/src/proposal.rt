//! The proposals that brought operators.

ghost use Rattle.std.specs.Prelude.{◌≡◌};
ghost use Rattle.wasm_operators_immediates.specs.Info.{features_of};

use bitflags::Flags;
use wasm_types_settings::WasmFeatures;

/// What brought an operator: the first release of WebAssembly, or a proposal, by the feature that allows it.
#[derive(Clone, Copy, Debug, PartialEq, Eq)]
pub enum Proposal {
    /// The first release.
    Mvp,
    /// Operators that extend the sign of a part of an integer.
    SignExtension,
    /// Conversions of floats to integers that saturate.
    SaturatingFloatToInt,
    /// Operators on ranges of memories and tables.
    BulkMemory,
    /// `memory.copy` and `memory.fill`.
    BulkMemoryOpt,
    /// References and tables as values.
    ReferenceTypes,
    /// Calls that replace their caller's frame.
    TailCall,
    /// Typed references to functions.
    FunctionReferences,
    /// Exceptions.
    Exceptions,
    /// The older exceptions.
    LegacyExceptions,
    /// Structs, arrays and casts.
    Gc,
    /// Vectors of 128 bits.
    Simd,
    /// Vector operators whose results may differ from machine to machine.
    RelaxedSimd,
    /// Atomic accesses to memories.
    Threads,
    /// Atomic accesses to what else is shared.
    SharedEverythingThreads,
    /// `memory.discard`.
    MemoryControl,
    /// Sums, differences and products of 128 bits.
    WideArithmetic,
    /// Continuations.
    StackSwitching,
    /// Structs with descriptors.
    CustomDescriptors,
}

impl Proposal {
    /// The feature that allows what the proposal brought; for the first release none is asked.
    pub fn feature(self) -> WasmFeatures
        ensures { result.0 ≡ features_of self }
    {
        match self {
            Proposal::Mvp => WasmFeatures::empty(),
            Proposal::SignExtension => WasmFeatures::SIGN_EXTENSION,
            Proposal::SaturatingFloatToInt => WasmFeatures::SATURATING_FLOAT_TO_INT,
            Proposal::BulkMemory => WasmFeatures::BULK_MEMORY,
            Proposal::BulkMemoryOpt => WasmFeatures::BULK_MEMORY_OPT,
            Proposal::ReferenceTypes => WasmFeatures::REFERENCE_TYPES,
            Proposal::TailCall => WasmFeatures::TAIL_CALL,
            Proposal::FunctionReferences => WasmFeatures::FUNCTION_REFERENCES,
            Proposal::Exceptions => WasmFeatures::EXCEPTIONS,
            Proposal::LegacyExceptions => WasmFeatures::LEGACY_EXCEPTIONS,
            Proposal::Gc => WasmFeatures::GC,
            Proposal::Simd => WasmFeatures::SIMD,
            Proposal::RelaxedSimd => WasmFeatures::RELAXED_SIMD,
            Proposal::Threads => WasmFeatures::THREADS,
            Proposal::SharedEverythingThreads => WasmFeatures::SHARED_EVERYTHING_THREADS,
            Proposal::MemoryControl => WasmFeatures::MEMORY_CONTROL,
            Proposal::WideArithmetic => WasmFeatures::WIDE_ARITHMETIC,
            Proposal::StackSwitching => WasmFeatures::STACK_SWITCHING,
            Proposal::CustomDescriptors => WasmFeatures::CUSTOM_DESCRIPTORS,
        }
    }
}
