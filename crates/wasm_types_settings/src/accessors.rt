// For each feature, whether a set allows it.

ghost use Rattle.std.specs.Prelude.{◌≡◌};
ghost use Rattle.wasm_types_settings.specs.Features.{has, needs_canonical_types, MutableGlobal, SaturatingFloatToInt, SignExtension, ReferenceTypes};
ghost use Rattle.wasm_types_settings.specs.Features.{MultiValue, BulkMemory, Simd, RelaxedSimd, Threads, SharedEverythingThreads, TailCall, Floats};
ghost use Rattle.wasm_types_settings.specs.Features.{MultiMemory, Exceptions, Memory64, ExtendedConst, ComponentModel, FunctionReferences};
ghost use Rattle.wasm_types_settings.specs.Features.{MemoryControl, Gc, CustomPageSizes, LegacyExceptions, GcTypes, StackSwitching, WideArithmetic};
ghost use Rattle.wasm_types_settings.specs.Features.{CallIndirectOverlong, BulkMemoryOpt, CustomDescriptors, judges_vectors};

use crate::features::WasmFeatures;
use bitflags::Flags;

#[tactic(auto, unfolding(crate::specs::Features::has))]
impl WasmFeatures {
    /// Whether every bit of `MUTABLE_GLOBAL` is in.
    #[inline]
    pub fn mutable_global(&self) -> bool
        ensures { result ≡ has MutableGlobal self.now.0 }
    {
        self.contains(WasmFeatures::MUTABLE_GLOBAL)
    }

    /// Whether every bit of `SATURATING_FLOAT_TO_INT` is in.
    #[inline]
    pub fn saturating_float_to_int(&self) -> bool
        ensures { result ≡ has SaturatingFloatToInt self.now.0 }
    {
        self.contains(WasmFeatures::SATURATING_FLOAT_TO_INT)
    }

    /// Whether every bit of `SIGN_EXTENSION` is in.
    #[inline]
    pub fn sign_extension(&self) -> bool
        ensures { result ≡ has SignExtension self.now.0 }
    {
        self.contains(WasmFeatures::SIGN_EXTENSION)
    }

    /// Whether every bit of `REFERENCE_TYPES` is in.
    #[inline]
    pub fn reference_types(&self) -> bool
        ensures { result ≡ has ReferenceTypes self.now.0 }
    {
        self.contains(WasmFeatures::REFERENCE_TYPES)
    }

    /// Whether every bit of `MULTI_VALUE` is in.
    #[inline]
    pub fn multi_value(&self) -> bool
        ensures { result ≡ has MultiValue self.now.0 }
    {
        self.contains(WasmFeatures::MULTI_VALUE)
    }

    /// Whether every bit of `BULK_MEMORY` is in.
    #[inline]
    pub fn bulk_memory(&self) -> bool
        ensures { result ≡ has BulkMemory self.now.0 }
    {
        self.contains(WasmFeatures::BULK_MEMORY)
    }

    /// Whether every bit of `SIMD` is in.
    #[inline]
    pub fn simd(&self) -> bool
        ensures { result ≡ has Simd self.now.0 }
    {
        self.contains(WasmFeatures::SIMD)
    }

    /// Whether every bit of `RELAXED_SIMD` is in.
    #[inline]
    pub fn relaxed_simd(&self) -> bool
        ensures { result ≡ has RelaxedSimd self.now.0 }
    {
        self.contains(WasmFeatures::RELAXED_SIMD)
    }

    /// Whether every bit of `THREADS` is in.
    #[inline]
    pub fn threads(&self) -> bool
        ensures { result ≡ has Threads self.now.0 }
    {
        self.contains(WasmFeatures::THREADS)
    }

    /// Whether every bit of `SHARED_EVERYTHING_THREADS` is in.
    #[inline]
    pub fn shared_everything_threads(&self) -> bool
        ensures { result ≡ has SharedEverythingThreads self.now.0 }
    {
        self.contains(WasmFeatures::SHARED_EVERYTHING_THREADS)
    }

    /// Whether every bit of `TAIL_CALL` is in.
    #[inline]
    pub fn tail_call(&self) -> bool
        ensures { result ≡ has TailCall self.now.0 }
    {
        self.contains(WasmFeatures::TAIL_CALL)
    }

    /// Whether every bit of `FLOATS` is in.
    #[inline]
    pub fn floats(&self) -> bool
        ensures { result ≡ has Floats self.now.0 }
    {
        self.contains(WasmFeatures::FLOATS)
    }

    /// Whether every bit of `MULTI_MEMORY` is in.
    #[inline]
    pub fn multi_memory(&self) -> bool
        ensures { result ≡ has MultiMemory self.now.0 }
    {
        self.contains(WasmFeatures::MULTI_MEMORY)
    }

    /// Whether every bit of `EXCEPTIONS` is in.
    #[inline]
    pub fn exceptions(&self) -> bool
        ensures { result ≡ has Exceptions self.now.0 }
    {
        self.contains(WasmFeatures::EXCEPTIONS)
    }

    /// Whether every bit of `MEMORY64` is in.
    #[inline]
    pub fn memory64(&self) -> bool
        ensures { result ≡ has Memory64 self.now.0 }
    {
        self.contains(WasmFeatures::MEMORY64)
    }

    /// Whether every bit of `EXTENDED_CONST` is in.
    #[inline]
    pub fn extended_const(&self) -> bool
        ensures { result ≡ has ExtendedConst self.now.0 }
    {
        self.contains(WasmFeatures::EXTENDED_CONST)
    }

    /// Whether every bit of `COMPONENT_MODEL` is in.
    #[inline]
    pub fn component_model(&self) -> bool
        ensures { result ≡ has ComponentModel self.now.0 }
    {
        self.contains(WasmFeatures::COMPONENT_MODEL)
    }

    /// Whether every bit of `FUNCTION_REFERENCES` is in.
    #[inline]
    pub fn function_references(&self) -> bool
        ensures { result ≡ has FunctionReferences self.now.0 }
    {
        self.contains(WasmFeatures::FUNCTION_REFERENCES)
    }

    /// Whether every bit of `MEMORY_CONTROL` is in.
    #[inline]
    pub fn memory_control(&self) -> bool
        ensures { result ≡ has MemoryControl self.now.0 }
    {
        self.contains(WasmFeatures::MEMORY_CONTROL)
    }

    /// Whether every bit of `GC` is in.
    #[inline]
    pub fn gc(&self) -> bool
        ensures { result ≡ has Gc self.now.0 }
    {
        self.contains(WasmFeatures::GC)
    }

    /// Whether every bit of `CUSTOM_PAGE_SIZES` is in.
    #[inline]
    pub fn custom_page_sizes(&self) -> bool
        ensures { result ≡ has CustomPageSizes self.now.0 }
    {
        self.contains(WasmFeatures::CUSTOM_PAGE_SIZES)
    }

    /// Whether every bit of `LEGACY_EXCEPTIONS` is in.
    #[inline]
    pub fn legacy_exceptions(&self) -> bool
        ensures { result ≡ has LegacyExceptions self.now.0 }
    {
        self.contains(WasmFeatures::LEGACY_EXCEPTIONS)
    }

    /// Whether every bit of `GC_TYPES` is in.
    #[inline]
    pub fn gc_types(&self) -> bool
        ensures { result ≡ has GcTypes self.now.0 }
    {
        self.contains(WasmFeatures::GC_TYPES)
    }

    /// Whether every bit of `STACK_SWITCHING` is in.
    #[inline]
    pub fn stack_switching(&self) -> bool
        ensures { result ≡ has StackSwitching self.now.0 }
    {
        self.contains(WasmFeatures::STACK_SWITCHING)
    }

    /// Whether every bit of `WIDE_ARITHMETIC` is in.
    #[inline]
    pub fn wide_arithmetic(&self) -> bool
        ensures { result ≡ has WideArithmetic self.now.0 }
    {
        self.contains(WasmFeatures::WIDE_ARITHMETIC)
    }

    /// Whether every bit of `CALL_INDIRECT_OVERLONG` is in.
    #[inline]
    pub fn call_indirect_overlong(&self) -> bool
        ensures { result ≡ has CallIndirectOverlong self.now.0 }
    {
        self.contains(WasmFeatures::CALL_INDIRECT_OVERLONG)
    }

    /// Whether every bit of `BULK_MEMORY_OPT` is in.
    #[inline]
    pub fn bulk_memory_opt(&self) -> bool
        ensures { result ≡ has BulkMemoryOpt self.now.0 }
    {
        self.contains(WasmFeatures::BULK_MEMORY_OPT)
    }

    /// Whether every bit of `CUSTOM_DESCRIPTORS` is in.
    #[inline]
    pub fn custom_descriptors(&self) -> bool
        ensures { result ≡ has CustomDescriptors self.now.0 }
    {
        self.contains(WasmFeatures::CUSTOM_DESCRIPTORS)
    }

    /// Whether operators on vectors are judged.
    #[inline]
    #[tactic(auto, unfolding(crate::specs::Features::judges_vectors))]
    pub fn vector_operators(&self) -> bool
        ensures { result ≡ judges_vectors self.now.0 }
    {
        self.contains(WasmFeatures::VECTOR_OPERATORS)
    }

    /// Whether types have to be made canonical, since a type may refer to another by its index.
    #[inline]
    pub fn needs_type_canonicalization(&self) -> bool
        ensures { result ≡ needs_canonical_types self.now.0 }
    {
        self.function_references()
            || self.gc()
            || self.custom_descriptors()
            || self.stack_switching()
    }
}
