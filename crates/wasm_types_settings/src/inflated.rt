// A set of features as one `bool` for each.

ghost use Rattle.std.specs.Prelude.{◌≡◌, if◌then◌else◌};
ghost use Rattle.std.specs.Int.RustNames.{bit_or};
ghost use Rattle.bitflags.specs.Sets.{without};
ghost use Rattle.wasm_types_settings.specs.Inflated.{Inflates, Packs, setting};

use crate::features::WasmFeatures;
use bitflags::Flags;

/// A set of features with a field for each, named after its constant.
#[derive(Clone, Copy, Debug, PartialEq, Eq)]
pub struct WasmFeaturesInflated {
    /// `MUTABLE_GLOBAL`
    pub mutable_global: bool,
    /// `SATURATING_FLOAT_TO_INT`
    pub saturating_float_to_int: bool,
    /// `SIGN_EXTENSION`
    pub sign_extension: bool,
    /// `REFERENCE_TYPES`
    pub reference_types: bool,
    /// `MULTI_VALUE`
    pub multi_value: bool,
    /// `BULK_MEMORY`
    pub bulk_memory: bool,
    /// `SIMD`
    pub simd: bool,
    /// `RELAXED_SIMD`
    pub relaxed_simd: bool,
    /// `THREADS`
    pub threads: bool,
    /// `SHARED_EVERYTHING_THREADS`
    pub shared_everything_threads: bool,
    /// `TAIL_CALL`
    pub tail_call: bool,
    /// `FLOATS`
    pub floats: bool,
    /// `MULTI_MEMORY`
    pub multi_memory: bool,
    /// `EXCEPTIONS`
    pub exceptions: bool,
    /// `MEMORY64`
    pub memory64: bool,
    /// `EXTENDED_CONST`
    pub extended_const: bool,
    /// `COMPONENT_MODEL`
    pub component_model: bool,
    /// `FUNCTION_REFERENCES`
    pub function_references: bool,
    /// `MEMORY_CONTROL`
    pub memory_control: bool,
    /// `GC`
    pub gc: bool,
    /// `CUSTOM_PAGE_SIZES`
    pub custom_page_sizes: bool,
    /// `LEGACY_EXCEPTIONS`
    pub legacy_exceptions: bool,
    /// `GC_TYPES`
    pub gc_types: bool,
    /// `STACK_SWITCHING`
    pub stack_switching: bool,
    /// `WIDE_ARITHMETIC`
    pub wide_arithmetic: bool,
    /// `CALL_INDIRECT_OVERLONG`
    pub call_indirect_overlong: bool,
    /// `BULK_MEMORY_OPT`
    pub bulk_memory_opt: bool,
    /// `CUSTOM_DESCRIPTORS`
    pub custom_descriptors: bool,
}

impl WasmFeatures {
    /// The set in which each feature's own bit is as its field says.
    ///
    /// The two bits of `REFERENCE_TYPES` and of `BULK_MEMORY` are so decided by two fields.
    pub fn from_inflated(fields: WasmFeaturesInflated) -> Self
        ensures { Packs fields result.0 }
    {
        WasmFeatures::empty()
            .with(Self::MUTABLE_GLOBAL, fields.mutable_global)
            .with(
                Self::SATURATING_FLOAT_TO_INT,
                fields.saturating_float_to_int,
            )
            .with(Self::SIGN_EXTENSION, fields.sign_extension)
            .with(Self::REFERENCE_TYPES, fields.reference_types)
            .with(Self::MULTI_VALUE, fields.multi_value)
            .with(Self::BULK_MEMORY, fields.bulk_memory)
            .with(Self::SIMD, fields.simd)
            .with(Self::RELAXED_SIMD, fields.relaxed_simd)
            .with(Self::THREADS, fields.threads)
            .with(
                Self::SHARED_EVERYTHING_THREADS,
                fields.shared_everything_threads,
            )
            .with(Self::TAIL_CALL, fields.tail_call)
            .with(Self::FLOATS, fields.floats)
            .with(Self::MULTI_MEMORY, fields.multi_memory)
            .with(Self::EXCEPTIONS, fields.exceptions)
            .with(Self::MEMORY64, fields.memory64)
            .with(Self::EXTENDED_CONST, fields.extended_const)
            .with(Self::COMPONENT_MODEL, fields.component_model)
            .with(Self::FUNCTION_REFERENCES, fields.function_references)
            .with(Self::MEMORY_CONTROL, fields.memory_control)
            .with(Self::GC, fields.gc)
            .with(Self::CUSTOM_PAGE_SIZES, fields.custom_page_sizes)
            .with(Self::LEGACY_EXCEPTIONS, fields.legacy_exceptions)
            .with(Self::GC_TYPES, fields.gc_types)
            .with(Self::STACK_SWITCHING, fields.stack_switching)
            .with(Self::WIDE_ARITHMETIC, fields.wide_arithmetic)
            .with(Self::CALL_INDIRECT_OVERLONG, fields.call_indirect_overlong)
            .with(Self::BULK_MEMORY_OPT, fields.bulk_memory_opt)
            .with(Self::CUSTOM_DESCRIPTORS, fields.custom_descriptors)
    }

    /// For each feature, whether every bit that its name stands for is in.
    pub fn inflate(&self) -> WasmFeaturesInflated
        ensures { Inflates self.now.0 result }
    {
        WasmFeaturesInflated {
            mutable_global: self.mutable_global(),
            saturating_float_to_int: self.saturating_float_to_int(),
            sign_extension: self.sign_extension(),
            reference_types: self.reference_types(),
            multi_value: self.multi_value(),
            bulk_memory: self.bulk_memory(),
            simd: self.simd(),
            relaxed_simd: self.relaxed_simd(),
            threads: self.threads(),
            shared_everything_threads: self.shared_everything_threads(),
            tail_call: self.tail_call(),
            floats: self.floats(),
            multi_memory: self.multi_memory(),
            exceptions: self.exceptions(),
            memory64: self.memory64(),
            extended_const: self.extended_const(),
            component_model: self.component_model(),
            function_references: self.function_references(),
            memory_control: self.memory_control(),
            gc: self.gc(),
            custom_page_sizes: self.custom_page_sizes(),
            legacy_exceptions: self.legacy_exceptions(),
            gc_types: self.gc_types(),
            stack_switching: self.stack_switching(),
            wide_arithmetic: self.wide_arithmetic(),
            call_indirect_overlong: self.call_indirect_overlong(),
            bulk_memory_opt: self.bulk_memory_opt(),
            custom_descriptors: self.custom_descriptors(),
        }
    }

    // The same set with the bits of a feature set or cleared.
    #[tactic(auto, unfolding(crate::specs::Inflated::setting))]
    fn with(mut self, feature: WasmFeatures, allowed: bool) -> Self
        ensures { result.0 ≡ setting allowed feature.0 self.0 }
    {
        self.set(feature, allowed);
        self
    }
}

impl From<WasmFeatures> for WasmFeaturesInflated {
    ghost from_gives = { λ features inflated. Inflates features.0 inflated };

    fn from(features: WasmFeatures) -> WasmFeaturesInflated {
        features.inflate()
    }
}

impl From<WasmFeaturesInflated> for WasmFeatures {
    ghost from_gives = { λ inflated features. Packs inflated features.0 };

    fn from(inflated: WasmFeaturesInflated) -> WasmFeatures {
        WasmFeatures::from_inflated(inflated)
    }
}
