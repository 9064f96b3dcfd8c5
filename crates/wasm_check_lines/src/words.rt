//! The words of the features.
ghost use Rattle.std.specs.Prelude.{◌≡◌, option_map};
ghost use Rattle.wasm_check_lines.specs.FeatureWords.{words_from_0, words_from_7, words_from_14, words_from_21, word_for, worded};

use bitflags::Flags;
use wasm_types::WasmFeatures;

// The word of these bits, of those of the first seven features.
fn word_from_0(bits: u32) -> Option<&'static str>
    ensures { option_map (λ w. w.now) result ≡ worded words_from_0 bits }
{
    if bits == WasmFeatures::MUTABLE_GLOBAL.bits() {
        return Some("mutable-global");
    }
    if bits == WasmFeatures::SATURATING_FLOAT_TO_INT.bits() {
        return Some("saturating-float-to-int");
    }
    if bits == WasmFeatures::SIGN_EXTENSION.bits() {
        return Some("sign-extension");
    }
    if bits == WasmFeatures::REFERENCE_TYPES.bits() {
        return Some("reference-types");
    }
    if bits == WasmFeatures::MULTI_VALUE.bits() {
        return Some("multi-value");
    }
    if bits == WasmFeatures::BULK_MEMORY.bits() {
        return Some("bulk-memory");
    }
    if bits == WasmFeatures::SIMD.bits() {
        return Some("simd");
    }
    None
}

// The word of these bits, of those of the second seven features.
fn word_from_7(bits: u32) -> Option<&'static str>
    ensures { option_map (λ w. w.now) result ≡ worded words_from_7 bits }
{
    if bits == WasmFeatures::RELAXED_SIMD.bits() {
        return Some("relaxed-simd");
    }
    if bits == WasmFeatures::THREADS.bits() {
        return Some("threads");
    }
    if bits == WasmFeatures::SHARED_EVERYTHING_THREADS.bits() {
        return Some("shared-everything-threads");
    }
    if bits == WasmFeatures::TAIL_CALL.bits() {
        return Some("tail-call");
    }
    if bits == WasmFeatures::FLOATS.bits() {
        return Some("floats");
    }
    if bits == WasmFeatures::MULTI_MEMORY.bits() {
        return Some("multi-memory");
    }
    if bits == WasmFeatures::EXCEPTIONS.bits() {
        return Some("exceptions");
    }
    None
}

// The word of these bits, of those of the third seven features.
fn word_from_14(bits: u32) -> Option<&'static str>
    ensures { option_map (λ w. w.now) result ≡ worded words_from_14 bits }
{
    if bits == WasmFeatures::MEMORY64.bits() {
        return Some("memory64");
    }
    if bits == WasmFeatures::EXTENDED_CONST.bits() {
        return Some("extended-const");
    }
    if bits == WasmFeatures::COMPONENT_MODEL.bits() {
        return Some("component-model");
    }
    if bits == WasmFeatures::FUNCTION_REFERENCES.bits() {
        return Some("function-references");
    }
    if bits == WasmFeatures::MEMORY_CONTROL.bits() {
        return Some("memory-control");
    }
    if bits == WasmFeatures::GC.bits() {
        return Some("gc");
    }
    if bits == WasmFeatures::CUSTOM_PAGE_SIZES.bits() {
        return Some("custom-page-sizes");
    }
    None
}

// The word of these bits, of those of the fourth seven features.
fn word_from_21(bits: u32) -> Option<&'static str>
    ensures { option_map (λ w. w.now) result ≡ worded words_from_21 bits }
{
    if bits == WasmFeatures::LEGACY_EXCEPTIONS.bits() {
        return Some("legacy-exceptions");
    }
    if bits == WasmFeatures::GC_TYPES.bits() {
        return Some("gc-types");
    }
    if bits == WasmFeatures::STACK_SWITCHING.bits() {
        return Some("stack-switching");
    }
    if bits == WasmFeatures::WIDE_ARITHMETIC.bits() {
        return Some("wide-arithmetic");
    }
    if bits == WasmFeatures::CALL_INDIRECT_OVERLONG.bits() {
        return Some("call-indirect-overlong");
    }
    if bits == WasmFeatures::BULK_MEMORY_OPT.bits() {
        return Some("bulk-memory-opt");
    }
    if bits == WasmFeatures::CUSTOM_DESCRIPTORS.bits() {
        return Some("custom-descriptors");
    }
    None
}

/// The word of `--features` that stands for exactly these features, if one does.
pub fn word_for(features: WasmFeatures) -> Option<&'static str>
    ensures { option_map (λ w. w.now) result ≡ word_for features.0 }
{
    let bits = features.bits();
    if let Some(word) = word_from_0(bits) {
        return Some(word);
    }
    if let Some(word) = word_from_7(bits) {
        return Some(word);
    }
    if let Some(word) = word_from_14(bits) {
        return Some(word);
    }
    word_from_21(bits)
}
