//! Memory types.

ghost use Rattle.std.specs.Prelude.{◌≡◌, ◌⊎◌, IsTrue, IfErr, IfOk};
ghost use Rattle.wasm_types.specs.decoding.Denials.{Tells};
ghost use Rattle.wasm_types.specs.decoding.declared.error.ErrorKind.TheVariants.{Other};
ghost use Rattle.wasm_types.specs.settings.Features.{CustomPageSizes, Memory64, Threads};
ghost use Rattle.wasm_types.specs.trees.Gates.{Has};
ghost use Rattle.wasm_module_validator_rules.specs.Valid.{IfThere, IsValidMemoryType, page_size as bytes_in_page, most_pages};
ghost use Rattle.wasm_module_validator_checks.specs.externs.Refusals.{IsNeeded, allowing};

use crate::externs::sizes::{are_within, check_limits, require};
use crate::limits::Settings;
use wasm_types::{Error, MemoryType, ModuleWords, Result, Text, WasmFeatures, Words};

// How many bytes a page has, by its logarithm where it is written: 1 or 65,536.
#[tactic(auto, unfolding(crate::specs::externs::Refusals::has))]
fn check_page_size(page_size_log2: Option<u32>, settings: &Settings, offset: u64) -> Result<u64>
    ensures answer { Tells result (IfThere (λ n. Has settings.now.features CustomPageSizes
        × ((n ≡ 0) ⊎ (n ≡ 16))) page_size_log2) }
    ensures bytes { IfOk result (λ page. (page ≡ bytes_in_page page_size_log2) × ((page ≡ 1) ⊎ (page ≡ 65536))) }
    ensures refused { IfErr result (λ e. IsNeeded settings.now.features
        (λ b. IfThere (λ n. Has b CustomPageSizes × ((n ≡ 0) ⊎ (n ≡ 16))) page_size_log2) e.kind) }
    ensures at { IfErr result (λ e. e.offset ≡ offset) }
{
    let Some(logarithm) = page_size_log2 else {
        return Ok(65_536);
    };
    require(
        settings.features().custom_page_sizes(),
        WasmFeatures::CUSTOM_PAGE_SIZES,
        Words::Module(
            ModuleWords::TheCustomPageSizesProposalMustBeEnabledToCustomizeAMemorySPageSize,
        ),
        offset,
    )?;
    if logarithm == 0 {
        return Ok(1);
    }
    if logarithm == 16 {
        return Ok(65_536);
    }
    Err(Error::new(Words::Module(ModuleWords::InvalidCustomPageSize), offset))
}

// The most pages that there are addresses for.
fn true_maximum(memory64: bool, page_size: u64) -> u64
    requires { (page_size ≡ 1) ⊎ (page_size ≡ 65536) }
    ensures { result ≡ most_pages memory64 page_size }
{
    if page_size == 1 {
        if memory64 {
            return 18_446_744_073_709_551_615;
        }
        return 4_294_967_296;
    }
    if memory64 {
        return 281_474_976_710_656;
    }
    65_536
}

// The refusal of more pages than there are addresses for.
#[cold]
fn too_large(most: u64, page_size: u64, offset: u64) -> Error
    ensures kind { result.kind ≡ Other }
    ensures at { result.offset ≡ offset }
{
    Error::with(Text::Pages(most, page_size), offset)
}

// The features of wide and of shared memories.
#[tactic(auto, unfolding(crate::specs::externs::Refusals::has))]
fn check_memory_features(ty: &MemoryType, settings: &Settings, offset: u64) -> Result<()>
    ensures answer { Tells result ((IsTrue ty.now.memory64 → Has settings.now.features Memory64)
        × (IsTrue ty.now.shared → Has settings.now.features Threads)) }
    ensures refused { IfErr result (λ e. IsNeeded settings.now.features (λ b. (IsTrue ty.now.memory64 → Has b Memory64)
        × (IsTrue ty.now.shared → Has b Threads)) e.kind) }
    ensures at { IfErr result (λ e. e.offset ≡ offset) }
{
    require(
        !ty.memory64 || settings.features().memory64(),
        WasmFeatures::MEMORY64,
        Words::Module(ModuleWords::Memory64MustBeEnabledFor64BitMemories),
        offset,
    )?;
    require(
        !ty.shared || settings.features().threads(),
        WasmFeatures::THREADS,
        Words::Module(ModuleWords::ThreadsMustBeEnabledForSharedMemories),
        offset,
    )
}

/// Refuses a memory type that is not valid: a minimum above its maximum, a form that a feature is missing for, a size of pages
/// other than 1 and 65,536 bytes, more pages than there are addresses for, and a shared one without a maximum.
///
/// # Errors
///
/// The type is not valid under these settings: the first missing feature that it needs, in that order, or kind `Other`; at
/// `offset`.
pub fn check_memory_type(ty: &MemoryType, settings: &Settings, offset: u64) -> Result<()>
    ensures answer { Tells result (IsValidMemoryType settings.now ty.now) }
    ensures refused { IfErr result (λ e. IsNeeded settings.now.features
        (λ b. IsValidMemoryType (allowing b settings.now) ty.now) e.kind) }
    ensures at { IfErr result (λ e. e.offset ≡ offset) }
{
    check_limits(ty.initial, ty.maximum, offset)?;
    check_memory_features(ty, settings, offset)?;
    let page_size = match check_page_size(ty.page_size_log2, settings, offset) {
        Ok(page_size) => page_size,
        Err(error) => return Err(error),
    };
    let most = true_maximum(ty.memory64, page_size);
    if !are_within(most, ty.initial, ty.maximum) {
        return Err(too_large(most, page_size, offset));
    }
    if ty.shared && ty.maximum.is_none() {
        return Err(Error::new(
            Words::Module(ModuleWords::SharedMemoryMustHaveMaximumSize),
            offset,
        ));
    }
    Ok(())
}
