//! What is asked of a group as it is written, and its form in a list.

ghost use Rattle.std.specs.Prelude.{◌≡◌, ◌+◌, ◌<◌, ◌≤◌, All, IsTrue, OnOk, length, map};
ghost use Rattle.wasm_types.specs.decoding.Denials.{Tells, RefusedAt};
ghost use Rattle.wasm_types.specs.settings.Features.{has, Gc, needs_canonical_types};
ghost use Rattle.wasm_types.specs.trees.Gates.{Has};
ghost use Rattle.wasm_types.specs.Entries.{declared_of, declared_types};
ghost use Rattle.wasm_module_validator_canonical_types.specs.Written.{HaveOneSupertype};
ghost use Rattle.wasm_module_validator_canonical_types.specs.Canonical.{IdFits, AreTypesAllowed};
ghost use Rattle.wasm_module_validator_canonical_types.specs.Refused.{FailsAt};
ghost use Rattle.wasm_module_validator_type_groups.specs.composites.Composites.{WhereCanonical};
ghost use Rattle.wasm_module_validator_type_groups.specs.adding.Interned.{kept_types};

use crate::composites::require;
use wasm_module_validator_canonical_types::{InternRecGroup, TypeCanonicalizer};
use wasm_types::{Error, ModuleWords, RecGroup, Result, SubType, WasmFeatures, Words};

// Refuses a type with more than one supertype.
fn check_supertypes(types: &[SubType], offset: u64) -> Result<()>
    ensures answer { Tells result (HaveOneSupertype (map declared_of types.now)) }
    ensures at { FailsAt offset result }
{
    for i in 0..types.len() {
        if types[i].supertype_idxs.as_slice().len() > 1 {
            return Err(Error::new(Words::Module(ModuleWords::MultipleSupertypes), offset));
        }
    }
    Ok(())
}

/// Refuses a group that is written as one where garbage collection is not allowed, and a type with more than one supertype.
pub(crate) fn check_written(features: WasmFeatures, rec_group: &RecGroup, offset: u64) -> Result<()>
    ensures answer { Tells result ((IsTrue rec_group.now.is_explicit → Has features.0 Gc)
        × HaveOneSupertype (declared_types rec_group.now)) }
    ensures at { RefusedAt offset result }
{
    require(
        !rec_group.is_explicit_rec_group() || features.gc(),
        WasmFeatures::GC,
        Words::Module(ModuleWords::RecGroupUsageRequiresGcProposalToBeEnabled),
        offset,
    )?;
    check_supertypes(rec_group.types(), offset)
}

/// Puts the group into the form in which a list keeps it: if the features ask for it the canonical one, which refuses an index that the
/// group may not have.
pub(crate) fn put_in_form<M: InternRecGroup>(
    target: &M,
    rec_group: &mut RecGroup,
    offset: u64,
) -> Result<()>
    requires ids { All IdFits (M.ids target.now) }
    ensures answer { Tells result (WhereCanonical (M.settings target.now).features
        (AreTypesAllowed (has Gc (M.settings target.now).features) (length (M.ids target.now))
        (length (M.ids target.now) + length (declared_types rec_group.old)) (length (M.ids target.now))
        (declared_types rec_group.old))) }
    ensures kept { OnOk result (declared_types rec_group.new ≡ kept_types
        (needs_canonical_types (M.settings target.now).features) (M.ids target.now) (declared_types rec_group.old)) }
    ensures at { FailsAt offset result }
{
    if !target.features().needs_type_canonicalization() {
        return Ok(());
    }
    TypeCanonicalizer::new(target, offset).canonicalize_rec_group(rec_group)?;
    Ok(())
}
