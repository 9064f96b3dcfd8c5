//! Groups put into canonical form.

ghost use Rattle.std.specs.Prelude.{◌≡◌, ◌+◌, ◌<◌, ◌^◌, All, OnOk, OnErr, Ok, length};
ghost use Rattle.wasm_types.specs.decoding.Denials.{Tells};
ghost use Rattle.wasm_types.specs.settings.Features.{has, Gc};
ghost use Rattle.wasm_types.specs.Entries.{declared_types};
ghost use Rattle.wasm_module_validator_canonical_types.specs.Canonical.{canonical_index, canonical_types, IdFits, AreTypesAllowed};
ghost use Rattle.wasm_module_validator_canonical_types.specs.Refused.{FailsAt};
ghost use Rattle.wasm_module_validator_canonical_types.specs.Packed.{packed_canonical};

use crate::InternRecGroup;
use crate::parts::Bounds;
use wasm_types::{CoreTypeId, PackedIndex, RecGroup, Result, UnpackedIndex};

// What an index means behind types with these ids, as an index.
fn canonical_in(ids: &[CoreTypeId], index: PackedIndex) -> PackedIndex
    ensures { result ≡ packed_canonical ids.now index }
{
    let UnpackedIndex::Module(number) = index.unpack() else {
        return index;
    };
    let number = number as usize;
    if number < ids.len() {
        return match PackedIndex::from_id(ids[number]) {
            Some(id) => id,
            None => index,
        };
    }
    match PackedIndex::from_rec_group_index((number - ids.len()) as u32) {
        Some(place) => place,
        None => unreachable!(),
    }
}

/// Puts a group into canonical form behind types with these ids. Where an index is refused, the group stays as it was.
pub(crate) fn canonicalize(
    ids: &[CoreTypeId],
    bounds: Bounds,
    rec_group: &mut RecGroup,
) -> Result<()>
    requires start { bounds.start ≡ length ids.now }
    requires len { bounds.len ≡ length (declared_types rec_group.old) }
    requires ids { All IdFits ids.now }
    ensures answer { Tells result (AreTypesAllowed bounds.allow_gc bounds.start (bounds.start + bounds.len) bounds.start
        (declared_types rec_group.old)) }
    ensures canonical { OnOk result (declared_types rec_group.new ≡ canonical_types ids.now
        (declared_types rec_group.old)) }
    ensures refused { OnErr result (declared_types rec_group.new ≡ declared_types rec_group.old) }
    ensures explicit { rec_group.new.is_explicit ≡ rec_group.old.is_explicit }
    ensures at { FailsAt bounds.offset result }
{
    bounds.check_types(rec_group.types())?;
    let canonical = |index: PackedIndex| -> Result<PackedIndex>
        ensures { result ≡ Ok (packed_canonical ids.entry.now index) }
    { Ok(canonical_in(ids, index)) };
    let _ = rec_group.remap_indices(&canonical);
    Ok(())
}

/// Puts the groups of a module into canonical form.
#[derive(Clone, Copy)]
pub struct TypeCanonicalizer<'a, M: InternRecGroup> {
    module: &'a M,
    offset: u64,
}

impl<'a, M: InternRecGroup> TypeCanonicalizer<'a, M> {
    /// A canonicalizer of what stands behind the types of a module, at this offset.
    pub fn new(module: &'a M, offset: u64) -> Self
        ensures ids { M.ids result.module.now ≡ M.ids module.now }
        ensures settings { M.settings result.module.now ≡ M.settings module.now }
        ensures offset { result.offset ≡ offset }
    {
        TypeCanonicalizer { module, offset }
    }

    /// Puts a group into canonical form: each index of a type of the module is replaced by its id, each of the group itself
    /// by its place there. Refused are, type by type, a supertype that does not stand before its subtype, a described type
    /// that does not stand before the one that describes it, an index past the group's end, and one of the group itself
    /// where garbage collection is not allowed. The group then stays as it was.
    pub fn canonicalize_rec_group(&self, rec_group: &mut RecGroup) -> Result<()>
        requires ids { All IdFits (M.ids self.now.module.now) }
        ensures answer { Tells result (AreTypesAllowed (has Gc (M.settings self.now.module.now).features)
            (length (M.ids self.now.module.now))
            (length (M.ids self.now.module.now) + length (declared_types rec_group.old))
            (length (M.ids self.now.module.now)) (declared_types rec_group.old)) }
        ensures canonical { OnOk result (declared_types rec_group.new ≡ canonical_types (M.ids self.now.module.now)
            (declared_types rec_group.old)) }
        ensures refused { OnErr result (declared_types rec_group.new ≡ declared_types rec_group.old) }
        ensures explicit { rec_group.new.is_explicit ≡ rec_group.old.is_explicit }
        ensures at { FailsAt self.now.offset result }
    {
        let bounds = Bounds {
            allow_gc: self.module.features().gc(),
            start: self.module.types_len(),
            len: rec_group.types().len(),
            offset: self.offset,
        };
        canonicalize(self.module.type_ids(), bounds, rec_group)
    }
}
