//! Types under their ids, beside a type that is sought.

use std::cmp::Ordering;
use wasm_module_validator_type_storage::ordered::Compare;
use wasm_module_validator_type_storage::snapshots::SnapshotList;
use wasm_types::SubType;

/// A type, and those that it is sought among by their ids.
#[derive(Drop)]
pub(crate) struct Beside<'a> {
    pub types: &'a SnapshotList<SubType>,
    pub ty: &'a SubType,
}

impl<'a> Compare for Beside<'a> {
    ghost use Rattle.wasm_module_validator_type_list.specs.Beside.{beside};

    ghost order = { λ it n. beside it.types.now.items it.ty.now n };

    fn compare(&self, number: u32) -> Ordering {
        match self.types.get(number as usize) {
            Some(kept) => kept.cmp(self.ty),
            None => Ordering::Less,
        }
    }
}
