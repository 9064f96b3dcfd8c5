//! A module whose pieces are handed over, judged to its end.

ghost use Rattle.std.specs.Prelude.{◌≡◌, ◌<◌, ◌^◌, ◌++◌, [], List, ℕ, length};
ghost use Rattle.wasm_types.specs.settings.Limits.{IsWithinCeilings};
ghost use Rattle.wasm_types.specs.settings.Settings.{Settings};
ghost use Rattle.wasm_module_validator_index_spaces.specs.declared.view.validator_id.ValidatorId.{ValidatorId};
ghost use Rattle.wasm_module_validator_streaming.specs.ToEnd.{CameToEnd, HasBegun, TellsVerdict};

use crate::going_on::GoingOn;
use crate::handing::{PieceError, conclude, take_handed};
use crate::judging::Judging;
use crate::reading::Pending;
use std::alloc::Global;
use wasm_module_validator::Types;
use wasm_module_validator_index_spaces::view::ValidatorId;
use wasm_types::{Error, Limits, Result, WasmFeatures};

/// A module as far as its bytes were handed over, which is judged to its end, whatever comes. So of several faults the
/// one is told that is told of the bytes as a whole: a fault of the sections if they have one, else that of the first
/// body that is refused.
///
/// Each section, and each body, is judged as soon as it is whole, and is not kept; so what is held of the bytes is a
/// part of one item. After a fault of the sections nothing is judged or held any more, and after a body that is refused
/// no other body is judged.
///
/// [`CameToEnd`] tells which bytes came: none at first, and with each piece those of the piece too.
#[derive(Drop)]
pub struct ModuleToEnd {
    going: GoingOn,
    /// The bytes that are in no whole item yet.
    pending: Pending,
    /// How many bytes came, until they were refused.
    came: u64,
    /// Why no more are judged.
    refused: Option<Error>,
    alloc: Global,
}

impl ModuleToEnd {
    /// A module of which no bytes came yet. It is judged by these features and limits.
    pub fn new(
        alloc: Global,
        id: ValidatorId,
        features: WasmFeatures,
        limits: Limits,
    ) -> ModuleToEnd
        requires within { IsWithinCeilings limits }
        ensures came { CameToEnd (record { features = features.0; limits = limits }) id [] result }
    {
        ModuleToEnd {
            going: GoingOn {
                judging: Judging::new(alloc, id, features, limits),
                refused: None,
            },
            pending: Pending::none(alloc),
            came: 0,
            refused: None,
            alloc,
        }
    }

    /// Takes the next bytes of the module. The work is linear in the bytes, however they are cut.
    pub fn take(&mut self, bytes: &[u8])
        requires { HasBegun self.old }
        ensures came { (z : Settings) (id : ValidatorId) (got : List ℕ) → CameToEnd z id got self.old
            → CameToEnd z id (got ++ bytes.now) self.new }
    {
        match &self.refused {
            None => self.advance(bytes),
            Some(_) => (),
        }
    }

    /// Takes the next bytes, if none are refused so far.
    fn advance(&mut self, bytes: &[u8])
        requires way { HasBegun self.old }
        requires going { self.old.refused ≡ None }
        ensures came { (z : Settings) (id : ValidatorId) (got : List ℕ) → CameToEnd z id got self.old
            → CameToEnd z id (got ++ bytes.now) self.new }
    {
        let Some(came) = self.came.checked_add(bytes.len() as u64) else {
            // no memory has so many bytes
            self.refused = Some(Error::out_of_memory(0));
            return;
        };
        self.came = came;
        match take_handed(
            self.alloc,
            &mut self.going,
            &mut self.pending,
            bytes,
            usize::MAX,
        ) {
            Ok(()) => (),
            Err(PieceError::Refused(error)) => self.refused = Some(error),
            // no list has so many bytes
            Err(PieceError::TooLong) => self.refused = Some(Error::out_of_memory(0)),
        }
    }

    /// The verdict on the module whose bytes are all that came. An accepted module runs soundly, and what was learned
    /// of it is shown.
    ///
    /// # Errors
    ///
    /// The bytes are no valid module; or, of kind `OutOfMemory`, which is no verdict, there was no memory.
    pub fn end(self) -> Result<Types>
        requires { HasBegun self }
        ensures { (z : Settings) (id : ValidatorId) (got : List ℕ) → CameToEnd z id got self → length got < 2 ^ 64
            → TellsVerdict z id got result }
    {
        let ModuleToEnd {
            mut going,
            pending,
            came: _,
            refused,
            alloc: _,
        } = self;
        match refused {
            Some(error) => Err(error),
            None => conclude(&mut going, pending.bytes.as_slice()),
        }
    }
}
