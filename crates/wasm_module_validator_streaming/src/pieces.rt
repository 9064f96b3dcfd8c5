//! A module whose pieces are handed over, one after the other.

ghost use Rattle.std.specs.Prelude.{◌≡◌, ◌≤◌, ◌<◌, ◌^◌, ◌++◌, [], List, ℕ, length, vec_len, IfErr, IfSome, OnOk};
ghost use Rattle.wasm_types.specs.settings.Limits.{IsWithinCeilings};
ghost use Rattle.wasm_types.specs.settings.Settings.{Settings};
ghost use Rattle.wasm_module_validator_index_spaces.specs.declared.view.validator_id.ValidatorId.{ValidatorId};
ghost use Rattle.wasm_module_validator_streaming.specs.Awaiting.{IsNotRefused};
ghost use Rattle.wasm_module_validator_streaming.specs.HandedOver.{Came, IsUnderWay, RefusesFrom, TellsModule, IsAgain, Remembers};

use crate::handing::{PieceError, conclude, take_handed};
use crate::judging::Judging;
use crate::reading::Pending;
use std::alloc::Global;
use wasm_module_validator::Types;
use wasm_module_validator_index_spaces::view::ValidatorId;
use wasm_types::{Error, ErrorKind, Limits, WasmFeatures};

/// A module as far as its bytes were handed over. Each section, and each body, is judged as soon as it is whole, and is not kept; so what
/// is held of the bytes is a part of one item. Contents of a custom section decide nothing: once its id, its size and its name came, they
/// go by.
///
/// [`Came`] tells which bytes came: none at first, and with each piece that is taken those of the piece too.
#[derive(Drop)]
pub struct ModuleInPieces {
    judging: Judging,
    /// The bytes that are in no whole item yet.
    pending: Pending,
    /// How many bytes may be held.
    most: usize,
    /// How many bytes came, until they were refused.
    came: u64,
    /// Why no more are taken.
    refused: Option<PieceError>,
    alloc: Global,
}

impl ModuleInPieces {
    /// A module of which no bytes came yet. It is judged by these features and limits, and of its bytes at most `most` are held.
    pub fn new(
        alloc: Global,
        id: ValidatorId,
        features: WasmFeatures,
        limits: Limits,
        most: usize,
    ) -> ModuleInPieces
        requires within { IsWithinCeilings limits }
        ensures came { Came (record { features = features.0; limits = limits }) id [] result }
        ensures most { result.most ≡ most }
        ensures refused { result.refused ≡ None }
    {
        ModuleInPieces {
            judging: Judging::new(alloc, id, features, limits),
            pending: Pending::none(alloc),
            most,
            came: 0,
            refused: None,
            alloc,
        }
    }

    /// Takes the next bytes of the module: of those that came now each whole item is judged, and none is refused.
    ///
    /// The work is linear in the bytes, however they are cut: an item that is not whole is looked at again only if as many bytes came as it
    /// asked for. What lies whole in one piece is judged in its place, and is not copied.
    ///
    /// # Errors
    ///
    /// `Refused`: the bytes that came refuse each module that begins with them; or, of kind `OutOfMemory`, which is no verdict, there is no
    /// memory. `TooLong`, which is no verdict either: an item that came in several pieces, and is no custom section of which the id, the
    /// size and the name came, has more than `most` bytes, so more would have to be held; or the module has 2^64 bytes. An error stays:
    /// each later call has the same, of the same kind, at the same offset.
    pub fn take(&mut self, bytes: &[u8]) -> Result<(), PieceError>
        requires { IsUnderWay self.old }
        ensures came { (z : Settings) (id : ValidatorId) (got : List ℕ) → Came z id got self.old
            → Came z id (got ++ bytes.now) self.new }
        ensures ok { OnOk result ((z : Settings) (id : ValidatorId) (got : List ℕ) → Came z id got self.old
            → IsNotRefused z (got ++ bytes.now)) }
        ensures err { IfErr result (λ e. (z : Settings) (id : ValidatorId) (got : List ℕ) → Came z id got self.old
            → RefusesFrom z self.old.most (got ++ bytes.now) e) }
        ensures refused { Remembers result self.new.refused }
        ensures stays { IfSome self.old.refused (λ _. self.new.refused ≡ self.old.refused) }
        ensures held { vec_len self.new.pending.bytes ≤ self.new.most }
        ensures most { self.new.most ≡ self.old.most }
    {
        if let Some(error) = &self.refused {
            return Err(again(error));
        }
        match self.advance(bytes) {
            Ok(()) => Ok(()),
            Err(error) => {
                self.refused = Some(again(&error));
                Err(error)
            }
        }
    }

    /// Takes the next bytes, if none are refused so far.
    fn advance(&mut self, bytes: &[u8]) -> Result<(), PieceError>
        requires way { IsUnderWay self.old }
        requires going { self.old.refused ≡ None }
        ensures came { OnOk result ((z : Settings) (id : ValidatorId) (got : List ℕ) → Came z id got self.old
            → Came z id (got ++ bytes.now) self.new) }
        ensures err { IfErr result (λ e. (z : Settings) (id : ValidatorId) (got : List ℕ) → Came z id got self.old
            → RefusesFrom z self.old.most (got ++ bytes.now) e) }
        ensures refused { self.new.refused ≡ None }
        ensures held { vec_len self.new.pending.bytes ≤ self.new.most }
        ensures most { self.new.most ≡ self.old.most }
    {
        let Some(came) = self.came.checked_add(bytes.len() as u64) else {
            return Err(PieceError::TooLong);
        };
        self.came = came;
        match take_handed(
            self.alloc,
            &mut self.judging,
            &mut self.pending,
            bytes,
            self.most,
        ) {
            Ok(()) => Ok(()),
            Err(error) => Err(error),
        }
    }

    /// The verdict on the module whose bytes are all that came. An accepted module runs soundly, and what was learned of it is shown.
    ///
    /// # Errors
    ///
    /// `Refused`: the bytes are no valid module, or were refused before; or there is no memory, which is no verdict. `TooLong`: so it was before.
    pub fn end(self) -> Result<Types, PieceError>
        requires { IsUnderWay self }
        ensures told { (z : Settings) (id : ValidatorId) (got : List ℕ) → Came z id got self → length got < 2 ^ 64
            → TellsModule z id self.most got result }
        ensures stays { IfSome self.refused (λ e. result ≡ Err e) }
    {
        let mut module = self;
        module.verdict()
    }

    /// The verdict, if no bytes follow those that came.
    fn verdict(&mut self) -> Result<Types, PieceError>
        requires { IsUnderWay self.old }
        ensures told { (z : Settings) (id : ValidatorId) (got : List ℕ) → Came z id got self.old → length got < 2 ^ 64
            → TellsModule z id self.old.most got result }
        ensures stays { IfSome self.old.refused (λ e. result ≡ Err e) }
    {
        match self.refused.take() {
            Some(error) => Err(error),
            None => match conclude(&mut self.judging, self.pending.bytes.as_slice()) {
                Ok(types) => Ok(types),
                Err(error) => Err(PieceError::Refused(error)),
            },
        }
    }
}

/// The same error again.
fn again(error: &PieceError) -> PieceError
    ensures { IsAgain error.now result }
{
    match error {
        PieceError::Refused(error) => PieceError::Refused(refused_again(error)),
        PieceError::TooLong => PieceError::TooLong,
    }
}

/// An error of the same kind, at the same offset.
fn refused_again(error: &Error) -> Error
    ensures kind { result.kind ≡ error.now.kind }
    ensures offset { result.offset ≡ error.now.offset }
{
    error.again()
}
