//! A module in pieces, as C holds it.

ghost use Rattle.std.specs.Prelude.{◌≡◌, ◌↔◌, Option, Some, None, MatchOption};
ghost use Rattle.durskeyl_c.specs.Handles.{owned_at};
ghost use Rattle.wasm_module_validator_streaming.specs.declared.pieces.ModuleInPieces.{ModuleInPieces};

use crate::loose::LooseBox;
use std::alloc::Global;
use std::marker::Model;
use wasm_module_validator_streaming::ModuleInPieces;

/// The place of a module that was begun, or null if none was. It stands for a box, which C cannot be handed. As it is not `Drop`, what is there
/// is never forgotten.
#[repr(C)]
pub(crate) struct Place {
    /// The module, of a type that C does not see into.
    at: *mut u8,
    alloc: Global,
    pub(crate) ghost value: { Option ModuleInPieces },
}

impl Model for Place {
    ghost also_owns = { λ p. owned_at p.alloc p.at p.value };
}

impl Place {
    /// Null.
    fn null(alloc: Global) -> Place
        ensures { result.value ≡ None }
    {
        Place {
            at: std::ptr::null_mut(),
            alloc,
        }
    }

    /// The place of this module.
    fn of(it: LooseBox<ModuleInPieces, Global>) -> Place
        ensures { result.value ≡ Some it.value }
    {
        let LooseBox { at, alloc } = it;
        Place {
            at: at as *mut u8,
            alloc,
        }
    }

    /// The module that is there.
    fn into_loose(self) -> LooseBox<ModuleInPieces, Global>
        requires { ¬ (self.value ≡ None) }
        ensures { self.value ≡ Some result.value }
    {
        let Place { at, alloc } = self;
        LooseBox {
            at: at as *mut ModuleInPieces,
            alloc,
        }
    }

    /// Lets go of a place with nothing there.
    fn let_go(self)
        requires { self.value ≡ None }
    {
        let Place { at: _, alloc: _ } = self;
    }
}

/// What C holds of a module whose pieces it hands over: nothing while it is all 0, and else what the calls left there.
#[repr(C)]
pub struct DurskeylPieces {
    /// Where the module is, if one was begun.
    pub(crate) inside: Place,
    /// Whether one was begun: 1 if so, else 0.
    begun: u64,
    ghost tied: { (begun ≡ 0) ↔ (inside.value ≡ None) },
}

impl DurskeylPieces {
    /// None was begun.
    pub(crate) fn none(alloc: Global) -> DurskeylPieces
        ensures { result.inside.value ≡ None }
    {
        DurskeylPieces {
            inside: Place::null(alloc),
            begun: 0,
        }
    }

    /// One was begun.
    pub(crate) fn of(it: Box<ModuleInPieces>) -> DurskeylPieces
        ensures { result.inside.value ≡ Some it.value }
    {
        DurskeylPieces {
            inside: Place::of(LooseBox::of(it)),
            begun: 1,
        }
    }

    /// The module, if one was begun.
    pub(crate) fn into_box(self) -> Option<Box<ModuleInPieces>>
        ensures { MatchOption result (self.inside.value ≡ None) (λ it. self.inside.value ≡ Some it.value) }
    {
        let DurskeylPieces { inside, begun } = self;
        if begun == 0 {
            inside.let_go();
            return None;
        }
        Some(inside.into_loose().into_box())
    }
}
