//! The types of a module that was accepted, as C holds them.

ghost use Rattle.std.specs.Prelude.{◌≡◌, ◌↔◌, Option, Some, None, MatchOption};
ghost use Rattle.durskeyl_c.specs.Handles.{kept_at};
ghost use Rattle.wasm_module_validator.specs.Shown.{Learned};

use crate::loose::LooseBox;
use std::alloc::Global;
use std::marker::Model;
use wasm_module_validator::Types;

/// The place of types, or null if none are kept. It stands for a box, which C cannot be handed. As it is not `Drop`, what is there is never
/// forgotten.
#[repr(C)]
pub(crate) struct KeptPlace {
    /// The types, of a type that C does not see into.
    at: *mut u8,
    alloc: Global,
    pub(crate) ghost value: { Option Learned },
}

impl Model for KeptPlace {
    ghost also_owns = { λ p. kept_at p.alloc p.at p.value };
}

impl KeptPlace {
    /// Null.
    fn null(alloc: Global) -> KeptPlace
        ensures { result.value ≡ None }
    {
        KeptPlace {
            at: std::ptr::null_mut(),
            alloc,
        }
    }

    /// The place of these types.
    fn of(it: LooseBox<Types, Global>) -> KeptPlace
        ensures { result.value ≡ Some it.value }
    {
        let LooseBox { at, alloc } = it;
        KeptPlace {
            at: at as *mut u8,
            alloc,
        }
    }

    /// The types that are there.
    fn into_loose(self) -> LooseBox<Types, Global>
        requires { ¬ (self.value ≡ None) }
        ensures { self.value ≡ Some result.value }
    {
        let KeptPlace { at, alloc } = self;
        LooseBox {
            at: at as *mut Types,
            alloc,
        }
    }

    /// Lets go of a place with nothing there.
    fn let_go(self)
        requires { self.value ≡ None }
    {
        let KeptPlace { at: _, alloc: _ } = self;
    }
}

/// What C holds of a module that was accepted: nothing while it is all 0, and else what the calls left there.
#[repr(C)]
pub struct DurskeylModule {
    /// Where its types are, if they are kept.
    pub(crate) inside: KeptPlace,
    /// Whether they are: 1 if so, else 0.
    known: u64,
    ghost tied: { (known ≡ 0) ↔ (inside.value ≡ None) },
}

impl DurskeylModule {
    /// None are kept.
    pub(crate) fn none(alloc: Global) -> DurskeylModule
        ensures { result.inside.value ≡ None }
    {
        DurskeylModule {
            inside: KeptPlace::null(alloc),
            known: 0,
        }
    }

    /// These are kept.
    pub(crate) fn of(it: Box<Types>) -> DurskeylModule
        ensures { result.inside.value ≡ Some it.value }
    {
        DurskeylModule {
            inside: KeptPlace::of(LooseBox::of(it)),
            known: 1,
        }
    }

    /// The types, if they are kept.
    pub(crate) fn into_box(self) -> Option<Box<Types>>
        ensures { MatchOption result (self.inside.value ≡ None) (λ it. self.inside.value ≡ Some it.value) }
    {
        let DurskeylModule { inside, known } = self;
        if known == 0 {
            inside.let_go();
            return None;
        }
        Some(inside.into_loose().into_box())
    }
}

/// Takes the types out of the handle, if it has some.
pub(crate) fn taken(alloc: Global, module: &mut DurskeylModule) -> Option<Box<Types>>
    ensures there { MatchOption result (module.old.inside.value ≡ None)
        (λ it. module.old.inside.value ≡ Some it.value) }
    ensures empty { module.new.inside.value ≡ None }
{
    std::mem::replace(module, DurskeylModule::none(alloc)).into_box()
}

/// Puts types into the handle. What was there before is given back.
pub(crate) fn put(module: &mut DurskeylModule, it: Box<Types>)
    ensures { module.new.inside.value ≡ Some it.value }
{
    let _before = std::mem::replace(module, DurskeylModule::of(it)).into_box();
}

/// Gives back the types of the handle, if it has some.
pub(crate) fn give_back(alloc: Global, module: &mut DurskeylModule)
    ensures { module.new.inside.value ≡ None }
{
    let _before = taken(alloc, module);
}
