//! A value that is owned until it is shared.

ghost use Rattle.std.specs.Prelude.{◌≡◌, IsTrue, IfOk, OnOk, OnErr, Some, None, option_map, if◌then◌else◌, true, false};
ghost use Rattle.wasm_module_validator_type_alloc.specs.Held.{held};

use std::alloc::{AllocError, Global};
use std::marker::Model;
use std::ops::Deref;
use std::rc::Rc;

/// A value that may be changed until it is shared, and from then on is shared as it stands.
#[derive(Drop)]
pub struct MaybeOwned<T> {
    alloc: Global,
    // The value, until it is shared.
    own: Option<T>,
    // The same from then on.
    shared: Option<Rc<T>>,
}

impl<T> Model for MaybeOwned<T> {
    ghost use Rattle.std.specs.Prelude.{IsSome, option_map, is_some};
    ghost use Rattle.wasm_module_validator_type_alloc.specs.Held.{Held, held};

    ghost Value = { Held T };

    ghost view = { λ m. held m.own (option_map (λ s. s.value) m.shared) };

    ghost invariant = { λ m. IsSome (held m.own (option_map (λ s. s.value) m.shared)).value };
}

impl<T> MaybeOwned<T> {
    ghost use Rattle.std.specs.Borrow.{Lends, sem};
    ghost use Rattle.wasm_module_validator_type_alloc.specs.contracts.maybe_owned.MaybeOwned.{the_row};

    /// A value that is owned. It takes no memory.
    pub fn new(alloc: Global, value: T) -> MaybeOwned<T>
        ensures value { result.value ≡ Some value }
        ensures is_owned { result.is_owned ≡ true }
    {
        MaybeOwned {
            alloc,
            own: Some(value),
            shared: None,
        }
    }

    /// Whether it is not shared.
    pub fn is_owned(&self) -> bool
        ensures { result ≡ self.now.is_owned }
    {
        self.own.is_some()
    }

    /// The value, to change.
    pub fn assert_mut(&mut self) -> &mut T
        requires { IsTrue self.old.is_owned }
        ensures* writes_back { sem 𝓛 (Lends (the_row T.row) T.row self.entry result
            (λ value. record { value = Some value; is_owned = true })) }
        ensures value { self.old.value ≡ Some result.now }
    {
        match &mut self.own {
            Some(value) => value,
            None => unreachable!(),
        }
    }
}

// Shares what is owned. Where there is no memory, nothing changes.
fn share<T: Drop>(
    alloc: Global,
    own: &mut Option<T>,
    shared: &mut Option<Rc<T>>,
) -> Result<(), AllocError>
    ensures taken { OnOk result (own.new ≡ None) }
    ensures same { OnOk result (option_map (λ s. s.value) shared.new ≡
        (held own.old (option_map (λ s. s.value) shared.old)).value) }
    ensures own_stays { OnErr result (own.new ≡ own.old) }
    ensures shared_stays { OnErr result (shared.new ≡ shared.old) }
{
    let Some(value) = own.take() else {
        return Ok(());
    };
    match Rc::new(alloc, value) {
        Ok(rc) => {
            *shared = Some(rc);
            Ok(())
        }
        Err(failed) => {
            *own = Some(failed.value);
            Err(AllocError)
        }
    }
}

impl<T: Drop> MaybeOwned<T> {
    /// Shares the value from now on. Where there is no memory for it, nothing changes.
    pub fn make_shared(&mut self) -> Result<(), AllocError>
        ensures value { self.new.value ≡ self.old.value }
        ensures is_shared { OnOk result (self.new.is_owned ≡ false) }
        ensures refused { OnErr result (self.new.is_owned ≡ self.old.is_owned) }
    {
        share(self.alloc, &mut self.own, &mut self.shared)
    }

    /// The value as it is shared, once it is.
    pub fn shared(&self) -> Option<&Rc<T>>
        ensures { option_map (λ rc. rc.now.value) result ≡ (if self.now.is_owned then None else self.now.value) }
    {
        match &self.own {
            Some(_) => None,
            None => self.shared.as_ref(),
        }
    }

    /// A further owner of the value, which is shared from now on. Refused where there is no memory to share it, and where it
    /// has as many owners as can be counted; the value stays.
    pub fn arc(&mut self) -> Result<Rc<T>, AllocError>
        ensures owner { IfOk result (λ rc. self.old.value ≡ Some rc.value) }
        ensures value { self.new.value ≡ self.old.value }
        ensures is_shared { OnOk result (self.new.is_owned ≡ false) }
        ensures stays_shared { self.old.is_owned ≡ false → self.new.is_owned ≡ false }
    {
        self.make_shared()?;
        match &self.shared {
            Some(shared) => shared.clone(),
            None => unreachable!(),
        }
    }
}

impl<T> Deref for MaybeOwned<T> {
    type Target = T;

    ghost deref_gives = { λ m value. m.value ≡ Some value };

    fn deref(&self) -> &T {
        match &self.own {
            Some(value) => value,
            None => match &self.shared {
                Some(shared) => &**shared,
                None => unreachable!(),
            },
        }
    }
}
