//! What lends a value: a reference that may change it, and a box.

ghost use Rattle.std.specs.Prelude.{◌≡◌, refl};
ghost use Rattle.std.specs.Borrow.{sem, Lends};

/// What lends a value that lies behind it.
pub trait Lender {
    /// What lies behind it.
    type Lent;

    /// The value that it lends.
    ghost lent: { Self → Self.Lent };

    /// What it is once this value lies behind it.
    ghost put: { Self → Self.Lent → Self };

    /// Lends what lies behind it.
    fn lend(&mut self) -> &mut Self::Lent
        ensures* writes_back { sem 𝓛 (Lends Self.row Self.Lent.row self.entry result (put self.old)) }
        ensures now { result.now ≡ lent self.old };

    // It lends what was put behind it.
    ghost puts: { (it : Self) (with : Self.Lent) → lent (put it with) ≡ with };
}

impl<V> Lender for &mut V {
    type Lent = V;

    ghost lent = { λ it. it.now };

    ghost put = { λ it with. record it { now = with } };

    #[inline]
    fn lend(&mut self) -> &mut V {
        &mut **self
    }

    ghost puts = { λ _ _. refl };
}

impl<V> Lender for Box<V> {
    type Lent = V;

    ghost lent = { λ it. it.value };

    ghost put = { λ it with. record it { value = with } };

    #[inline]
    fn lend(&mut self) -> &mut V {
        &mut **self
    }

    ghost puts = { λ _ _. refl };
}
