//! What tells a validator from others.

ghost use Rattle.std.specs.Prelude.{◌≡◌};

/// Tells a validator from others; the caller makes each number once.
#[derive(Clone, Copy, Debug, PartialEq, Eq, PartialOrd, Ord, Hash)]
pub struct ValidatorId(usize);

impl ValidatorId {
    /// The id of this number.
    pub const fn new(number: usize) -> ValidatorId
        ensures { result.0 ≡ number }
    {
        ValidatorId(number)
    }
}
