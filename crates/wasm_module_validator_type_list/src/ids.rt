//! The names of groups.

/// The number of a group among all the groups that one validator knows.
#[derive(Clone, Copy, Debug, PartialEq, Eq, PartialOrd, Ord, Hash)]
pub struct RecGroupId(u32);

impl RecGroupId {
    ghost use Rattle.std.specs.Prelude.{◌≡◌};

    /// The group of this number.
    pub const fn new(number: u32) -> Self
        ensures { result.0 ≡ number }
    {
        RecGroupId(number)
    }

    /// Its number.
    pub const fn number(&self) -> u32
        ensures { result ≡ self.now.0 }
    {
        self.0
    }
}
