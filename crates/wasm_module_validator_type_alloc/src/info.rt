//! How much there is to visit in a type.

ghost use Rattle.std.specs.Prelude.{◌≡◌, ◌<◌, ◌^◌};

/// How much there is to visit in a type, if each of its parts is visited by itself.
#[derive(Clone, Copy, Debug, PartialEq, Eq, PartialOrd, Ord, Hash)]
pub struct TypeInfo(u32);

impl TypeInfo {
    /// That of size 1.
    pub const fn new() -> TypeInfo
        ensures { result.0 ≡ 1 }
    {
        TypeInfo(1)
    }

    /// That of this size.
    pub const fn core(size: u32) -> TypeInfo
        requires { size < 2 ^ 24 }
        ensures { result.0 ≡ size }
    {
        TypeInfo(size)
    }

    /// Its size.
    pub const fn size(&self) -> u32
        ensures { result ≡ self.now.0 }
    {
        self.0
    }
}
