//! Memory types.

ghost use Rattle.std.specs.Prelude.{◌≡◌, ◌<◌, ◌^◌};
ghost use Rattle.wasm_types_externs.specs.Addresses.{address_type, page_bits};

use wasm_types_values::ValType;

/// The logarithm of the usual size of a page, which is 65,536 bytes.
const DEFAULT_PAGE_SIZE_LOG2: u32 = 16;

/// A memory (WebAssembly 3.0, structure, memory types; the page size by the proposal on custom page sizes).
#[derive(Clone, Copy, Debug, PartialEq, Eq, Hash)]
pub struct MemoryType {
    /// Whether its addresses are numbers of 64 bits.
    pub memory64: bool,
    /// Whether it is shared between threads.
    pub shared: bool,
    /// How many pages it has at first.
    pub initial: u64,
    /// How many it may have, if that is limited.
    pub maximum: Option<u64>,
    /// The logarithm, to the base 2, of the bytes in a page, where it is written.
    pub page_size_log2: Option<u32>,
}

impl MemoryType {
    /// The type of its addresses.
    pub const fn index_type(&self) -> ValType
        ensures { result ≡ address_type self.now.memory64 }
    {
        if self.memory64 {
            ValType::I64
        } else {
            ValType::I32
        }
    }

    /// The logarithm, to the base 2, of the bytes in a page: 16, unless another is written.
    pub const fn page_size_log2(&self) -> u32
        ensures { result ≡ page_bits self.now.page_size_log2 }
    {
        match self.page_size_log2 {
            Some(bits) => bits,
            None => DEFAULT_PAGE_SIZE_LOG2,
        }
    }

    /// The bytes in a page, where the logarithm is below 32.
    pub const fn page_size(&self) -> u32
        requires { page_bits self.now.page_size_log2 < 32 }
        ensures { result ≡ 2 ^ page_bits self.now.page_size_log2 }
    {
        1 << self.page_size_log2()
    }
}
