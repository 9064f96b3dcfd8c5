//! What is told of an operator.

ghost use Rattle.std.specs.Prelude.{◌≡◌, Some, None};

use crate::Proposal;

/// What is told of an operator apart from what it carries (WebAssembly 3.0, appendix, index of instructions).
#[derive(Clone, Copy, Debug, PartialEq, Eq)]
pub struct OperatorInfo {
    /// The proposal that brought it.
    pub proposal: Proposal,
    /// Its name in the text format, as `i32.add`.
    pub name: &'static str,
    /// The byte before its code, if there is one.
    pub prefix: Option<u8>,
    /// Its opcode: a byte, or behind a prefix a number of 32 bits.
    pub code: u32,
}

impl OperatorInfo {
    ghost use Rattle.wasm_operators_immediates.specs.Info.{told, row};

    /// Of an operator whose code stands alone.
    #[inline]
    pub const fn plain(proposal: Proposal, name: &'static str, code: u32) -> OperatorInfo
        ensures { told result ≡ row proposal name.now None code }
    {
        OperatorInfo {
            proposal,
            name,
            prefix: None,
            code,
        }
    }

    /// Of an operator whose code stands behind a prefix.
    #[inline]
    pub const fn prefixed(
        proposal: Proposal,
        name: &'static str,
        prefix: u8,
        code: u32,
    ) -> OperatorInfo
        ensures { told result ≡ row proposal name.now (Some prefix) code }
    {
        OperatorInfo {
            proposal,
            name,
            prefix: Some(prefix),
            code,
        }
    }
}
