//! Why a run came to no verdict.
ghost use Rattle.std.specs.Prelude.{◌≡◌};
ghost use Rattle.wasm_check_faults.specs.Errors.{number_of};

use std::error::Error;
use std::fmt;

/// Why the inputs weren't all judged. Numbers are the inputs' places, from 0 on.
#[derive(Clone, Copy, Debug, PartialEq, Eq)]
pub enum CheckError {
    /// A read of this input failed.
    Read(usize),
    /// This input has more than 2^30 bytes.
    TooLong(usize),
    /// Memory ran out at this input.
    OutOfMemory(usize),
    /// The output took no more.
    Write,
}

impl CheckError {
    /// Which of the four it is, from 1 on.
    pub fn number(&self) -> u8
        ensures { result ≡ number_of self.now }
    {
        match self {
            CheckError::Read(_) => 1,
            CheckError::TooLong(_) => 2,
            CheckError::OutOfMemory(_) => 3,
            CheckError::Write => 4,
        }
    }
}

impl fmt::Display for CheckError {
    ghost use Rattle.std.specs.Prelude.{Some};
    ghost use Rattle.wasm_check_faults.specs.Errors.{error_text};

    ghost output = { λ e. Some (error_text e) };

    fn fmt<W: fmt::Write>(&self, f: &mut fmt::Formatter<W>) -> fmt::Result {
        match self {
            CheckError::Read(index) => write!(f, "input {index}: cannot read"),
            CheckError::TooLong(index) => write!(f, "input {index}: too long"),
            CheckError::OutOfMemory(index) => write!(f, "input {index}: out of memory"),
            CheckError::Write => write!(f, "cannot write"),
        }
    }
}

impl Error for CheckError {}
