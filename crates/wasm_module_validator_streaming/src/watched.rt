//! A reader that notes what became of the reads through it.

ghost use Rattle.std.specs.Prelude.{◌≡◌, ◌+◌, ◌≤◌, ◌^◌, ◌-◌, min, true, false, is_some, is_none, Bool, ◌||◌};
ghost use Rattle.wasm_module_validator_streaming.specs.Reads.{Gives};

use std::io::Read;

/// A reader, whether a read through it failed, and how many reads went through it.
#[derive(Drop)]
pub struct WatchedReader<R> {
    reader: R,
    has_failed: bool,
    reads: u64,
}

impl<R> WatchedReader<R> {
    /// This reader, through which nothing was read.
    pub fn new(reader: R) -> WatchedReader<R>
        ensures reader { result.reader ≡ reader }
        ensures failed { result.has_failed ≡ false }
        ensures reads { result.reads ≡ 0 }
    {
        WatchedReader {
            reader,
            has_failed: false,
            reads: 0,
        }
    }

    /// Whether a read through it failed.
    pub fn has_failed(&self) -> bool
        ensures { result ≡ self.now.has_failed }
    {
        self.has_failed
    }

    /// How many reads went through it, `u64::MAX` where they were more.
    pub fn reads(&self) -> u64
        ensures { result ≡ self.now.reads }
    {
        self.reads
    }

    /// The reader.
    pub fn into_inner(self) -> R
        ensures { result ≡ self.reader }
    {
        let WatchedReader {
            reader,
            has_failed: _,
            reads: _,
        } = self;
        reader
    }
}

impl<R: Read> WatchedReader<R> {
    /// One read, of at most as many bytes as the chunk has: how many came, at its front, or none where the read failed.
    pub(crate) fn read_once(&mut self, chunk: &mut [u8]) -> Option<usize>
        ensures gives { Gives (R.remaining self.old.reader) (R.remaining self.new.reader) result chunk.new }
        ensures failed { self.new.has_failed ≡ (self.old.has_failed || is_none result) }
        ensures reads { self.new.reads ≡ min (self.old.reads + 1) (2 ^ 64 - 1) }
    {
        self.reads = self.reads.saturating_add(1);
        match self.reader.read(chunk) {
            Ok(count) => Some(count),
            Err(_error) => {
                self.has_failed = true;
                None
            }
        }
    }
}
