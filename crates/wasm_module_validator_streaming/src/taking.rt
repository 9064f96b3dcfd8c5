//! What takes bytes item by item, and all whole items of some bytes taken by it.

ghost use Rattle.std.specs.Prelude.{◌≡◌, ◌++◌, ◌<◌, ◌^◌, ℕ, Bool, true, false, List, length};
ghost use Rattle.wasm_types.specs.decoding.declared.error.ErrorKind.TheVariants.{OutOfMemory};
ghost use Rattle.wasm_types.specs.decoding.ErrorValue.{ErrorValue};
ghost use Rattle.wasm_module_validator_streaming.specs.Taking.{IsMidst, Takes, Advances};

use wasm_types::Error;

/// What bytes bring.
#[derive(Drop)]
pub(crate) enum Taken<D> {
    /// An item of so many bytes was taken.
    Item(usize),
    /// So many more bytes are needed.
    Waits(usize),
    /// All has come, and this is known of it.
    Ended(D),
    /// It is refused.
    Refused(Error),
}

/// What takes bytes item by item, and says at last whether all of them are accepted.
pub(crate) trait TakesBytes {
    /// What is known of bytes that are accepted.
    type Done: Drop;

    /// From what it was at first these bytes came, and no more where that is said; these are left, and now it is this.
    ghost stands: { Self → List ℕ → Bool → List ℕ → Self → Type 0 };

    /// By what it was at first all these bytes are accepted, and this is known of them.
    ghost shown: { Self → List ℕ → Self.Done → Type 0 };

    /// By what it was at first this error denies that all these bytes are accepted.
    ghost denied: { Self → List ℕ → ErrorValue → Type 0 };

    /// Of these bytes no item is whole, and none is refused.
    ghost waits: { Self → List ℕ → Type 0 };

    /// Takes the item at the front of the bytes that are left, if it is whole. Behind them no byte follows if `eof` says so.
    fn take(&mut self, bytes: &[u8], eof: bool) -> Taken<Self::Done>
        requires { IsMidst stands eof bytes.now self.old }
        ensures { (first : Self) (got : List ℕ) → stands first got eof bytes.now self.old → length got < 2 ^ 64
            → Takes stands shown denied waits first got eof bytes.now result self.new };

    /// More bytes may come.
    ghost more: { (first : Self) (got : List ℕ) (rest : List ℕ) (now : Self) (bytes : List ℕ)
        → stands first got false rest now → stands first (got ++ bytes) false (rest ++ bytes) now };

    /// It may be known that no more come.
    ghost last: { (first : Self) (got : List ℕ) (rest : List ℕ) (now : Self)
        → stands first got false rest now → stands first got true rest now };

    /// Out of memory denies nothing.
    ghost memory: { (first : Self) (text : List ℕ) (e : ErrorValue) → e.kind ≡ OutOfMemory → denied first text e };
}

/// What became of all whole items of some bytes.
#[derive(Drop)]
pub(crate) enum Advanced<D> {
    /// They were taken, and behind them so many more bytes are needed than there are.
    Waits {
        /// How many bytes were taken.
        passed: usize,
        /// How many more are needed.
        needed: usize,
    },
    /// All has come, and this is known of it.
    Ended(D),
    /// It is refused.
    Refused(Error),
}

/// Takes all whole items of the bytes that are left. Behind them no byte follows if `eof` says so.
pub(crate) fn take_items<T: TakesBytes>(taker: &mut T, bytes: &[u8], eof: bool) -> Advanced<T::Done>
    requires { IsMidst T.stands eof bytes.now taker.old }
    ensures { (first : T) (got : List ℕ) → T.stands first got eof bytes.now taker.old → length got < 2 ^ 64
        → Advances T.stands T.shown T.denied T.waits first got eof bytes.now result taker.new }
{
    let mut passed = 0;
    for _turn in 0..=bytes.len() {
        match taker.take(&bytes[passed..], eof) {
            Taken::Item(count) => passed += count,
            Taken::Waits(needed) => return Advanced::Waits { passed, needed },
            Taken::Ended(done) => return Advanced::Ended(done),
            Taken::Refused(error) => return Advanced::Refused(error),
        }
    }
    unreachable!()
}
