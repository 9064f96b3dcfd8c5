//! Faults are told on standard error.
ghost use Rattle.std.specs.Io.KnownBytes.{Keeps};
ghost use Rattle.std.specs.Prelude.{◌≡◌, true};
ghost use Rattle.wasm_check_faults.specs.FaultTexts.{is_silent};

use crate::judging::write_text;
use std::alloc::Global;
use std::io::Write;
use wasm_check_faults::{Below, Fault, Told, is_silent};

/// Tells a fault: its line and what comes below it, in one write if memory allows. Nothing is told if nobody reads the lines any more.
pub fn tell<E: Write>(alloc: Global, fault: &Fault<'_>, below: Below, err: &mut E)
    ensures silent { is_silent fault.now ≡ true → Keeps (E.contents err.old) (E.contents err.new) }
{
    if is_silent(fault) {
        return;
    }
    let told = Told { fault, below };
    // The status tells the fault where its line can't be written.
    match format!(in alloc; "{told}") {
        Ok(text) => {
            let _ = write_text(text.as_bytes(), err);
        }
        Err(_) => {
            let _ = write!(err, "{told}");
        }
    }
    let _ = err.flush();
}

/// Says why there is no status of the files.
pub fn report<E: Write>(alloc: Global, fault: &Fault<'_>, below: Below, err: &mut E) -> u8
    ensures code { result ≡ 2 }
    ensures silent { is_silent fault.now ≡ true → Keeps (E.contents err.old) (E.contents err.new) }
{
    tell(alloc, fault, below, err);
    2
}
