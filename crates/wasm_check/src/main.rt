//! `wasm-check [OPTIONS] FILE...` says of each file whether it is a valid WebAssembly module.
#![tactic(auto)]

use std::io::IsTerminal;
use std::process::ExitCode;
use wasm_check_program::{Watched, run_at, words};

fn main(rt: HostRuntime) -> ExitCode {
    let Ok(words) = words(&rt) else {
        let _ = eprintln!(rt; "wasm-check: out of memory");
        return ExitCode::from(2);
    };
    let mut out = Watched::new(rt.stdout());
    let mut err = rt.stderr();
    let at_terminal = err.is_terminal();
    let status = run_at(&rt, words.as_slice(), at_terminal, &mut out, &mut err);
    if at_terminal && out.is_refused() {
        let _ = eprintln!(rt; "  --vectors judges operators on vectors");
    }
    ExitCode::from(status)
}
