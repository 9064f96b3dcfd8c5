//! Files that a list names.
ghost use Rattle.std.specs.Prelude.{◌≡◌, ℕ, IsTrue, false, List, All, IfOk, IfErr, OnOk, map, string_bytes};
ghost use Rattle.wasm_check_command.specs.Files.{CannotOpen, FailsList, HasList, HasNames, IsApart, IsListFault, texts};
ghost use Rattle.wasm_check_command.specs.Modes.{ReadsWithin};
ghost use Rattle.wasm_check_command.specs.Opened.{names_stdin};

use crate::files::{is_stdin, open_named};
use crate::judging::read_whole;
use crate::names::names_in;
use std::alloc::{AllocError, Global};
use std::io::{Input as Standard, Read};
use std::rt::Files;
use wasm_check_faults::{Fault, Reason};

/// The names in the list that a reader has left: what is between the bytes 0. They are told of as the list of this name.
fn read_names<'a, R: Read>(
    alloc: Global,
    reader: &mut R,
    list: &'a str,
) -> Result<Vec<String>, Fault<'a>>
    ensures ok { IfOk result (λ names. HasList (R.remaining reader.old) (map string_bytes names.items)) }
    ensures err { IfErr result (FailsList list.entry.now (R.remaining reader.old)) }
    ensures most { ReadsWithin (R.remaining reader.old) (R.remaining reader.new) }
{
    let mut bytes = Vec::new(alloc);
    match read_whole(0, reader, &mut bytes) {
        Ok(()) => (),
        Err(failure) => {
            return Err(Fault::Stopped {
                error: failure.error,
                name: list,
                reason: failure.reason,
            });
        }
    }
    match names_in(alloc, bytes.as_slice()) {
        Ok(names) => Ok(names),
        Err(_) => Err(Fault::OutOfMemory),
    }
}

/// Whether none of these names is that of standard input.
fn are_files(names: &[String]) -> bool
    ensures { IsTrue result → All (λ n. names_stdin n ≡ false) (map string_bytes names.now) }
{
    for place in 0..names.len() {
        if is_stdin(names[place].as_str()) {
            return false;
        }
    }
    true
}

/// Refuses a list that standard input gives and that names standard input: what is left of the list would be judged.
fn check_apart<'a>(list: &'a str, names: &[String]) -> Result<(), Fault<'a>>
    ensures ok { OnOk result (IsApart list.entry.now (map string_bytes names.now)) }
    ensures err { IfErr result (CannotOpen list.entry.now) }
{
    if !is_stdin(list) {
        return Ok(());
    }
    if are_files(names) {
        return Ok(());
    }
    Err(Fault::CannotOpen {
        name: list,
        reason: Reason::GivesList,
    })
}

/// The names in the list that a file has; `-` is standard input, which such a list may not name.
pub(crate) fn read_list<'a, F: Files + Standard>(
    alloc: Global,
    rt: &F,
    list: &'a str,
) -> Result<Vec<String>, Fault<'a>>
    ensures ok { IfOk result (λ names. HasNames list.entry.now (map string_bytes names.items)) }
    ensures err { (given : List (List ℕ)) → IfErr result (IsListFault list.entry.now given) }
{
    let mut reader = match open_named(rt, list) {
        Ok(reader) => reader,
        Err(fault) => return Err(fault),
    };
    let names = match read_names(alloc, &mut reader, list) {
        Ok(names) => names,
        Err(fault) => return Err(fault),
    };
    match check_apart(list, names.as_slice()) {
        Ok(()) => Ok(names),
        Err(fault) => Err(fault),
    }
}

/// These names, borrowed.
pub(crate) fn borrowed<'a>(alloc: Global, names: &'a [String]) -> Result<Vec<&'a str>, AllocError>
    ensures { IfOk result (λ all. texts all.items ≡ map string_bytes names.entry.now) }
{
    let mut all = Vec::new(alloc);
    for place in 0..names.len() {
        all.push(names[place].as_str())?;
    }
    Ok(all)
}
