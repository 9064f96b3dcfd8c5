//! Names that are kept one after the other, so that none takes memory by itself.

ghost use Rattle.std.specs.Prelude.{◌≡◌, ◌++◌, ◌+◌, ◌≤◌, length, vec_len, vec_capacity, IsUtf8};
ghost use Rattle.wasm_module_validator_exports.specs.names.Kept.{IsNamed, name_at};

use std::str;

// Where a name begins and ends, among the bytes of all names.
#[derive(Clone, Copy)]
pub(crate) struct KeptName {
    pub(crate) start: usize,
    pub(crate) end: usize,
}

// The bytes of a name.
pub(crate) fn bytes_of<'a>(names: &'a [u8], name: KeptName) -> &'a [u8]
    requires { IsNamed names.now name }
    ensures { result.now ≡ name_at names.now name }
{
    &names[name.start..name.end]
}

// A name.
pub(crate) fn name_of<'a>(names: &'a [u8], name: KeptName) -> &'a str
    requires { IsNamed names.now name }
    ensures { result.now ≡ name_at names.now name }
{
    match str::from_utf8(&names[name.start..name.end]) {
        Ok(name) => name,
        Err(_error) => unreachable!(),
    }
}

// A name more after the others, in room that is there.
pub(crate) fn push_name_in_room(names: &mut Vec<u8>, name: &str) -> KeptName
    requires { vec_len names.old + length name.now ≤ vec_capacity names.old }
    ensures bytes { names.new.items ≡ names.old.items ++ name.now }
    ensures start { result.start ≡ length names.old.items }
    ensures end { result.end ≡ length names.new.items }
    ensures utf8 { IsUtf8 name.now }
{
    let start = names.as_slice().len();
    let _ = names.extend_from_slice(name.as_bytes());
    let end = names.as_slice().len();
    KeptName { start, end }
}
