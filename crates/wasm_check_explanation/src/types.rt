//! Types as the text format writes them, a type of the module by its index.

use std::alloc::{AllocError, Global};
use wasm_check_places::{CUT, Signature};
use wasm_module_validator::TypesRef;
use wasm_types::{CoreTypeId, FuncType, HeapType, RefType, UnpackedIndex, ValType};

/// How many types of a list are told.
const MOST_TYPES: usize = 16;

/// How many operands are told.
pub(crate) const MOST_OPERANDS: usize = 8;

/// The first index in the module of the type that has this id.
fn index_of_id(types: &TypesRef<'_>, id: CoreTypeId) -> Option<u32> {
    for index in 0..types.core_type_count_in_module() {
        if types.core_type_at_in_module(index) == id {
            return Some(index);
        }
    }
    None
}

/// The index in the module of the type that is named so, if it has one.
fn index_of(types: &TypesRef<'_>, named: UnpackedIndex) -> Option<u32> {
    match named {
        UnpackedIndex::Module(index) => Some(index),
        UnpackedIndex::RecGroup(_) => None,
        UnpackedIndex::Id(id) => index_of_id(types, id),
    }
}

/// The index in the module of the type that a reference is to, if it is to one of the module, and whether it is to exactly that type.
fn target_of(types: &TypesRef<'_>, reference: RefType) -> (Option<u32>, bool) {
    match reference.heap_type() {
        HeapType::Abstract { .. } => (None, false),
        HeapType::Concrete(named) => (index_of(types, named), false),
        HeapType::Exact(named) => (index_of(types, named), true),
    }
}

/// A reference to the type of this index.
fn defined_name(
    alloc: Global,
    is_nullable: bool,
    is_exact: bool,
    index: u32,
) -> Result<String, AllocError> {
    let null = if is_nullable { "null " } else { "" };
    if is_exact {
        return format!(in alloc; "(ref {null}(exact {index}))");
    }
    format!(in alloc; "(ref {null}{index})")
}

/// A reference type.
fn reference_name(
    alloc: Global,
    types: &TypesRef<'_>,
    reference: RefType,
) -> Result<String, AllocError> {
    let (target, is_exact) = target_of(types, reference);
    match target {
        Some(index) => defined_name(alloc, reference.is_nullable(), is_exact, index),
        None => format!(in alloc; "{}", reference.wat()),
    }
}

/// A value type.
pub(crate) fn type_name(
    alloc: Global,
    types: &TypesRef<'_>,
    ty: ValType,
) -> Result<String, AllocError> {
    match ty.as_reference_type() {
        Some(reference) => reference_name(alloc, types, reference),
        None => format!(in alloc; "{ty}"),
    }
}

/// Adds a type to a list of so many at most; or that the list is cut, if there are as many already. Says whether more may come.
pub(crate) fn add_name(
    alloc: Global,
    types: &TypesRef<'_>,
    ty: ValType,
    most: usize,
    names: &mut Vec<String>,
) -> Result<bool, AllocError> {
    if names.len() >= most {
        let cut = String::from_str(alloc, CUT)?;
        names.push(cut)?;
        return Ok(false);
    }
    let name = type_name(alloc, types, ty)?;
    names.push(name)?;
    Ok(true)
}

/// Types, the first first.
fn names_in_order(
    alloc: Global,
    types: &TypesRef<'_>,
    list: &[ValType],
) -> Result<Vec<String>, AllocError> {
    let mut names = Vec::new(alloc);
    for ty in list {
        if !add_name(alloc, types, *ty, MOST_TYPES, &mut names)? {
            break;
        }
    }
    Ok(names)
}

/// Types of operands, of which the topmost is the last of the list and the first that is told.
pub(crate) fn names_from_top(
    alloc: Global,
    types: &TypesRef<'_>,
    list: &[ValType],
) -> Result<Vec<String>, AllocError> {
    let mut names = Vec::new(alloc);
    for ty in list.iter().rev() {
        if !add_name(alloc, types, *ty, MOST_OPERANDS, &mut names)? {
            break;
        }
    }
    Ok(names)
}

/// The type of a function.
pub(crate) fn signature_of(
    alloc: Global,
    types: &TypesRef<'_>,
    function: &FuncType,
) -> Result<Signature, AllocError> {
    let params = names_in_order(alloc, types, function.params())?;
    let results = names_in_order(alloc, types, function.results())?;
    Ok(Signature { params, results })
}
