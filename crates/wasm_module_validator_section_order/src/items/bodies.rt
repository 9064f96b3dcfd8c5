//! Bodies of functions, kept until they are judged.

use wasm_operators_bodies::FunctionBody;

/// The body of a function of a module, which is to be judged.
#[derive(Drop)]
pub struct Body<'a> {
    /// The index of the function in its module.
    pub index: u32,
    /// The index of the function's type, among those of the module.
    pub type_index: u32,
    /// Its bytes.
    pub body: FunctionBody<'a>,
}
