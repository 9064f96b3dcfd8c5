//! What a validator accepts as a body is never stuck (WebAssembly 3.0, appendix, soundness), as far as one activation goes.
//!
//! There is no code here but the law: it joins what an expression is accepted by with the soundness of typed code.

ghost use Rattle.wasm_operator_validator_soundness.specs.accepted.Accepted.{AcceptedBodiesAreSound};

/// Bytes that are accepted where a body begins spell code that is never stuck within its activation, whatever fitting locals it
/// begins with and whatever fitting answers it gets, and that ends well if it ends.
pub fn accepted_bodies_are_sound()
    ensures { AcceptedBodiesAreSound }
{}
