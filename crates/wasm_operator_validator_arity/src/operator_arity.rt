//! How many operands an operator takes and gives.

ghost use Rattle.std.specs.Prelude.{◌≡◌};
ghost use Rattle.wasm_operators_enums.specs.Op.{op_of};
ghost use Rattle.wasm_operator_validator_arity.specs.Knowing.{answer_for};

use crate::ModuleArity;
use crate::continuations::continuation;
use crate::counting::{control, descriptor, exception, gc, parametric};
use crate::fixed::{atomic, bulk, memory, numeric, shared};
use wasm_operators_visit::Operator;

/// How many operands an operator takes and gives.
pub trait OperatorArity {
    /// How many operands the operator takes, and how many it gives, in a module and frames that know its types, labels and tags
    /// (WebAssembly 3.0, validation, instructions). After an operator from which nothing is reached none is given; what the row of an
    /// operator leaves free is not counted. None for operators on vectors, and if the module does not know what the operator names. If a
    /// continuation of the module names a type that the module does not know, that is a function from nothing to nothing, as in the rules.
    fn operator_arity<M: ModuleArity>(&self, known: &M) -> Option<(u32, u32)>;
}

impl<'a> OperatorArity for Operator<'a> {
    fn operator_arity<M: ModuleArity>(&self, known: &M) -> Option<(u32, u32)>
        ensures { result ≡ answer_for (M.meaning known.now) (M.frames known.now) (op_of self.now) }
    {
        match self {
            Operator::Control(op) => control(known, op),
            Operator::Parametric(op) => parametric(op),
            Operator::Exception(op) => exception(known, op),
            Operator::Memory(op) => memory(op),
            Operator::Const(_) => Some((0, 1)),
            Operator::Numeric(op) => numeric(op),
            Operator::Bulk(op) => bulk(op),
            Operator::Gc(op) => gc(known, op),
            Operator::Descriptor(op) => descriptor(known, op),
            Operator::Simd(_) => None,
            Operator::SimdNumeric(_) => None,
            Operator::Atomic(op) => atomic(op),
            Operator::Shared(op) => shared(op),
            Operator::Continuation(op) => continuation(known, op),
        }
    }
}
