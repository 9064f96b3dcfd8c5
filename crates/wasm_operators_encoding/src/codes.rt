//! Opcodes with immediates as operators (WebAssembly 3.0, binary format, instructions): each opcode with immediates of its
//! kinds is an operator's, and an opcode tells the role that its operators have in the nesting of instructions.
//!
//! So a decoder that reads opcodes with their immediates, and no operators, misses none and reads no other
//! (`specs/codes/CodedOperators.antt`), and knows the frames that they open and close (`specs/codes/OpcodeRoles.antt`).

ghost use Rattle.std.specs.Prelude.{◌≡◌, map, Some};
ghost use Rattle.wasm_types.specs.settings.Settings.{Settings};
ghost use Rattle.wasm_types.specs.decoding.Decoder.{State, Done};
ghost use Rattle.wasm_operators_immediates.specs.Immediates.{kind_of};
ghost use Rattle.wasm_operators_enums.specs.Op.{Op};
ghost use Rattle.wasm_operators_enums.specs.Roles.{role_of};
ghost use Rattle.wasm_operators_encoding.specs.Coded.{Coded, kinds_at, operator};
ghost use Rattle.wasm_operators_encoding.specs.Operators.{opcode_of};
ghost use Rattle.wasm_operators_encoding.specs.codes.CodedOperators.{IsCoded};
ghost use Rattle.wasm_operators_encoding.specs.codes.OpcodeRoles.{role_at};

/// An opcode with any immediates of the kinds that belong to it is a canonical operator's. So whatever is read as an opcode
/// with its immediates is an operator.
pub const fn opcodes_are_of_operators()
    ensures coded { (c : Coded) → kinds_at c.opcode ≡ Some (map kind_of c.carried) → IsCoded c }
    ensures read { (settings : Settings) (s t : State) (c : Coded) → operator settings s ≡ Done c t → IsCoded c }
{}

/// An opcode tells the role of its operators in the nesting of instructions.
pub const fn opcodes_tell_roles()
    ensures { (o : Op) → role_at (opcode_of o) ≡ role_of o }
{}
