//! What is asked of a module and the open frames.

ghost use Rattle.std.specs.Prelude.{◌≡◌, List, length, option_map, slice_get};
ghost use Rattle.wasm_types.specs.trees.Trees.{opened};
ghost use Rattle.wasm_operator_validator_resources.specs.Answers.{IsTypeOf};
ghost use Rattle.wasm_operator_validator_resources.specs.Meaning.{Meaning, entry_in, function_in};
ghost use Rattle.wasm_operators_immediates.specs.declared.block.BlockType.{BlockType as TheBlockType};
ghost use Rattle.wasm_operators_immediates.specs.declared.frames.FrameKind.{FrameKind as TheFrameKind};
ghost use Rattle.wasm_operator_validator_rules.specs.arity.Arity.{in_u32, type_counts};
ghost use Rattle.wasm_operator_validator_arity.specs.Knowing.{ended, function_by_id, type_named, type_of_heap};

use wasm_operator_validator_resources::{BlockType, FrameKind};
use wasm_types::{ContType, FuncType, RefType, SubType, UnpackedIndex};

/// A module, and the frames that are open at a place in a body, for numbers of operands. Its meaning is the module of the rules, what
/// each id stands for, and the frames, the innermost first. Numbers of more than 32 bits end at `u32::MAX`.
pub trait ModuleArity {
    /// The module, and the type of each id.
    ghost meaning: { Self → Meaning };

    /// The open frames by their types and kinds, the innermost first.
    ghost frames: { Self → List (TheBlockType × TheFrameKind) };

    /// The type at an index of the module.
    fn sub_type_at(&self, type_index: u32) -> Option<&SubType>
        ensures { option_map (λ t. entry_in (meaning self.now) t.now) result ≡ option_map opened
            (slice_get (meaning self.now).«module».types type_index) };

    /// The type that an index names, as a type of the module has it: by its id, or else by its index in the module, for which a place in a
    /// group counts too.
    fn sub_type_named(&self, index: UnpackedIndex) -> Option<&SubType>
        ensures { option_map (λ t. entry_in (meaning self.now) t.now) result ≡ option_map opened
            (type_named (meaning self.now) index) };

    /// The index of a function's type.
    fn type_index_of_function(&self, function_index: u32) -> Option<u32>
        ensures { IsTypeOf (meaning self.now).«module» function_index result };

    /// How many parameters and results the tag at an index has.
    fn tag_type_arity(&self, tag_index: u32) -> Option<(u32, u32)>
        ensures { result ≡ ended (type_counts (slice_get (meaning self.now).«module».tags tag_index)) };

    /// The function type of a continuation, where it is named by the id of one.
    fn func_type_of_cont_type(&self, ty: &ContType) -> Option<&FuncType>
        ensures { option_map (λ f. function_in (meaning self.now) f.now) result ≡ function_by_id
            (meaning self.now) ty.now.0 };

    /// The type that a reference refers to, where it is named by its id.
    fn sub_type_of_ref_type(&self, ty: &RefType) -> Option<&SubType>
        ensures { option_map (λ t. entry_in (meaning self.now) t.now) result ≡ option_map opened
            (type_of_heap (meaning self.now) ty.now.heap) };

    /// How many frames are open.
    fn control_stack_height(&self) -> u32
        ensures { result ≡ in_u32 (length (frames self.now)) };

    /// The type and the kind of the frame that a label names, which counts outwards from the innermost.
    fn label_block(&self, depth: u32) -> Option<(BlockType, FrameKind)>
        ensures { result ≡ slice_get (frames self.now) depth };
}
