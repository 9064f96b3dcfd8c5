//! The validator of a function knows its module and its frames.

ghost use Rattle.std.specs.Prelude.{map};
ghost use Rattle.wasm_operator_validator_arity.specs.resources.Meaning.{Meaning};

use crate::FuncValidator;
use wasm_operator_validator_arity::{
    ModuleArity, func_type_of_cont_type, in_u32, sub_type_named, sub_type_of_ref_type,
    tag_type_arity,
};
use wasm_operator_validator_stacks::{BlockType, FrameKind, WasmModuleResources};
use wasm_types::{ContType, FuncType, RefType, SubType, UnpackedIndex};

impl<R: WasmModuleResources> ModuleArity for FuncValidator<R> {
    ghost meaning = { λ v. R.meaning v.resources };

    ghost frames = { λ v. map (λ o. (o.block, o.kind)) v.validator.opens };

    fn sub_type_at(&self, type_index: u32) -> Option<&SubType> {
        self.resources.sub_type_at(type_index)
    }

    fn sub_type_named(&self, index: UnpackedIndex) -> Option<&SubType> {
        sub_type_named(&self.resources, index)
    }

    fn type_index_of_function(&self, function_index: u32) -> Option<u32> {
        self.resources.type_index_of_function(function_index)
    }

    fn tag_type_arity(&self, tag_index: u32) -> Option<(u32, u32)> {
        tag_type_arity(&self.resources, tag_index)
    }

    fn func_type_of_cont_type(&self, ty: &ContType) -> Option<&FuncType> {
        func_type_of_cont_type(&self.resources, ty)
    }

    fn sub_type_of_ref_type(&self, ty: &RefType) -> Option<&SubType> {
        sub_type_of_ref_type(&self.resources, ty)
    }

    fn control_stack_height(&self) -> u32 {
        in_u32(self.validator.control_stack_height())
    }

    fn label_block(&self, depth: u32) -> Option<(BlockType, FrameKind)> {
        self.validator.jump(depth)
    }
}
