//! What is named by an identifier: a type, and the ids of a group.

ghost use Rattle.std.specs.Prelude.{◌≡◌, ◌+◌, ℕ};
ghost use Rattle.wasm_types.specs.Entries.{inner_of};
ghost use Rattle.wasm_module_validator_type_alloc.specs.Sizes.{capped, size_of, size_between};

use crate::TypeInfo;
use std::ops::Range;
use wasm_module_validator_type_list::{RecGroupId, TypeList};
use wasm_types::{CompositeInnerType, CoreTypeId, SubType};

/// What an identifier names.
pub trait TypeData {
    /// What names it.
    type Id;

    /// Whether it is a type of a module, or the ids of a group of these.
    const IS_CORE_SUB_TYPE: bool;

    /// How much there is to visit in it.
    ghost size: { Self → ℕ };

    /// How much there is to visit in it.
    fn type_info(&self, types: &TypeList) -> TypeInfo
        ensures { result.0 ≡ size self.now };
}

// Two, and as many parts, up to the most that there may be.
fn info_of(parts: usize, others: usize) -> TypeInfo
    ensures { result.0 ≡ capped (2 + parts + others) }
{
    let room = 0xff_ffff - 2;
    if parts < room && others < room - parts {
        return TypeInfo::core((2 + parts + others) as u32);
    }
    TypeInfo::core(0xff_ffff)
}

impl TypeData for SubType {
    type Id = CoreTypeId;

    const IS_CORE_SUB_TYPE: bool = true;

    ghost size = { λ ty. size_of (inner_of ty.composite_type.inner) };

    fn type_info(&self, _types: &TypeList) -> TypeInfo {
        match &self.composite_type.inner {
            CompositeInnerType::Func(ty) => info_of(ty.params().len(), ty.results().len()),
            CompositeInnerType::Array(_) => TypeInfo::core(3),
            CompositeInnerType::Struct(ty) => {
                let fields = ty.fields.as_slice().len();
                info_of(fields, fields)
            }
            CompositeInnerType::Cont(_) => TypeInfo::core(2),
        }
    }
}

impl TypeData for Range<CoreTypeId> {
    type Id = RecGroupId;

    const IS_CORE_SUB_TYPE: bool = true;

    ghost size = { λ ids. size_between ids.start.0 ids.end.0 };

    fn type_info(&self, _types: &TypeList) -> TypeInfo {
        let types = self.end.number().saturating_sub(self.start.number());
        if types < 0xff_ffff {
            return TypeInfo::core(types);
        }
        TypeInfo::core(0xff_ffff)
    }
}
