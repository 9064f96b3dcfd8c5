//! The comparison of references.

ghost use Rattle.std.specs.Prelude.{◌≡◌, IfSome, option_map, Some, None, []};
ghost use Rattle.wasm_operators_immediates.specs.Info.{Info};
ghost use Rattle.wasm_operators_enums.specs.gc.Table.{gc_info};
ghost use Rattle.wasm_operators_encoding.specs.Groups.{gc_plain_kinds};

use wasm_operators_encoding::GcOperator;

/// The operator with this code, if there is one in the group. It carries nothing.
pub fn gc_plain_of(code: u32) -> Option<GcOperator>
    ensures known { gc_plain_kinds code ≡ option_map (λ _. []) result }
    ensures code { IfSome result (λ o. (gc_info o).code ≡ code) }
    ensures prefix { IfSome result (λ o. (gc_info o).prefix ≡ None) }
{
    Some(match code {
        0xd3 => GcOperator::RefEq,
        _ => return None,
    })
}
