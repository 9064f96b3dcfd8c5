//! The functions that constants name.

ghost use Rattle.std.specs.Prelude.{◌≡◌, IfErr, IfOk, Option};
ghost use Rattle.wasm_types.specs.settings.Limits.{IsWithinCeilings};
ghost use Rattle.wasm_types.specs.reader.Reading.{IsNotMemory};
ghost use Rattle.wasm_sections_items.specs.segments.Tables.{init_of};
ghost use Rattle.wasm_operators_encoding.specs.expressions.Code.{Code};
ghost use Rattle.wasm_operators_encoding.specs.expressions.Spelling.{SpelledExpression};
ghost use Rattle.wasm_module_validator_initialisers.specs.segments.Trees.{bytes_of};
ghost use Rattle.wasm_module_validator_resources.specs.rules_in_order.Texts.{SpelledInit};
ghost use Rattle.wasm_module_validator_resources.specs.referring.Naming.{NamesMore};
ghost use Rattle.wasm_module_validator_initialisers.specs.adding.Read.{NamesInit};

use crate::elements::{
    ConstExpr, Settings, TableInitOf, name_references, reader_by, refers_to_none,
};
use std::alloc::Global;
use wasm_types::Result;

/// Names the functions that an expression refers to, by the settings that the module is judged by.
pub(crate) fn name_constant(
    alloc: Global,
    expr: &ConstExpr<'_>,
    settings: &Settings,
    names: &mut Vec<u32>,
) -> Result<()>
    requires within { IsWithinCeilings settings.now.limits }
    ensures named { IfOk result (λ _. NamesMore settings.now expr.now.rest names.old.items names.new.items) }
    ensures refused { IfErr result (λ e. IsNotMemory e.kind → (c : Code)
        → SpelledExpression settings.now c expr.now.rest → ⊥) }
{
    if refers_to_none(expr) {
        return Ok(());
    }
    name_references(alloc, reader_by(expr, settings), names)
}

/// The same of what the elements of a table are at first.
pub(crate) fn name_init(
    alloc: Global,
    init: &TableInitOf<ConstExpr<'_>>,
    settings: &Settings,
    names: &mut Vec<u32>,
) -> Result<()>
    requires within { IsWithinCeilings settings.now.limits }
    ensures named { IfOk result (λ _. NamesInit settings.now (init_of bytes_of init.now) names.old.items
        names.new.items) }
    ensures refused { IfErr result (λ e. IsNotMemory e.kind → (o : Option Code)
        → SpelledInit settings.now (init_of bytes_of init.now) o → ⊥) }
{
    match init {
        TableInitOf::RefNull => Ok(()),
        TableInitOf::Expr(expr) => name_constant(alloc, expr, settings, names),
    }
}
