//! Worked rows, each on the contract of a function that does nothing.

ghost use Rattle.wasm_sections_items.specs.imports.Worked.{KindRows, TypeRows, ImportRows, ExportRows};

/// Worked bytes: each kind, each type, imports and exports, and what is refused.
#[tactic(auto, using(crate::specs::imports::Worked::kind_rows, crate::specs::imports::Worked::type_rows, crate::specs::imports::Worked::import_rows, crate::specs::imports::Worked::export_rows))]
pub const fn imports_and_exports_are_worked()
    ensures kinds { KindRows }
    ensures types { TypeRows }
    ensures imports { ImportRows }
    ensures exports { ExportRows }
{}
