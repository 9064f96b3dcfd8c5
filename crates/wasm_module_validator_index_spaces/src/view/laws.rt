//! Worked rows, on the contract of a function that does nothing.

ghost use Rattle.wasm_module_validator_index_spaces.specs.view.laws.Entities.{ImportRows, ExportRows, NamedRows};

/// What imports and exports of a worked module are, each kind where there is one and where there is none; and all of them, in order.
#[tactic(auto, using(crate::specs::view::laws::Entities::import_rows, crate::specs::view::laws::Entities::export_rows, crate::specs::view::laws::Entities::named_rows))]
pub const fn entities_are_worked()
    ensures imports { ImportRows }
    ensures exports { ExportRows }
    ensures named { NamedRows }
{}
