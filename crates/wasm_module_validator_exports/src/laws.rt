//! Laws that tie what is asked of each export to the rules of all of them, on the contract of a function that does nothing.

ghost use Rattle.std.specs.Prelude.{◌↔◌, ◌∷◌, ◌++◌, ◌+◌, ◌<◌, [], ℕ, List, map, sum};
ghost use Rattle.wasm_sections_items.specs.imports.Spells.{ExportTree};
ghost use Rattle.wasm_module_validator_checks.specs.rules.Valid.{HaveOwnNames, SumsBelow};
ghost use Rattle.wasm_module_validator_exports.specs.names.Exports.{IsNew};

/// An export more: no two have one name exactly if that was so before and its name is new; and each sum of sizes is below the
/// limit exactly if that was so before and the whole sum is.
pub fn exports_one_by_one()
    ensures names { (es : List ExportTree) (e : ExportTree) → HaveOwnNames (es ++ e ∷ [])
        ↔ (HaveOwnNames es × IsNew e.name (map (λ (x : ExportTree). x.name) es)) }
    ensures sizes { (limit before : ℕ) (ns : List ℕ) (n : ℕ) → SumsBelow limit before (ns ++ n ∷ [])
        ↔ (SumsBelow limit before ns × (before + sum ns + n < limit)) }
{}
