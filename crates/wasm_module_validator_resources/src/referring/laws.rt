//! Laws of the context in which constants are judged, on the contract of a function that does nothing.

ghost use Rattle.std.specs.Prelude.{◌≡◌, ◌↔◌, ◌<◌, ℕ, List, length};
ghost use Rattle.wasm_operator_validator_rules.specs.Context.{Module};
ghost use Rattle.wasm_operator_validator_rules.specs.Row.{IsOneOf};
ghost use Rattle.wasm_module_validator_rules_in_order.specs.contexts.InOrder.{places_from, context_so_far};
ghost use Rattle.wasm_module_validator_rules_in_order.specs.rules.Syntax.{ModuleTree};
ghost use Rattle.wasm_module_validator_rules_in_order.specs.rules.Spaces.{module_of};
ghost use Rattle.wasm_module_validator_resources.specs.referring.Referring.{with_all_referenced};

/// The functions that may be referred to are those that there are, whichever they were before. Of a tree as far as it was read this is
/// the context so far.
pub fn constants_may_refer_to_each_function()
    ensures places { (x : ℕ) (xs : List ℕ) → IsOneOf x (places_from 0 xs) ↔ x < length xs }
    ensures whichever { (g : Module) (refs : List ℕ) → with_all_referenced
        (record g { referenced = refs }) ≡ with_all_referenced g }
    ensures so_far { (m : ModuleTree) → with_all_referenced (module_of m) ≡ context_so_far m }
{}
