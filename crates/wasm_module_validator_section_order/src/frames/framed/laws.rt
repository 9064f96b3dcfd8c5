//! Laws of modules and their frames, each on the contract of a function that does nothing.

ghost use Rattle.std.specs.Prelude.{◌≡◌, ◌↔◌, ℕ, [], List, length};
ghost use Rattle.std.specs.List.{AllZip};
ghost use Rattle.wasm_sections_parser.specs.Steps.{Shape};
ghost use Rattle.wasm_sections_parser.specs.runs.Modules.{IsModule};
ghost use Rattle.wasm_types.specs.settings.Settings.{Settings};
ghost use Rattle.wasm_module_validator_rules_in_order.specs.rules.Syntax.{Function, ModuleTree};
ghost use Rattle.wasm_module_validator_rules_in_order.specs.rules.Spaces.{module_of};
ghost use Rattle.wasm_module_validator_rules_in_order.specs.rules.Binary.{SpelledFunction, SpelledModule};
ghost use Rattle.wasm_module_validator_rules_in_order.specs.rules.Valid.{HasValidBody, IsValid};
ghost use Rattle.wasm_module_validator_rules_in_order.specs.rules.Accepts.{AcceptsUnder, IsValidOutsideBodies};
ghost use Rattle.wasm_module_validator_rules_in_order.specs.contexts.InOrder.{IsValidInOrder};
ghost use Rattle.wasm_module_validator_rules_in_order.specs.Steps.{SoFar, nothing, JudgesShapes};

/// Where the frames of a module were judged one after the other, the bytes spell what was read, with the code that the bodies spell. It is
/// valid where each body is.
pub fn judged_frames_are_modules()
    ensures spelled { (z : Settings) (text : List ℕ) (xs : List Shape) (q : SoFar) (cs : List Function)
        → IsModule z text xs
        → JudgesShapes z nothing xs q → AllZip (SpelledFunction z) cs q.bodies
        → SpelledModule z (record q.tree { code = cs }) text }
    ensures valid { (z : Settings) (xs : List Shape) (q : SoFar) (cs : List Function) → JudgesShapes z nothing xs q
        → AllZip (HasValidBody z (module_of q.tree)) q.tree.functions cs
        → IsValidInOrder z (record q.tree { code = cs }) }
{}

/// The frames of a module that is spelled and valid are judged one after the other. What was read then is the module but for its code,
/// and the bodies spell that.
pub fn valid_modules_are_judged()
    ensures { (z : Settings) (m : ModuleTree) (text : List ℕ) → SpelledModule z m text → IsValid z m → (xs : List Shape)
        × IsModule z text xs × ((q : SoFar) × JudgesShapes z nothing xs q × (q.tree ≡ record m { code = [] })
        × AllZip (SpelledFunction z) m.code q.bodies) }
{}

/// Bytes that are accepted are those of a module, and a module has one list of frames. It is accepted exactly if these are judged one
/// after the other and the bytes of each body spell a valid function of its type. Of a module there are as many bodies as functions.
pub fn accepted_modules_are_judged()
    ensures framed { (z : Settings) (text : List ℕ) → AcceptsUnder z text → (xs : List Shape) × IsModule z text xs }
    ensures one { (z : Settings) (text : List ℕ) (xs ys : List Shape) → IsModule z text xs
        → IsModule z text ys → xs ≡ ys }
    ensures exact { (z : Settings) (text : List ℕ) (xs : List Shape) → IsModule z text xs
        → AcceptsUnder z text ↔ ((q : SoFar)
        × JudgesShapes z nothing xs q
        × AllZip (λ x body. (f : Function) × SpelledFunction z f body
        × HasValidBody z (module_of q.tree) x f) q.tree.functions q.bodies) }
    ensures bodies { (z : Settings) (text : List ℕ) (xs : List Shape) (q : SoFar) → IsModule z text xs
        → JudgesShapes z nothing xs q → length q.bodies ≡ length q.tree.functions }
{}

/// Bytes are a module that is valid outside its bodies exactly if they have frames of a module that are judged one after the other.
pub fn modules_outside_bodies_are_judged()
    ensures { (z : Settings) (text : List ℕ)
        → IsValidOutsideBodies z text ↔ ((q : SoFar) × (xs : List Shape) × IsModule z text xs × JudgesShapes z nothing xs q) }
{}
