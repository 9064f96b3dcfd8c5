//! Laws of sections and frames, each on the contract of a function that does nothing.

ghost use Rattle.std.specs.Prelude.{◌≡◌, ◌↔◌, ◌⊎◌, ◌<◌, ◌≤◌, ◌++◌, ℕ, [], List, length, Option, Some, None};
ghost use Rattle.std.specs.List.{AllZip};
ghost use Rattle.wasm_sections_parser.specs.Steps.{Shape, place_of};
ghost use Rattle.wasm_types.specs.settings.Settings.{Settings};
ghost use Rattle.wasm_module_validator_rules.specs.Syntax.{Function, ModuleTree};
ghost use Rattle.wasm_module_validator_rules.specs.Spaces.{module_of};
ghost use Rattle.wasm_module_validator_rules.specs.Binary.{SpelledFunction, SpelledSections, contents, entries_of};
ghost use Rattle.wasm_module_validator_rules.specs.Valid.{HasValidBody, IsWithinLimits};
ghost use Rattle.wasm_module_validator_rules_in_order.specs.contexts.InOrder.{no_items, IsValidInOrder};
ghost use Rattle.wasm_module_validator_rules_in_order.specs.Sections.{Section, Item, number, place, code_place, items, front, before, up_to, IsUnread, IsWithSection};
ghost use Rattle.wasm_module_validator_rules_in_order.specs.Adding.{IsValidSection, Fits, Adds, AddsEach, IsWithItems};
ghost use Rattle.wasm_module_validator_rules_in_order.specs.Texts.{ItemRead, SpelledSection, StandsFor, AddsRead};
ghost use Rattle.wasm_module_validator_rules_in_order.specs.Steps.{SoFar, nothing, JudgesSection, JudgesShape, JudgesShapes, IsJudged};

/// Each section has the place of its id, and no two have one; the code section has its own. No other id has a place.
pub fn sections_have_places()
    ensures places { (s : Section) → place_of (number s) ≡ place s }
    ensures code { place_of 10 ≡ code_place }
    ensures one { (s t : Section) → place s ≡ place t → s ≡ t }
    ensures others { (id : ℕ) → (place_of id ≡ 0) ⊎ ((id ≡ 10) ⊎ ((s : Section) × (id ≡ number s))) }
{}

/// Behind a module that is within its limits, a section may begin and its items be added one after the other exactly if the module is
/// valid with the whole section, and within its limits.
pub fn sections_are_added()
    ensures { (z : Settings) (s : Section) (m n : ModuleTree) (xs : List (Item s)) → IsUnread s m
        → IsWithinLimits z (module_of m) m
        → (Fits z s m (length xs) × AddsEach (Adds z s) m xs n) ↔ IsWithItems z s m xs n }
{}

/// What is read is added item by item exactly if items that it stands for are.
pub fn items_are_read()
    ensures { (z : Settings) (s : Section) (m n : ModuleTree) (ts : List (ItemRead s))
        → AddsEach (AddsRead z s) m ts n ↔ ((xs : List (Item s)) × AllZip (StandsFor z s) ts xs
        × AddsEach (Adds z s) m xs n) }
{}

/// What a section is, which bytes spell it and whether it is valid is seen in the module up to it. A later section changes nothing there,
/// and nothing was read behind the last one. A section that is absent adds nothing, and one of which nothing was read is valid.
pub fn sections_stay()
    ensures items { (s : Section) (m : ModuleTree) → items s m ≡ items s (up_to s m) }
    ensures spelled { (z : Settings) (s : Section) (m : ModuleTree) (o : Option (List ℕ))
        → SpelledSection z s m o ↔ SpelledSection z s (up_to s m) o }
    ensures valid { (z : Settings) (s : Section) (m : ModuleTree)
        → IsValidSection z s m ↔ IsValidSection z s (up_to s m) }
    ensures earlier { (s t : Section) (m n : ModuleTree) → place s < place t → IsWithSection t m n
        → up_to s m ≡ up_to s n }
    ensures front { (s t : Section) (m : ModuleTree) → place s < place t → up_to s (before t m) ≡ up_to s m }
    ensures later { (s t : Section) (m n : ModuleTree) → place s < place t → IsWithSection s m n → IsUnread t n }
    ensures unread { (s t : Section) (m : ModuleTree) → place s < place t → IsUnread s m → IsUnread t m }
    ensures absent { (z : Settings) (s : Section) (m : ModuleTree) → SpelledSection z s m None
        → up_to s m ≡ before s m }
    ensures between { (z : Settings) (j k : ℕ) (m : ModuleTree) → j ≤ k
        → ((s : Section) → j ≤ place s → place s < k → SpelledSection z s m None) → front j m ≡ front k m }
    ensures empty { (z : Settings) (s : Section) (m : ModuleTree) → IsUnread s m
        → SpelledSection z s m None × IsValidSection z s m }
{}

/// Nothing is within any limits, and a module within its limits is so as far as each section, and before it.
pub fn fronts_are_within_limits()
    ensures nothing { (z : Settings) → IsWithinLimits z (module_of no_items) no_items }
    ensures up_to { (z : Settings) (s : Section) (m : ModuleTree) → IsWithinLimits z (module_of m) m
        → IsWithinLimits z (module_of (up_to s m)) (up_to s m) }
    ensures before { (z : Settings) (s : Section) (m : ModuleTree) → IsWithinLimits z (module_of m) m
        → IsWithinLimits z (module_of (before s m)) (before s m) }
{}

/// Frames are judged one after the other, and what is known of nothing is known behind each frame. No place is taken back, and what was
/// read up to a section stays. What was judged is valid in order with bodies that are; and of a module that is valid in order each section
/// comes behind what stands before it.
pub fn frames_are_judged()
    ensures joined { (z : Settings) (xs ys : List Shape) (p r q : SoFar) → JudgesShapes z p xs r → JudgesShapes z r ys q
        → JudgesShapes z p (xs ++ ys) q }
    ensures split { (z : Settings) (xs ys : List Shape) (p q : SoFar) → JudgesShapes z p (xs ++ ys) q
        → (r : SoFar) × JudgesShapes z p xs r × JudgesShapes z r ys q }
    ensures nothing { (z : Settings) → IsJudged z nothing }
    ensures kept { (z : Settings) (x : Shape) (p q : SoFar) → IsJudged z p → JudgesShape z p x q → IsJudged z q }
    ensures known { (z : Settings) (xs : List Shape) (q : SoFar) → JudgesShapes z nothing xs q → IsJudged z q }
    ensures stays { (z : Settings) (xs : List Shape) (p q : SoFar) → JudgesShapes z p xs q
        → (p.last ≤ q.last) × ((s : Section) → place s ≤ p.last → up_to s p.tree ≡ up_to s q.tree) }
    ensures valid { (z : Settings) (q : SoFar) (cs : List Function) → IsJudged z q
        → AllZip (HasValidBody z (module_of q.tree)) q.tree.functions cs
        → IsValidInOrder z (record q.tree { code = cs }) }
    ensures comes { (z : Settings) (s : Section) (m : ModuleTree) (p : SoFar) (text : List ℕ) → IsValidInOrder z m
        → p.tree ≡ before s m → p.last < place s
        → SpelledSection z s m (Some text) → JudgesSection z p s text
        (record { last = place s; tree = up_to s m; bodies = p.bodies }) }
{}

/// A module is valid in order exactly if each section is, each body, and the limits hold; and it is spelled by sections exactly if
/// each of them is, and each body. Code is no part of any section.
pub fn modules_are_of_sections()
    ensures valid { (z : Settings) (m : ModuleTree)
        → IsValidInOrder z m ↔ (((s : Section) → IsValidSection z s m)
        × AllZip (HasValidBody z (module_of m)) m.functions m.code × IsWithinLimits z (module_of m) m) }
    ensures spelled { (z : Settings) (m : ModuleTree) (ps : _)
        → SpelledSections z m ps ↔ (((s : Section) → SpelledSection z s m (contents (number s) ps))
        × AllZip (SpelledFunction z) m.code (entries_of ps)) }
    ensures code_aside { (m : ModuleTree) (cs : List Function) (s : Section)
        → up_to s (record m { code = cs }) ≡ up_to s m }
    ensures limits { (z : Settings) (m : ModuleTree) (cs : List Function)
        → IsWithinLimits z (module_of m) m ↔ IsWithinLimits z (module_of (record m { code = cs }))
        (record m { code = cs }) }
{}
