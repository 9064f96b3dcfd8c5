//! Laws of contexts, each on the contract of a function that does nothing.

ghost use Rattle.std.specs.Prelude.{◌≡◌, ◌↔◌, ◌<◌, ◌++◌, ℕ, [], List, length};
ghost use Rattle.wasm_types.specs.settings.Settings.{Settings};
ghost use Rattle.wasm_types.specs.trees.Types.{Number, number};
ghost use Rattle.wasm_types.specs.values.declared.value.ValType.{ValType as WrittenType};
ghost use Rattle.wasm_types.specs.externs.declared.table.TableType.{TableType};
ghost use Rattle.wasm_types.specs.externs.declared.global.GlobalType.{GlobalType};
ghost use Rattle.wasm_types.specs.externs.declared.tag.TagType.{TagType};
ghost use Rattle.wasm_sections_items.specs.declared.imports.kind.ExternalKind.{ExternalKind};
ghost use Rattle.wasm_sections_items.specs.declared.imports.type_ref.TypeRef.{TypeRef};
ghost use Rattle.wasm_sections_items.specs.segments.Spells.{GlobalTree, DataMode};
ghost use Rattle.wasm_sections_items.specs.segments.Tables.{TableTree};
ghost use Rattle.wasm_sections_items.specs.elements.Spells.{ElementTree};
ghost use Rattle.wasm_operators_encoding.specs.expressions.Code.{Code};
ghost use Rattle.wasm_operator_validator_rules.specs.Operands.{ValueType};
ghost use Rattle.wasm_operator_validator_rules.specs.Context.{Module};
ghost use Rattle.wasm_operator_validator_rules.specs.Row.{IsOneOf};
ghost use Rattle.wasm_operator_validator_rules.specs.constants.Constants.{seeing, IsConstant};
ghost use Rattle.wasm_module_validator_rules.specs.Syntax.{Function, ModuleTree};
ghost use Rattle.wasm_module_validator_rules.specs.Spaces.{referred_in, referred_in_option, referred_in_mode, referred_in_items};
ghost use Rattle.wasm_module_validator_rules.specs.Valid.{IsValidValueType, IsFunctionIndex, IsValidTableType, IsValidGlobalType, IsValidTagType, IsValidImport, IsValidTable, IsValidGlobal, IsValidElement, IsValidData, IsValidExport, IsValidStart, HasValidBody, IsValid};
ghost use Rattle.wasm_module_validator_rules_in_order.specs.contexts.Agreement.{AgreeOnTypes, AgreeForConstants, MayReferToEach, AgreeForElements, AgreeForData, AgreeForExports, AgreeOnFunctions, AgreeForCode};
ghost use Rattle.wasm_module_validator_rules_in_order.specs.contexts.InOrder.{context_so_far, IsValidInOrder};

/// Types, functions of the module and imports are judged by the types of the context alone.
pub fn types_look_at()
    ensures values { (g h : Module) → AgreeOnTypes g h → (z : Settings) (v : WrittenType) → IsValidValueType z g v
        → IsValidValueType z h v }
    ensures functions { (g h : Module) → AgreeOnTypes g h → (x : ℕ) → IsFunctionIndex g x → IsFunctionIndex h x }
    ensures tables { (g h : Module) → AgreeOnTypes g h → (z : Settings) (t : TableType) → IsValidTableType z g t
        → IsValidTableType z h t }
    ensures globals { (g h : Module) → AgreeOnTypes g h → (z : Settings) (t : GlobalType) → IsValidGlobalType z g t
        → IsValidGlobalType z h t }
    ensures tags { (g h : Module) → AgreeOnTypes g h → (z : Settings) (t : TagType) → IsValidTagType z g t
        → IsValidTagType z h t }
    ensures imports { (g h : Module) → AgreeOnTypes g h → (z : Settings) (t : TypeRef) → IsValidImport z g t
        → IsValidImport z h t }
{}

/// A constant is judged by types, functions and globals, and by whether code may refer to the functions that it names; one that gives
/// a number names none.
pub fn constants_look_at()
    ensures constants { (g h : Module) (bits count : ℕ) (t : ValueType) → AgreeForConstants g h → (c : Code)
        → MayReferToEach h (referred_in c)
        → IsConstant bits g count t c → IsConstant bits h count t c }
    ensures numbers { (bits : ℕ) (g : Module) (count : ℕ) (n : Number) (c : Code) → IsConstant bits g count (number n) c
        → referred_in c ≡ [] }
{}

/// Tables and globals are judged by the types and what their values see; segments by what their constants see, and by tables or
/// memories; exports by the spaces that they name; the start function by the functions.
pub fn items_look_at()
    ensures tables { (g h : Module) (z : Settings) (count : ℕ) → AgreeForConstants (seeing count g) (seeing count h)
        → (x : TableTree Code) → MayReferToEach h (referred_in_option x.init)
        → IsValidTable z g count x → IsValidTable z h count x }
    ensures globals { (g h : Module) (z : Settings) (count i j : ℕ) → AgreeForConstants (seeing i g) (seeing j h)
        → (x : GlobalTree Code) → MayReferToEach h (referred_in x.init)
        → IsValidGlobal z g count i x → IsValidGlobal z h count j x }
    ensures elements { (g h : Module) (z : Settings) (count : ℕ) → AgreeForElements g h → (x : ElementTree Code)
        → MayReferToEach h (referred_in_mode x.mode ++ referred_in_items x.items)
        → IsValidElement z g count x → IsValidElement z h count x }
    ensures segments { (g h : Module) (z : Settings) (count : ℕ) → AgreeForData g h → (x : DataMode Code)
        → IsValidData z g count x → IsValidData z h count x }
    ensures exports { (g h : Module) (z : Settings) → AgreeForExports g h → (k : ExternalKind) (x : ℕ)
        → IsValidExport z g k x → IsValidExport z h k x }
    ensures start { (g h : Module) → AgreeOnFunctions g h → (x : ℕ) → IsValidStart g x → IsValidStart h x }
{}

/// A body may stand where there are as many functions to refer to, all else being the same.
pub fn bodies_look_at()
    ensures { (g h : Module) → AgreeForCode g h → ((x : ℕ) → x < length g.functions → IsOneOf x g.referenced
        → IsOneOf x h.referenced)
        → (z : Settings) (x : ℕ) (f : Function) → HasValidBody z g x f → HasValidBody z h x f }
{}

/// A module is valid exactly if each of its items is valid in the context of the items before it. There a constant may refer to
/// each function.
pub fn modules_are_judged_in_order()
    ensures exact { (z : Settings) (m : ModuleTree) → IsValid z m ↔ IsValidInOrder z m }
    ensures referring { (m : ModuleTree) (xs : List ℕ) → MayReferToEach (context_so_far m) xs }
{}
