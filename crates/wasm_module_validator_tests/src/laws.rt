//! Worked rows, each the contract of a function that does nothing.

ghost use Rattle.std.specs.Prelude.{◌≡◌, ℕ, true, List};
ghost use Rattle.std.specs.declared.ops.Range.{Range};
ghost use Rattle.wasm_types.specs.settings.declared.Limits.{Limits};
ghost use Rattle.wasm_types.specs.decoding.Decoder.{State as Bytes};
ghost use Rattle.wasm_types.specs.settings.declared.WasmFeatures.{WasmFeatures};
ghost use Rattle.wasm_types.specs.settings.Settings.{Settings};
ghost use Rattle.wasm_types.specs.trees.Trees.{TypeTree};
ghost use Rattle.wasm_types.specs.trees.Types.{SubtypeOf};
ghost use Rattle.wasm_sections_items.specs.declared.limited.section.SectionLimited.{SectionLimited};
ghost use Rattle.wasm_sections_parser.specs.declared.frame.CustomSectionReader.{CustomSectionReader};
ghost use Rattle.wasm_operators_enums.specs.Op.{Op};
ghost use Rattle.wasm_operator_validator_rules.specs.Context.{Module};
ghost use Rattle.wasm_operator_validator_state.specs.resources.Meaning.{Meaning};
ghost use Rattle.wasm_operator_validator_state.specs.State.{State};
ghost use Rattle.wasm_module_validator_exports.specs.declared.names.exports.NamedExport.{NamedExport};
ghost use Rattle.wasm_module_validator_exports.specs.declared.names.imports.NamedImports.{NamedImports};
ghost use Rattle.wasm_module_validator.specs.drivers.Sharing.{Handed};
ghost use Rattle.wasm_module_validator.specs.module_validator_payloads.Progress.{Kept, Progress};
ghost use Rattle.wasm_module_validator_section_order.specs.declared.items.bodies.Body.{Body};
ghost use Rattle.wasm_module_validator_section_order.specs.rules_in_order.Steps.{SoFar};
ghost use Rattle.wasm_module_validator_type_storage.specs.trees.Groups.{Group};
ghost use Rattle.wasm_sections_items.specs.declared.elements.element.ElementOf.{ElementOf};
ghost use Rattle.wasm_module_validator.specs.Shown.{Learned};
ghost use Rattle.wasm_module_validator.specs.declared.validator.Validator.{Validator};
ghost use Rattle.wasm_module_validator_tests.specs.Added.{SpacesAdded, SpacesMarked, ContextsAdded, ContextsRefer, ModulesMean};
ghost use Rattle.wasm_module_validator_tests.specs.Items.{ImportsNamed, NamesKept, RoomFor, Importable, Exportable, Imported, NextPlaces, Exported, NextCode, RefusedBy, NamesKnown, ReadOver};
ghost use Rattle.wasm_module_validator_tests.specs.Reading.{ItemsRead, Begins, Refused};
ghost use Rattle.wasm_module_validator_tests.specs.Standing.{Grown, StandsRows, ItemsTold, FitsTold};
ghost use Rattle.wasm_module_validator_tests.specs.Bodies.{LocalsRead, ExpressionsValidated, FunctionsValidated, OperatorsTried, FramesClosed, FunctionsSpelled};
ghost use Rattle.wasm_module_validator_tests.specs.Progress.{KeptRows, StandsFor, BodiesStand, BodiesJudged, ReachedRows, ReachedStands, NextTold, BodiesTold};
ghost use Rattle.wasm_module_validator_tests.specs.Methods.{Turns, HeadersRead, SectionsTaken, EndsRows, Known, Answers, PayloadsTaken};
ghost use Rattle.wasm_module_validator_tests.specs.Refusing.{ItemsRefused};
ghost use Rattle.wasm_module_validator_tests.specs.Types.{TypesInterned, TypesMatched, TypesValid};
ghost use Rattle.wasm_module_validator_tests.specs.Done.{LocalsDone, TriesDone, BodiesDone, FunctionsNamed};
ghost use Rattle.wasm_module_validator_tests.specs.Short.{BetweenRows, AddsRows, ShortDataRows, RoomRows};

/// What the spaces of a module and the context of the rules are with an item more (WebAssembly 3.0, structure, modules, indices; validation,
/// conventions, contexts).
pub const fn spaces_are_worked()
    ensures added { (z : Settings) → SpacesAdded z }
    ensures marked { (z : Settings) (x : ℕ) → SpacesMarked z x }
    ensures contexts { ContextsAdded }
    ensures references { ContextsRefer }
    ensures meanings { (z : Settings) → ModulesMean z }
{}

/// When an item may be added, what is added with it, and what is left where it is refused (WebAssembly 3.0, validation, modules; appendix,
/// implementation limitations).
pub const fn items_are_worked()
    ensures imports { ImportsNamed }
    ensures names { (e : NamedExport) (n : NamedImports) → NamesKept e n }
    ensures room { RoomFor }
    ensures importable { Importable }
    ensures exportable { Exportable }
    ensures imported { (l : Limits) → Imported l }
    ensures places { (z : Settings) → NextPlaces z }
    ensures exported { (l : Limits) → Exported l }
    ensures code { (z : Settings) → NextCode z }
    ensures refusals { (f : WasmFeatures) → RefusedBy f }
    ensures known { (z : Settings) → NamesKnown z }
    ensures read { (z : Settings) → ReadOver z }
{}

/// What is read of items with constants, what may begin, and why data segments are refused (WebAssembly 3.0, binary format and validation,
/// modules).
pub const fn reading_is_worked()
    ensures items { ItemsRead }
    ensures sections { Begins }
    ensures refusals { (z : Settings) (s : Bytes) → Refused z s }
{}

/// When the state of a module that is being read stands for a tree, and what is told of it (WebAssembly 3.0, validation, modules).
pub const fn standing_is_worked()
    ensures lists { (g h : Group) → Grown g h }
    ensures states { (groups : List Group) (z : Settings) → StandsRows groups z }
    ensures items { (groups : List Group) → ItemsTold groups }
    ensures sections { (groups : List Group) → FitsTold groups }
{}

/// What the validation of a body promises, and which bytes spell a valid function (WebAssembly 3.0, validation, modules, functions and locals).
pub const fn functions_are_worked()
    ensures locals { (m : Meaning) (l : Limits) (s : Bytes) (σ : State) → σ.failed ≡ true → LocalsRead m l s σ }
    ensures expressions { (m : Meaning) (s : Bytes) (σ : State) → σ.failed ≡ true → ExpressionsValidated m s σ }
    ensures bodies { (m : Meaning) (l : Limits) (s : Bytes) (σ : State) → σ.failed ≡ true → FunctionsValidated m l s σ }
    ensures operators { (m : Meaning) (σ : State) (o : Op) → σ.failed ≡ true → OperatorsTried m σ o }
    ensures frames { (m : Meaning) (l : Limits) (s : Bytes) (σ τ : State) → FramesClosed m l s σ τ }
    ensures spelled { (g : Module) (x : ℕ) → FunctionsSpelled g x }
{}

/// What is kept of a module, and when it stands for what was judged (WebAssembly 3.0, binary format and validation, modules).
pub const fn progress_is_worked()
    ensures kept { (z : Settings) (g h : Group) → KeptRows z g h }
    ensures stands { (groups : List Group) (bits : ℕ) → StandsFor groups bits }
    ensures bodies { (groups : List Group) (z : Settings) (r : Progress) (b : Body) (p : SoFar)
        → BodiesStand groups z r b p }
    ensures judged { (z : Settings) → BodiesJudged z }
    ensures reached { (groups : List Group) (z : Settings) (k : Kept) (r : Progress) → ReachedRows groups z k r }
    ensures shared { (groups : List Group) (bits : ℕ) → ReachedStands groups bits }
    ensures next { (groups : List Group) (bits : ℕ) → NextTold groups bits }
    ensures handed { (f : Handed) → BodiesTold f }
{}

/// What the methods of a validator promise, in turn and out of turn (WebAssembly 3.0, binary format and validation, modules).
pub const fn methods_are_worked()
    ensures turns { Turns }
    ensures headers { (v : Validator) → HeadersRead v }
    ensures sections { (v : Validator) (c : CustomSectionReader) (b : Bytes) → SectionsTaken v c b }
    ensures ends { (v : Validator) → EndsRows v }
    ensures known { (v : Validator) → Known v }
    ensures answers { (b : Bytes) (f : Handed) (l : Learned) → Answers b f l }
    ensures payloads { (v : Validator) (c : CustomSectionReader) (n : ℕ) (r : Range ℕ) → PayloadsTaken v c n r }
{}

/// Which types are interned, which match and which are valid, by their ids (WebAssembly 3.0, validation, types and matching).
pub const fn types_are_worked()
    ensures interned { TypesInterned }
    ensures matched { TypesMatched }
    ensures valid { TypesValid }
{}

/// What is promised where nothing is refused, and what expressions refer to (WebAssembly 3.0, validation, modules).
pub const fn bodies_are_done()
    ensures locals { (m : Meaning) → LocalsDone m }
    ensures tries { (m : Meaning) → TriesDone m }
    ensures bodies { (m : Meaning) (t : TypeTree) → BodiesDone m t }
    ensures named { FunctionsNamed }
{}

/// Why globals, tables and element segments are refused, and at which offset (WebAssembly 3.0, validation, modules).
#[tactic(auto, using(crate::specs::RefusingLaws::items_refused))]
pub fn refused_items_are_worked()
    ensures { (z : Settings) (s : Bytes) (x : ElementOf Bytes) (f : SectionLimited ℕ) → ItemsRefused z s x f }
{}

/// Which bytes are between two offsets, which items their bytes alone tell, and which group a refusal for the total of types is of
/// (WebAssembly 3.0, binary format and validation, modules).
pub fn short_items_are_worked()
    ensures between { BetweenRows }
    ensures adds { (l : Limits) → AddsRows l }
    ensures segments { ShortDataRows }
    ensures room { (t : SubtypeOf ℕ) → RoomRows t }
{}
