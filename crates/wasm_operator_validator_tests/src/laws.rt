//! Worked rows, each the contract of a function that does nothing.

ghost use Rattle.std.specs.Prelude.{ℕ};
ghost use Rattle.std.specs.declared.alloc.AllocError.{AllocError};
ghost use Rattle.wasm_types.specs.settings.declared.WasmFeatures.{WasmFeatures};
ghost use Rattle.wasm_operators_immediates.specs.declared.handlers.Handle.{Handle};
ghost use Rattle.wasm_operators_immediates.specs.declared.memory.Ordering.{Ordering};
ghost use Rattle.wasm_operator_validator_state.specs.resources.Meaning.{Meaning};
ghost use Rattle.wasm_operator_validator_state.specs.declared.attempts.log.RollbackLogAllocations.{RollbackLogAllocations};
ghost use Rattle.wasm_operator_validator_tests.specs.Counts.{ReferencesCounted, AggregatesCounted, DescriptorsCounted, ExceptionsCounted, SharedCounted, ContinuationsCounted};
ghost use Rattle.wasm_operator_validator_tests.specs.Answers.{CountsEnd, NamesAnswered, NamesMean, FunctionTypes, KnowsModule, OperatorsAnswered};
ghost use Rattle.wasm_operator_validator_tests.specs.States.{RefusalsTold, AnswersDo, KindsOfRefusals, NamesOfTypes, UsesRows, ChecksRows, VisitsRows};
ghost use Rattle.wasm_operator_validator_tests.specs.Attempts.{NotesRows, AttemptsRows};
ghost use Rattle.wasm_operator_validator_tests.specs.Beginning.{BeginningRows, ConstantsBegin};
ghost use Rattle.wasm_operator_validator_tests.specs.Steps.{NamesWritten, StacksChanged, AbstractFits, BeginningsStopped, LocalsDeclared, FunctionsAt};

/// How many operands the operators take and give for which no rule of typing is there yet (WebAssembly 3.0, validation, instructions, and
/// the proposals on custom descriptors, shared everything and stack switching).
pub const fn further_counts_are_worked()
    ensures references { ReferencesCounted }
    ensures aggregates { AggregatesCounted }
    ensures descriptors { DescriptorsCounted }
    ensures exceptions { ExceptionsCounted }
    ensures shared_accesses { (a : Ordering) (x i : ℕ) → SharedCounted a x i }
    ensures continuations { (hs : Handle) → ContinuationsCounted hs }
{}

/// What is answered of numbers of operands, of types by their ids and by any index, and for operators.
pub const fn answers_are_worked()
    ensures counts { CountsEnd }
    ensures names { NamesAnswered }
    ensures meanings { NamesMean }
    ensures types { FunctionTypes }
    ensures known { KnowsModule }
    ensures operators { OperatorsAnswered }
{}

/// What refusals are, what a function may use, and what the check and the visit of an operator promise.
pub const fn states_are_worked()
    ensures refusals { (f : WasmFeatures) → RefusalsTold f }
    ensures answers { AnswersDo }
    ensures kinds { (f : WasmFeatures) → KindsOfRefusals f }
    ensures names { NamesOfTypes }
    ensures uses { UsesRows }
    ensures checks { (m : Meaning) → ChecksRows m }
    ensures visits { (m : Meaning) → VisitsRows m }
{}

/// What the log of an attempt is told, and whether an attempt is under way.
pub const fn attempts_are_worked()
    ensures notes { NotesRows }
    ensures attempts { (a : RollbackLogAllocations) (e : AllocError) → AttemptsRows a e }
{}

/// Where the body of a function begins, and which functions may have a type; where a constant begins (WebAssembly 3.0, validation, functions).
pub const fn beginnings_are_worked()
    ensures functions { BeginningRows }
    ensures constants { ConstantsBegin }
{}

/// What steps over open frames do, why an operator may not begin, which locals are declared, and which types are those of functions
/// (WebAssembly 3.0, validation, instructions and functions).
pub const fn steps_are_worked()
    ensures names { NamesWritten }
    ensures stacks { (m : Meaning) → StacksChanged m }
    ensures fits { (m : Meaning) → AbstractFits m }
    ensures beginnings { BeginningsStopped }
    ensures locals { LocalsDeclared }
    ensures functions { FunctionsAt }
{}
