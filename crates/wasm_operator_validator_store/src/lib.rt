//! Runs of a valid program over a store: globals, tables, memories, segments, objects and exceptions hold what was written last.
//!
//! There is no code here but the laws, each on the contract of a function that does nothing. `specs/` is read in the order of its
//! `Lib.antt`: the store, bytes of memories, functions of integers, which clause catches, what fits in a store, what a store gives to each
//! operator, and the laws.
#![tactic(auto)]

ghost use Rattle.std.specs.Prelude.{ℤ};
ghost use Rattle.wasm_operator_validator_store.specs.Determined.{StoreRunsAreDetermined, StoreStepsAreDetermined};
ghost use Rattle.wasm_operator_validator_store.specs.Exact.{BytesAreKept, MemoriesAreKept, TrapsExactly};
ghost use Rattle.wasm_operator_validator_store.specs.Final.{FinalTypesAreLast};
ghost use Rattle.wasm_operator_validator_store.specs.Folding.{ConstantsFold, DivisionsAreExact, IntegersAreComputed};
ghost use Rattle.wasm_operator_validator_store.specs.Instantiation.{FirstStoresFit};
ghost use Rattle.wasm_operator_validator_store.specs.Pinned.{StoreRunsArePinned};
ghost use Rattle.wasm_operator_validator_store.specs.Soundness.{ImmutableIsKept, StoreAnswersExist, StoreConstantsAreSound, StoreRunsAreSound, StoreStepsAreSound};
ghost use Rattle.wasm_operator_validator_store.specs.Tested.{TestsAreExact};
ghost use Rattle.wasm_operator_validator_store.specs.Traps.{OnlyTheseTrap};
ghost use Rattle.wasm_operator_validator_store.specs.Widths.{WidthsAreKept};
ghost use Rattle.wasm_operator_validator_store.specs.worked.Arms.{ArmsWorked};
ghost use Rattle.wasm_operator_validator_store.specs.worked.Atomics.{AtomicsWorked};
ghost use Rattle.wasm_operator_validator_store.specs.worked.Integers.{IntegersWorked};
ghost use Rattle.wasm_operator_validator_store.specs.worked.Linked.{LinkedStoreWorked};
ghost use Rattle.wasm_operator_validator_store.specs.worked.Memories.{MemoriesWorked};
ghost use Rattle.wasm_operator_validator_store.specs.worked.Outcomes.{OutcomesWorked};
ghost use Rattle.wasm_operator_validator_store.specs.worked.Rows.{RowsWorked};
ghost use Rattle.wasm_operator_validator_store.specs.worked.Tables.{OperatorTablesWorked};

/// What a store gives at a step is an answer of the machine that has no store. The step has what it needs, and all fits again.
pub fn store_steps_are_sound()
    ensures { StoreStepsAreSound }
{}

/// At each step a store gives something, and the run traps under it only if the operator may trap.
pub fn store_answers_exist()
    ensures { StoreAnswersExist }
{}

/// A run over a store is a run of the machine that has none, is never stuck, can go on until it ends, and all fits on the way and after
/// its last step.
pub fn store_runs_are_sound()
    ensures { StoreRunsAreSound }
{}

/// Of what a store gives at a step nothing is left open, except for what comes from outside.
pub fn store_steps_are_determined()
    ensures { StoreStepsAreDetermined }
{}

/// Of two runs of one length from one store, of which one has only such steps, both come to the same.
pub fn store_runs_are_determined()
    ensures { StoreRunsAreDetermined }
{}

/// A step traps only if its operator may, over what is there: not for null if there is none, nor within bounds. These may whatever is there:
/// `call_indirect`, a cast to a type without null, `memory.discard`, a wait, a notification at a shared memory, a conversion of floats to
/// integers, and a call of the host. Of calls and casts `tests_are_exact` tells more.
pub fn only_these_trap()
    ensures { OnlyTheseTrap }
{}

/// A step that reaches into a memory that no other thread uses, a table, a segment or an object traps exactly if it ends past the end, or
/// finds null; so does a call by a null reference. In a memory the address, the offset and the width are added as numbers. An atomic access
/// traps also if the address is no multiple of the width. Of `memory.discard` it is open.
pub fn traps_are_exact()
    ensures { TrapsExactly }
{}

/// A cast traps exactly if the value is not of the type. A call through a table does not trap where a function of the program's own
/// of that type is there, and traps where what is there is of another type, and past the end.
pub fn tests_are_exact()
    ensures { TestsAreExact }
{}

/// An operator on integers gives the value of its function, or traps if that has none.
pub fn integers_are_computed()
    ensures { IntegersAreComputed }
{}

/// So constants and the operator above them come to what any constant with the bits of the value comes to: a compiler may fold them.
pub fn constants_fold()
    ensures { ConstantsFold }
{}

/// Division with a sign has no value by zero, nor of the least number by -1, and else it has one. Other division has none by zero alone.
pub fn divisions_are_exact()
    ensures { DivisionsAreExact }
{}

/// No type is declared below a final one. So a value of a final type was made with that very type, and a cast may compare types for equality.
pub fn final_types_are_last()
    ensures { FinalTypesAreLast }
{}

/// In a list of bytes what is read is what was written last, and each other byte is as it was. Bytes that a store gets for a memory are those
/// of this memory, and each memory at another address is as it was.
pub fn memories_are_kept()
    ensures bytes { BytesAreKept }
    ensures memories { MemoriesAreKept }
{}

/// So it is at each state and store of a run: what is given leads to one state and one store, and what traps is known beforehand.
pub fn store_runs_are_pinned()
    ensures { StoreRunsArePinned }
{}

/// Each number stays within the bits of its type, in a state and in a store, as long as the length of each array and table, and of each memory
/// in pages, is a number that an operator can give.
pub fn widths_are_kept()
    ensures { WidthsAreKept }
{}

/// A constant over a store gives a value of its type, and leaves a store in which all fits.
pub fn store_constants_are_sound()
    ensures { StoreConstantsAreSound }
{}

/// In the first store of a program all fits, if it does in what the host gives: constants and active segments are put in their places.
pub fn first_stores_fit()
    ensures { FirstStoresFit }
{}

/// An immutable global, field or element is what it was.
pub fn immutable_is_kept()
    ensures { ImmutableIsKept }
{}

/// Steps over a store: what is read is what was written last, and what traps.
pub fn rows_are_worked()
    ensures { RowsWorked }
{}

/// Steps over a store: each way in which an operator goes on.
pub fn arms_are_worked()
    ensures { ArmsWorked }
{}

/// Steps over a store: which of several outcomes it is, for each operator that has several.
pub fn outcomes_are_worked()
    ensures { OutcomesWorked }
{}

/// Steps over memories and data segments: which bytes are read and written, and what is past their ends.
pub fn memories_are_worked()
    ensures { MemoriesWorked }
{}

/// Steps over memories: atomic accesses, which number is given, which bytes are written, and what traps.
pub fn atomics_are_worked()
    ensures { AtomicsWorked }
{}

/// Functions of integers, and steps of their operators.
pub fn integers_are_worked()
    ensures { IntegersWorked }
{}

/// Each operator on integers and each access by its name: the types, the bytes that are reached, and what is made of a few numbers.
pub fn operator_tables_are_worked()
    ensures { OperatorTablesWorked }
{}

/// A store that the host gives to a program which imports one global and one table twice: it fits, the program's first store fits, and
/// runs over that store read by one index what was written by the other.
pub fn linked_store_is_worked()
    ensures { (x : ℤ) → LinkedStoreWorked x }
{}
