//! Worked operators, each on the contract of a function that does nothing: a changed definition of the rules breaks one.

ghost use Rattle.std.specs.Prelude.{ℤ};
ghost use Rattle.wasm_operator_validator_rules.specs.worked.InstructionTypes.{NumbersWorked, AccessesWorked, SpacesWorked};
ghost use Rattle.wasm_operator_validator_rules.specs.worked.Operators.{ControlWorked, OperandsWorked, VariablesWorked, ReferencesWorked, FeaturesWorked};
ghost use Rattle.wasm_operator_validator_rules.specs.worked.References.{CallsWorked, TailCallsWorked, NullsWorked};
ghost use Rattle.wasm_operator_validator_rules.specs.worked.ObjectTypes.{StructsWorked, ArraysWorked, CastsWorked};
ghost use Rattle.wasm_operator_validator_rules.specs.worked.ObjectRows.{GcRowsWorked, ObjectOperandsWorked, CastBranchesWorked};
ghost use Rattle.wasm_operator_validator_rules.specs.worked.Codes.{CodesWorked, PartsWorked};
ghost use Rattle.wasm_operator_validator_rules.specs.worked.Exceptions.{ExceptionsWorked, CatchesWorked};
ghost use Rattle.wasm_operator_validator_rules.specs.worked.Clauses.{ClausesWorked};
ghost use Rattle.wasm_operators_immediates.specs.declared.vector.V128.{V128};
ghost use Rattle.wasm_operator_validator_rules.specs.worked.Descriptors.{DescriptorsWorked};
ghost use Rattle.wasm_operator_validator_rules.specs.worked.SharedAccesses.{SharedWorked};
ghost use Rattle.wasm_operator_validator_rules.specs.worked.SharedKinds.{SharedGlobalsWorked, SharedFieldsWorked, SharedElementsWorked};
ghost use Rattle.wasm_operator_validator_rules.specs.worked.Continuations.{ContinuationsWorked, HandlersWorked, SwitchesWorked};
ghost use Rattle.wasm_operator_validator_rules.specs.worked.Vectors.{VectorTypesWorked, VectorAccessesWorked, VectorsRefused, VectorRowsWorked};

/// Instruction types by the table, and operators for which it has none.
#[tactic(auto, using(crate::proofs::WorkedTypes::numbers_worked, crate::proofs::WorkedTypes::accesses_worked, crate::proofs::WorkedTypes::spaces_worked))]
pub fn instruction_types_are_worked()
    ensures numbers { NumbersWorked }
    ensures accesses { AccessesWorked }
    ensures spaces { SpacesWorked }
{}

/// Rows that hold and rows that do not.
#[tactic(auto, using(crate::proofs::WorkedOperators::control_worked, crate::proofs::WorkedOperators::operands_worked, crate::proofs::WorkedOperators::variables_worked, crate::proofs::WorkedOperators::references_worked, crate::proofs::WorkedOperators::features_worked))]
pub fn rows_are_worked()
    ensures control { ControlWorked }
    ensures operands { OperandsWorked }
    ensures variables { VariablesWorked }
    ensures references { ReferencesWorked }
    ensures features { FeaturesWorked }
{}

/// Operators on references to functions and on null: rows that hold and rows that do not.
#[tactic(auto, using(crate::proofs::WorkedReferences::calls_worked, crate::proofs::WorkedReferences::tail_calls_worked, crate::proofs::WorkedReferences::nulls_worked))]
pub fn references_are_worked()
    ensures calls { CallsWorked }
    ensures tail_calls { TailCallsWorked }
    ensures nulls { NullsWorked }
{}

/// Code that is typed and code that is not; what the parts of frames are.
#[tactic(auto, using(crate::proofs::WorkedCodes::parts_worked))]
pub fn code_is_worked()
    ensures codes { (x : ℤ) → CodesWorked x }
    ensures parts { PartsWorked }
{}

/// Operators on exceptions: rows that hold and rows that do not, and clauses of `try_table`.
#[tactic(auto, using(crate::proofs::WorkedExceptions::exceptions_worked, crate::proofs::WorkedExceptions::catches_worked))]
pub fn exceptions_are_worked()
    ensures rows { ExceptionsWorked }
    ensures catches { CatchesWorked }
{}

/// Code with clauses that catch exceptions.
pub fn clauses_are_worked()
    ensures { (x : ℤ) → ClausesWorked x }
{}

/// Operators on structs, arrays and references: instruction types by the table, rows that hold and rows that do not.
#[tactic(auto, using(crate::proofs::WorkedObjects::structs_worked, crate::proofs::WorkedObjects::arrays_worked, crate::proofs::WorkedObjects::casts_worked, crate::proofs::WorkedObjects::gc_rows_worked, crate::proofs::WorkedObjects::object_operands_worked, crate::proofs::WorkedObjects::cast_branches_worked))]
pub fn objects_are_worked()
    ensures structs { StructsWorked }
    ensures arrays { ArraysWorked }
    ensures casts { CastsWorked }
    ensures rows { GcRowsWorked }
    ensures operands { ObjectOperandsWorked }
    ensures branches { CastBranchesWorked }
{}

/// Operators on vectors: instruction types by the table, that there are none while the switch is off, rows that hold and rows that do not.
#[tactic(auto, using(crate::proofs::WorkedVectors::vector_types_worked, crate::proofs::WorkedVectors::vector_accesses_worked, crate::proofs::WorkedVectors::vectors_refused, crate::proofs::WorkedVectors::vector_rows_worked))]
pub fn vectors_are_worked()
    ensures types { (value : V128) → VectorTypesWorked value }
    ensures accesses { VectorAccessesWorked }
    ensures refused { (value : V128) → VectorsRefused value }
    ensures rows { (value : V128) → VectorRowsWorked value }
{}

/// Operators on descriptors: rows that hold and rows that do not.
#[tactic(auto, using(crate::proofs::WorkedDescriptors::descriptors_worked))]
pub fn descriptors_are_worked()
    ensures { DescriptorsWorked }
{}

/// Atomic accesses to globals, tables, structs and arrays: rows that hold and rows that do not.
#[tactic(auto, using(crate::proofs::WorkedShared::shared_worked))]
pub fn shared_accesses_are_worked()
    ensures { SharedWorked }
{}

/// Which atomic accesses modify a number, and which exchange any value: rows that hold and rows that do not.
#[tactic(auto, using(crate::proofs::WorkedSharedKinds::shared_globals_worked, crate::proofs::WorkedSharedKinds::shared_fields_worked, crate::proofs::WorkedSharedKinds::shared_elements_worked))]
pub fn shared_kinds_are_worked()
    ensures globals { SharedGlobalsWorked }
    ensures fields { SharedFieldsWorked }
    ensures elements { SharedElementsWorked }
{}

/// Operators on continuations, and their handlers: rows that hold and rows that do not.
#[tactic(auto, using(crate::proofs::WorkedContinuations::continuations_worked, crate::proofs::WorkedContinuations::handlers_worked, crate::proofs::WorkedContinuations::switches_worked))]
pub fn continuations_are_worked()
    ensures continuations { ContinuationsWorked }
    ensures handlers { HandlersWorked }
    ensures switches { SwitchesWorked }
{}
