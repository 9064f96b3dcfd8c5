//! Worked rows, each on the contract of a function that does nothing.

ghost use Rattle.wasm_types_externs.specs.Worked.{AddressesWorked, PagesWorked};
ghost use Rattle.wasm_types_externs.specs.WorkedReading.{MemoryRows, TableRows, GlobalRows, TagRows};

/// Addresses of 32 and of 64 bits, and the bytes of a page.
pub const fn addresses_and_pages()
    ensures addresses { AddressesWorked }
    ensures pages { PagesWorked }
{}

/// Worked bytes: each flag of a memory, a table and a global set and not set, and what is refused.
#[tactic(auto, using(crate::specs::WorkedReading::memory_rows, crate::specs::WorkedReading::table_rows, crate::specs::WorkedReading::global_rows, crate::specs::WorkedReading::tag_rows))]
pub const fn external_types_are_worked()
    ensures memories { MemoryRows }
    ensures tables { TableRows }
    ensures globals { GlobalRows }
    ensures tags { TagRows }
{}
