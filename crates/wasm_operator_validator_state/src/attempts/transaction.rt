//! An attempt under way, or none.

ghost use Rattle.std.specs.Prelude.{◌≡◌, Ok};
ghost use Rattle.std.specs.Fn.{FnOnceReturnsAtMut};
ghost use Rattle.wasm_operator_validator_state.specs.attempts.Log.{begun};
ghost use Rattle.wasm_operator_validator_state.specs.attempts.Transactions.{IsActive, IsInactive, Maps};

use crate::attempts::log::{RollbackLog, RollbackLogAllocations};
use std::alloc::AllocError;
use std::mem::replace;

/// Where an attempt is under way its log, and else the memory for one.
#[derive(Drop)]
pub enum Transaction {
    /// An attempt is under way.
    Active(RollbackLog),
    /// None is.
    Inactive(RollbackLogAllocations),
}

impl Transaction {
    /// No attempt. It takes no memory.
    pub fn new(allocs: RollbackLogAllocations) -> Transaction
        ensures { IsInactive result }
    {
        Transaction::Inactive(allocs)
    }

    /// Begins an attempt where so many locals are set. One that is under way ends first. It takes no memory.
    pub fn begin(&mut self, init_height: usize)
        ensures { IsActive self.new (begun init_height) }
    {
        let allocs = self.taken();
        *self = Transaction::Active(RollbackLog::new(init_height, allocs));
    }

    /// Ends an attempt, if one is under way. It takes no memory.
    pub fn end(&mut self)
        ensures { IsInactive self.new }
    {
        let allocs = self.taken();
        *self = Transaction::Inactive(allocs);
    }

    /// Tells the log of an attempt, if one is under way, and answers what telling it did; else nothing changes.
    pub fn map<F: FnOnce(&mut RollbackLog) -> Result<(), AllocError>>(
        &mut self,
        f: F,
    ) -> Result<(), AllocError>
        requires { F.IsAlwaysCallable f }
        ensures { Maps (λ before answer after. FnOnceReturnsAtMut F.FnOnce f before answer after) self.old
            result self.new }
    {
        match self {
            Transaction::Active(log) => f(log),
            Transaction::Inactive(_) => Ok(()),
        }
    }

    /// The memory, of the log too where an attempt is under way.
    pub fn into_allocations(self) -> RollbackLogAllocations {
        match self {
            Transaction::Active(log) => log.into_allocations(),
            Transaction::Inactive(allocs) => allocs,
        }
    }

    /// The memory, in whose place nothing is left.
    fn taken(&mut self) -> RollbackLogAllocations {
        let alloc = self.allocator();
        let none = Transaction::Inactive(RollbackLogAllocations::new(alloc));
        replace(self, none).into_allocations()
    }

    fn allocator(&self) -> std::alloc::Global {
        match self {
            Transaction::Active(log) => log.allocator(),
            Transaction::Inactive(allocs) => allocs.allocator(),
        }
    }
}
