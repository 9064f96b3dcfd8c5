//! Numbers in an order that only their owner can tell: a number stands for something that the owner keeps elsewhere, as an id does for a
//! type, and what it stands for is found by its content, with no second copy of it.
//!
//! Contracts see the numbers as a list, in their order (`specs/Order.antt`), and not how they lie in memory.

ghost use Rattle.std.specs.Prelude.{◌≡◌, ℕ, [], MatchOption, OnOk, OnErr};
ghost use Rattle.std.specs.declared.cmp.Ordering.{Ordering};
ghost use Rattle.wasm_module_validator_type_storage.specs.ordered.Order.{Ascends, Misses, Finds, IsPut};

mod adding;
mod finding;
pub mod laws;

use adding::insert_near;
use finding::find_among;
use std::alloc::{AllocError, Global};
use std::cmp::Ordering;
use std::marker::Model;

/// What tells where a number stands beside something that is sought.
pub trait Compare {
    ghost order: { Self → ℕ → Ordering };

    /// Whether what the number stands for is less than what is sought, equal to it, or greater.
    fn compare(&self, number: u32) -> Ordering
        ensures { result ≡ order self.now number };
}

/// Where a search ended that found nothing: in a chunk, at a place of it. To add what was sought looks there first.
#[derive(Clone, Copy)]
pub struct SearchEnd {
    pub(crate) chunk: usize,
    pub(crate) place: usize,
}

impl SearchEnd {
    /// Of no search.
    pub fn of_none() -> SearchEnd {
        SearchEnd { chunk: 0, place: 0 }
    }
}

/// Numbers in order. They lie in chunks of 1 to 512, so that one is added at the cost of moving a chunk, however many there are.
#[derive(Drop)]
pub struct Ordered {
    chunks: Vec<Vec<u32>>,
}

impl Model for Ordered {
    ghost use Rattle.std.specs.Prelude.{ℕ, List};
    ghost use Rattle.std.specs.List.{concat};
    ghost use Rattle.wasm_module_validator_type_storage.specs.ordered.Chunks.{AreChunks, numbers_of};

    ghost Value = { List ℕ };

    ghost view = { λ o. concat (numbers_of o.chunks.items) };

    ghost invariant = { λ o. AreChunks (numbers_of o.chunks.items) };
}

impl Ordered {
    /// No numbers. It takes no memory.
    pub fn new(alloc: Global) -> Ordered
        ensures { result ≡ [] }
    {
        Ordered {
            chunks: Vec::new(alloc),
        }
    }

    /// The number that is equal to what is sought, if there is one, and where the search ended.
    pub fn find<C: Compare>(&self, sought: &C) -> (Option<u32>, SearchEnd)
        requires { Ascends (C.order sought.now) self.now }
        ensures { MatchOption result.0 (Misses (C.order sought.now) self.now)
            (λ n. Finds (C.order sought.now) self.now n) }
    {
        find_among(self.chunks.as_slice(), sought)
    }

    /// Adds a number where what is sought belongs: without a further search, if one for it ended inside a chunk that has room and
    /// nothing was added since. If there is no memory for it, nothing changes.
    pub fn insert<C: Compare>(
        &mut self,
        sought: &C,
        number: u32,
        end: SearchEnd,
    ) -> Result<(), AllocError>
        requires ascends { Ascends (C.order sought.now) self.old }
        requires misses { Misses (C.order sought.now) self.old }
        ensures ok { OnOk result (IsPut (C.order sought.now) number self.old self.new) }
        ensures err { OnErr result (self.new ≡ self.old) }
    {
        insert_near(&mut self.chunks, sought, number, end)
    }
}
