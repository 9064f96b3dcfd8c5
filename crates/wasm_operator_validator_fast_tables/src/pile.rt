//! A stack whose places are made before.

ghost use Rattle.std.specs.Prelude.{◌≡◌, true, false, [], ◌∷◌, ◌++◌, ◌+◌, ◌-◌, ◌<◌, ◌≤◌, length, Some, drop, reverse, slice_get, take};

use std::alloc::Global;
use std::marker::Model;

/// A stack over places that are there. A contract sees its items, the top first. Above them lie places of items that were taken off. It keeps
/// a mark, which no contract sees: whether it was refused a place since it began.
#[derive(Drop)]
pub struct Pile<T: Copy + Drop> {
    places: Vec<T>,
    count: usize,
    lacks: bool,
}

impl<T: Copy + Drop> Model for Pile<T> {
    ghost use Rattle.std.specs.Prelude.{◌≤◌, List, length, reverse, take};

    ghost Value = { List T };

    ghost view = { λ l. reverse (take l.count l.places.items) };

    ghost invariant = { λ l. l.count ≤ length l.places.items };
}

impl<T: Copy + Drop> Pile<T> {
    /// An empty one without places.
    pub fn new(alloc: Global) -> Pile<T>
        ensures { result ≡ [] }
    {
        Pile {
            places: Vec::new(alloc),
            count: 0,
            lacks: false,
        }
    }

    /// No items from now on, and places for so many. False if there is no memory.
    pub fn begin(&mut self, places: usize, item: T) -> bool
        ensures { result ≡ true → self.new ≡ [] }
    {
        self.count = 0;
        self.lacks = false;
        while self.places.as_slice().len() < places {
            let Ok(()) = self.places.push(item) else {
                self.lacks = true;
                return false;
            };
        }
        true
    }

    /// Whether it was refused a place since it began.
    pub fn lacks_memory(&self) -> bool {
        self.lacks
    }

    /// How many there are.
    #[inline(always)]
    pub fn len(&self) -> usize
        ensures { result ≡ length self.now }
    {
        self.count
    }

    /// The item that lies under `depth` others.
    #[inline(always)]
    pub fn under(&self, depth: usize) -> T
        requires { depth < length self.now }
        ensures { slice_get self.now depth ≡ Some result }
    {
        self.places[self.count - 1 - depth]
    }

    /// The last so many that were put on, the top last.
    #[inline(always)]
    pub fn last(&self, count: usize) -> &[T]
        requires { count ≤ length self.now }
        ensures { take count self.now ≡ reverse result.now }
    {
        let start = self.count - count;
        &self.places.as_slice()[start..self.count]
    }

    /// Puts an item on where there is a place for it.
    #[inline(always)]
    pub fn put(&mut self, item: T) -> bool
        ensures put { result ≡ true → self.new ≡ item ∷ self.old }
        ensures stays { result ≡ false → self.new ≡ self.old }
    {
        if self.count == self.places.as_slice().len() {
            return false;
        }
        self.places[self.count] = item;
        self.count += 1;
        true
    }

    /// Puts an item on, in a new place where there is none.
    #[inline(always)]
    pub fn push(&mut self, item: T) -> bool
        ensures put { result ≡ true → self.new ≡ item ∷ self.old }
        ensures stays { result ≡ false → self.new ≡ self.old }
    {
        if self.count == self.places.as_slice().len() {
            return self.grow(item);
        }
        self.places[self.count] = item;
        self.count += 1;
        true
    }

    // Puts an item on where all places are taken.
    #[cold]
    #[inline(never)]
    fn grow(&mut self, item: T) -> bool
        ensures put { result ≡ true → self.new ≡ item ∷ self.old }
        ensures stays { result ≡ false → self.new ≡ self.old }
    {
        if self.count != self.places.as_slice().len() {
            return false;
        }
        let Ok(()) = self.places.push(item) else {
            self.lacks = true;
            return false;
        };
        self.count += 1;
        true
    }

    /// Puts items on where there are places for them, the last on top.
    #[inline(always)]
    pub fn put_slice(&mut self, items: &[T]) -> bool
        ensures put { result ≡ true → self.new ≡ reverse items.now ++ self.old }
        ensures stays { result ≡ false → self.new ≡ self.old }
    {
        let count = items.len();
        if count > self.places.as_slice().len() - self.count {
            return false;
        }
        let end = self.count + count;
        self.places.as_mut_slice()[self.count..end].copy_from_slice(items);
        self.count = end;
        true
    }

    /// Takes the top off.
    #[inline(always)]
    #[tactic(auto, using(crate::proofs::Tops::without_top))]
    pub fn shorten(&mut self)
        requires { 0 < length self.old }
        ensures { self.new ≡ drop 1 self.old }
    {
        self.count -= 1;
    }

    /// Puts this item in the place of the top.
    #[inline(always)]
    pub fn replace(&mut self, item: T)
        requires { 0 < length self.old }
        ensures { self.new ≡ item ∷ drop 1 self.old }
    {
        self.places[self.count - 1] = item;
    }

    /// Takes items off until there are so many.
    #[inline(always)]
    pub fn keep(&mut self, count: usize)
        requires { count ≤ length self.old }
        ensures { self.new ≡ drop (length self.old - count) self.old }
    {
        self.count = count;
    }
}
