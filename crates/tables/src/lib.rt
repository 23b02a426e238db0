//! Tables: items one behind another, as many as fit into a fixed room, with no heap.
#![tactic(auto)]

#[cfg(test)]
mod tests;

ghost use Rattle.std.specs.Prelude.{◌≡◌, ◌<◌, ◌≤◌, ⊤, [], ◌∷◌, ◌++◌, length};

use std::alloc::AllocError;

/// At most `ROOM` items, one behind another. The places behind the last one are filled with some item, of which nothing is said.
pub struct Table<T, const ROOM: usize> {
    places: [T; ROOM],
    count: usize,
    ghost fits: { count ≤ ROOM },
    ghost full: { length places ≡ ROOM },
}

impl<T: Copy, const ROOM: usize> Copy for Table<T, ROOM> {}

impl<T: Copy, const ROOM: usize> Clone for Table<T, ROOM> {
    ghost is_clone = { λ t u. u ≡ t };

    ghost is_infallible = { λ _. ⊤ };

    fn clone(&self) -> Result<Table<T, ROOM>, AllocError> {
        Ok(*self)
    }
}

impl<T: Copy, const ROOM: usize> Table<T, ROOM> {
    ghost use Rattle.tables.specs.Items.{items};

    /// A table with no item, its places filled with this one.
    pub fn new(filler: T) -> Table<T, ROOM>
        ensures { items result ≡ [] }
    {
        Table {
            places: [filler; ROOM],
            count: 0,
        }
    }

    /// The items, first to last.
    pub fn as_slice(&self) -> &[T]
        ensures items { result.now ≡ items self.now }
        ensures fits { length result.now ≤ ROOM }
    {
        &self.places[..self.count]
    }

    /// How many items there are.
    pub fn len(&self) -> usize
        ensures count { result ≡ length (items self.now) }
        ensures fits { result ≤ ROOM }
    {
        self.as_slice().len()
    }

    /// Puts an item behind the others. A full table stays as it is.
    pub fn push(&mut self, item: T)
        ensures room { length (items self.old) < ROOM → items self.new ≡ items self.old ++ item ∷ [] }
        ensures full { length (items self.old) ≡ ROOM → self.new ≡ self.old }
    {
        if self.count < ROOM {
            self.places[self.count] = item;
            self.count += 1;
        }
    }
}
