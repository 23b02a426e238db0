//! The names of latches, and what is read by them.
ghost use Rattle.std.specs.Prelude.{◌≡◌, ◌<◌, ◌≤◌, List, [], ◌∷◌, ◌++◌, map, take, length, IfSome, MatchOption};
ghost use Rattle.std.proofs.Math.Option.{none, some};
ghost use Rattle.words.specs.Sets.{most_latches};
ghost use Rattle.book.specs.Places.{name_of};
ghost use Rattle.format.specs.Bytes.{Bytes};
ghost use Rattle.format.specs.Values.{find as found_at, latch as latched, new_name};
ghost use Rattle.booktext.specs.Kept.{NamedUntil};
ghost use Rattle.booktext.specs.Read.{Means};

use book::{Book, MOST_LATCHES, Name};
use format::Fault;
use std::marker::Model;

/// The names of some latches, latch 0 first. Places behind the count are empty.
#[derive(Drop)]
pub(crate) struct Names {
    pub(crate) table: [Name; MOST_LATCHES],
    pub(crate) count: u8,
}

impl Model for Names {
    ghost Value = { List Bytes };

    ghost view = { λ n. map name_of (take n.count n.table) };

    ghost invariant = { λ n. (n.count ≤ most_latches) × NamedUntil n.count n.table };
}

impl Names {
    /// No name yet.
    pub(crate) fn none() -> Names
        ensures { result ≡ [] }
    {
        let table = Book::blank().names;
        Names { table, count: 0 }
    }

    /// One more name.
    pub(crate) fn push(&mut self, name: Name)
        requires { length self.old < most_latches }
        ensures { self.new ≡ self.old ++ (name_of name ∷ []) }
    {
        self.table[self.count as usize] = name;
        self.count += 1;
    }

    /// The number of the latch of this name.
    pub(crate) fn find(&self, v: &[u8]) -> Option<u8>
        ensures named { MatchOption result (found_at v.now self.now ≡ none) (λ i. found_at v.now self.now ≡ some i) }
        ensures few { IfSome result (λ i. i < most_latches) }
    {
        let names = &self.table[..self.count as usize];
        let latch = names.iter().position(|name| name.as_bytes() == v)?;
        Some(latch as u8)
    }

    /// The latch that is named.
    pub(crate) fn latch(&self, v: &[u8]) -> Result<u8, Fault>
        ensures { Means result (latched self.now v.now) (λ latch. latch) }
    {
        self.find(v).ok_or(Fault::Latch)
    }

    /// A name for one more latch.
    pub(crate) fn new_name(&self, v: &[u8]) -> Result<Name, Fault>
        ensures { Means result (new_name self.now v.now) name_of }
    {
        let name = Name::from_bytes(v).ok_or(Fault::Name)?;
        match self.find(v) {
            None => Ok(name),
            Some(_) => Err(Fault::Name),
        }
    }
}
