//! Books.
ghost use Rattle.std.specs.Prelude.{◌≡◌, ℕ, ◌<◌, ◌≤◌, true, false, [], length, take};
ghost use Rattle.words.specs.Sets.{Below, most_latches};
ghost use Rattle.book.specs.Limits.{most_moves};
ghost use Rattle.book.specs.Names.{well_named, same};
ghost use Rattle.book.specs.Places.{name_at, move_at, no_move};

use crate::moves::Move;
use crate::name::Name;

/// The most latches of a book.
pub const MOST_LATCHES: usize = words::MOST_LATCHES as usize;

/// The most moves of a book.
pub const MOST_MOVES: usize = 128;

/// A book: the names of its latches, latch 0 first, and its moves, numbered from 0. Places behind the counts are empty.
#[derive(Clone, Copy)]
pub struct Book {
    pub latches: u8,
    pub names: [Name; MOST_LATCHES],
    pub count: u8,
    pub moves: [Move; MOST_MOVES],
    ghost few: { latches ≤ most_latches },
    ghost room: { count ≤ most_moves },
    ghost name_places: { length names ≡ most_latches },
    ghost move_places: { length moves ≡ most_moves },
    ghost named: { (k : ℕ) → k < latches → well_named (name_at names k) ≡ true },
    ghost differ: { (j k : ℕ) → (j < k) × (k < latches) → same (name_at names j) (name_at names k) ≡ false },
    ghost own: { (k : ℕ) → k < count → (move_at moves k).latch < latches },
    ghost asks: { (k : ℕ) → k < count → Below latches (move_at moves k).when.named },
    ghost no_names: { (k : ℕ) → latches ≤ k → name_at names k ≡ [] },
    ghost no_moves: { (k : ℕ) → count ≤ k → move_at moves k ≡ no_move },
}

impl Book {
    /// The moves of the book, by number.
    pub fn moves(&self) -> &[Move]
        ensures { result.now ≡ take self.now.count self.now.moves }
    {
        &self.moves[..self.count as usize]
    }
}
