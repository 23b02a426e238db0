//! The blank book.
ghost use Rattle.std.specs.Prelude.{◌≡◌, [], map, replicate};
ghost use Rattle.words.specs.Sets.{most_latches};
ghost use Rattle.book.specs.Limits.{most_moves};
ghost use Rattle.book.specs.Places.{name_of, no_move};

use crate::book::{Book, MOST_LATCHES, MOST_MOVES};
use crate::moves::Move;
use crate::name::Name;

impl Book {
    /// A book with no latch and no move.
    pub fn blank() -> Book
        ensures latches { result.latches ≡ 0 }
        ensures count { result.count ≡ 0 }
        ensures names { map name_of result.names ≡ replicate most_latches [] }
        ensures moves { result.moves ≡ replicate most_moves no_move }
    {
        Book {
            latches: 0,
            names: [Name::EMPTY; MOST_LATCHES],
            count: 0,
            moves: [Move::EMPTY; MOST_MOVES],
        }
    }
}
