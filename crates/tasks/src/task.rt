//! Tasks in normal form: all latches start at 0.
ghost use Rattle.std.specs.Prelude.{◌≡◌, ℕ, ◌<◌, ◌≤◌, true, not, length};
ghost use Rattle.tables.specs.Items.{items};
ghost use Rattle.words.specs.Sets.{most_latches, has, Below};
ghost use Rattle.book.specs.Limits.{most_moves};
ghost use Rattle.tasks.specs.Places.{move_at};

use book::{MOST_MOVES, PartialSetting};
use tables::Table;

/// A move in normal form: its number in the book, the latch that it throws, its target, and what it asks.
#[derive(Clone, Copy)]
pub struct NormalMove {
    pub number: u8,
    pub latch: u8,
    pub to: bool,
    pub asks: PartialSetting,
}

/// A task in normal form: its moves by rising number, and what is wanted. A move asks its own latch at the opposite of its target.
#[derive(Clone, Copy)]
pub struct NormalTask {
    pub width: u8,
    pub moves: Table<NormalMove, MOST_MOVES>,
    pub want: PartialSetting,
    ghost narrow: { width ≤ most_latches },
    ghost own: { (k : ℕ) → k < length (items moves) → (move_at (items moves) k).latch < width },
    ghost within: { (k : ℕ) → k < length (items moves) → Below width (move_at (items moves) k).asks.named },
    ghost asks_own: { (k : ℕ) → k < length (items moves) → has (move_at (items moves) k).asks.named (move_at (items moves) k).latch ≡ true },
    ghost opposite: { (k : ℕ) → k < length (items moves) → has (move_at (items moves) k).asks.ones (move_at (items moves) k).latch ≡ not (move_at (items moves) k).to },
    ghost wanted: { Below width want.named },
}

impl NormalTask {
    /// The moves of the task, by rising number.
    pub fn moves(&self) -> &[NormalMove]
        ensures list { result.now ≡ items self.now.moves }
        ensures few { length result.now ≤ most_moves }
    {
        self.moves.as_slice()
    }
}
