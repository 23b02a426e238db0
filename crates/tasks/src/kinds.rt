//! The kinds of latch: which are static, and which are reversible.
ghost use Rattle.std.specs.Prelude.{◌≡◌};
ghost use Rattle.words.specs.Sets.{Below};
ghost use Rattle.theory.specs.Class.{thrown?, static?, reverse?, reversible?};
ghost use Rattle.theory.specs.Searches.{some_of};
ghost use Rattle.theory.specs.Tasks.{Task};
ghost use Rattle.tasks.specs.Tasks.{move_of, moves_of, task_of};

use crate::edges::is_asked;
use crate::task::{NormalMove, NormalTask};

impl NormalMove {
    /// Whether `other` is the reverse of this move, in every task with room for both.
    fn is_reversed_by(&self, other: &NormalMove) -> bool
        ensures { (t : Task) → Below t.width self.now.asks.named → Below t.width other.now.asks.named
            → result ≡ reverse? t self.now.latch (move_of self.now) (move_of other.now) }
    {
        other.latch == self.latch
            && other.to != self.to
            && other.asks.without(self.latch) == self.asks.without(self.latch)
    }
}

impl NormalTask {
    /// Whether some move throws `latch` to `to`.
    fn is_thrown(&self, latch: u8, to: bool) -> bool
        ensures { result ≡ thrown? (task_of self.now) latch to }
    {
        self.moves().iter().any(|m| m.latch == latch && m.to == to)
    }

    /// Whether `latch` is static: never thrown to 1, or wanted at 0 and never thrown to 0.
    pub(crate) fn is_static(&self, latch: u8) -> bool
        ensures { result ≡ static? (task_of self.now) latch }
    {
        !self.is_thrown(latch, true)
            || is_asked(self.want, false, latch) && !self.is_thrown(latch, false)
    }

    /// Whether some move is the reverse of `m`.
    fn has_reverse(&self, m: &NormalMove) -> bool
        ensures { Below self.now.width m.now.asks.named
            → result ≡ some_of (reverse? (task_of self.now) m.now.latch (move_of m.now)) (moves_of self.now) }
    {
        self.moves().iter().any(|other| m.is_reversed_by(other))
    }

    /// Whether `latch` is reversible: each move of it has a reverse.
    pub(crate) fn is_reversible(&self, latch: u8) -> bool
        ensures { result ≡ reversible? (task_of self.now) latch }
    {
        self.moves()
            .iter()
            .all(|m| m.latch != latch || self.has_reverse(m))
    }
}
