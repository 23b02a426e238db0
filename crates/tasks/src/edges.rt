//! The causal graph of a task: which latches a latch is asked of, and which latches depend on it.
ghost use Rattle.std.specs.Prelude.{◌≡◌, ℕ, Bool, not, ◌&&◌, ◌==◌};
ghost use Rattle.std.specs.Fn.{FnReturnsAt};
ghost use Rattle.words.specs.Sets.{has};
ghost use Rattle.theory.specs.Class.{edge?, dependent?};
ghost use Rattle.theory.specs.Searches.{some_of};
ghost use Rattle.theory.specs.Tasks.{Move, asks?};
ghost use Rattle.tasks.specs.Asks.{asks_of};
ghost use Rattle.tasks.specs.declared.task.NormalMove.{NormalMove};
ghost use Rattle.tasks.specs.Tasks.{move_of, moves_of, task_of};

use crate::task::{NormalMove, NormalTask};
use book::PartialSetting;
use words::LatchSet;

/// Whether the partial setting asks that `latch` be at `position`.
pub fn is_asked(asks: PartialSetting, position: bool, latch: u8) -> bool
    ensures { result ≡ asks? position (asks_of asks latch) }
{
    asks.named.contains(latch) && asks.ones.contains(latch) == position
}

impl NormalTask {
    /// The latches with an edge to `latch`: those that a move of it asks something of.
    pub fn predecessors(&self, latch: u8) -> LatchSet
        ensures { (u : ℕ) → has result u ≡ edge? (task_of self.now) u latch }
    {
        self.moves()
            .iter()
            .fold(LatchSet::EMPTY, |found, m| {
                if m.latch == latch {
                    found.union(m.asks.named)
                } else {
                    found
                }
            })
            .without(latch)
    }

    /// The latches but `latch` with a move that passes.
    fn thrown_where<F: Fn(&NormalMove) -> bool>(&self, latch: u8, passes: F) -> LatchSet
        requires { F.IsAlwaysCallable passes }
        ensures { (test : Move → Bool) → ((m : NormalMove) (b : Bool) → FnReturnsAt F.Fn passes m b → b ≡ test (move_of m))
            → (u : ℕ) → has result u ≡ (not (u == latch) && some_of (λ m. (m.latch == u) && test m) (moves_of self.now)) }
    {
        self.moves()
            .iter()
            .fold(LatchSet::EMPTY, |found, m| {
                if passes(m) {
                    found.with(m.latch)
                } else {
                    found
                }
            })
            .without(latch)
    }

    /// The latches with an edge from `latch`: those with a move that asks something of it.
    pub(crate) fn successors(&self, latch: u8) -> LatchSet
        ensures { (v : ℕ) → has result v ≡ edge? (task_of self.now) latch v }
    {
        self.thrown_where(latch, |m| m.asks.named.contains(latch))
    }

    /// The other latches with a move that has the condition that `latch` be at `position`.
    pub(crate) fn dependents(&self, position: bool, latch: u8) -> LatchSet
        ensures { (u : ℕ) → has result u ≡ dependent? (task_of self.now) position latch u }
    {
        self.thrown_where(latch, |m| is_asked(m.asks, position, latch))
    }
}
