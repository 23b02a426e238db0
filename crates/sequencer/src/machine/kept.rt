//! What a sequencer keeps beside its panel.
ghost use Rattle.std.specs.Prelude.{◌≡◌, ℕ, ◌<◌, true, length, slice_index};
ghost use Rattle.planner.specs.Routes.{moves_of};
ghost use Rattle.sequencer.specs.States.{more?};

use crate::machine::state::State;
use book::Book;
use planner::Route;

/// A book, what is being done, and the route of the run. While a run is under way, not all of its moves are thrown.
#[derive(Clone, Copy)]
pub(crate) struct Machine {
    pub(crate) book: Book,
    pub(crate) state: State,
    pub(crate) route: Route,
    ghost more: { more? state (length (moves_of route)) ≡ true },
    ghost own: { (k : ℕ) → k < length (moves_of route) → slice_index (moves_of route) k < book.count },
}
