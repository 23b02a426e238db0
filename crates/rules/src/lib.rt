//! Books, starts and errands as they stand, and their normal form, which the theory's theorems speak of; and why calls are declined.
#![tactic(auto)]

mod refusal;

ghost use Rattle.std.specs.Prelude.{◌≡◌, false, [], ◌∷◌};
ghost use Rattle.rules.specs.NormalForm.{exchanged, route};
ghost use Rattle.rules.specs.Theorems.{NormalFormIsRight, RouteLeads, NoWayIsNone, LengthIsBounded};
ghost use Rattle.rules.specs.Worked.{book_g, learn, Worked};

pub use refusal::Refusal;

/// A position in normal form, where the positions of a latch that starts at 1 are exchanged. `normal` says that a book, a start and an errand
/// say the same in normal form: the same lists of legal moves, and the same met wants. So what is proved of tasks holds of books as they
/// stand: `route`, `none` and `short`.
pub fn in_normal_form(position: bool, start: bool) -> bool
    ensures answer { result ≡ exchanged position start }
    ensures normal { NormalFormIsRight }
    ensures route { RouteLeads }
    ensures none { NoWayIsNone }
    ensures short { LengthIsBounded }
{
    position != start
}

/// The moves, by number, of the first worked errand: LEARN to 1, from all latches at 0, by the book with the latches GATE, CACHE and LEARN.
/// They throw GATE to 1, CACHE to 1, GATE to 0 and LEARN to 1. The theorem has all worked errands.
#[tactic(auto, using(crate::proofs::Computed::worked))]
pub fn worked_route() -> [u8; 4]
    ensures answer { result ≡ route book_g (false ∷ false ∷ false ∷ []) learn }
    ensures worked { Worked }
{
    [0, 2, 1, 4]
}
