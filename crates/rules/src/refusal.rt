//! Why a call is declined.
ghost use Rattle.std.specs.Prelude.{◌≡◌};
ghost use Rattle.rules.specs.Refusals.{refusal_number};

/// Why a call is declined. Texts are refused by faults of their own, numbered from 1 to 6.
#[derive(Clone, Copy, PartialEq, Eq, Debug)]
pub enum Refusal {
    /// The panel does not fit: its width is not the book's number of latches.
    Misfit = 7,
    /// The errand names a latch that the book lacks, or gives position 1 to one that it does not name.
    Misnamed = 8,
    /// The errand is not in the class 3S.
    Outside = 9,
    /// No list of legal moves does the errand.
    NoWay = 10,
    /// The call is one for an idle sequencer, and a run is under way.
    Running = 11,
    /// The call is one for a run, and none is under way.
    Idle = 12,
    /// The book has no move of that number.
    NoSuchMove = 13,
    /// The move is not legal on the panel as it stands.
    Illegal = 14,
}

impl Refusal {
    /// The number of the refusal.
    pub fn number(self) -> u8
        ensures { result ≡ refusal_number self }
    {
        self as u8
    }
}
