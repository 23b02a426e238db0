//! Partial settings: what a move asks, and what an errand wants.
ghost use Rattle.std.specs.Prelude.{◌≡◌, ℕ, true, MatchOption};
ghost use Rattle.words.specs.Sets.{has};

use words::LatchSet;

/// Positions of some latches: those in `named`, of which those in `ones` are to be at 1 and the others at 0.
#[derive(Clone, Copy, PartialEq, Eq)]
pub struct PartialSetting {
    pub named: LatchSet,
    pub ones: LatchSet,
    ghost within: { (j : ℕ) → has ones j ≡ true → has named j ≡ true },
}

impl PartialSetting {
    /// No latch is named.
    pub const EMPTY: PartialSetting = PartialSetting {
        named: LatchSet::EMPTY,
        ones: LatchSet::EMPTY,
    };

    /// The latches in `ones` at 1 and the others in `named` at 0. `None` if one is in `ones` and not in `named`.
    pub fn new(named: LatchSet, ones: LatchSet) -> Option<PartialSetting>
        ensures { MatchOption result (((j : ℕ) → has ones j ≡ true → has named j ≡ true) → ⊥)
            (λ p. (p.named ≡ named) × (p.ones ≡ ones)) }
    {
        if !ones.difference(named).is_empty() {
            return None;
        }
        Some(PartialSetting { named, ones })
    }
}
