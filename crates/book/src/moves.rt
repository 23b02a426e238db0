//! Moves.
use crate::partial::PartialSetting;

/// A move: the latch that it throws, the position it throws it to, and the positions it asks of latches.
#[derive(Clone, Copy)]
pub struct Move {
    pub latch: u8,
    pub to: bool,
    pub when: PartialSetting,
}

impl Move {
    /// An empty place for a move.
    pub(crate) const EMPTY: Move = Move {
        latch: 0,
        to: false,
        when: PartialSetting::EMPTY,
    };
}
