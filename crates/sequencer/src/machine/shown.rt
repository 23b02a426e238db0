//! What a panel shows.
use words::LatchSet;

/// What a panel shows: how many latches it has, and which of them are at 1.
#[derive(Clone, Copy)]
pub(crate) struct Shown {
    pub(crate) width: u8,
    pub(crate) raised: LatchSet,
}
