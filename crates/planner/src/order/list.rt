//! Latches one behind another.
use book::MOST_LATCHES;
use tables::Table;

/// Latches in the order in which they are placed.
#[derive(Clone, Copy)]
pub(crate) struct Order {
    pub(crate) latches: Table<u8, MOST_LATCHES>,
}
