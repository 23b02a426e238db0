//! The entries of a route.
use crate::route::entry::Entry;
use book::MOST_LATCHES;
use tables::Table;

/// The most entries of a route: two for each latch.
pub(crate) const MOST_ENTRIES: usize = 2 * MOST_LATCHES;

/// Entries one behind another.
pub(crate) type Entries = Table<Entry, MOST_ENTRIES>;
