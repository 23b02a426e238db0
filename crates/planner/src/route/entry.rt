//! An entry of a route.

/// An entry of a route: the recipe to `to` of the latch at this place of the order.
#[derive(Clone, Copy)]
pub(crate) struct Entry {
    pub(crate) place: u8,
    pub(crate) to: bool,
}
