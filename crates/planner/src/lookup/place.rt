//! A place inside a recipe.

/// A place inside the recipe of a helper: the helper's place in the order, and the place in its recipe.
#[derive(Clone, Copy)]
pub(crate) struct Inside {
    pub(crate) place: u8,
    pub(crate) rest: u64,
}
