//! What is kept of each latch.
ghost use Rattle.std.specs.Prelude.{◌≡◌, length};
ghost use Rattle.words.specs.Sets.{most_latches};

use crate::recipes::recipe::Recipe;
use book::MOST_LATCHES;

/// The recipes of a latch that are kept: neither, the one to 1, or the one to 1 and the one to 0.
#[derive(Clone, Copy)]
pub(crate) enum Kept {
    Neither,
    One(Recipe),
    Both(Recipe, Recipe),
}

/// What is kept of each latch.
#[derive(Clone, Copy)]
pub(crate) struct RecipeTable {
    pub(crate) kept: [Kept; MOST_LATCHES],
    ghost places: { length kept ≡ most_latches },
}
