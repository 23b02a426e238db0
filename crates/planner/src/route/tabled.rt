//! The table of a route.
ghost use Rattle.std.specs.Prelude.{◌≡◌, length as length_of};
ghost use Rattle.tables.specs.Items.{items};
ghost use Rattle.planner.specs.Laid.{Placed};
ghost use Rattle.planner.specs.Listed.{Listed, route_numbers};

use crate::recipes::Recipes;
use crate::route::entries::Entries;

/// The route of an errand: its recipes one after another, each with its parts in a table, so that nothing is ever opened.
#[derive(Clone, Copy)]
pub struct Route {
    pub(crate) recipes: Recipes,
    pub(crate) entries: Entries,
    pub(crate) length: u64,
    ghost placed: { Placed recipes.order (items entries) },
    ghost listed: { Listed recipes (items entries) },
    ghost counted: { length ≡ length_of (route_numbers recipes.task) },
}
