//! The recipes of a task.
ghost use Rattle.std.specs.Prelude.{true, false};
ghost use Rattle.tasks.specs.Tasks.{task_of};
ghost use Rattle.planner.specs.RecipesKept.{Splits};
ghost use Rattle.planner.specs.Made.{Orders, Members, Counts, Within, Helpers, Opens};

use crate::order::Order;
use crate::recipes::recipe_table::RecipeTable;
use tasks::NormalTask;
use words::LatchSet;

/// The recipes of a task: its latches in order, which of them are splitting, and what is kept of each.
#[derive(Clone, Copy)]
pub(crate) struct Recipes {
    pub(crate) task: NormalTask,
    pub(crate) order: Order,
    pub(crate) splitting: LatchSet,
    pub(crate) table: RecipeTable,
    ghost splits: { Splits (task_of task) splitting },
    ghost orders: { Orders task order },
    ghost members: { Members task table },
    ghost counts: { Counts task table },
    ghost within: { Within task order table },
    ghost helpers: { Helpers task order table },
    ghost opens: { Opens task order table },
}
