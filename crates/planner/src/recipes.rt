//! Recipes: for each latch in order, what throws it to 1 and back to 0 and leaves every other latch as it was.
mod kept;
mod making;
mod recipe;
mod recipe_table;

ghost use Rattle.std.specs.Prelude.{◌≡◌, ℕ};
ghost use Rattle.words.specs.Sets.{has, Below};
ghost use Rattle.theory.specs.Recipes.{Table, serves?};
ghost use Rattle.theory.specs.Route.{no_way?};
ghost use Rattle.theory.specs.Tasks.{Task};
ghost use Rattle.tasks.specs.Tasks.{move_of, task_of};
ghost use Rattle.planner.specs.RecipesKept.{Splits, KeepsOne, Helps, kept_at, kept_in?, kept_of, recipe_at, recipe_in, recipe_or};

use crate::order::in_order;
use book::MOST_LATCHES;
pub(crate) use kept::Recipes;
use making::Making;
pub(crate) use recipe::Recipe;
use recipe_table::{Kept, RecipeTable};
use tasks::{NormalMove, NormalTask};
use words::{LatchSet, Test};

/// Whether `m` throws `latch` to `to` and each other latch that it asks at 1 is one of `kept`, those with a kept recipe to 1.
fn serves(kept: LatchSet, latch: u8, to: bool, m: NormalMove) -> bool
    ensures { (t : Task) (table : Table) → KeepsOne kept table → Below t.width m.asks.named
        → result ≡ serves? t table latch to (move_of m) }
{
    m.latch == latch && (m.to == to && m.asks.ones.without(latch).difference(kept).is_empty())
}

/// The helpers of `m`, a move of `latch`: the other latches, not splitting, that it asks at 1.
fn helpers(splitting: LatchSet, latch: u8, m: NormalMove) -> LatchSet
    ensures { (t : Task) → Splits t splitting → Below t.width m.asks.named → Helps t latch (move_of m) result }
{
    m.asks.ones.without(latch).difference(splitting)
}

impl Kept {
    /// Both recipes if both were made; the one to 1 alone unless its latch is wanted at 0.
    fn of(one: Option<Recipe>, zero: Option<Recipe>, wanted: bool) -> Kept
        ensures { result ≡ kept_of one zero wanted }
    {
        match (one, zero) {
            (Some(up), Some(down)) => Kept::Both(up, down),
            (Some(up), None) if !wanted => Kept::One(up),
            _ => Kept::Neither,
        }
    }

    /// The recipe to `to`, if it is kept.
    pub(crate) fn recipe(self, to: bool) -> Option<Recipe>
        ensures { result ≡ recipe_in to self }
    {
        match self {
            Kept::Neither => None,
            Kept::One(up) => to.then_some(up),
            Kept::Both(up, down) => Some(if to { up } else { down }),
        }
    }

    /// How many moves the recipe to `to` comes to, 0 if it is not kept. A look-up asks it of helper after helper, so no recipe is copied.
    pub(crate) fn length(&self, to: bool) -> u64
        ensures { result ≡ (recipe_or to self.now).length }
    {
        match self {
            Kept::One(up) | Kept::Both(up, _) if to => up.length,
            Kept::Both(_, down) => down.length,
            _ => 0,
        }
    }
}

/// Whether the recipe of a latch to `to` is kept in a table.
#[derive(Clone, Copy)]
struct HasRecipe<'a> {
    table: &'a RecipeTable,
    to: bool,
}

impl<'a> Test for HasRecipe<'a> {
    ghost passing = { λ h u. kept_in? h.to h.table.now u };

    fn passes(&self, latch: u8) -> bool {
        self.table.recipe(latch, self.to).is_some()
    }
}

impl RecipeTable {
    /// The recipe of `latch` to `to`, if it is kept.
    pub(crate) fn recipe(&self, latch: u8, to: bool) -> Option<Recipe>
        ensures { result ≡ recipe_in to (kept_at self.now latch) }
    {
        self.kept.get(latch as usize)?.recipe(to)
    }

    /// How many moves the recipe of `latch` to `to` comes to, 0 if it is not kept.
    pub(crate) fn length(&self, latch: u8, to: bool) -> u64
        ensures { result ≡ (recipe_at to self.now latch).length }
    {
        self.kept
            .get(latch as usize)
            .map_or(0, |kept| kept.length(to))
    }

    /// The latches whose recipe to `to` is kept.
    pub(crate) fn kept_to(&self, to: bool) -> LatchSet
        ensures { (u : ℕ) → has result u ≡ kept_in? to self.now u }
    {
        LatchSet::from_fn(MOST_LATCHES as u8, &HasRecipe { table: self, to })
    }
}

impl Recipes {
    /// The recipes of the task.
    pub(crate) fn of(task: NormalTask) -> Recipes
        ensures { result.task ≡ task }
    {
        let order = in_order(&task);
        let mut making = Making::new(&task, &order);
        making.place_all();
        Recipes {
            task,
            order,
            splitting: making.splitting,
            table: making.table,
        }
    }

    /// Whether a latch wanted at 1 has no kept recipe to 1.
    pub(crate) fn is_no_way(&self) -> bool
        ensures { result ≡ no_way? (task_of self.now.task) }
    {
        let kept = self.table.kept_to(true);
        !self.task.want.ones.difference(kept).is_empty()
    }
}
