//! Recipes under way: they are made latch by latch, along the order.
ghost use Rattle.std.specs.Prelude.{◌≡◌, ℕ, ◌+◌, ◌^◌, ◌<◌, ◌≤◌, true, length as length_of};
ghost use Rattle.words.specs.Sets.{has};
ghost use Rattle.theory.specs.Class.{splitting?};
ghost use Rattle.theory.specs.Recipes.{recipe_parts, opened};
ghost use Rattle.theory.specs.Tasks.{Move};
ghost use Rattle.tasks.specs.Tasks.{task_of};
ghost use Rattle.planner.specs.Made.{Orders};
ghost use Rattle.planner.specs.Orders.{order_of};
ghost use Rattle.planner.specs.RecipesKept.{Splits, Helps, Chosen, Tabled, before, kept_behind, kept_in?};

use crate::order::Order;
use crate::recipes::recipe::Recipe;
use crate::recipes::recipe_table::{Kept, RecipeTable};
use crate::recipes::{helpers, serves};
use book::MOST_LATCHES;
use tasks::{NormalTask, is_asked};
use words::{LatchSet, Test};

/// Which latches of a task are splitting.
#[derive(Clone, Copy)]
struct Splitting<'a> {
    task: &'a NormalTask,
}

impl<'a> Test for Splitting<'a> {
    ghost passing = { λ s v. splitting? (task_of s.task.now) v };

    fn passes(&self, latch: u8) -> bool {
        self.task.is_splitting(latch)
    }
}

/// Recipes under way: what is kept of the first `placed` latches of the order, and which of them have a kept recipe to 1.
#[derive(Clone, Copy)]
pub(crate) struct Making<'a> {
    pub(crate) task: &'a NormalTask,
    pub(crate) order: &'a Order,
    pub(crate) splitting: LatchSet,
    pub(crate) placed: u8,
    pub(crate) ones: LatchSet,
    pub(crate) table: RecipeTable,
    ghost orders: { Orders task.now order.now },
    ghost splits: { Splits (task_of task.now) splitting },
    ghost room: { placed ≤ length_of (order_of order.now) },
    ghost kept_ones: { (u : ℕ) → has ones u ≡ kept_in? true table u },
    ghost tabled: { ∥ Tabled task.now (order_of order.now) placed (kept_behind task.now order.now placed) table ∥₁ },
}

impl<'a> Making<'a> {
    /// No latch is placed yet.
    pub(crate) fn new(task: &'a NormalTask, order: &'a Order) -> Making<'a>
        requires { Orders task.now order.now }
        ensures task { result.task.now ≡ task.now }
        ensures order { result.order.now ≡ order.now }
    {
        Making {
            task,
            order,
            splitting: LatchSet::from_fn(task.width, &Splitting { task }),
            placed: 0,
            ones: LatchSet::EMPTY,
            table: RecipeTable {
                kept: [Kept::Neither; MOST_LATCHES],
            },
        }
    }

    /// How many moves a recipe with these helpers comes to, behind the latches placed.
    fn length(&self, helpers: LatchSet) -> u64
        ensures short { result ≤ 3 ^ self.now.placed }
        ensures counted { (v : ℕ) (m : Move) → Helps (task_of self.now.task.now) v m helpers
            → result ≡ length_of (opened (kept_behind self.now.task.now self.now.order.now self.now.placed)
            (recipe_parts (task_of self.now.task.now) v m (before (order_of self.now.order.now) self.now.placed))) }
    {
        let mut length: u64 = 1;
        for latch in self.order.latches.as_slice()[..self.placed as usize].iter() {
            if helpers.contains(*latch) {
                length += self.table.length(*latch, true) + self.table.length(*latch, false);
            }
        }
        length
    }

    /// The recipe of `latch` to `to` by the first move that serves, behind the latches placed.
    fn recipe(&self, latch: u8, to: bool) -> Option<Recipe>
        ensures { Chosen self.now.task.now (kept_behind self.now.task.now self.now.order.now self.now.placed) latch
            (before (order_of self.now.order.now) self.now.placed) to (3 ^ self.now.placed) result }
    {
        for (place, m) in self.task.moves().iter().enumerate() {
            if serves(self.ones, latch, to, *m) {
                let helpers = helpers(self.splitting, latch, *m);
                let length = self.length(helpers);
                return Some(Recipe {
                    place: place as u8,
                    helpers,
                    length,
                });
            }
        }
        None
    }

    /// Places the next latch of the order.
    fn place(&mut self)
        requires { self.old.placed < length_of (order_of self.old.order.now) }
        ensures placed { self.new.placed ≡ self.old.placed + 1 }
        ensures task { self.new.task.now ≡ self.old.task.now }
        ensures order { self.new.order.now ≡ self.old.order.now }
    {
        let latch = self.order.latch(self.placed);
        let one = self.recipe(latch, true);
        let zero = self.recipe(latch, false);
        let kept = Kept::of(one, zero, is_asked(self.task.want, false, latch));
        let mut table = self.table;
        table.kept[latch as usize] = kept;
        self.table = table;
        self.ones = self.ones.put(latch, kept.recipe(true).is_some());
        self.placed += 1;
    }

    /// Places all latches of the order.
    pub(crate) fn place_all(&mut self)
        ensures placed { self.new.placed ≡ length_of (order_of self.old.order.now) }
        ensures task { self.new.task.now ≡ self.old.task.now }
        ensures order { self.new.order.now ≡ self.old.order.now }
    {
        while self.placed < self.order.len() {
            self.place();
        }
    }
}
