//! The move at a place of a recipe, found by going down into the part that holds it. Nothing is opened.
mod place;

ghost use Rattle.std.specs.Prelude.{◌≡◌, ◌<◌, ◌≤◌, length, slice_index};
ghost use Rattle.planner.specs.RecipesKept.{kept_at, recipe_in};
ghost use Rattle.planner.specs.Made.{latch_at, recipe_numbers};
ghost use Rattle.planner.specs.Orders.{order_of};
ghost use Rattle.planner.specs.Lookup.{nth, in_turn, Sought};

use crate::order::Order;
use crate::recipes::{Recipe, Recipes};
use place::Inside;
use words::LatchSet;

impl Order {
    /// The place of the latch that comes at this turn, of the first `placed`: the last of them first on the way to 1, the first first on the
    /// way to 0.
    fn place_at(&self, placed: u8, to: bool, turn: u8) -> u8
        requires { (turn < placed) × (placed ≤ length (order_of self.now)) }
        ensures before { result < placed }
        ensures latch { latch_at self.now result ≡ slice_index (in_turn self.now to placed) turn }
    {
        if to { placed - 1 - turn } else { turn }
    }
}

impl Recipes {
    /// The recipe to `to` of the latch at `place`, if it is kept.
    fn recipe(&self, place: u8, to: bool) -> Option<Recipe>
        requires { place < length (order_of self.now.order) }
        ensures { result ≡ recipe_in to (kept_at self.now.table (latch_at self.now.order place)) }
    {
        self.table.kept[self.order.latch(place) as usize].recipe(to)
    }

    /// How many moves the recipe to `to` of the latch at `place` comes to, 0 if it is not kept.
    pub(crate) fn length_at(&self, place: u8, to: bool) -> u64
        requires { place < length (order_of self.now.order) }
        ensures { result ≡ length (recipe_numbers self.now.task to (latch_at self.now.order place)) }
    {
        self.table.kept[self.order.latch(place) as usize].length(to)
    }

    /// Seeks place `k` in the recipes to `to` of the helpers among the first `placed` latches. If it is behind them all, the answer is the
    /// place that is left.
    fn seek(&self, helpers: LatchSet, placed: u8, to: bool, k: u64) -> Result<Inside, u64>
        requires { placed ≤ length (order_of self.now.order) }
        ensures { Sought self.now.task self.now.order to helpers placed k result }
    {
        let mut rest = k;
        for turn in 0..placed {
            let place = self.order.place_at(placed, to, turn);
            if helpers.contains(self.order.latch(place)) {
                let length = self.length_at(place, to);
                if rest < length {
                    return Ok(Inside { place, rest });
                }
                rest -= length;
            }
        }
        Err(rest)
    }

    /// The number of the move at place `k` of the recipe to `to` of the latch at `place`: that of a helper's recipe to 1, of the recipe's own
    /// move, or of a helper's recipe to 0.
    pub(crate) fn move_at(&self, place: u8, to: bool, k: u64) -> Option<u8>
        requires { (place < length (order_of self.now.order)) × (k < length (recipe_numbers self.now.task to (latch_at self.now.order place))) }
        ensures { result ≡ nth (recipe_numbers self.now.task to (latch_at self.now.order place)) k }
    {
        let recipe = self.recipe(place, to)?;
        let rest = match self.seek(recipe.helpers, place, true, k) {
            Ok(part) => return self.move_at(part.place, true, part.rest),
            Err(rest) => rest,
        };
        if rest == 0 {
            return Some(self.task.moves()[recipe.place as usize].number);
        }
        match self.seek(recipe.helpers, place, false, rest - 1) {
            Ok(part) => self.move_at(part.place, false, part.rest),
            Err(_) => None,
        }
    }
}
