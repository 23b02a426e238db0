//! Routes: recipes along the order, with each splitting latch thrown between its two sides.
mod entries;
mod entry;
mod tabled;

ghost use Rattle.std.specs.Prelude.{◌≡◌, ℕ, ◌+◌, ◌*◌, ◌^◌, ◌<◌, ◌≤◌, true, [], length as length_of};
ghost use Rattle.std.specs.List.{flat_map};
ghost use Rattle.tables.specs.Items.{items};
ghost use Rattle.words.specs.Sets.{has};
ghost use Rattle.planner.specs.Limits.{most_entries};
ghost use Rattle.theory.specs.Class.{in_class?};
ghost use Rattle.theory.specs.Route.{entries as entries_meant};
ghost use Rattle.tasks.specs.Tasks.{task_of};
ghost use Rattle.planner.specs.Laid.{parts_of, Placed, rest, size, Puts, Extends};
ghost use Rattle.planner.specs.Listed.{entry_numbers, route_numbers};
ghost use Rattle.planner.specs.Lookup.{nth};
ghost use Rattle.planner.specs.Orders.{order_of};
ghost use Rattle.planner.specs.Routes.{moves_of};

use crate::recipes::Recipes;
use entries::Entries;
use entry::Entry;
pub use tabled::Route;
use tables::Table;
use tasks::{NormalTask, is_asked};
use words::LatchSet;

/// Puts one more entry behind the others, if `put`.
fn push_if(entries: &mut Entries, put: bool, entry: Entry)
    requires { length_of (items entries.old) < most_entries }
    ensures { Puts put entry.place entry.to (items entries.old) (items entries.new) }
{
    if put {
        entries.push(entry);
    }
}

impl Recipes {
    /// Puts the route of the latches of `set` behind the entries, by their first latch from place `from` of the order on.
    fn extend(&self, entries: &mut Entries, from: u8, set: LatchSet)
        requires { (from ≤ length_of (order_of self.now.order)) × (length_of (items entries.old) + 2 * size (has set) (rest self.now.order from) ≤ most_entries) }
        ensures { Extends self.now set from (items entries.old) (items entries.new) }
    {
        if set.is_empty() || from >= self.order.len() {
            return;
        }
        let latch = self.order.latch(from);
        if !set.contains(latch) {
            self.extend(entries, from + 1, set);
            return;
        }
        let to_one = Entry {
            place: from,
            to: true,
        };
        let others = set.without(latch);
        if !self.splitting.contains(latch) {
            self.extend(entries, from + 1, others);
            push_if(entries, is_asked(self.task.want, true, latch), to_one);
            return;
        }
        let zero = others.intersection(self.task.side(false, latch));
        let one = others.intersection(self.task.side(true, latch));
        let kept = self.table.recipe(latch, true).is_some();
        self.extend(entries, from + 1, others.difference(zero).difference(one));
        self.extend(entries, from + 1, zero);
        push_if(entries, kept, to_one);
        self.extend(entries, from + 1, one);
        push_if(
            entries,
            kept && is_asked(self.task.want, false, latch),
            Entry {
                place: from,
                to: false,
            },
        );
    }

    /// The entries of the route.
    fn entries(&self) -> Entries
        ensures placed { Placed self.now.order (items result) }
        ensures parts { parts_of self.now.order (items result) ≡ entries_meant (task_of self.now.task) }
    {
        let mut entries = Table::new(Entry {
            place: 0,
            to: false,
        });
        self.extend(&mut entries, 0, LatchSet::from(u32::MAX));
        entries
    }

    /// How many moves the recipes of the entries come to.
    fn length(&self, entries: &Entries) -> u64
        requires { (Placed self.now.order (items entries.now)) × (length_of (flat_map (entry_numbers self.now) (items entries.now)) < 2 ^ 64) }
        ensures { result ≡ length_of (flat_map (entry_numbers self.now) (items entries.now)) }
    {
        let mut length: u64 = 0;
        for entry in entries.as_slice().iter() {
            length += self.length_at(entry.place, entry.to);
        }
        length
    }
}

impl Route {
    /// The route of the task of these recipes.
    pub(crate) fn of(recipes: Recipes) -> Route
        requires { in_class? (task_of recipes.task) ≡ true }
        ensures { moves_of result ≡ route_numbers recipes.task }
    {
        let entries = recipes.entries();
        let length = recipes.length(&entries);
        Route {
            recipes,
            entries,
            length,
        }
    }

    /// The route of no move.
    pub fn none() -> Route
        ensures { moves_of result ≡ [] }
    {
        Route::of(Recipes::of(NormalTask::blank()))
    }

    /// How many moves the route has.
    pub fn length(&self) -> u64
        ensures { result ≡ length_of (moves_of self.now) }
    {
        self.length
    }

    /// The number of the move at place `k`, from 0; `None` at and beyond the length.
    pub fn at(&self, k: u64) -> Option<u8>
        ensures { result ≡ nth (moves_of self.now) k }
    {
        let mut rest = k;
        for entry in self.entries.as_slice().iter() {
            let length = self.recipes.length_at(entry.place, entry.to);
            if rest < length {
                return self.recipes.move_at(entry.place, entry.to, rest);
            }
            rest -= length;
        }
        None
    }
}
