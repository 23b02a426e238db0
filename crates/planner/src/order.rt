//! The order in which latches are placed: each behind those that have an edge to it, lower numbers first.
mod list;

ghost use Rattle.std.specs.Prelude.{◌≡◌, ℕ, ◌<◌, List, [], length};
ghost use Rattle.tables.specs.Items.{items};
ghost use Rattle.theory.specs.Order.{order};
ghost use Rattle.tasks.specs.Tasks.{task_of};
ghost use Rattle.planner.specs.Made.{latch_at};
ghost use Rattle.planner.specs.Orders.{Members, PlacedNext, order_of};

use book::MOST_LATCHES;
pub(crate) use list::Order;
use tables::Table;
use tasks::NormalTask;
use words::LatchSet;

/// The lowest latch that is not placed while all latches with an edge to it are.
fn next(task: &NormalTask, placed: LatchSet) -> Option<u8>
    ensures { (vs : List ℕ) → Members placed vs → PlacedNext (task_of task.now) vs result }
{
    let width = task.width;
    let latch = 'search: loop {
        'next: for v in 0..width {
            if placed.contains(v) {
                continue 'next;
            }
            let before = task.predecessors(v);
            for p in 0..width {
                if before.contains(p) && !placed.contains(p) {
                    continue 'next;
                }
            }
            break 'search v;
        }
        return None;
    };
    Some(latch)
}

/// Places latches one behind another until none can be placed next.
fn place_all(task: &NormalTask, latches: &mut Table<u8, MOST_LATCHES>)
    requires { items latches.old ≡ [] }
    ensures { items latches.new ≡ order (task_of task.now) }
{
    let mut placed = LatchSet::EMPTY;
    for _ in 0..task.width {
        let Some(latch) = next(task, placed) else {
            return;
        };
        latches.push(latch);
        placed = placed.with(latch);
    }
}

/// All latches in order, or, where there is a cycle, those that can be placed.
pub(crate) fn in_order(task: &NormalTask) -> Order
    ensures { order_of result ≡ order (task_of task.now) }
{
    let mut latches = Table::new(0);
    place_all(task, &mut latches);
    Order { latches }
}

impl Order {
    /// How many latches are placed.
    pub(crate) fn len(&self) -> u8
        ensures { result ≡ length (order_of self.now) }
    {
        self.latches.len() as u8
    }

    /// The latch at this place.
    pub(crate) fn latch(&self, place: u8) -> u8
        requires { place < length (order_of self.now) }
        ensures { result ≡ latch_at self.now place }
    {
        self.latches.as_slice()[place as usize]
    }
}
