//! From a book, a start and an errand to a route, or to why there is none.
ghost use Rattle.tasks.specs.Asks.{rules_of, setting_of};
ghost use Rattle.planner.specs.Plans.{Planned, Says};

use crate::recipes::Recipes;
use crate::route::Route;
use book::Book;
use rules::Refusal;
use tasks::NormalTask;
use words::LatchSet;

/// The route, or the first test that is not passed: what the errand names, the class, a way.
fn planned(
    book: &Book,
    start: LatchSet,
    named: LatchSet,
    wanted: LatchSet,
) -> Result<Route, Refusal>
    ensures { Planned (rules_of book.now) (setting_of book.now.latches start) named wanted result }
{
    let Some(task) = NormalTask::new(book, start, named, wanted) else {
        return Err(Refusal::Misnamed);
    };
    if !task.is_in_class() {
        return Err(Refusal::Outside);
    }
    let recipes = Recipes::of(task);
    if recipes.is_no_way() {
        return Err(Refusal::NoWay);
    }
    Ok(Route::of(recipes))
}

/// The route by the moves of the book from a start, the latches in `start` at 1, to where each latch of `named` stands at 1 if it is in
/// `wanted`, else at 0. Refused, in this order: `Misnamed`, a latch is named that the book lacks, or wanted at 1 and not named; `Outside`, the
/// errand is not in the class 3S; `NoWay`, no list of legal moves leads there. The route is a list of legal moves that does.
pub fn plan(
    book: &Book,
    start: LatchSet,
    named: LatchSet,
    wanted: LatchSet,
) -> Result<Route, Refusal>
    ensures answer { Planned (rules_of book.now) (setting_of book.now.latches start) named wanted result }
    ensures says { Says (rules_of book.now) (setting_of book.now.latches start) named wanted result }
{
    planned(book, start, named, wanted)
}
