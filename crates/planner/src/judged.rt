//! What is said of an errand.
ghost use Rattle.std.specs.Prelude.{◌≡◌};
ghost use Rattle.theory.specs.Class.{in_class?};
ghost use Rattle.theory.specs.Judgement.{judgement};
ghost use Rattle.theory.specs.Route.{no_way?};
ghost use Rattle.planner.specs.Errands.{errand_task, Says};

use crate::recipes::Recipes;
use book::Errand;
use tasks::NormalTask;
use theory::Judgement;

/// The judgement on the task of the errand.
fn judged(errand: &Errand) -> Judgement
    ensures { result ≡ judgement (in_class? (errand_task errand.now)) (no_way? (errand_task errand.now)) }
{
    let task = NormalTask::of(errand);
    theory::judge(task.is_in_class(), Recipes::of(task).is_no_way())
}

/// What is said of an errand. `Outside`: it is not in the class 3S. `NoWay`: it is, and no list of legal moves leads from its start to where it
/// is met. `Way`: it is, and the route of the rules is a list of legal moves that leads there.
pub fn judge(errand: &Errand) -> Judgement
    ensures answer { result ≡ judgement (in_class? (errand_task errand.now)) (no_way? (errand_task errand.now)) }
    ensures says { Says result errand.now }
{
    judged(errand)
}
