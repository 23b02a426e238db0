//! Whole runs: a list of calls on a new sequencer.
ghost use Rattle.std.specs.Prelude.{◌≡◌, ◌≤◌, map, length, take, drop};
ghost use Rattle.tasks.specs.Asks.{rules_of};
ghost use Rattle.runs.specs.Model.{seen, last};
ghost use Rattle.sequencer.specs.Sequencers.{model_by};
ghost use Rattle.sequencer.specs.Playing.{answer_of, played, WholeRun};

use crate::sequencer::Sequencer;
use book::Book;
use panel::Panel;
use runs::{Answer, Call};

impl<P: Panel> Sequencer<P> {
    /// Makes the calls one after another, as many as there is room for answers, and writes their answers.
    fn run(&mut self, calls: &[Call], answers: &mut [Answer])
        ensures answers { take (played (length calls.now) (length answers.old)) answers.new
            ≡ map answer_of (seen (model_by P.setting self.old) (take (played (length calls.now) (length answers.old)) calls.now)) }
        ensures rest { drop (played (length calls.now) (length answers.old)) answers.new
            ≡ drop (played (length calls.now) (length answers.old)) answers.old }
        ensures model { model_by P.setting self.new
            ≡ last (model_by P.setting self.old) (take (played (length calls.now) (length answers.old)) calls.now) }
    {
        let count = calls.len().min(answers.len());
        for (i, call) in calls[..count].iter().enumerate() {
            answers[i] = self.call(*call);
        }
    }
}

/// Opens a sequencer, makes the calls one after another, writes their answers into the buffer, closes the sequencer and gives the panel back.
/// If the buffer is shorter than the list, only as many calls are made as it has room for; places behind the last answer stay as they were.
/// Whatever the book, the panel, its setting and the calls, the run keeps the law.
pub fn play<P: Panel>(book: Book, panel: P, calls: &[Call], answers: &mut [Answer]) -> P
    ensures run { WholeRun (rules_of book) (P.setting panel) (take (played (length calls.now) (length answers.old)) calls.now)
        (take (played (length calls.now) (length answers.old)) answers.new) (P.setting result) }
    ensures rest { drop (played (length calls.now) (length answers.old)) answers.new
        ≡ drop (played (length calls.now) (length answers.old)) answers.old }
{
    let mut sequencer = Sequencer::open(book, panel);
    sequencer.run(calls, answers);
    sequencer.close()
}
