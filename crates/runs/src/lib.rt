//! What a caller asks of a sequencer and what it is answered, and the law that whole runs of calls keep. The law is defined in specs/ and
//! proved of a model of the sequencer; the function here carries it.
#![tactic(auto)]

ghost use Rattle.std.specs.Prelude.{◌≡◌};
ghost use Rattle.runs.specs.Calls.{granted?, found_or, threw_or, done_or};
ghost use Rattle.runs.specs.Theorems.{RunsKeepTheLaw, TestsAreMeant};

use rules::Refusal;
use words::LatchSet;

/// What a caller asks of a sequencer.
#[derive(Clone, Copy, PartialEq, Eq, Debug)]
pub enum Call {
    /// Seek a route to where each latch of `named` stands at 1 if it is in `wanted`, else at 0, and begin a run along it.
    Aim { named: LatchSet, wanted: LatchSet },
    /// Throw the next move of the run.
    Step,
    /// Throw the move of this number.
    Nudge(u8),
    /// End the run where it is.
    Stop,
}

/// What a granted step threw: the number of its move, and how many moves of the run are left.
#[derive(Clone, Copy, PartialEq, Eq, Debug)]
pub struct Thrown {
    pub number: u8,
    pub left: u64,
}

/// What a sequencer answers.
#[derive(Clone, Copy, PartialEq, Eq, Debug)]
pub enum Answer {
    /// An aim: the route has this many moves.
    Found(u64),
    /// A step threw the next move of the run.
    Threw(Thrown),
    /// A nudge threw its move, or a stop ended the run.
    Done,
    /// The call is declined, and changed nothing.
    Declined(Refusal),
}

impl Answer {
    /// Whether the call was granted. `law` says what whole runs of calls and answers keep: what an aim finds, that each granted step or
    /// nudge throws one legal move and nothing else moves the panel, that a run followed to its end meets its errand, and what each
    /// refusal means. `tests` says that the tests of the model mean what is said of them.
    pub fn is_granted(self) -> bool
        ensures answer { result ≡ granted? self }
        ensures law { RunsKeepTheLaw }
        ensures tests { TestsAreMeant }
    {
        !matches!(self, Answer::Declined(_))
    }
}

impl From<Result<u64, Refusal>> for Answer {
    ghost from_gives = { λ found answer. answer ≡ found_or found };

    /// The answer to an aim.
    fn from(found: Result<u64, Refusal>) -> Answer {
        found.map_or_else(Answer::Declined, Answer::Found)
    }
}

impl From<Result<Thrown, Refusal>> for Answer {
    ghost from_gives = { λ thrown answer. answer ≡ threw_or thrown };

    /// The answer to a step.
    fn from(thrown: Result<Thrown, Refusal>) -> Answer {
        thrown.map_or_else(Answer::Declined, Answer::Threw)
    }
}

impl From<Result<(), Refusal>> for Answer {
    ghost from_gives = { λ done answer. answer ≡ done_or done };

    /// The answer to a nudge or a stop.
    fn from(done: Result<(), Refusal>) -> Answer {
        done.map_or_else(Answer::Declined, |()| Answer::Done)
    }
}
