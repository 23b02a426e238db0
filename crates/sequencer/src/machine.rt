//! The machine inside a sequencer: what each call comes to, by what is being done. It has no panel; it is told what the panel shows.
mod kept;
mod shown;
mod state;

ghost use Rattle.std.specs.Prelude.{◌≡◌, ℕ, ◌+◌, ◌<◌, true, false, List, IfOk, slice_index_or};
ghost use Rattle.words.specs.Sets.{has, Below};
ghost use Rattle.rules.specs.Rules.{Setting, Rules};
ghost use Rattle.theory.specs.Searches.{all_below};
ghost use Rattle.tasks.specs.Asks.{asks_of, rule_of};
ghost use Rattle.runs.specs.Calls.{found_or, threw_or, done_or};
ghost use Rattle.runs.specs.Deciding.{met?, legal?};
ghost use Rattle.runs.specs.Model.{going_on};
ghost use Rattle.runs.specs.Views.{running_in?, done_in, left_in, peeked_in};
ghost use Rattle.runs.specs.declared.Call.TheVariants.{Aim, Step, Nudge, Stop};
ghost use Rattle.sequencer.specs.declared.machine.state.State.TheVariants.{Idle};
ghost use Rattle.sequencer.specs.States.{more?, progress_in, admitted};
ghost use Rattle.sequencer.specs.Machines.{Shows, Does, progress_of};

use book::{Book, Move, PartialSetting};
pub(crate) use kept::Machine;
use planner::{Route, plan};
use rules::Refusal;
use runs::{Call, Thrown};
pub(crate) use shown::Shown;
use state::State;
use words::LatchSet;

/// Whether each latch named stands as asked, those of `raised` being at 1.
fn holds(asked: PartialSetting, raised: LatchSet) -> bool
    ensures { (n : ℕ) (s : Setting) → ((j : ℕ) → has raised j ≡ slice_index_or s j false) → Below n asked.named
        → result ≡ all_below (λ u. met? (asks_of asked u) (slice_index_or s u false)) n }
{
    asked.named.intersection(raised) == asked.ones
}

/// Whether the move is legal: all that it asks holds, and its latch is not yet at its target.
fn is_legal(m: &Move, raised: LatchSet) -> bool
    ensures { (rules : Rules) (s : Setting) → ((j : ℕ) → has raised j ≡ slice_index_or s j false) → Below rules.latches m.now.when.named
        → result ≡ legal? rules s (rule_of m.now) }
{
    raised.contains(m.latch) != m.to && holds(m.when, raised)
}

/// The state of a run with so many moves thrown and so many left: with none left it is over.
fn onward(done: u64, left: u64) -> State
    ensures more { more? result (done + left) ≡ true }
    ensures progress { (ks : List ℕ) → progress_in result ks ≡ going_on ks done left }
{
    if left > 0 {
        State::Running { done }
    } else {
        State::Idle
    }
}

impl Machine {
    /// A machine at rest.
    pub(crate) fn new(book: Book) -> Machine
        ensures book { result.book ≡ book }
        ensures state { result.state ≡ Idle }
    {
        Machine {
            book,
            state: State::Idle,
            route: Route::none(),
        }
    }

    /// How many moves of the run are thrown, 0 while idle, if the call is one for what is being done.
    fn admit(&self, call: Call) -> Result<u64, Refusal>
        ensures { result ≡ admitted self.now.state call }
    {
        match (self.state, call) {
            (State::Idle, Call::Aim { .. } | Call::Nudge(_)) => Ok(0),
            (State::Idle, Call::Step | Call::Stop) => Err(Refusal::Idle),
            (State::Running { done }, Call::Step | Call::Stop) => Ok(done),
            (State::Running { .. }, Call::Aim { .. } | Call::Nudge(_)) => Err(Refusal::Running),
        }
    }

    /// An aim: plans a route, and begins a run along it.
    pub(crate) fn aim(
        &mut self,
        shown: Shown,
        named: LatchSet,
        wanted: LatchSet,
    ) -> Result<u64, Refusal>
        ensures does { (s : Setting) → Shows shown s → Does s (Aim named wanted) self.old self.new (found_or result) }
        ensures book { self.new.book ≡ self.old.book }
    {
        self.admit(Call::Aim { named, wanted })?;
        if shown.width != self.book.latches {
            return Err(Refusal::Misfit);
        }
        let route = plan(&self.book, shown.raised, named, wanted)?;
        let length = route.length();
        self.route = route;
        self.state = onward(0, length);
        Ok(length)
    }

    /// A step: goes past the next move of the run, which is to be thrown.
    pub(crate) fn step(&mut self) -> Result<Thrown, Refusal>
        ensures does { (s : Setting) → Does s Step self.old self.new (threw_or result) }
        ensures own { IfOk result (λ thrown. thrown.number < self.old.book.count) }
        ensures book { self.new.book ≡ self.old.book }
    {
        let done = self.admit(Call::Step)?;
        let number = self.route.at(done).unwrap();
        let left = self.route.length() - (done + 1);
        self.state = onward(done + 1, left);
        Ok(Thrown { number, left })
    }

    /// A nudge: whether the move of this number may be thrown.
    pub(crate) fn nudge(&self, shown: Shown, number: u8) -> Result<(), Refusal>
        ensures does { (s : Setting) → Shows shown s → Does s (Nudge number) self.now self.now (done_or result) }
        ensures own { IfOk result (λ done. number < self.now.book.count) }
    {
        self.admit(Call::Nudge(number))?;
        if shown.width != self.book.latches {
            return Err(Refusal::Misfit);
        }
        if number >= self.book.count {
            return Err(Refusal::NoSuchMove);
        }
        if !is_legal(&self.book.moves[number as usize], shown.raised) {
            return Err(Refusal::Illegal);
        }
        Ok(())
    }

    /// A stop: ends the run.
    pub(crate) fn stop(&mut self) -> Result<(), Refusal>
        ensures does { (s : Setting) → Does s Stop self.old self.new (done_or result) }
        ensures book { self.new.book ≡ self.old.book }
    {
        self.admit(Call::Stop)?;
        self.state = State::Idle;
        Ok(())
    }

    /// The number of the move at place `k` of the run's route.
    pub(crate) fn peek(&self, k: u64) -> Option<u8>
        ensures { result ≡ peeked_in (progress_of self.now) k }
    {
        self.state.thrown()?;
        self.route.at(k)
    }

    /// Whether a run is under way.
    pub(crate) fn is_running(&self) -> bool
        ensures { result ≡ running_in? (progress_of self.now) }
    {
        self.state.thrown().is_some()
    }

    /// How many moves of the run are thrown.
    pub(crate) fn done(&self) -> u64
        ensures { result ≡ done_in (progress_of self.now) }
    {
        self.state.thrown().unwrap_or(0)
    }

    /// How many moves of the run are left.
    pub(crate) fn left(&self) -> u64
        ensures { result ≡ left_in (progress_of self.now) }
    {
        self.state
            .thrown()
            .map_or(0, |done| self.route.length() - done)
    }
}
