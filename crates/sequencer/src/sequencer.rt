//! A sequencer: a book and a panel, and the run that is under way.
ghost use Rattle.std.specs.Prelude.{◌≡◌, ◌<◌};
ghost use Rattle.std.proofs.Math.ListN.{get_elem?};
ghost use Rattle.tasks.specs.Asks.{rules_of};
ghost use Rattle.runs.specs.Calls.{found_or, threw_or, done_or};
ghost use Rattle.runs.specs.declared.Call.TheVariants.{Aim, Step, Nudge, Stop};
ghost use Rattle.runs.specs.Model.{new, answered, after, thrown_by};
ghost use Rattle.runs.specs.Views.{running?, steps_done, steps_left, peeked};
ghost use Rattle.sequencer.specs.Machines.{Shows};
ghost use Rattle.sequencer.specs.Sequencers.{model_by};

use crate::machine::{Machine, Shown};
use book::Book;
use panel::Panel;
use panel::scan::raised;
use rules::Refusal;
use runs::{Answer, Call, Thrown};
use words::LatchSet;

/// A sequencer over a panel. It cannot be copied, and nobody else can throw the panel while it has it.
pub struct Sequencer<P> {
    machine: Machine,
    panel: P,
}

impl<P: Panel> Sequencer<P> {
    /// Takes a book and a panel, and is idle.
    pub fn open(book: Book, panel: P) -> Sequencer<P>
        ensures panel { result.panel ≡ panel }
        ensures model { model_by P.setting result ≡ new (rules_of book) (P.setting panel) }
    {
        Sequencer {
            machine: Machine::new(book),
            panel,
        }
    }

    /// Ends the sequencer and gives the panel back.
    pub fn close(self) -> P
        ensures { result ≡ self.panel }
    {
        let Sequencer { machine: _, panel } = self;
        panel
    }

    /// What the panel shows.
    fn shown(&self) -> Shown
        ensures { Shows result (P.setting self.now.panel) }
    {
        Shown {
            width: self.panel.width(),
            raised: raised(&self.panel),
        }
    }

    /// Throws the move of this number.
    fn throw(&mut self, number: u8)
        requires { number < self.old.machine.book.count }
        ensures machine { self.new.machine ≡ self.old.machine }
        ensures panel { P.setting self.new.panel
            ≡ thrown_by (get_elem? (rules_of self.old.machine.book).moves number) (P.setting self.old.panel) }
    {
        let m = self.machine.book.moves[number as usize];
        let _ = self.panel.throw(m.latch, m.to);
    }

    /// Makes one call.
    pub fn call(&mut self, call: Call) -> Answer
        ensures answer { result ≡ answered (model_by P.setting self.old) call }
        ensures model { model_by P.setting self.new ≡ after (model_by P.setting self.old) call }
        ensures book { self.new.machine.book ≡ self.old.machine.book }
    {
        match call {
            Call::Aim { named, wanted } => self.aim(named, wanted).into(),
            Call::Step => self.step().into(),
            Call::Nudge(number) => self.nudge(number).into(),
            Call::Stop => self.stop().into(),
        }
    }

    /// Idle: seeks a route by legal moves to where each latch of `named` stands at 1 if it is in `wanted`, else at 0, begins a run along it,
    /// and answers its length; at length 0 it stays idle. Declined, in this order: `Running`, `Misfit`, `Misnamed`, `Outside`, `NoWay`.
    pub fn aim(&mut self, named: LatchSet, wanted: LatchSet) -> Result<u64, Refusal>
        ensures answer { found_or result ≡ answered (model_by P.setting self.old) (Aim named wanted) }
        ensures model { model_by P.setting self.new ≡ after (model_by P.setting self.old) (Aim named wanted) }
        ensures book { self.new.machine.book ≡ self.old.machine.book }
    {
        let shown = self.shown();
        self.machine.aim(shown, named, wanted)
    }

    /// Running: throws the next move, and answers its number and how many are left; with the last one it is idle. Declined: `Idle`.
    pub fn step(&mut self) -> Result<Thrown, Refusal>
        ensures answer { threw_or result ≡ answered (model_by P.setting self.old) Step }
        ensures model { model_by P.setting self.new ≡ after (model_by P.setting self.old) Step }
        ensures book { self.new.machine.book ≡ self.old.machine.book }
    {
        let thrown = self.machine.step()?;
        self.throw(thrown.number);
        Ok(thrown)
    }

    /// Idle: throws the move of this number. Declined, in this order: `Running`, `Misfit`, `NoSuchMove`, `Illegal`.
    pub fn nudge(&mut self, number: u8) -> Result<(), Refusal>
        ensures answer { done_or result ≡ answered (model_by P.setting self.old) (Nudge number) }
        ensures model { model_by P.setting self.new ≡ after (model_by P.setting self.old) (Nudge number) }
        ensures book { self.new.machine.book ≡ self.old.machine.book }
    {
        let shown = self.shown();
        self.machine.nudge(shown, number)?;
        self.throw(number);
        Ok(())
    }

    /// Running: ends the run, and the panel stays as it is. Declined: `Idle`.
    pub fn stop(&mut self) -> Result<(), Refusal>
        ensures answer { done_or result ≡ answered (model_by P.setting self.old) Stop }
        ensures model { model_by P.setting self.new ≡ after (model_by P.setting self.old) Stop }
        ensures book { self.new.machine.book ≡ self.old.machine.book }
    {
        self.machine.stop()
    }

    /// The number of the move at place `k`, from 0, of the route being run. Absent when idle, and when `k` is not below the length.
    pub fn peek(&self, k: u64) -> Option<u8>
        ensures { result ≡ peeked (model_by P.setting self.now) k }
    {
        self.machine.peek(k)
    }

    /// Whether a run is under way.
    pub fn is_running(&self) -> bool
        ensures { result ≡ running? (model_by P.setting self.now) }
    {
        self.machine.is_running()
    }

    /// How many moves of the run are thrown; 0 when idle.
    pub fn steps_done(&self) -> u64
        ensures { result ≡ steps_done (model_by P.setting self.now) }
    {
        self.machine.done()
    }

    /// How many moves of the run are left; 0 when idle.
    pub fn steps_left(&self) -> u64
        ensures { result ≡ steps_left (model_by P.setting self.now) }
    {
        self.machine.left()
    }

    /// The panel, to look at.
    pub fn panel(&self) -> &P
        ensures { result.now ≡ self.now.panel }
    {
        &self.panel
    }
}
