//! Bringing a book, a start and an errand to normal form.
ghost use Rattle.std.specs.Prelude.{◌≡◌, ℕ, ◌<◌, true, false, ◌&&◌, [], MatchOption};
ghost use Rattle.words.specs.Sets.{most_latches, has, Below};
ghost use Rattle.book.specs.Settings.{nothing_asked};
ghost use Rattle.rules.specs.Naming.{Names, errand_of};
ghost use Rattle.rules.specs.NormalForm.{exchanged, exchanged_ask, normal_move as rule_in_normal_form, dropped?, task};
ghost use Rattle.tasks.specs.Asks.{asks_of, rule_of, rules_of, setting_of};
ghost use Rattle.tasks.specs.Tasks.{move_of, task_of};

use crate::edges::is_asked;
use crate::task::{NormalMove, NormalTask};
use book::{Book, Errand, Move, PartialSetting};
use rules::in_normal_form;
use tables::Table;
use words::{LatchSet, MOST_LATCHES, Test};

/// An empty place for a move.
const NO_MOVE: NormalMove = NormalMove {
    number: 0,
    latch: 0,
    to: false,
    asks: PartialSetting::EMPTY,
};

/// Whether the latch is asked to be at 1 in normal form.
fn asks_one(asked: PartialSetting, start: LatchSet, latch: u8) -> bool
    ensures { result ≡ (has asked.named latch && exchanged (has asked.ones latch) (has start latch)) }
{
    asked.named.contains(latch) && in_normal_form(asked.ones.contains(latch), start.contains(latch))
}

/// The latches that are asked to be at 1 in normal form.
#[derive(Clone, Copy)]
struct AsksOne {
    asked: PartialSetting,
    start: LatchSet,
}

impl Test for AsksOne {
    ghost passing = { λ t u. has t.asked.named u && exchanged (has t.asked.ones u) (has t.start u) };

    fn passes(&self, latch: u8) -> bool {
        asks_one(self.asked, self.start, latch)
    }
}

/// Each condition in normal form.
fn normal_asks(asked: PartialSetting, start: LatchSet) -> PartialSetting
    ensures { (u : ℕ) → asks_of result u ≡ exchanged_ask (asks_of asked u) (has start u) }
{
    let ones = LatchSet::from_fn(MOST_LATCHES, &AsksOne { asked, start });
    PartialSetting {
        named: asked.named,
        ones,
    }
}

/// The move in normal form, unless it is never legal.
fn normal_move(number: u8, m: &Move, start: LatchSet) -> Option<NormalMove>
    requires { m.now.latch < most_latches }
    ensures { MatchOption result (dropped? (rule_of m.now) ≡ true)
        (λ x. (dropped? (rule_of m.now) ≡ false)
        × ((n : ℕ) → m.now.latch < n → Below n m.now.when.named
        → move_of x ≡ rule_in_normal_form (setting_of n start) number (rule_of m.now))) }
{
    if is_asked(m.when, m.to, m.latch) {
        return None;
    }
    let to = in_normal_form(m.to, start.contains(m.latch));
    let asks = normal_asks(m.when, start).with(m.latch, !to);
    Some(NormalMove {
        number,
        latch: m.latch,
        to,
        asks,
    })
}

/// The book, the start and what is wanted, in normal form.
fn normal_task(book: &Book, start: LatchSet, want: PartialSetting) -> NormalTask
    requires { Below book.now.latches want.named }
    ensures { task_of result ≡ task (rules_of book.now) (setting_of book.now.latches start) (asks_of want) }
{
    let mut moves = Table::new(NO_MOVE);
    for (number, m) in book.moves().iter().enumerate() {
        if let Some(normal) = normal_move(number as u8, m, start) {
            moves.push(normal);
        }
    }
    NormalTask {
        width: book.latches,
        moves,
        want: normal_asks(want, start),
    }
}

impl NormalTask {
    /// The task of a book with no latch.
    pub fn blank() -> NormalTask
        ensures { task_of result ≡ record { width = 0; moves = []; want = asks_of nothing_asked } }
    {
        NormalTask {
            width: 0,
            moves: Table::new(NO_MOVE),
            want: PartialSetting::EMPTY,
        }
    }

    /// The errand in normal form.
    pub fn of(errand: &Errand) -> NormalTask
        ensures { task_of result ≡ task (rules_of errand.now.book) (setting_of errand.now.book.latches errand.now.start) (asks_of errand.now.want) }
    {
        normal_task(&errand.book, errand.start, errand.want)
    }

    /// The book, the start and the errand in normal form. The errand wants the latches `named`, at 1 those in `wanted` and the others at 0.
    /// `None` if it names a latch that the book lacks, or wants one at 1 that it does not name.
    pub fn new(
        book: &Book,
        start: LatchSet,
        named: LatchSet,
        wanted: LatchSet,
    ) -> Option<NormalTask>
        ensures { MatchOption result (Names (rules_of book.now) named wanted → ⊥)
            (λ t. Names (rules_of book.now) named wanted
            × (task_of t ≡ task (rules_of book.now) (setting_of book.now.latches start) (errand_of named wanted))) }
    {
        if !named.is_below(book.latches) {
            return None;
        }
        let want = PartialSetting::new(named, wanted)?;
        Some(normal_task(book, start, want))
    }
}
