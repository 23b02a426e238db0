//! The class of a task: circles in its causal graph, and the two sides of a latch.
ghost use Rattle.std.specs.Prelude.{◌≡◌, ℕ, true, not, ◌&&◌, ◌||◌};
ghost use Rattle.words.specs.Sets.{has};
ghost use Rattle.theory.specs.Class.{edge?, walk?, acyclic?, static?, reversible?, dependent?, cut?, link?, side?, splitting?, in_class?};
ghost use Rattle.tasks.specs.Tasks.{task_of};

use crate::task::NormalTask;
use graph::{Graph, reached, reached_from};
use words::LatchSet;

/// The causal graph of a task.
#[derive(Clone, Copy)]
pub(crate) struct Edges<'a> {
    pub(crate) task: &'a NormalTask,
}

impl<'a> Graph for Edges<'a> {
    ghost arc = { λ g u v. edge? (task_of g.task.now) u v ≡ true };

    fn neighbours(&self, node: u8) -> LatchSet {
        self.task.successors(node)
    }
}

/// The edges that are not cut for the side of `latch` at `position`, read either way.
#[derive(Clone, Copy)]
pub(crate) struct Links<'a> {
    pub(crate) task: &'a NormalTask,
    pub(crate) position: bool,
    pub(crate) latch: u8,
}

impl<'a> Graph for Links<'a> {
    ghost arc = { λ g a b. link? (task_of g.task.now) g.position g.latch a b ≡ true };

    fn neighbours(&self, node: u8) -> LatchSet {
        self.onward(node).union(self.back(node))
    }
}

impl Links<'_> {
    /// The latches that depend on the latch at the position alone: for that side, edges from the latch to them are cut.
    fn alone(&self) -> LatchSet
        ensures { let t = task_of self.now.task.now in
            (u : ℕ) → has result u ≡ (dependent? t self.now.position self.now.latch u && not (dependent? t (not self.now.position) self.now.latch u)) }
    {
        let others = self.task.dependents(!self.position, self.latch);
        self.task
            .dependents(self.position, self.latch)
            .difference(others)
    }

    /// The latches that an edge that is not cut leads to from `node`.
    fn onward(&self, node: u8) -> LatchSet
        ensures { let t = task_of self.now.task.now in
            (u : ℕ) → has result u ≡ (edge? t node u && not (cut? t self.now.position self.now.latch node u)) }
    {
        let all = self.task.successors(node);
        if node == self.latch {
            return all.difference(self.alone());
        }
        all
    }

    /// The latches from which an edge that is not cut leads to `node`.
    fn back(&self, node: u8) -> LatchSet
        ensures { let t = task_of self.now.task.now in
            (u : ℕ) → has result u ≡ (edge? t u node && not (cut? t self.now.position self.now.latch u node)) }
    {
        let all = self.task.predecessors(node);
        if self.alone().contains(node) {
            return all.without(self.latch);
        }
        all
    }
}

impl NormalTask {
    /// Whether `latch` reaches itself along edges.
    fn is_on_circle(&self, latch: u8) -> bool
        ensures { result ≡ walk? (edge? (task_of self.now)) self.now.width latch latch }
    {
        let edges = Edges { task: self };
        reached_from(&edges, latch).contains(latch)
    }

    /// Whether no latch reaches itself along edges.
    pub(crate) fn is_acyclic(&self) -> bool
        ensures { result ≡ acyclic? (task_of self.now) }
    {
        (0..self.width).all(|latch| !self.is_on_circle(latch))
    }

    /// The side of `latch` at `position`: what links connect to the latches that depend on it there.
    pub fn side(&self, position: bool, latch: u8) -> LatchSet
        ensures { (u : ℕ) → has result u ≡ side? (task_of self.now) position latch u }
    {
        let links = Links {
            task: self,
            position,
            latch,
        };
        reached(&links, self.dependents(position, latch))
    }

    /// Whether the two sides of `latch` share no latch.
    pub fn is_splitting(&self, latch: u8) -> bool
        ensures { result ≡ splitting? (task_of self.now) latch }
    {
        let zero = self.side(false, latch);
        zero.intersection(self.side(true, latch)).is_empty()
    }

    /// Whether `latch` is static, reversible or splitting.
    fn is_of_a_kind(&self, latch: u8) -> bool
        ensures { result ≡ (static? (task_of self.now) latch || (reversible? (task_of self.now) latch || splitting? (task_of self.now) latch)) }
    {
        self.is_static(latch) || self.is_reversible(latch) || self.is_splitting(latch)
    }

    /// Whether the task is in the class: no circle, and every latch is static, reversible or splitting.
    pub fn is_in_class(&self) -> bool
        ensures { result ≡ in_class? (task_of self.now) }
    {
        (0..self.width).all(|latch| self.is_of_a_kind(latch)) && self.is_acyclic()
    }
}
