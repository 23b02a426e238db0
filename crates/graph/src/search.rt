//! The search: what is seen and not done is the worklist.
ghost use Rattle.std.specs.Prelude.{ℕ};
ghost use Rattle.graph.specs.Walks.{Exactly, Walk, Reached};

use super::Graph;
use words::LatchSet;

/// The nodes of `from` and all that arcs lead on to. Where `from` is the neighbours of a node, these are the nodes
/// that walks from that node lead to.
pub(crate) fn onward<G: Graph>(graph: &G, from: LatchSet) -> LatchSet
    ensures reached { Exactly result (Reached (G.arc graph.now) from) }
    ensures walked { (u : ℕ) → Exactly from (G.arc graph.now u) → Exactly result (Walk (G.arc graph.now) u) }
{
    let mut seen = from;
    let mut done = LatchSet::EMPTY;
    // A node is done once its neighbours are seen.
    while let Some(node) = seen.difference(done).first() {
        done = done.with(node);
        seen = seen.union(graph.neighbours(node));
    }
    seen
}
