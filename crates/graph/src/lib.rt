//! What is reached in a graph whose nodes are latches.
#![tactic(auto)]

mod search;

ghost use Rattle.std.specs.Prelude.{ℕ};
ghost use Rattle.graph.specs.Walks.{Exactly, Walk, Reached};

use words::LatchSet;

/// A graph: arcs that lead from latch to latch.
pub trait Graph {
    // An arc leads from the one node to the other.
    ghost arc: { Self → ℕ → ℕ → Type 0 };

    /// The nodes that an arc leads to from this node.
    fn neighbours(&self, node: u8) -> LatchSet
        ensures { Exactly result (arc self.now node) };
}

/// The nodes that zero or more arcs lead to from a node of `from`.
pub fn reached<G: Graph>(graph: &G, from: LatchSet) -> LatchSet
    ensures { Exactly result (Reached (G.arc graph.now) from) }
{
    search::onward(graph, from)
}

/// The nodes that one or more arcs lead to from `node`.
pub fn reached_from<G: Graph>(graph: &G, node: u8) -> LatchSet
    ensures { Exactly result (Walk (G.arc graph.now) node) }
{
    search::onward(graph, graph.neighbours(node))
}
