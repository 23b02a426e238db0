//! Graphs as tables.
ghost use Rattle.graph_tried.specs.Tables.{table_arc};

use graph::Graph;
use words::{LatchSet, MOST_LATCHES};

/// A graph with a row for each node: the nodes that an arc leads to from there.
#[derive(Drop)]
pub struct Table {
    pub rows: [LatchSet; MOST_LATCHES as usize],
}

impl Graph for Table {
    ghost arc = { table_arc };

    fn neighbours(&self, node: u8) -> LatchSet {
        self.rows
            .get(node as usize)
            .copied()
            .unwrap_or(LatchSet::EMPTY)
    }
}
