use super::table::Table;
use graph::{reached, reached_from};
use words::{LatchSet, MOST_LATCHES};

/// A path 0, 1, 2; a circle 3, 4, 5; and arcs from 31 to 1 and to itself.
fn table() -> Table {
    let mut rows = [LatchSet::EMPTY; MOST_LATCHES as usize];
    rows[0] = LatchSet::from(1 << 1);
    rows[1] = LatchSet::from(1 << 2);
    rows[3] = LatchSet::from(1 << 4);
    rows[4] = LatchSet::from(1 << 5);
    rows[5] = LatchSet::from(1 << 3);
    rows[31] = LatchSet::from(1 << 31 | 1 << 1);
    Table { rows }
}

#[test]
fn from_sets(rt: HostRuntime) {
    let graph = table();
    for (name, from, all) in [
        ("no node", 0, 0),
        ("a path", 1 << 0, 0b000111),
        ("the end of a path", 1 << 2, 0b000100),
        ("a circle", 1 << 4, 0b111000),
        ("two parts", 1 << 1 | 1 << 5, 0b111110),
        ("a node alone", 1 << 30, 1 << 30),
        ("the last node", 1 << 31, 1 << 31 | 0b000110),
    ] {
        let answer = reached(&graph, LatchSet::from(from));
        assert_eq!(rt; answer, LatchSet::from(all), "{}", name);
    }
}

#[test]
fn from_one_node(rt: HostRuntime) {
    let graph = table();
    for (name, node, all) in [
        ("a path", 0, 0b000110),
        ("the end of a path", 2, 0),
        ("a circle", 3, 0b111000),
        ("the last node", 31, 1 << 31 | 0b000110),
        ("beyond the last node", 32, 0),
    ] {
        assert_eq!(rt; reached_from(&graph, node), LatchSet::from(all), "{}", name);
    }
}
