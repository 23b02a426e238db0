use super::Table;

#[test]
fn items_up_to_the_room(rt: HostRuntime) {
    let mut table: Table<u8, 3> = Table::new(9);
    for (item, items) in [
        (5, [5].as_slice()),
        (6, [5, 6].as_slice()),
        (5, [5, 6, 5].as_slice()),
        (7, [5, 6, 5].as_slice()),
    ] {
        table.push(item);
        assert!(rt; table.as_slice() == items, "{item}");
        assert_eq!(rt; table.len(), items.len(), "{item}");
    }
}

#[test]
fn no_item(rt: HostRuntime) {
    let table: Table<bool, 2> = Table::new(true);
    assert!(rt; table.as_slice().is_empty());
    assert_eq!(rt; table.len(), 0);
}
