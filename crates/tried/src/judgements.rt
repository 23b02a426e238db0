//! What is said of errands.
use booktext::read_errand;
use planner::judge;
use std::test::Fail;
use theory::Judgement;

/// An errand text, and what is said of the errand.
struct Row {
    name: &'static str,
    text: &'static [u8],
    said: Judgement,
}

const ERRANDS: [Row; 9] = [
    Row {
        name: "a gate, a cache and a learner",
        text: b"book=1\nlatches=3\nlatch=GATE\nlatch=CACHE\nlatch=LEARN\nmoves=6\nmove=GATE\nto=1\nwhen=\nmove=GATE\nto=0\nwhen=\nmove=CACHE\nto=1\nwhen=GATE:1\nmove=CACHE\nto=0\nwhen=GATE:1\nmove=LEARN\nto=1\nwhen=GATE:0 CACHE:1\nmove=LEARN\nto=0\nwhen=GATE:0 CACHE:1\nstart=000\nwant=LEARN:1\n",
        said: Judgement::Way,
    },
    Row {
        name: "the same with three wanted",
        text: b"book=1\nlatches=3\nlatch=GATE\nlatch=CACHE\nlatch=LEARN\nmoves=6\nmove=GATE\nto=1\nwhen=\nmove=GATE\nto=0\nwhen=\nmove=CACHE\nto=1\nwhen=GATE:1\nmove=CACHE\nto=0\nwhen=GATE:1\nmove=LEARN\nto=1\nwhen=GATE:0 CACHE:1\nmove=LEARN\nto=0\nwhen=GATE:0 CACHE:1\nstart=000\nwant=GATE:1 CACHE:0 LEARN:1\n",
        said: Judgement::Way,
    },
    Row {
        name: "the same from another start",
        text: b"book=1\nlatches=3\nlatch=GATE\nlatch=CACHE\nlatch=LEARN\nmoves=6\nmove=GATE\nto=1\nwhen=\nmove=GATE\nto=0\nwhen=\nmove=CACHE\nto=1\nwhen=GATE:1\nmove=CACHE\nto=0\nwhen=GATE:1\nmove=LEARN\nto=1\nwhen=GATE:0 CACHE:1\nmove=LEARN\nto=0\nwhen=GATE:0 CACHE:1\nstart=100\nwant=LEARN:1\n",
        said: Judgement::Way,
    },
    Row {
        name: "no move",
        text: b"book=1\nlatches=1\nlatch=X\nmoves=0\nstart=0\nwant=X:1\n",
        said: Judgement::NoWay,
    },
    Row {
        name: "a move to 1 alone, wanted at 0",
        text: b"book=1\nlatches=1\nlatch=X\nmoves=1\nmove=X\nto=1\nwhen=\nstart=0\nwant=X:0\n",
        said: Judgement::Way,
    },
    Row {
        name: "Y goes up with X down and down with X up",
        text: b"book=1\nlatches=2\nlatch=X\nlatch=Y\nmoves=3\nmove=X\nto=1\nwhen=\nmove=Y\nto=1\nwhen=X:0\nmove=Y\nto=0\nwhen=X:1\nstart=00\nwant=Y:1\n",
        said: Judgement::Outside,
    },
    Row {
        name: "the same with X wanted at 0, which makes it static",
        text: b"book=1\nlatches=2\nlatch=X\nlatch=Y\nmoves=3\nmove=X\nto=1\nwhen=\nmove=Y\nto=1\nwhen=X:0\nmove=Y\nto=0\nwhen=X:1\nstart=00\nwant=X:0 Y:1\n",
        said: Judgement::Way,
    },
    Row {
        name: "a circle of two, nothing wanted",
        text: b"book=1\nlatches=2\nlatch=X\nlatch=Y\nmoves=2\nmove=X\nto=1\nwhen=Y:1\nmove=Y\nto=1\nwhen=X:1\nstart=00\nwant=\n",
        said: Judgement::Outside,
    },
    Row {
        name: "a move that asks its own latch at its target is dropped",
        text: b"book=1\nlatches=1\nlatch=X\nmoves=1\nmove=X\nto=1\nwhen=X:1\nstart=0\nwant=X:1\n",
        said: Judgement::NoWay,
    },
];

#[test]
fn judgements(rt: HostRuntime) -> Result<(), Fail> {
    for row in &ERRANDS {
        let errand = read_errand(row.text)?;
        assert_eq!(rt; judge(&errand), row.said, "{}", row.name);
    }
    Ok(())
}
