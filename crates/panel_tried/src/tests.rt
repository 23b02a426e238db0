use super::board::Board;
use panel::Panel;
use panel::flip::Flip;
use panel::register::Register;
use panel::relay::{PULSE_LIMIT, Relay};
use panel::scan::raised;
use panel::width::WIDEST;
use std::process::Abort;
use words::LatchSet;

/// The width of the panels that are thrown, and their positions before, latch 0 lowest.
const WIDTH: u8 = 5;

const START: u32 = 0b10110;

/// A mask, and the positions below it that show as `START`.
const MASK: u32 = 0b00111;

const BELOW: u32 = 0b10001;

/// A second mask, and the positions below it that show as `BELOW`.
const SECOND_MASK: u32 = 0b01100;

const LOWEST: u32 = 0b11101;

/// A throw: its name, the latch, the position thrown to, what the latch then shows, and the positions then.
/// The throw is done where the latch shows anything.
type Throw = (&'static str, u8, bool, Option<u8>, u32);

const THROWS: [Throw; 6] = [
    ("first latch up", 0, true, Some(1), 0b10111),
    ("a latch down", 1, false, Some(0), 0b10100),
    ("a latch up that is up", 2, true, Some(1), START),
    ("last latch down", 4, false, Some(0), 0b00110),
    ("at the width", 5, true, None, START),
    ("far beyond", 255, true, None, START),
];

/// Tries a throw on a panel of the kind, which has the width and shows `START`.
fn tried<P: Panel>(rt: &impl Abort, kind: &str, panel: &mut P, throw: Throw) {
    let (name, latch, to, shows, after) = throw;
    assert_eq!(rt; panel.throw(latch, to), shows.is_some(), "{kind}: {name}");
    assert_eq!(rt; panel.look(latch), shows, "{kind}: {name}");
    assert_eq!(rt; panel.width(), WIDTH, "{kind}: {name}");
    assert_eq!(rt; raised(panel), LatchSet::from(after), "{kind}: {name}");
}

#[test]
fn throws(rt: HostRuntime) {
    let mask = LatchSet::from(MASK);
    let second = LatchSet::from(SECOND_MASK);
    for throw in THROWS {
        tried(&rt, "register", &mut Register::new(WIDTH, START), throw);
        tried(&rt, "relay", &mut Relay::new(WIDTH, START), throw);
        let lower = Register::new(WIDTH, BELOW);
        tried(&rt, "flip", &mut Flip::new(lower, mask), throw);
        let lower = Flip::new(Relay::new(WIDTH, LOWEST), second);
        tried(&rt, "flip upon flip", &mut Flip::new(lower, mask), throw);
    }
}

#[test]
fn throws_of_a_later_kind(rt: HostRuntime) {
    for throw in THROWS {
        let mut places = [false; WIDEST as usize];
        places[1] = true;
        places[2] = true;
        places[4] = true;
        tried(&rt, "board", &mut Board::new(WIDTH, places), throw);
    }
}

#[test]
fn widths_are_clamped(rt: HostRuntime) {
    for (given, width, shown) in [
        (0, 1, 1),
        (1, 1, 1),
        (31, 31, u32::MAX >> 1),
        (32, 32, u32::MAX),
        (255, 32, u32::MAX),
    ] {
        let register = Register::new(given, u32::MAX);
        assert_eq!(rt; register.width(), width, "{given}");
        assert_eq!(rt; raised(&register), LatchSet::from(shown), "{given}");
        let relay = Relay::new(given, u32::MAX);
        assert_eq!(rt; relay.width(), width, "{given}");
        assert_eq!(rt; raised(&relay), LatchSet::from(shown), "{given}");
    }
}

#[test]
fn every_throw_is_a_pulse(rt: HostRuntime) {
    let mut relay = Relay::new(2, 0);
    assert_eq!(rt; relay.pulses(1), Some(0), "new");
    let _ = relay.throw(1, true);
    let _ = relay.throw(1, true);
    let _ = relay.throw(2, true);
    assert_eq!(rt; relay.pulses(1), Some(2), "thrown twice");
    assert_eq!(rt; relay.pulses(0), Some(0), "another latch");
    assert_eq!(rt; relay.pulses(2), None, "beyond the width");
    for _ in 0..PULSE_LIMIT {
        let _ = relay.throw(1, false);
    }
    assert_eq!(rt; relay.pulses(1), Some(PULSE_LIMIT), "at the limit");
}

#[test]
fn a_flip_gives_the_panel_below_back(rt: HostRuntime) {
    let mut flip = Flip::new(Register::new(WIDTH, BELOW), LatchSet::from(MASK));
    let _ = flip.throw(0, true);
    let _ = flip.throw(3, true);
    let below = flip.into_inner();
    assert_eq!(rt; raised(&below), LatchSet::from(0b11000));
}
