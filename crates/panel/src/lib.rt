//! Panels of 1 to 32 latches: what every kind of panel promises, and three kinds.
#![tactic(auto)]

pub mod flip;
pub mod register;
pub mod relay;
pub mod scan;
pub mod width;

ghost use Rattle.std.specs.Prelude.{◌≡◌, ◌≤◌, Bool, List, length};
ghost use Rattle.panel.specs.Settings.{widest, within?, looked, thrown};

/// A row of latches, numbered from 0, each at position 0 or 1.
/// A panel means its setting: a place for each latch, false at position 0 and true at position 1.
pub trait Panel {
    // The positions, latch 0 first.
    ghost setting: { Self → List Bool };

    /// How many latches the panel has.
    fn width(&self) -> u8
        ensures { result ≡ length (setting self.now) };

    /// The position of the latch, 0 or 1; `None` at and beyond the width.
    fn look(&self, latch: u8) -> Option<u8>
        ensures { result ≡ looked (setting self.now) latch };

    /// Puts the latch at position 1 if `to`, else at 0, leaves all others, and answers true.
    /// At and beyond the width it answers false, and the panel stays the same.
    fn throw(&mut self, latch: u8, to: bool) -> bool
        ensures panel { setting self.new ≡ thrown (setting self.old) latch to }
        ensures done { result ≡ within? (setting self.old) latch };

    // The width is from 1 to 32.
    ghost some: { (p : Self) → 1 ≤ length (setting p) };

    ghost few: { (p : Self) → length (setting p) ≤ widest };
}
