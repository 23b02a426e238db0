//! Widths of panels.
ghost use Rattle.std.specs.Prelude.{◌≡◌, ℕ, ◌≤◌, Bool, length, nat_lt};
ghost use Rattle.panel.specs.Settings.{widest, row, within?, looked, clamped};

/// The most latches that a panel has.
pub const WIDEST: u8 = words::MOST_LATCHES;

/// How many latches a panel has: from 1 to `WIDEST`.
#[derive(Clone, Copy)]
pub struct Width {
    count: u8,
    ghost some: { 1 ≤ count },
    ghost few: { count ≤ widest },
}

impl Width {
    /// The nearest width: 0 is taken as 1, and what is above `WIDEST` as `WIDEST`.
    pub fn clamped(count: u8) -> Width
        ensures { result.count ≡ clamped count }
    {
        Width {
            count: count.clamp(1, WIDEST),
        }
    }

    /// The width as a number: the length of each row of that many places.
    pub fn count(self) -> u8
        ensures { (f : ℕ → Bool) → result ≡ length (row self.count f) }
    {
        self.count
    }

    /// Whether the latch is one of that many.
    pub fn has(self, latch: u8) -> bool
        ensures below { result ≡ nat_lt latch self.count }
        ensures rows { (f : ℕ → Bool) → result ≡ within? (row self.count f) latch }
    {
        latch < self.count
    }

    /// What a look at the latch answers on a panel of this width that has it at position 1 if `up`, else at 0.
    pub fn shown(self, latch: u8, up: bool) -> Option<u8>
        ensures { (f : ℕ → Bool) → up ≡ f latch → result ≡ looked (row self.count f) latch }
    {
        self.has(latch).then_some(u8::from(up))
    }
}
