//! Board panels: a bool for each latch.
ghost use Rattle.std.specs.Prelude.{◌≡◌, Bool};
ghost use Rattle.panel.specs.Settings.{row, clamped};
ghost use Rattle.panel_tried.specs.Boards.{place, board_setting};
ghost use Rattle.std.proofs.Common.{arith};
ghost use Rattle.panel.specs.Lengths.{length_row};

use panel::Panel;
use panel::width::{WIDEST, Width};

/// A board panel: each latch below the width has its position at its place.
#[derive(Drop)]
pub struct Board {
    width: Width,
    places: [bool; WIDEST as usize],
}

impl Board {
    /// A board with these positions, at the nearest width from 1 to 32.
    pub fn new(width: u8, places: [bool; WIDEST as usize]) -> Board
        ensures { board_setting result ≡ row (clamped width) (place places) }
    {
        Board {
            width: Width::clamped(width),
            places,
        }
    }
}

impl Panel for Board {
    ghost setting = { board_setting };

    ghost some = { λ p. omega (arith, length_row {X = Bool}) };

    ghost few = { λ p. omega (arith, length_row {X = Bool}) };

    fn width(&self) -> u8 {
        self.width.count()
    }

    fn look(&self, latch: u8) -> Option<u8> {
        if !self.width.has(latch) {
            return None;
        }
        self.width.shown(latch, self.places[latch as usize])
    }

    fn throw(&mut self, latch: u8, to: bool) -> bool {
        if !self.width.has(latch) {
            return false;
        }
        self.places[latch as usize] = to;
        true
    }
}
