//! Register panels: one word with a bit for each latch.
ghost use Rattle.std.specs.Prelude.{◌≡◌, Bool};
ghost use Rattle.words.specs.Sets.{has};
ghost use Rattle.panel.specs.Settings.{made};
ghost use Rattle.panel.specs.Kinds.{register_setting};
ghost use Rattle.std.proofs.Common.{arith};
ghost use Rattle.panel.specs.Lengths.{length_row};

use super::Panel;
use super::width::Width;
use words::LatchSet;

/// A register panel: the word has the latches at position 1.
#[derive(Drop)]
pub struct Register {
    width: Width,
    raised: LatchSet,
}

impl Register {
    /// A register panel with latch i at bit i of `positions`; bits beyond the width are passed over.
    /// Width 0 is taken as 1, and above 32 as 32.
    pub fn new(width: u8, positions: u32) -> Register
        ensures { register_setting result ≡ made width positions }
    {
        Register {
            width: Width::clamped(width),
            raised: LatchSet::from(positions),
        }
    }
}

impl Panel for Register {
    ghost setting = { register_setting };

    ghost some = { λ p. omega (arith, length_row {X = Bool}) };

    ghost few = { λ p. omega (arith, length_row {X = Bool}) };

    fn width(&self) -> u8 {
        self.width.count()
    }

    fn look(&self, latch: u8) -> Option<u8> {
        self.width.shown(latch, self.raised.contains(latch))
    }

    fn throw(&mut self, latch: u8, to: bool) -> bool {
        let within = self.width.has(latch);
        if within {
            self.raised = self.raised.put(latch, to);
        }
        within
    }
}
