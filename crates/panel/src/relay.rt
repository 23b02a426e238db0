//! Relay panels: a pair of coils for each latch.
ghost use Rattle.std.specs.Prelude.{◌≡◌, Bool, replicate};
ghost use Rattle.panel.specs.Settings.{clamped, made, within?, thrown};
ghost use Rattle.panel.specs.Kinds.{coil_at, resting, pulsed, relay_setting, relay_counts, counted, count_at, CoilsOf};
ghost use Rattle.std.proofs.Common.{arith};
ghost use Rattle.panel.specs.Lengths.{length_row};

use super::Panel;
use super::width::{WIDEST, Width};
use words::LatchSet;

/// Where a count of pulses stops: the most that it can be.
pub const PULSE_LIMIT: u16 = u16::MAX;

/// A coil of a latch: a pulse of `Set` puts the latch at position 1, one of `Reset` at position 0, as the coils are numbered.
#[derive(Clone, Copy)]
enum Coil {
    Reset = 0,
    Set = 1,
}

impl From<bool> for Coil {
    ghost from_gives = { λ to coil. coil ≡ coil_at to };

    /// The coil that puts a latch at position 1 if `to`, else at 0.
    fn from(to: bool) -> Coil {
        if to { Coil::Set } else { Coil::Reset }
    }
}

/// The two coils of a latch: which was pulsed last, and how many pulses they had.
#[derive(Clone, Copy)]
struct Coils {
    last: Coil,
    pulses: u16,
}

impl Coils {
    /// The coils of a latch at position 1 if `up`, else at 0, with no pulse yet.
    fn resting(up: bool) -> Coils
        ensures { result ≡ resting up }
    {
        Coils {
            last: Coil::from(up),
            pulses: 0,
        }
    }

    /// The coils after a pulse of this coil.
    fn pulsed(self, coil: Coil) -> Coils
        ensures { result ≡ pulsed self coil }
    {
        Coils {
            last: coil,
            pulses: self.pulses.saturating_add(1).min(PULSE_LIMIT),
        }
    }
}

/// A relay panel: the coil last pulsed tells the position of its latch.
#[derive(Drop)]
pub struct Relay {
    width: Width,
    coils: [Coils; WIDEST as usize],
}

impl Relay {
    /// A relay panel with latch i at bit i of `positions` and no pulse yet; bits beyond the width are passed over.
    /// Width 0 is taken as 1, and above 32 as 32.
    pub fn new(width: u8, positions: u32) -> Relay
        ensures setting { relay_setting result ≡ made width positions }
        ensures pulses { relay_counts result ≡ replicate (clamped width) 0 }
    {
        let raised = LatchSet::from(positions);
        Relay {
            width: Width::clamped(width),
            coils: std::array::from_fn(|latch| Coils::resting(raised.contains(latch as u8))),
        }
    }

    /// How many pulses the coils of the latch had, up to `PULSE_LIMIT`; `None` at and beyond the width.
    pub fn pulses(&self, latch: u8) -> Option<u16>
        ensures { result ≡ count_at (relay_counts self.now) latch }
    {
        Some(self.coils_of(latch)?.pulses)
    }

    /// The coils of the latch; `None` at and beyond the width.
    fn coils_of(&self, latch: u8) -> Option<Coils>
        ensures { CoilsOf self.now latch result }
    {
        if !self.width.has(latch) {
            return None;
        }
        Some(self.coils[latch as usize])
    }

    /// Pulses the coil that puts the latch at position 1 if `to`, else at 0. At and beyond the width there is none.
    fn pulse(&mut self, latch: u8, to: bool)
        ensures setting { relay_setting self.new ≡ thrown (relay_setting self.old) latch to }
        ensures counts { relay_counts self.new ≡ counted (relay_counts self.old) latch }
        ensures width { self.new.width ≡ self.old.width }
    {
        if self.width.has(latch) {
            let coils = &mut self.coils[latch as usize];
            *coils = coils.pulsed(Coil::from(to));
        }
    }
}

impl Panel for Relay {
    ghost setting = { relay_setting };

    ghost some = { λ p. omega (arith, length_row {X = Bool}) };

    ghost few = { λ p. omega (arith, length_row {X = Bool}) };

    fn width(&self) -> u8 {
        self.width.count()
    }

    fn look(&self, latch: u8) -> Option<u8> {
        Some(self.coils_of(latch)?.last as u8)
    }

    /// Every throw below the width is one pulse, of the coil of the position thrown to.
    fn throw(&mut self, latch: u8, to: bool) -> bool
        ensures panel { relay_setting self.new ≡ thrown (relay_setting self.old) latch to }
        ensures done { result ≡ within? (relay_setting self.old) latch }
        ensures counts { relay_counts self.new ≡ counted (relay_counts self.old) latch }
    {
        self.pulse(latch, to);
        self.width.has(latch)
    }
}
