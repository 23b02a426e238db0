//! Flip panels: a panel seen through a mask.
ghost use Rattle.std.specs.Prelude.{◌≡◌};
ghost use Rattle.panel.specs.Settings.{within?, thrown};
ghost use Rattle.panel.specs.Kinds.{flip_setting};
ghost use Rattle.std.proofs.Common.{arith};
ghost use Rattle.panel.specs.Lengths.{length_flipped};

use super::Panel;
use words::LatchSet;

/// A panel over another: each latch in the mask is shown and thrown as the opposite.
#[derive(Drop)]
pub struct Flip<P> {
    inner: P,
    mask: LatchSet,
}

impl<P: Panel> Flip<P> {
    /// The panel seen through the mask.
    pub fn new(inner: P, mask: LatchSet) -> Flip<P>
        ensures inner { result.inner ≡ inner }
        ensures mask { result.mask ≡ mask }
    {
        Flip { inner, mask }
    }

    /// Gives the panel below back.
    pub fn into_inner(self) -> P
        ensures { result ≡ self.inner }
    {
        let Flip { inner, mask: _ } = self;
        inner
    }
}

impl<P: Panel> Panel for Flip<P> {
    ghost setting = { flip_setting P.Panel.setting };

    ghost some = { λ p. omega (arith, length_flipped p.mask (P.Panel.setting p.inner), P.Panel.some p.inner) };

    ghost few = { λ p. omega (arith, length_flipped p.mask (P.Panel.setting p.inner), P.Panel.few p.inner) };

    fn width(&self) -> u8 {
        self.inner.width()
    }

    fn look(&self, latch: u8) -> Option<u8> {
        let position = self.inner.look(latch)?;
        if self.mask.contains(latch) {
            Some(1 - position)
        } else {
            Some(position)
        }
    }

    fn throw(&mut self, latch: u8, to: bool) -> bool
        ensures panel { flip_setting P.Panel.setting self.new ≡ thrown (flip_setting P.Panel.setting self.old) latch to }
        ensures done { result ≡ within? (flip_setting P.Panel.setting self.old) latch }
        ensures mask { self.new.mask ≡ self.old.mask }
    {
        let reversed = self.mask.contains(latch);
        self.inner.throw(latch, to != reversed)
    }
}
