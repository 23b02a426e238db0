//! Naming one latch more or less in a partial setting.
ghost use Rattle.std.specs.Prelude.{◌≡◌, ℕ};
ghost use Rattle.book.specs.Settings.{asked, asked_with, asked_without};

use crate::partial::PartialSetting;

impl PartialSetting {
    /// The same with this position for the latch. A latch from 32 on is passed over.
    pub fn with(self, latch: u8, at: bool) -> PartialSetting
        ensures { (j : ℕ) → asked result j ≡ asked_with self latch at j }
    {
        PartialSetting {
            named: self.named.with(latch),
            ones: self.ones.put(latch, at),
        }
    }

    /// The same without this latch.
    pub fn without(self, latch: u8) -> PartialSetting
        ensures { (j : ℕ) → asked result j ≡ asked_without self latch j }
    {
        PartialSetting {
            named: self.named.without(latch),
            ones: self.ones.without(latch),
        }
    }
}
