//! Reading whole panels.
ghost use Rattle.std.specs.Prelude.{◌≡◌, ℕ, Bool, false, Some, slice_index_or};
ghost use Rattle.words.specs.Sets.{has};
ghost use Rattle.panel.specs.Settings.{digit};

use super::Panel;
use words::LatchSet;

/// The latches of the panel at position 1.
pub fn raised<P: Panel>(panel: &P) -> LatchSet
    ensures { (j : ℕ) → has result j ≡ slice_index_or (P.setting panel.now) j false }
{
    let mut latches = LatchSet::EMPTY;
    for latch in 0..panel.width() {
        if is_one(panel.look(latch)) {
            latches = latches.with(latch);
        }
    }
    latches
}

/// Whether a look shows position 1.
fn is_one(shown: Option<u8>) -> bool
    ensures { (b : Bool) → shown ≡ Some (digit b) → result ≡ b }
{
    shown == Some(1)
}
