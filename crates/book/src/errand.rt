//! Errands.
ghost use Rattle.std.specs.Prelude.{◌≡◌};
ghost use Rattle.words.specs.Sets.{Below};

use crate::book::Book;
use crate::partial::PartialSetting;
use words::LatchSet;

/// An errand of a book: the latches that are at 1 at the start, and the positions wanted of some latches.
#[derive(Clone, Copy)]
pub struct Errand {
    pub book: Book,
    pub start: LatchSet,
    pub want: PartialSetting,
    ghost starts: { Below book.latches start },
    ghost wants: { Below book.latches want.named },
}
