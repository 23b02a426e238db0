//! Lists of items: what a move asks, and what an errand wants.
ghost use Rattle.std.specs.Prelude.{◌≡◌, ◌<◌, length, IfOk, MatchOption};
ghost use Rattle.std.proofs.Math.Option.{none, some};
ghost use Rattle.words.specs.Sets.{Below, most_latches};
ghost use Rattle.format.specs.Said.{items_of};
ghost use Rattle.format.specs.Values.{ending as ended, item as itemized, item_list};
ghost use Rattle.booktext.specs.Read.{Means};

use crate::names::Names;
use crate::value::position;
use book::PartialSetting;
use format::Fault;

/// A latch, and the position that is asked of it.
#[derive(Clone, Copy)]
struct Item {
    latch: u8,
    at: bool,
    ghost few: { latch < most_latches },
}

/// The position that an ending `:0` or `:1` gives.
fn ending(v: &[u8]) -> Option<bool>
    ensures { MatchOption result (ended v.now ≡ none) (λ b. ended v.now ≡ some b) }
{
    position(v.strip_prefix(b":")?)
}

impl Names {
    /// One item, of a latch from `low` on: first its ending is judged, then its latch, then the rise.
    fn item(&self, low: u8, v: &[u8]) -> Result<Item, Fault>
        ensures { Means result (itemized self.now low v.now) (λ x. record { latch = x.latch; at = x.at }) }
    {
        if v.len() < 3 {
            return Err(Fault::Item);
        }
        let (name, end) = v.split_at(v.len() - 2);
        let at = ending(end).ok_or(Fault::Item)?;
        let latch = self.find(name).ok_or(Fault::Latch)?;
        if latch < low {
            return Err(Fault::Item);
        }
        Ok(Item { latch, at })
    }

    /// A list of items: empty, or with exactly one space between two.
    pub(crate) fn items(&self, v: &[u8]) -> Result<PartialSetting, Fault>
        ensures means { Means result (item_list self.now v.now) items_of }
        ensures below { IfOk result (λ p. Below (length self.now) p.named) }
    {
        if v.is_empty() {
            return Ok(PartialSetting::EMPTY);
        }
        let mut asked = PartialSetting::EMPTY;
        let mut low = 0;
        for piece in v.split(|b| *b == b' ') {
            let x = self.item(low, piece)?;
            asked = asked.with(x.latch, x.at);
            low = x.latch + 1;
        }
        Ok(asked)
    }
}
