//! Sets of latches 0 to 31, each set one 32-bit word.
#![tactic(auto)]

ghost use Rattle.std.specs.Prelude.{◌≡◌, ℕ, Bool, Decides};
ghost use Rattle.words.specs.Sets.{has, has_passed, has_with, has_without, has_put, has_either, has_both, has_minus, Empty, Below, Lowest};

/// How many latches there can be.
pub const MOST_LATCHES: u8 = 32;

/// A set of latches: latch i is in it exactly when bit i of the word, counted from the lowest, is set.
#[derive(Clone, Copy, PartialEq, Eq, Debug)]
pub struct LatchSet {
    word: u32,
}

impl From<u32> for LatchSet {
    ghost from_gives = { λ word set. set.word ≡ word };

    /// The set that a word stands for.
    fn from(word: u32) -> LatchSet {
        LatchSet { word }
    }
}

impl From<LatchSet> for u32 {
    ghost from_gives = { λ set word. word ≡ set.word };

    /// The word that stands for the set.
    fn from(set: LatchSet) -> u32 {
        set.word
    }
}

/// A test on latches.
pub trait Test {
    // The latch passes.
    ghost passing: { Self → ℕ → Bool };

    /// Whether the latch passes.
    fn passes(&self, latch: u8) -> bool
        ensures { result ≡ passing self.now latch };
}

impl LatchSet {
    /// The set with no latch.
    pub const EMPTY: LatchSet = LatchSet { word: 0 };

    /// The latches below `n` that pass the test.
    pub fn from_fn<T: Test>(n: u8, test: &T) -> LatchSet
        ensures { (j : ℕ) → has result j ≡ has_passed n (T.passing test.now) j }
    {
        let mut set = LatchSet::EMPTY;
        for latch in 0..n.min(MOST_LATCHES) {
            if test.passes(latch) {
                set = set.with(latch);
            }
        }
        set
    }

    /// Whether the latch is in the set.
    pub fn contains(self, latch: u8) -> bool
        ensures { result ≡ has self latch }
    {
        latch < MOST_LATCHES && self.word >> latch & 1 == 1
    }

    /// The set with one more latch. A latch from 32 on is passed over.
    pub fn with(self, latch: u8) -> LatchSet
        ensures { (j : ℕ) → has result j ≡ has_with self latch j }
    {
        if latch >= MOST_LATCHES {
            return self;
        }
        LatchSet {
            word: self.word | 1 << latch,
        }
    }

    /// The set without this latch.
    pub fn without(self, latch: u8) -> LatchSet
        ensures { (j : ℕ) → has result j ≡ has_without self latch j }
    {
        if latch >= MOST_LATCHES {
            return self;
        }
        LatchSet {
            word: self.word & !(1 << latch),
        }
    }

    /// The set with the latch if `to`, else without it.
    pub fn put(self, latch: u8, to: bool) -> LatchSet
        ensures { (j : ℕ) → has result j ≡ has_put self latch to j }
    {
        if to {
            self.with(latch)
        } else {
            self.without(latch)
        }
    }

    /// The latches of the one set and of the other.
    pub fn union(self, other: LatchSet) -> LatchSet
        ensures { (j : ℕ) → has result j ≡ has_either self other j }
    {
        LatchSet {
            word: self.word | other.word,
        }
    }

    /// The latches that are in both sets.
    pub fn intersection(self, other: LatchSet) -> LatchSet
        ensures { (j : ℕ) → has result j ≡ has_both self other j }
    {
        LatchSet {
            word: self.word & other.word,
        }
    }

    /// The latches of the set that are not in the other.
    pub fn difference(self, other: LatchSet) -> LatchSet
        ensures { (j : ℕ) → has result j ≡ has_minus self other j }
    {
        LatchSet {
            word: self.word & !other.word,
        }
    }

    /// Whether no latch is in the set.
    pub fn is_empty(self) -> bool
        ensures { Decides result (Empty self) }
    {
        self.word == 0
    }

    /// Whether each latch of the set is one of the first `n`.
    pub fn is_below(self, n: u8) -> bool
        ensures { Decides result (Below n self) }
    {
        n >= MOST_LATCHES || self.word >> n == 0
    }

    /// The lowest latch of the set.
    pub fn first(self) -> Option<u8>
        ensures { Lowest self result }
    {
        if self.word == 0 {
            return None;
        }
        Some(self.word.trailing_zeros() as u8)
    }
}
