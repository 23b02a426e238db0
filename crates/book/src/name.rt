//! What a name is.
ghost use Rattle.std.specs.Prelude.{◌≡◌, ℕ, ◌≤◌, true, length, take, slice_index};
ghost use Rattle.book.specs.Names.{most_chars, name_chars};

/// The most characters of a name.
pub(crate) const MOST_CHARS: usize = 11;

/// A latch's name: 1 to 11 characters out of A to Z, 0 to 9 and hyphen, and zeros behind them. With no character it is an empty place.
#[derive(Clone, Copy)]
pub struct Name {
    pub(crate) bytes: [u8; MOST_CHARS],
    pub(crate) len: u8,
    ghost sized: { length bytes ≡ most_chars },
    ghost short: { len ≤ most_chars },
    ghost formed: { name_chars (take len bytes) ≡ true },
    ghost padded: { (k : ℕ) → len ≤ k → slice_index bytes k ≡ 0 },
}

impl Name {
    /// An empty place for a name.
    pub(crate) const EMPTY: Name = Name {
        bytes: [0; MOST_CHARS],
        len: 0,
    };
}
