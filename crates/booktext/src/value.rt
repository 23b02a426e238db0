//! What the values of lines mean: numbers and positions.
ghost use Rattle.std.specs.Prelude.{◌≡◌, ◌<◌, ◌≤◌, [], codes, IfOk, MatchOption};
ghost use Rattle.words.specs.Sets.{Below, most_latches};
ghost use Rattle.book.specs.Names.{same};
ghost use Rattle.format.specs.Bytes.{decimal, worth as worth_behind};
ghost use Rattle.format.specs.declared.Fault.TheVariants.{Value as BadValue};
ghost use Rattle.format.specs.Reader.{fine, wrong};
ghost use Rattle.format.specs.Said.{positions_of};
ghost use Rattle.format.specs.Values.{only, number as numbered, position as positioned, positions as all_positions};
ghost use Rattle.booktext.specs.Read.{Means};

use format::Fault;
use words::LatchSet;

/// The version of the format: 1.
pub(crate) fn version(v: &[u8]) -> Result<(), Fault>
    ensures { Means result (only (codes "1") v.now) (λ _. tt) }
{
    match v {
        b"1" => Ok(()),
        _ => Err(Fault::Value),
    }
}

/// Whether the bytes are `n` in decimal.
fn is_decimal(n: u8, v: &[u8]) -> bool
    ensures { result ≡ same (decimal n) v.now }
{
    if n < 10 {
        v[..] == [b'0' + n]
    } else if n < 100 {
        v[..] == [b'0' + n / 10, b'0' + n % 10]
    } else {
        v[..] == [b'0' + n / 100, b'0' + n / 10 % 10, b'0' + n % 10]
    }
}

/// What the bytes are worth as digits, if that is below 256.
fn worth(v: &[u8]) -> Option<u8>
    ensures { MatchOption result (255 < worth_behind 0 v.now) (λ n. worth_behind 0 v.now ≡ n) }
{
    let mut n: u8 = 0;
    for b in v {
        n = n.checked_mul(10)?.checked_add(b.saturating_sub(b'0'))?;
    }
    Some(n)
}

/// The number from `low` to `high` that the bytes are in decimal.
pub(crate) fn number(v: &[u8], low: u8, high: u8) -> Result<u8, Fault>
    ensures { Means result (numbered low high v.now) (λ n. n) }
{
    // A number has three digits at most, so a long line is not gone through.
    if v.len() > 3 {
        return Err(Fault::Value);
    }
    let n = worth(v).ok_or(Fault::Value)?;
    if n < low || n > high || !is_decimal(n, v) {
        return Err(Fault::Value);
    }
    Ok(n)
}

/// The position that the bytes `0` or `1` are.
pub(crate) fn position(v: &[u8]) -> Option<bool>
    ensures { MatchOption result (positioned v.now ≡ wrong BadValue) (λ b. positioned v.now ≡ fine b) }
{
    match v {
        b"0" => Some(false),
        b"1" => Some(true),
        _ => None,
    }
}

/// The latches at 1, where `n` digits give the positions, the first for latch 0.
pub(crate) fn positions(v: &[u8], n: u8) -> Result<LatchSet, Fault>
    requires { n ≤ most_latches }
    ensures told { Means result (all_positions n [] v.now) (positions_of n) }
    ensures below { IfOk result (Below n) }
{
    if v.len() != n as usize {
        return Err(Fault::Value);
    }
    let mut ones = LatchSet::EMPTY;
    for (i, b) in v.iter().enumerate() {
        match b {
            b'0' => {}
            b'1' => ones = ones.with(i as u8),
            _ => return Err(Fault::Value),
        }
    }
    Ok(ones)
}
