//! The lines of a text, one after another.
ghost use Rattle.std.specs.Prelude.{◌≡◌, ◌+◌, ◌<◌, ◌≤◌, [], length, MatchOption, MatchResult};
ghost use Rattle.std.proofs.Math.Option.{none, some};
ghost use Rattle.std.specs.Fn.{FnOnceReturnsAt};
ghost use Rattle.format.specs.declared.Fault.TheVariants.{Line, Length};
ghost use Rattle.format.specs.Bytes.{cut};
ghost use Rattle.format.specs.Reader.{Place, got, value as line_value};
ghost use Rattle.format.specs.Reading.{most_bytes};
ghost use Rattle.format.specs.Said.{Told};
ghost use Rattle.booktext.specs.Read.{EntryRead};

use format::{Fault, TextRefusal, most_bytes};
use std::marker::Model;

/// The lines of a text that are yet to be read: the number of the next one, and the text from there on.
#[derive(Drop)]
pub(crate) struct LineReader<'a> {
    line: u32,
    rest: &'a [u8],
}

impl<'a> Model for LineReader<'a> {
    ghost Value = { Place };

    ghost view = { λ r. record { number = r.line; rest = r.rest.now } };

    ghost invariant = { λ r. r.line + length r.rest.now ≤ most_bytes + 1 };
}

impl<'a> LineReader<'a> {
    /// The lines of a whole text, unless it is too long.
    pub(crate) fn new(text: &'a [u8]) -> Result<LineReader<'a>, TextRefusal>
        ensures { MatchResult result (λ lines. (length text.now ≤ most_bytes) × (lines ≡ record { number = 1; rest = text.now }))
            (λ e. (most_bytes < length text.now) × (e ≡ record { fault = Length; line = 1 })) }
    {
        if text.len() > most_bytes() {
            return Err(Fault::Length.at(1));
        }
        Ok(LineReader {
            line: 1,
            rest: text,
        })
    }

    /// The value of the next line, which has this key.
    fn value(&mut self, key: &[u8]) -> Result<&'a [u8], TextRefusal>
        ensures { Told result (line_value key.now self.old) (λ v. got v.now self.new) }
    {
        let refusal = Fault::Line.at(self.line);
        let (front, rest) = cut_at(self.rest, b'\n').ok_or(refusal)?;
        let v = front.strip_prefix(key).ok_or(refusal)?;
        self.line += 1;
        self.rest = rest;
        Ok(v)
    }

    /// What the value of the next line, which has this key, is read as.
    pub(crate) fn entry<T, F: FnOnce(&[u8]) -> Result<T, Fault>>(
        &mut self,
        key: &[u8],
        read: F,
    ) -> Result<T, TextRefusal>
        requires { F.IsAlwaysCallable read }
        ensures { EntryRead (FnOnceReturnsAt F.FnOnce read) (line_value key.now self.old) self.old.number self.new result }
    {
        let line = self.line;
        let v = self.value(key)?;
        read(v).map_err(|fault| fault.at(line))
    }

    /// Refuses bytes behind the last line, at the line that they would be.
    pub(crate) fn end(&self) -> Result<(), TextRefusal>
        ensures { MatchResult result (λ _. self.now.rest ≡ [])
            (λ e. (0 < length self.now.rest) × (e ≡ record { fault = Line; line = self.now.number })) }
    {
        if !self.rest.is_empty() {
            return Err(Fault::Line.at(self.line));
        }
        Ok(())
    }
}

/// What stands before the first `sep` and what stands behind it, if there is one.
fn cut_at(s: &[u8], sep: u8) -> Option<(&[u8], &[u8])>
    ensures { MatchOption result (cut sep s.now ≡ none) (λ p. cut sep s.now ≡ some (p.0.now, p.1.now)) }
{
    let i = s.iter().position(|b| *b == sep)?;
    Some((&s[..i], &s[i + 1..]))
}
