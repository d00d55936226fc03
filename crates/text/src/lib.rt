// Reading bytes: lines, parts between separators, and decimal numbers; writing numbers in a row, refusals and answers; and rows
// of numbers that can be copied.
#![tactic(auto)]

ghost use Rattle.std.specs.Prelude.{◌≡◌, ℕ, ◌<◌, length, Some, MatchOption};
ghost use Rattle.std.specs.Option.{SomeIff};
ghost use Rattle.text.specs.Answered.{answered_text};
ghost use Rattle.text.specs.Numerals.{Numeral, Three, Two, value};
ghost use Rattle.text.specs.Parts.{NextLine, Parts, Without};
ghost use Rattle.text.specs.Refusals.{refused_text};
ghost use Rattle.text.specs.Spacing.{spaced};
ghost use Rattle.std.specs.Iterator.{at_most};

mod row;

pub use row::Row;
use std::fmt;

/// The number that the bytes write: one to ten decimal digits, and below 2^32. Zeros may lead.
pub fn number(bytes: &[u8]) -> Option<u32>
    ensures { SomeIff result (Numeral bytes.now) (value bytes.now) }
{
    // Not the library's `parse`, which takes a sign and any number of zeros.
    if bytes.is_empty() || bytes.len() > 10 {
        return None;
    }
    // Ten digits fit 64 bits, and are compared with 2^32 once: with a check at each digit scans took two fifths more time.
    let mut n = 0u64;
    // A `try_fold` would be no plainer: its closure has the same call with `?`.
    for b in bytes {
        let digit = char::from(*b).to_digit(10)?;
        n = n * 10 + u64::from(digit);
    }
    u32::try_from(n).ok()
}

/// The bytes before the first separator and those behind it; `None` where there is no separator.
pub fn split_once(bytes: &[u8], separator: u8) -> Option<(&[u8], &[u8])>
    ensures { MatchOption result (Without separator bytes.now) (λ p. Parts separator bytes.now p.0.now p.1.now) }
{
    let at = bytes.iter().position(|b| *b == separator)?;
    Some((&bytes[..at], &bytes[at + 1..]))
}

/// The two numbers that the bytes write, with one space between.
pub fn two_numbers(bytes: &[u8]) -> Option<(u32, u32)>
    ensures { MatchOption result ((m n : ℕ) → Two bytes.now m n → ⊥) (λ p. Two bytes.now p.0 p.1) }
{
    let (left, right) = split_once(bytes, b' ')?;
    let m = number(left)?;
    let n = number(right)?;
    Some((m, n))
}

/// The three numbers that the bytes write, with one space between.
pub fn three_numbers(bytes: &[u8]) -> Option<(u32, u32, u32)>
    ensures { MatchOption result ((l m n : ℕ) → Three bytes.now l m n → ⊥) (λ p. Three bytes.now p.0 p.1 p.2) }
{
    let (left, right) = split_once(bytes, b' ')?;
    let l = number(left)?;
    let (m, n) = two_numbers(right)?;
    Some((l, m, n))
}

/// Numbers that `{}` writes with a space before each.
#[derive(Clone, Copy)]
pub struct Spaced<'a>(pub &'a [u32]);

impl fmt::Display for Spaced<'_> {
    // What `{}` writes.
    ghost output = { λ s. Some (spaced s.0.now) };

    fn fmt<W: fmt::Write>(&self, f: &mut fmt::Formatter<W>) -> fmt::Result {
        for n in self.0 {
            write!(f, " {n}")?;
        }
        Ok(())
    }
}

/// A refusal's number and place.
#[derive(Clone, Copy)]
pub struct Refused(pub u32, pub u32);

impl fmt::Display for Refused {
    // What `{}` writes.
    ghost output = { λ r. Some (refused_text r.0 r.1) };

    fn fmt<W: fmt::Write>(&self, f: &mut fmt::Formatter<W>) -> fmt::Result {
        let Refused(number, place) = *self;
        write!(f, "refused {number} {place}")
    }
}

/// What was asked for, or why it is not answered.
#[derive(Clone, Copy, Drop)]
pub struct Answered<T, E>(pub Result<T, E>);

impl<T: fmt::Display, E: fmt::Display> fmt::Display for Answered<T, E> {
    // What `{}` writes.
    ghost output = { λ a. answered_text T.output E.output a.0 };

    fn fmt<W: fmt::Write>(&self, f: &mut fmt::Formatter<W>) -> fmt::Result {
        // A match of a `Result`: the answer and the error have each a `Display` of their own type.
        match &self.0 {
            Ok(answer) => write!(f, "{answer}"),
            Err(unanswered) => write!(f, "{unanswered}"),
        }
    }
}

/// The lines of a text. A line ends before a line feed, which the last may lack.
#[derive(Drop)]
pub struct Lines<'a> {
    /// The bytes behind the lines that were given.
    rest: &'a [u8],
}

impl<'a> Lines<'a> {
    /// The lines of these bytes.
    pub fn new(bytes: &'a [u8]) -> Self
        ensures { result.rest.now ≡ bytes.now }
    {
        Lines { rest: bytes }
    }
}

impl<'a> Iterator for Lines<'a> {
    type Item = &'a [u8];

    // A call gives the first line of what is left, and leaves what follows it; nothing where nothing is left.
    ghost next_gives = { λ s r t. MatchOption r ((length s.rest.now ≡ 0) × (t.rest.now ≡ s.rest.now)) (λ line. (0 < length s.rest.now) × NextLine s.rest.now line.now t.rest.now) };

    // No more lines are to come than there are bytes left.
    ghost remaining = { λ s. at_most (length s.rest.now) };

    fn next(&mut self) -> Option<&'a [u8]> {
        if self.rest.is_empty() {
            return None;
        }
        let (line, rest) = split_once(self.rest, b'\n').unwrap_or((self.rest, &[]));
        self.rest = rest;
        Some(line)
    }
}
