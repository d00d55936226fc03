// A label that was read.
ghost use Rattle.std.specs.Prelude.{length, Some, MatchResult};
ghost use Rattle.reading.specs.Answers.{NotRead};
ghost use Rattle.reading.specs.Working.{Zero};
ghost use Rattle.readings.specs.Answers.{FoundBy};
ghost use Rattle.readings.specs.Texts.{found_text};

use arithmetic::Arithmetic;
use label::Scheme;
use reading::{Found, Reading, Refusal};
use std::fmt;
use text::{Row, Spaced};

/// A label that was read.
#[derive(Clone, Copy)]
pub struct FoundLabel {
    /// Its door, its v and its s.
    pub found: Found,
    /// Its codes.
    pub label: Row<64>,
}

impl FoundLabel {
    /// The label within reach of a reading, with its door, v and s. Refused as reading with this worksheet, into a row of the
    /// label's length, is. Every number of the worksheet is 0 afterwards.
    pub(crate) fn new<A: Arithmetic, R: Reading>(
        scheme: &Scheme<A>,
        reading: &R,
        worksheet: &mut [u32],
    ) -> Result<FoundLabel, Refusal>
        ensures answers { MatchResult result (FoundBy (A.Arithmetic.meaning scheme.now.arithmetic) scheme.now.n scheme.now.k (R.Reading.shown reading.now) (length worksheet.old)) (NotRead (A.Arithmetic.meaning scheme.now.arithmetic) scheme.now.n scheme.now.k (R.Reading.shown reading.now) (length worksheet.old) scheme.now.n) }
        ensures zero { Zero worksheet.new }
    {
        let mut row = [0; 64];
        let places = scheme.length();
        let found = reading::read(scheme, reading, worksheet, &mut row[..places])?;
        Ok(FoundLabel {
            found,
            label: Row { row, places },
        })
    }
}

impl fmt::Display for FoundLabel {
    // What `{}` writes.
    ghost output = { λ t. Some (found_text t) };

    fn fmt<W: fmt::Write>(&self, f: &mut fmt::Formatter<W>) -> fmt::Result {
        let Found {
            door,
            misread,
            smudges,
        } = self.found;
        let codes = Spaced(self.label.numbers());
        write!(f, "{door} {misread} {smudges}{codes}")
    }
}
