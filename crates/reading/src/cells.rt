// The cells of a reading, in rows.
ghost use Rattle.std.specs.Prelude.{◌≡◌, ℕ, ◌<◌, ◌≤◌, length, MatchResult};
ghost use Rattle.algebra.specs.Counts.{count as count_of};
ghost use Rattle.arithmetic.specs.Meaning.{Codes};
ghost use Rattle.reading.specs.Answers.{FirstWithout};
ghost use Rattle.reading.specs.Refusals.{Refused};
ghost use Rattle.reading.specs.Working.{Opened, at, marked, wrong};

use crate::reading::Reading;
use crate::refusal::Refusal;
use arithmetic::Arithmetic;
use label::Scheme;

/// The cells of a reading of a scheme's labels: a row of codes, a row that marks the smudges, and their number.
#[derive(Drop)]
pub(crate) struct Cells<'a, A: Arithmetic> {
    pub(crate) scheme: &'a Scheme<A>,
    pub(crate) codes: &'a [u32],
    pub(crate) smudges: &'a [u32],
    pub(crate) count: u32,
    ghost lengths: { (length codes.now ≡ scheme.now.n) × (length smudges.now ≡ scheme.now.n) },
    ghost are_codes: { Codes (A.Arithmetic.meaning scheme.now.arithmetic) codes.now },
    ghost counted: { count ≡ count_of scheme.now.n (marked smudges.now) },
}

/// Writes the code of each cell into a row, 0 for a smudge, and marks the smudges in another. Refused by 15 at the first place
/// without a cell.
fn write_cells<R: Reading>(
    reading: &R,
    q: u32,
    codes: &mut [u32],
    smudges: &mut [u32],
) -> Result<(), Refusal>
    requires elements { 0 < q }
    requires lengths { (length codes.old ≤ 64) × (length smudges.old ≡ length codes.old) }
    ensures { MatchResult result (λ _. Opened q (R.Reading.shown reading.now) codes.new smudges.new × ((p : ℕ) → p < length codes.old → at codes.new p < q)) (λ e. (p : ℕ) × (p < length codes.old) × FirstWithout q (R.Reading.shown reading.now) p × Refused e 15 p) }
{
    // The other row goes by index: of what a zip with `iter_mut` writes nothing is known.
    for (p, code) in codes.iter_mut().enumerate() {
        let cell = reading.cell(q, p).ok_or(Refusal::NoCell(p as u32))?;
        let (taken, mark) = cell.taken();
        *code = taken;
        // A mark is a number: the worksheet is one slice of 32-bit numbers, which the caller lends.
        smudges[p] = mark;
    }
    Ok(())
}

/// How many places are marked.
fn count_marked(smudges: &[u32]) -> u32
    requires { length smudges.now ≤ 64 }
    ensures { result ≡ count_of (length smudges.now) (marked smudges.now) }
{
    smudges.iter().filter(|smudge| **smudge != 0).count() as u32
}

impl<'a, A: Arithmetic> Cells<'a, A> {
    /// Takes the cells of a reading into two rows as long as a label. Refused by 15 at the first place without a cell.
    pub(crate) fn open<R: Reading>(
        scheme: &'a Scheme<A>,
        reading: &R,
        codes: &'a mut [u32],
        smudges: &'a mut [u32],
    ) -> Result<Cells<'a, A>, Refusal>
        requires { (length codes.old ≡ scheme.now.n) × (length smudges.old ≡ scheme.now.n) }
        ensures { MatchResult result (λ c. (c.scheme.now ≡ scheme.now) × Opened (A.Arithmetic.meaning scheme.now.arithmetic).size (R.Reading.shown reading.now) c.codes.now c.smudges.now) (λ e. (p : ℕ) × (p < scheme.now.n) × FirstWithout (A.Arithmetic.meaning scheme.now.arithmetic).size (R.Reading.shown reading.now) p × Refused e 15 p) }
    {
        write_cells(reading, scheme.arithmetic().size(), codes, smudges)?;
        let count = count_marked(smudges);
        Ok(Cells {
            scheme,
            codes,
            smudges,
            count,
        })
    }

    /// How many places are legible and differ from a row.
    pub(crate) fn count_wrong(&self, row: &[u32]) -> u32
        requires { length row.now ≡ self.now.scheme.now.n }
        ensures { result ≡ count_of self.now.scheme.now.n (wrong self.now.codes.now self.now.smudges.now row.now) }
    {
        self.codes
            .iter()
            .zip(self.smudges)
            .zip(row)
            .filter(|((code, smudge), other)| **smudge == 0 && **code != **other)
            .count() as u32
    }
}
