// Reading a label.
ghost use Rattle.std.specs.Prelude.{◌≡◌, ℕ, ◌-◌, ◌<◌, ◌≤◌, List, length, MatchBool, MatchOption, MatchResult, OnErr, ◌≢◌};
ghost use Rattle.algebra.specs.Counts.{count as count_of};
ghost use Rattle.arithmetic.specs.Meaning.{Codes};
ghost use Rattle.label.specs.Labels.{Different, door as door_of};
ghost use Rattle.reading.specs.Answers.{NoText, NotRead, NotReady, ReadBack, Reads, Ready, WellFormed};
ghost use Rattle.reading.specs.Working.{Near, PowerSums, Zero, at, wrong};

use crate::cells::Cells;
use crate::points::Sums;
use crate::reading::Reading;
use crate::refusal::Refusal;
use crate::worksheet::Guard;
use arithmetic::Arithmetic;
use label::Scheme;

/// How many numbers a worksheet has at least.
const WORKSHEET: usize = 1024;

/// What is answered to a reading: the door of the label within reach, its `misread` (v) and its `smudges` (s).
#[derive(Clone, Copy)]
pub struct Found {
    /// The door.
    pub door: u32,
    /// How many legible cells differ from the label.
    pub misread: u32,
    /// How many cells are smudges.
    pub smudges: u32,
}

/// Whether text is read where there is none.
fn has_no_text<R: Reading>(reading: &R, q: u32) -> bool
    ensures { MatchBool result (NoText q (R.Reading.shown reading.now)) (NoText q (R.Reading.shown reading.now) → ⊥) }
{
    reading.is_text() && q > 64
}

/// Whether a reading can be taken: refused by 11, 12, 13 and 14, in this order.
fn take<A: Arithmetic, R: Reading>(
    scheme: &Scheme<A>,
    reading: &R,
    worksheet: usize,
    row: usize,
) -> Result<(), Refusal>
    ensures { MatchResult result (λ _. Ready (A.Arithmetic.meaning scheme.now.arithmetic).size scheme.now.n (R.Reading.shown reading.now) worksheet row) (λ e. NotReady (A.Arithmetic.meaning scheme.now.arithmetic).size scheme.now.n (R.Reading.shown reading.now) worksheet row e × (Ready (A.Arithmetic.meaning scheme.now.arithmetic).size scheme.now.n (R.Reading.shown reading.now) worksheet row → ⊥)) }
{
    if has_no_text(reading, scheme.arithmetic().size()) {
        return Err(Refusal::NoText);
    }
    if worksheet < WORKSHEET {
        return Err(Refusal::ShortWorksheet);
    }
    if row != scheme.length() {
        return Err(Refusal::WrongLength);
    }
    if reading.pieces() != scheme.length() {
        return Err(Refusal::WrongCount);
    }
    Ok(())
}

/// The door of a label: the number that its first places are.
fn door_number<A: Arithmetic>(scheme: &Scheme<A>, label: &[u32]) -> u32
    requires long { length label.now ≡ scheme.now.n }
    requires codes { Codes (A.Arithmetic.meaning scheme.now.arithmetic) label.now }
    ensures { result ≡ door_of (A.Arithmetic.meaning scheme.now.arithmetic).size scheme.now.k label.now }
{
    let q = scheme.arithmetic().size();
    label[..scheme.door_characters()].iter().fold(
        0u32,
        |door, code| door.wrapping_mul(q).wrapping_add(*code),
    )
}

/// Whether every number of a row is `zero`.
fn all_equal(row: &[u32], zero: u32) -> bool
    ensures { MatchBool result ((t : ℕ) → t < length row.now → at row.now t ≡ zero) ((t : ℕ) × (t < length row.now) × (at row.now t ≢ zero)) }
{
    row.iter().all(|x| *x == zero)
}

impl<'a, A: Arithmetic> Sums<'a, A> {
    /// Corrects the row of codes whose power sums these are, by the smudges of cells: where a label is within reach, the row is
    /// then this label.
    fn correct(&self, cells: &Cells<'_, A>, row: &mut [u32], work: &mut [u32])
        requires lengths { (length self.now.points.now ≡ cells.now.scheme.now.n) × (length row.old ≡ length self.now.points.now) × (500 ≤ length work.old) }
        requires few { cells.now.count ≤ length self.now.sums.now }
        requires codes { Codes (A.Arithmetic.meaning self.now.arithmetic.now) row.old }
        requires sums { PowerSums (A.Arithmetic.meaning self.now.arithmetic.now) row.old self.now.sums.now }
        ensures { Different (A.Arithmetic.meaning self.now.arithmetic.now) (length self.now.points.now) → (label : List ℕ) → Near (A.Arithmetic.meaning self.now.arithmetic.now) (length self.now.sums.now) row.old cells.now.smudges.now label → row.new ≡ label }
    {
        let (suspects, rest) = work.split_at_mut(self.points.len());
        let (left, rest) = rest.split_at_mut(self.sums.len());
        self.find_suspects(cells, suspects, rest);
        self.fill(suspects, row, left);
    }
}

impl<'a, A: Arithmetic> Cells<'a, A> {
    /// Finds the label within reach of the cells, in a row; the answer is its v.
    fn find(&self, row: &mut [u32], work: &mut [u32]) -> Option<u32>
        requires { (length row.old ≡ self.now.scheme.now.n) × (700 ≤ length work.old) }
        ensures { MatchOption result ((label : List ℕ) → Near (A.Arithmetic.meaning self.now.scheme.now.arithmetic) (self.now.scheme.now.n - self.now.scheme.now.k) self.now.codes.now self.now.smudges.now label → ⊥) (λ v. (v ≡ count_of self.now.scheme.now.n (wrong self.now.codes.now self.now.smudges.now row.new)) × Near (A.Arithmetic.meaning self.now.scheme.now.arithmetic) (self.now.scheme.now.n - self.now.scheme.now.k) self.now.codes.now self.now.smudges.now row.new) }
    {
        let arithmetic = self.scheme.arithmetic();
        let r = self.scheme.check_characters();
        let count = self.count as usize;
        if count > r {
            return None;
        }
        let (points, rest) = work.split_at_mut(self.codes.len());
        let (sums, rest) = rest.split_at_mut(r);
        let sums = Sums::write(arithmetic, self.codes, points, sums);
        row.copy_from_slice(self.codes);
        if count == 0 && all_equal(sums.sums, arithmetic.zero()) {
            return Some(0);
        }
        sums.correct(self, row, rest);
        if !self.scheme.is_label(row) {
            return None;
        }
        let wrong = self.count_wrong(row);
        (2 * wrong as usize + count <= r).then_some(wrong)
    }
}

/// Reads a label, with its working rows in the worksheet.
fn read_by<A: Arithmetic, R: Reading>(
    scheme: &Scheme<A>,
    reading: &R,
    worksheet: &mut [u32],
    row: &mut [u32],
) -> Result<Found, Refusal>
    ensures answers { MatchResult result (λ f. WellFormed (A.Arithmetic.meaning scheme.now.arithmetic).size scheme.now.n (R.Reading.shown reading.now) (length worksheet.old) (length row.old) × Reads (A.Arithmetic.meaning scheme.now.arithmetic) scheme.now.n scheme.now.k (R.Reading.shown reading.now) row.new f) (NotRead (A.Arithmetic.meaning scheme.now.arithmetic) scheme.now.n scheme.now.k (R.Reading.shown reading.now) (length worksheet.old) (length row.old)) }
    ensures unchanged { OnErr result (row.new ≡ row.old) }
{
    take(scheme, reading, worksheet.len(), row.len())?;
    let (codes, rest) = worksheet.split_at_mut(scheme.length());
    let (smudges, rest) = rest.split_at_mut(scheme.length());
    let (label, work) = rest.split_at_mut(scheme.length());
    let cells = Cells::open(scheme, reading, codes, smudges)?;
    let misread = cells.find(label, work).ok_or(Refusal::NoLabel)?;
    row.copy_from_slice(label);
    Ok(Found {
        door: door_number(scheme, label),
        misread,
        smudges: cells.count,
    })
}

/// Reads a label: the answer is the door, v and s of the label within reach, whose codes are written into `row`.
///
/// Refused by 11 where text is read and the arithmetic has more than 64 elements, then by 12 where the worksheet has fewer than
/// 1,024 numbers, then by 13 where `row` is not as long as a label, then by 14 where the reading is not, then by 15 at the first
/// place whose piece is neither a code nor a smudge, then by 16 where no label is within reach; then `row` is as it was. Every
/// number of the worksheet is 0 afterwards. What worksheet and `row` held has no bearing on the answer.
///
/// A label that was printed, as codes or as text, and is read back clean is its door with v = 0 and s = 0.
pub fn read<A: Arithmetic, R: Reading>(
    scheme: &Scheme<A>,
    reading: &R,
    worksheet: &mut [u32],
    row: &mut [u32],
) -> Result<Found, Refusal>
    ensures answers { MatchResult result (λ f. WellFormed (A.Arithmetic.meaning scheme.now.arithmetic).size scheme.now.n (R.Reading.shown reading.now) (length worksheet.old) (length row.old) × Reads (A.Arithmetic.meaning scheme.now.arithmetic) scheme.now.n scheme.now.k (R.Reading.shown reading.now) row.new f) (NotRead (A.Arithmetic.meaning scheme.now.arithmetic) scheme.now.n scheme.now.k (R.Reading.shown reading.now) (length worksheet.old) (length row.old)) }
    ensures unchanged { OnErr result (row.new ≡ row.old) }
    ensures zero { Zero worksheet.new }
    ensures printed { ReadBack (A.Arithmetic.meaning scheme.now.arithmetic) scheme.now.n scheme.now.k (R.Reading.shown reading.now) (length worksheet.old) (length row.old) result row.new }
{
    let guard = Guard(worksheet);
    read_by(scheme, reading, guard.0, row)
}
