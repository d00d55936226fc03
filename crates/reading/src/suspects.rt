// The suspect places of a reading: its smudges, and the places where the small multiplier is zero.
ghost use Rattle.std.specs.Prelude.{◌≡◌, ℕ, ◌+◌, ◌*◌, ◌<◌, ◌≤◌, length, MatchBool, ◌≢◌};
ghost use Rattle.algebra.specs.Polynomials.{value_at};
ghost use Rattle.arithmetic.specs.Meaning.{Codes};
ghost use Rattle.reading.specs.Working.{Folded, Suspects, at, marked, suspect};

use crate::cells::Cells;
use crate::points::{Sums, fold_in};
use arithmetic::{Arithmetic, evaluate, iterate};

/// Whether a multiplier, the coefficients the highest first, is zero at a point.
fn vanishes<A: Arithmetic>(arithmetic: &A, multiplier: &[u32], x: u32) -> bool
    requires code { x < (A.Arithmetic.meaning arithmetic.now).size }
    requires codes { Codes (A.Arithmetic.meaning arithmetic.now) multiplier.now }
    ensures { MatchBool result (value_at (A.Arithmetic.meaning arithmetic.now).codes (length multiplier.now) (at multiplier.now) x ≡ (A.Arithmetic.meaning arithmetic.now).codes.zero) (value_at (A.Arithmetic.meaning arithmetic.now).codes (length multiplier.now) (at multiplier.now) x ≢ (A.Arithmetic.meaning arithmetic.now).codes.zero) }
{
    evaluate(arithmetic, multiplier, x).unwrap() == arithmetic.zero()
}

/// Where the iteration stops: the largest whole number below (r + s) / 2, r the number of power sums and s that of smudges.
fn stop_at(r: usize, s: usize) -> usize
    requires { (0 < r) × (r ≤ 64) × (s ≤ 64) }
    ensures { (2 * result < r + s) × (r + s ≤ 2 * result + 2) }
{
    (r + s - 1) / 2
}

impl<'a, A: Arithmetic> Sums<'a, A> {
    /// Writes the power sums into a row, with the point of each smudge folded in.
    fn fold(&self, smudges: &[u32], folded: &mut [u32])
        requires { (length smudges.now ≡ length self.now.points.now) × (length folded.old ≡ length self.now.sums.now) }
        ensures folded { Folded (A.Arithmetic.meaning self.now.arithmetic.now) self.now.points.now smudges.now self.now.sums.now folded.new }
        ensures codes { Codes (A.Arithmetic.meaning self.now.arithmetic.now) folded.new }
    {
        folded.copy_from_slice(self.sums);
        for (point, smudge) in self.points.iter().zip(smudges) {
            if *smudge != 0 {
                fold_in(self.arithmetic, *point, folded);
            }
        }
    }

    /// Marks the smudges and the places where a multiplier is zero.
    fn mark(&self, smudges: &[u32], multiplier: &[u32], suspects: &mut [u32])
        requires lengths { (length smudges.now ≡ length self.now.points.now) × (length suspects.old ≡ length self.now.points.now) }
        requires codes { Codes (A.Arithmetic.meaning self.now.arithmetic.now) multiplier.now }
        ensures { (p : ℕ) → p < length self.now.points.now → marked suspects.new p ≡ suspect (A.Arithmetic.meaning self.now.arithmetic.now) self.now.points.now smudges.now multiplier.now p }
    {
        // The other rows go by index: of what a zip with `iter_mut` writes nothing is known.
        for (p, suspect) in suspects.iter_mut().enumerate() {
            let is_suspect = smudges[p] != 0
                || vanishes(self.arithmetic, multiplier, self.points[p]);
            // A mark is a number, as the worksheet is one slice of them.
            *suspect = u32::from(is_suspect);
        }
    }

    /// Marks the suspect places of cells, at most as many as power sums.
    pub(crate) fn find_suspects(&self, cells: &Cells<'_, A>, suspects: &mut [u32], work: &mut [u32])
        requires lengths { (length self.now.points.now ≡ cells.now.scheme.now.n) × (length suspects.old ≡ length self.now.points.now) × (300 ≤ length work.old) }
        requires few { cells.now.count ≤ length self.now.sums.now }
        ensures { Suspects (A.Arithmetic.meaning self.now.arithmetic.now) cells.now.smudges.now self.now.sums.now suspects.new }
    {
        let r = self.sums.len();
        let stop = stop_at(r, cells.count as usize);
        let (folded, rest) = work.split_at_mut(r);
        let (big, rest) = rest.split_at_mut(r + 1);
        let (big_multiplier, rest) = rest.split_at_mut(r - stop);
        let (multiplier, _) = rest.split_at_mut(r - stop);
        self.fold(cells.smudges, folded);
        iterate(
            self.arithmetic,
            r as u32,
            stop as u32,
            big,
            big_multiplier,
            folded,
            multiplier,
        )
        .unwrap();
        self.mark(cells.smudges, multiplier, suspects);
    }
}
