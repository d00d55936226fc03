// The errors at the suspect places of a reading, from its power sums.
ghost use Rattle.std.specs.Prelude.{◌≡◌, ◌<◌, length};
ghost use Rattle.algebra.specs.Counts.{count};
ghost use Rattle.algebra.specs.Points.{other};
ghost use Rattle.arithmetic.specs.Meaning.{Codes};
ghost use Rattle.reading.specs.Working.{ErrorAt, Filled, Removed, at, divisor, marked, remains};

use crate::points::{Sums, fold_in};
use arithmetic::Arithmetic;

/// a - b
fn difference<A: Arithmetic>(arithmetic: &A, a: u32, b: u32) -> u32
    requires { (a < (A.Arithmetic.meaning arithmetic.now).size) × (b < (A.Arithmetic.meaning arithmetic.now).size) }
    ensures value { result ≡ (A.Arithmetic.meaning arithmetic.now).codes.sum a ((A.Arithmetic.meaning arithmetic.now).codes.neg b) }
    ensures code { result < (A.Arithmetic.meaning arithmetic.now).size }
{
    let negative = arithmetic.negative(b).unwrap();
    arithmetic.sum(a, negative).unwrap()
}

/// Removes a point from power sums: each but the last becomes the one behind it less `x` times itself.
fn remove<A: Arithmetic>(arithmetic: &A, x: u32, sums: &mut [u32])
    requires some { 0 < length sums.old }
    requires code { x < (A.Arithmetic.meaning arithmetic.now).size }
    requires codes { Codes (A.Arithmetic.meaning arithmetic.now) sums.old }
    ensures removed { Removed (A.Arithmetic.meaning arithmetic.now) x sums.old sums.new }
    ensures codes { Codes (A.Arithmetic.meaning arithmetic.now) sums.new }
{
    fold_in(arithmetic, x, sums);
    sums.rotate_left(1);
}

/// Whether place `l` is suspect and is not `place`.
fn is_other(suspects: &[u32], place: usize, l: usize) -> bool
    requires { l < length suspects.now }
    ensures { result ≡ other (marked suspects.now) place l }
{
    suspects[l] != 0 && l != place
}

// The suspects and the row for what is left stay parameters: a struct of both would be made for one call of `fill`.
impl<'a, A: Arithmetic> Sums<'a, A> {
    /// Writes into a row what is left of the power sums when every suspect but `place` is removed. The answer is the product of
    /// the differences of its point from theirs, times its point.
    fn remove_others(&self, suspects: &[u32], place: usize, left: &mut [u32]) -> u32
        requires { (place < length self.now.points.now) × (length suspects.now ≡ length self.now.points.now) × (length left.old ≡ length self.now.sums.now) }
        ensures value { result ≡ divisor (A.Arithmetic.meaning self.now.arithmetic.now) self.now.points.now suspects.now place }
        ensures code { result < (A.Arithmetic.meaning self.now.arithmetic.now).size }
        ensures remains { count (length self.now.points.now) (other (marked suspects.now) place) < length self.now.sums.now → at left.new 0 ≡ remains (A.Arithmetic.meaning self.now.arithmetic.now) self.now.points.now suspects.now self.now.sums.now place }
        ensures codes { Codes (A.Arithmetic.meaning self.now.arithmetic.now) left.new }
    {
        left.copy_from_slice(self.sums);
        let x = self.points[place];
        let mut product = self.arithmetic.one();
        // By place, since whether a suspect is another one is asked of two places.
        for (l, point) in self.points.iter().enumerate() {
            if is_other(suspects, place, l) {
                remove(self.arithmetic, *point, left);
                let factor = difference(self.arithmetic, x, *point);
                product = self.arithmetic.product(product, factor).unwrap();
            }
        }
        self.arithmetic.product(product, x).unwrap()
    }

    /// The error at a suspect place, where there are not more suspects than power sums; `left` is a row of as many places.
    fn error_at(&self, suspects: &[u32], place: usize, left: &mut [u32]) -> u32
        requires { (place < length self.now.points.now) × (length suspects.now ≡ length self.now.points.now) × (length left.old ≡ length self.now.sums.now) }
        ensures value { ErrorAt (A.Arithmetic.meaning self.now.arithmetic.now) self.now.points.now suspects.now self.now.sums.now place result }
        ensures code { result < (A.Arithmetic.meaning self.now.arithmetic.now).size }
    {
        let divisor = self.remove_others(suspects, place, left);
        self.arithmetic
            .inverse(divisor)
            .and_then(|inverse| self.arithmetic.product(left[0], inverse))
            .unwrap_or(self.arithmetic.zero())
    }

    /// Takes the error at each suspect place from a row; `left` is a row of as many places as there are power sums.
    pub(crate) fn fill(&self, suspects: &[u32], row: &mut [u32], left: &mut [u32])
        requires lengths { (length row.old ≡ length self.now.points.now) × (length suspects.now ≡ length self.now.points.now) × (length left.old ≡ length self.now.sums.now) }
        requires codes { Codes (A.Arithmetic.meaning self.now.arithmetic.now) row.old }
        ensures filled { Filled (A.Arithmetic.meaning self.now.arithmetic.now) self.now.points.now suspects.now self.now.sums.now row.old row.new }
    {
        // The suspects go by index: of what a zip with `iter_mut` writes nothing is known.
        for (p, code) in row.iter_mut().enumerate() {
            if suspects[p] != 0 {
                let error = self.error_at(suspects, p, left);
                *code = difference(self.arithmetic, *code, error);
            }
        }
    }
}
