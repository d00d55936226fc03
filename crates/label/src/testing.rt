// Testing whether a row is a label.
ghost use Rattle.std.specs.Prelude.{◌≡◌, ℕ, ◌-◌, ◌≤◌, length, MatchBool, ◌≢◌};
ghost use Rattle.arithmetic.specs.Meaning.{Codes};
ghost use Rattle.label.specs.Labels.{Label, power_sum};

use crate::scheme::Scheme;
use arithmetic::{Arithmetic, all_codes, evaluate};
use std::iter;

/// Whether the power sums 1 to `r` of a row of codes are zero.
fn sums_vanish<A: Arithmetic>(arithmetic: &A, row: &[u32], r: usize) -> bool
    requires codes { Codes (A.Arithmetic.meaning arithmetic.now) row.now }
    ensures { MatchBool result ((j : ℕ) → 1 ≤ j → j ≤ r → power_sum (A.Arithmetic.meaning arithmetic.now) (length row.now) row.now j ≡ (A.Arithmetic.meaning arithmetic.now).codes.zero) ((j : ℕ) × (1 ≤ j) × (j ≤ r) × (power_sum (A.Arithmetic.meaning arithmetic.now) (length row.now) row.now j ≢ (A.Arithmetic.meaning arithmetic.now).codes.zero)) }
{
    let zero = arithmetic.zero();
    let step = arithmetic.step();
    // `ok`, since a closure is proved for every number that it may be handed; the powers are codes, of which none is refused.
    iter::successors(Some(step), |power| arithmetic.product(step, *power).ok())
        .take(r)
        .all(|power| evaluate(arithmetic, row, power).is_ok_and(|sum| sum == zero))
}

impl<A: Arithmetic> Scheme<A> {
    /// Whether a row is a label of the scheme.
    pub fn is_label(&self, row: &[u32]) -> bool
        ensures { MatchBool result (Label (A.Arithmetic.meaning self.now.arithmetic) self.now.n (self.now.n - self.now.k) row.now) (Label (A.Arithmetic.meaning self.now.arithmetic) self.now.n (self.now.n - self.now.k) row.now → ⊥) }
    {
        row.len() == self.n
            && all_codes(&self.arithmetic, row)
            && sums_vanish(&self.arithmetic, row, self.n - self.k)
    }
}
