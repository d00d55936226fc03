// The points of the places of a label, and power sums.
ghost use Rattle.std.specs.Prelude.{◌≡◌, ℕ, ◌<◌, length};
ghost use Rattle.algebra.specs.Polynomials.{less as less_at};
ghost use Rattle.arithmetic.specs.Meaning.{Codes};
ghost use Rattle.reading.specs.Working.{Points, PowerSums, at};

use arithmetic::{Arithmetic, evaluate, less, write_powers};

/// Power sums, fewer than a label has places, and the points of these places: the powers of the step, the power 0 last.
#[derive(Drop)]
pub(crate) struct Sums<'a, A: Arithmetic> {
    pub(crate) arithmetic: &'a A,
    pub(crate) points: &'a [u32],
    pub(crate) sums: &'a [u32],
    ghost lengths: { (0 < length sums.now) × (length sums.now < length points.now) },
    ghost powers: { Points (A.Arithmetic.meaning arithmetic.now) points.now },
    ghost point_codes: { Codes (A.Arithmetic.meaning arithmetic.now) points.now },
    ghost sum_codes: { Codes (A.Arithmetic.meaning arithmetic.now) sums.now },
}

/// Writes the points of the places into a row.
fn write_points<A: Arithmetic>(arithmetic: &A, points: &mut [u32])
    ensures points { Points (A.Arithmetic.meaning arithmetic.now) points.new }
    ensures codes { Codes (A.Arithmetic.meaning arithmetic.now) points.new }
{
    write_powers(arithmetic, points);
    points.reverse();
}

/// Writes the power sums of a row of codes, whose places have these points, into another.
fn write_power_sums<A: Arithmetic>(arithmetic: &A, points: &[u32], row: &[u32], sums: &mut [u32])
    requires lengths { (length points.now ≡ length row.now) × (length sums.old < length row.now) }
    requires points { Points (A.Arithmetic.meaning arithmetic.now) points.now }
    requires point_codes { Codes (A.Arithmetic.meaning arithmetic.now) points.now }
    requires codes { Codes (A.Arithmetic.meaning arithmetic.now) row.now }
    ensures sums { PowerSums (A.Arithmetic.meaning arithmetic.now) row.now sums.new }
    ensures codes { Codes (A.Arithmetic.meaning arithmetic.now) sums.new }
{
    // The points go by index: of what a zip with `iter_mut` writes nothing is known.
    for (t, sum) in sums.iter_mut().enumerate() {
        let point = points[points.len() - 2 - t];
        *sum = evaluate(arithmetic, row, point).unwrap();
    }
}

impl<'a, A: Arithmetic> Sums<'a, A> {
    /// Writes the points of the places of a row of codes, and its power sums, into two rows.
    pub(crate) fn write(
        arithmetic: &'a A,
        row: &[u32],
        points: &'a mut [u32],
        sums: &'a mut [u32],
    ) -> Sums<'a, A>
        requires lengths { (length points.old ≡ length row.now) × (0 < length sums.old) × (length sums.old < length row.now) }
        requires codes { Codes (A.Arithmetic.meaning arithmetic.now) row.now }
        ensures same { result.arithmetic.now ≡ arithmetic.now }
        ensures lengths { (length result.points.now ≡ length points.old) × (length result.sums.now ≡ length sums.old) }
        ensures sums { PowerSums (A.Arithmetic.meaning arithmetic.now) row.now result.sums.now }
    {
        write_points(arithmetic, points);
        write_power_sums(arithmetic, points, row, sums);
        Sums {
            arithmetic,
            points,
            sums,
        }
    }
}

/// Folds one point into power sums: each loses `x` times the one before it, and the first `x` times zero.
pub(crate) fn fold_in<A: Arithmetic>(arithmetic: &A, x: u32, sums: &mut [u32])
    requires code { x < (A.Arithmetic.meaning arithmetic.now).size }
    requires codes { Codes (A.Arithmetic.meaning arithmetic.now) sums.old }
    ensures folded { (t : ℕ) → t < length sums.old → at sums.new t ≡ less_at (A.Arithmetic.meaning arithmetic.now).codes (at sums.old) x 1 (at sums.old) t }
    ensures codes { Codes (A.Arithmetic.meaning arithmetic.now) sums.new }
{
    let mut before = arithmetic.zero();
    for sum in sums.iter_mut() {
        let folded = less(arithmetic, *sum, x, before).unwrap();
        before = std::mem::replace(sum, folded);
    }
}
