// A difference a - b c, the value of a polynomial, and the powers of the step, in any arithmetic.
ghost use Rattle.std.specs.Prelude.{◌≡◌, ℕ, ◌<◌, length, slice_index};
ghost use Rattle.algebra.specs.Polynomials.{pow};
ghost use Rattle.arithmetic.specs.Answers.{OfRow, OfThree};

use crate::interface::Arithmetic;
use crate::refusal::Refusal;

/// a - b c. Refused by 3 where one of the numbers is no code.
pub fn less<A: Arithmetic>(arithmetic: &A, a: u32, b: u32, c: u32) -> Result<u32, Refusal>
    ensures { OfThree (A.Arithmetic.meaning arithmetic.now) a b c ((A.Arithmetic.meaning arithmetic.now).codes.sum a ((A.Arithmetic.meaning arithmetic.now).codes.neg ((A.Arithmetic.meaning arithmetic.now).codes.prod b c))) result }
{
    let multiple = arithmetic.product(b, c)?;
    arithmetic.sum(a, arithmetic.negative(multiple)?)
}

/// The value at `x` of the polynomial whose coefficients a row holds, the highest first. Refused by 3 where a number in the
/// row is no code, or where `x` is none and the row is not empty.
pub fn evaluate<A: Arithmetic>(arithmetic: &A, row: &[u32], x: u32) -> Result<u32, Refusal>
    ensures { OfRow (A.Arithmetic.meaning arithmetic.now) row.now x result }
{
    let mut value = arithmetic.zero();
    // A try_fold would be no plainer: its closure has the same two calls, each with `?`.
    for c in row {
        value = arithmetic.sum(arithmetic.product(value, x)?, *c)?;
    }
    Ok(value)
}

/// Writes the powers of the step, from the power 0 on, into a row.
pub fn write_powers<A: Arithmetic>(arithmetic: &A, row: &mut [u32])
    ensures { (i : ℕ) → i < length row.old → (slice_index row.new i ≡ pow (A.Arithmetic.meaning arithmetic.now).codes (A.Arithmetic.meaning arithmetic.now).step i) × (slice_index row.new i < (A.Arithmetic.meaning arithmetic.now).size) }
{
    let step = arithmetic.step();
    let mut power = arithmetic.one();
    for x in row.iter_mut() {
        *x = power;
        power = arithmetic.product(step, power).unwrap();
    }
}
