// The iteration on two pairs of polynomials, for coefficients of any arithmetic.
ghost use Rattle.std.specs.Prelude.{◌≡◌, ℕ, ◌+◌, ◌-◌, ◌^◌, ◌<◌, ◌≤◌, length, MatchBool, MatchResult, OnErr, ◌≢◌, slice_index};
ghost use Rattle.algebra.specs.Iteration.{begun};
ghost use Rattle.algebra.specs.Polynomials.{nothing, power, terms as terms_of};
ghost use Rattle.arithmetic.specs.Meaning.{Codes};
ghost use Rattle.arithmetic.specs.Rows.{Fitting, Held, Holds, Iterated, Lengths, NotIterated, Once, less_at, polynomial_of};

use crate::interface::Arithmetic;
use crate::refusal::Refusal;
use crate::values::less;

/// Whether each number of a row is a code.
pub fn all_codes<A: Arithmetic>(arithmetic: &A, row: &[u32]) -> bool
    ensures { MatchBool result (Codes (A.Arithmetic.meaning arithmetic.now) row.now) (Codes (A.Arithmetic.meaning arithmetic.now) row.now → ⊥) }
{
    row.iter().all(|a| *a < arithmetic.size())
}

/// One more than the degree of the polynomial in a row, and 0 for the zero polynomial.
fn terms<A: Arithmetic>(arithmetic: &A, row: &[u32]) -> usize
    ensures { result ≡ terms_of (A.Arithmetic.meaning arithmetic.now).codes (length row.now) (polynomial_of row.now) }
{
    let zero = arithmetic.zero();
    row.iter().rposition(|a| *a != zero).map_or(0, |i| i + 1)
}

// Six parameters, of which no two travel together: the rows are of one pair each, the numbers of one step.
/// Takes c z^d times the first `n` terms of the polynomial in `small` from that in `big`.
fn subtract<A: Arithmetic>(
    arithmetic: &A,
    big: &mut [u32],
    small: &[u32],
    n: usize,
    c: u32,
    d: usize,
)
    requires within { n ≤ length small.now }
    requires fits { d + n ≤ length big.old }
    requires code { c < (A.Arithmetic.meaning arithmetic.now).size }
    requires big_codes { Codes (A.Arithmetic.meaning arithmetic.now) big.old }
    requires small_codes { Codes (A.Arithmetic.meaning arithmetic.now) small.now }
    ensures { (t : ℕ) → slice_index big.new t ≡ less_at (A.Arithmetic.meaning arithmetic.now).codes big.old small.now n c d t }
{
    // A zip with `small` got no proof: behind one, nothing is known of the elements that are written.
    for (i, a) in big[d..d + n].iter_mut().enumerate() {
        *a = less(arithmetic, *a, c, small[i]).unwrap();
    }
}

/// Exchanges the polynomials in two rows, where both fit into the shorter one, `small`.
fn exchange(big: &mut [u32], small: &mut [u32])
    requires { length small.old ≤ length big.old }
    ensures places { (t : ℕ) → t < length small.old → (slice_index big.new t ≡ slice_index small.old t) × (slice_index small.new t ≡ slice_index big.old t) }
    ensures rest { (t : ℕ) → length small.old ≤ t → slice_index big.new t ≡ slice_index big.old t }
{
    let n = small.len();
    big[0..n].swap_with_slice(small);
}

/// The quotient of two codes, of which the second is not zero.
fn quotient<A: Arithmetic>(arithmetic: &A, a: u32, b: u32) -> u32
    requires codes { (a < (A.Arithmetic.meaning arithmetic.now).size) × (b < (A.Arithmetic.meaning arithmetic.now).size) }
    requires nonzero { b ≢ (A.Arithmetic.meaning arithmetic.now).codes.zero }
    ensures value { result ≡ (A.Arithmetic.meaning arithmetic.now).codes.prod a ((A.Arithmetic.meaning arithmetic.now).codes.inv b) }
    ensures code { result < (A.Arithmetic.meaning arithmetic.now).size }
{
    let inverse = arithmetic.inverse(b).unwrap();
    arithmetic.product(a, inverse).unwrap()
}

/// Where an iteration stands: how many iterations were made, and the terms of the big and the small remainder.
#[derive(Clone, Copy)]
struct Progress {
    count: u64,
    big: usize,
    small: usize,
}

impl Progress {
    /// Whether the degree of the small remainder exceeds `stop`.
    fn exceeds(self, stop: u32) -> bool
        ensures { MatchBool result (stop + 1 < self.small) (self.small ≤ stop + 1) }
    {
        self.small > stop as usize + 1
    }

    /// Whether a new remainder of `new` terms takes the place of the big one: its degree is not below the small one's.
    fn replaces(self, new: usize) -> bool
        ensures { MatchBool result (self.small ≤ new) (new < self.small) }
    {
        new >= self.small
    }

    /// After one iteration more, whose new remainder has `new` terms: it takes the place of the big one, or else the small
    /// one becomes the big one, and the new one the small one.
    fn advanced(self, new: usize) -> Progress
        requires { self.count < 2 ^ 34 }
        ensures count { result.count ≡ self.count + 1 }
        ensures replaced { self.small ≤ new → (result.big ≡ new) × (result.small ≡ self.small) }
        ensures exchanged { new < self.small → (result.big ≡ self.small) × (result.small ≡ new) }
    {
        let count = self.count + 1;
        if self.replaces(new) {
            Progress {
                count,
                big: new,
                small: self.small,
            }
        } else {
            Progress {
                count,
                big: self.small,
                small: new,
            }
        }
    }
}

// A struct of the four rows, here and below, would be no plainer: each function would reborrow them and promise to keep them.
/// One iteration on the pairs in the rows.
fn iterate_once<A: Arithmetic>(
    arithmetic: &A,
    big: &mut [u32],
    big_multiplier: &mut [u32],
    small: &mut [u32],
    small_multiplier: &mut [u32],
    progress: Progress,
) -> Progress
    requires lengths { (length big.old ≡ length small.old + 1) × (length big_multiplier.old ≡ length small_multiplier.old) }
    requires degrees { (0 < progress.small) × (progress.small ≤ progress.big) × (progress.big ≤ length big.old) × (progress.small ≤ length small.old) × (progress.big - progress.small < length small_multiplier.old) × (progress.count < 2 ^ 34) }
    requires codes { (Codes (A.Arithmetic.meaning arithmetic.now) big.old) × (Codes (A.Arithmetic.meaning arithmetic.now) big_multiplier.old) × (Codes (A.Arithmetic.meaning arithmetic.now) small.old) × (Codes (A.Arithmetic.meaning arithmetic.now) small_multiplier.old) }
    requires leads { slice_index small.old (progress.small - 1) ≢ (A.Arithmetic.meaning arithmetic.now).codes.zero }
    ensures once { Once (A.Arithmetic.meaning arithmetic.now).codes (length small.old) (length small_multiplier.old) progress.big progress.small big.old big_multiplier.old small.old small_multiplier.old big.new big_multiplier.new small.new small_multiplier.new result.big result.small }
    ensures count { result.count ≡ progress.count + 1 }
{
    let c = quotient(arithmetic, big[progress.big - 1], small[progress.small - 1]);
    let d = progress.big - progress.small;
    subtract(arithmetic, big, small, progress.small, c, d);
    let places = small_multiplier.len() - d;
    subtract(arithmetic, big_multiplier, small_multiplier, places, c, d);
    let new = terms(arithmetic, big);
    let next = progress.advanced(new);
    if progress.replaces(new) {
        return next;
    }
    exchange(big, small);
    exchange(big_multiplier, small_multiplier);
    next
}

/// Writes the polynomials that the iteration from z^n starts with, but for the small remainder: z^n, 0 and 1.
fn begin<A: Arithmetic>(
    arithmetic: &A,
    n: usize,
    big: &mut [u32],
    big_multiplier: &mut [u32],
    small_multiplier: &mut [u32],
)
    requires { (length big.old ≡ n + 1) × (0 < length small_multiplier.old) }
    ensures big { Holds (A.Arithmetic.meaning arithmetic.now).codes big.new (power (A.Arithmetic.meaning arithmetic.now).codes n) }
    ensures big_multiplier { Holds (A.Arithmetic.meaning arithmetic.now).codes big_multiplier.new (nothing (A.Arithmetic.meaning arithmetic.now).codes) }
    ensures small_multiplier { Holds (A.Arithmetic.meaning arithmetic.now).codes small_multiplier.new (power (A.Arithmetic.meaning arithmetic.now).codes 0) }
{
    let zero = arithmetic.zero();
    let one = arithmetic.one();
    big.fill(zero);
    big[n] = one;
    big_multiplier.fill(zero);
    small_multiplier.fill(zero);
    small_multiplier[0] = one;
}

/// Iterates on the pairs that the rows begin with while the small remainder's degree exceeds `stop`; the answer is the count.
fn run<A: Arithmetic>(
    arithmetic: &A,
    stop: u32,
    big: &mut [u32],
    big_multiplier: &mut [u32],
    small: &mut [u32],
    small_multiplier: &mut [u32],
) -> u64
    requires short { length small.old < 2 ^ 32 }
    requires fitting { Fitting (length small.old) stop big.old big_multiplier.old small.old small_multiplier.old }
    requires codes { Codes (A.Arithmetic.meaning arithmetic.now) small.old }
    requires begun { Held (A.Arithmetic.meaning arithmetic.now).codes (begun (A.Arithmetic.meaning arithmetic.now).codes (length small.old) (polynomial_of small.old)) big.old big_multiplier.old small.old small_multiplier.old }
    ensures { Iterated (A.Arithmetic.meaning arithmetic.now) (length small.old) stop (polynomial_of small.old) result big.new big_multiplier.new small.new small_multiplier.new }
{
    let mut progress = Progress {
        count: 0,
        big: big.len(),
        small: terms(arithmetic, small),
    };
    // No place is counted: the loop goes on while a degree exceeds another.
    while progress.exceeds(stop) {
        progress = iterate_once(
            arithmetic,
            big,
            big_multiplier,
            small,
            small_multiplier,
            progress,
        );
    }
    progress.count
}

/// Whether rows of these lengths are those that the degrees ask for.
fn fitting(
    start: u32,
    stop: u32,
    big: usize,
    big_multiplier: usize,
    small: usize,
    small_multiplier: usize,
) -> bool
    ensures { MatchBool result (Lengths start stop big big_multiplier small small_multiplier) (Lengths start stop big big_multiplier small small_multiplier → ⊥) }
{
    let width = start.saturating_sub(1).saturating_sub(stop) as usize + 1;
    big == start as usize + 1
        && big_multiplier == width
        && small == start as usize
        && small_multiplier == width
}

/// The iteration on two pairs of polynomials, from z^`start` with 0 and the polynomial in `small` with 1.
///
/// While the degree of the small remainder exceeds `stop`, one iteration takes c z^d times the small pair from the big
/// pair, d the difference of the remainders' degrees and c the quotient of their leading coefficients. The new pair takes
/// the place of the big one, or, where its remainder's degree is below the small one's, that of the small one, which
/// becomes the big one. The answer is the number of iterations, and the rows hold the pairs after them.
///
/// Refused by 3 where a number in `small` is no code, then by 13 unless `big` has `start` + 1 places, `small` has `start`,
/// and each multiplier has `start` - `stop` and at least 1; then the rows are as they were. What the other rows held has
/// no bearing.
pub fn iterate<A: Arithmetic>(
    arithmetic: &A,
    start: u32,
    stop: u32,
    big: &mut [u32],
    big_multiplier: &mut [u32],
    small: &mut [u32],
    small_multiplier: &mut [u32],
) -> Result<u64, Refusal>
    ensures answers { MatchResult result (λ k. Codes (A.Arithmetic.meaning arithmetic.now) small.old × Fitting start stop big.old big_multiplier.old small.old small_multiplier.old × Iterated (A.Arithmetic.meaning arithmetic.now) start stop (polynomial_of small.old) k big.new big_multiplier.new small.new small_multiplier.new) (NotIterated (A.Arithmetic.meaning arithmetic.now) start stop big.old big_multiplier.old small.old small_multiplier.old) }
    ensures unchanged { OnErr result ((big.new ≡ big.old) × (big_multiplier.new ≡ big_multiplier.old) × (small.new ≡ small.old) × (small_multiplier.new ≡ small_multiplier.old)) }
{
    // The rows are handed in one by one, as docs/DECISIONS.md says of the form of the iteration.
    if !all_codes(arithmetic, small) {
        return Err(Refusal::NotACode);
    }
    if !fitting(
        start,
        stop,
        big.len(),
        big_multiplier.len(),
        small.len(),
        small_multiplier.len(),
    ) {
        return Err(Refusal::WrongLength);
    }
    begin(
        arithmetic,
        start as usize,
        big,
        big_multiplier,
        small_multiplier,
    );
    Ok(run(
        arithmetic,
        stop,
        big,
        big_multiplier,
        small,
        small_multiplier,
    ))
}
