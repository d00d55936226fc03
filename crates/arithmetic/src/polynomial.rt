// Polynomials with coefficients modulo 2, as numbers: bit i is the coefficient of z^i.
ghost use Rattle.std.specs.Prelude.{◌≡◌, ℕ, ◌<◌, MatchBool, MatchOption};
ghost use Rattle.algebra.specs.Binary.{Degree, Factor, NoFactor, remainder as remainder_of, times};

/// The degree of a polynomial; none for 0.
pub(crate) fn degree(a: u64) -> Option<u32>
    ensures { MatchOption result (a ≡ 0) (λ d. (d < 64) × Degree a d) }
{
    a.checked_ilog2()
}

/// The remainder of `a` by `b`, which is not 0.
pub(crate) fn remainder(a: u64, b: u64) -> u64
    requires { 0 < b }
    ensures { result ≡ remainder_of a b }
{
    let n = degree(b).unwrap();
    // The function calls itself on what is left, as docs/DECISIONS.md says of its form.
    match degree(a) {
        Some(m) if m >= n => remainder(a ^ (b << (m - n)), b),
        _ => a,
    }
}

/// The product of two polynomials.
pub(crate) fn product(a: u32, b: u32) -> u64
    ensures { result ≡ times a b }
{
    let mut sum: u64 = 0;
    // A filter with a fold is too slow: with it, readings over binary fields took more than twice the time.
    for i in 0..32u32 {
        if (b >> i) & 1 == 1 {
            sum ^= (a as u64) << i;
        }
    }
    sum
}

/// Whether `f`, of degree `m`, has a factor of a degree from 1 to `m` - 1.
///
/// The search goes degree by degree, pattern by pattern within a degree, and stops at the first that divides.
pub(crate) fn has_factor(f: u32, m: u32) -> bool
    requires { m < 32 }
    ensures { MatchBool result ((x : ℕ) × Factor f m x) (NoFactor f m) }
{
    // Two loops, which a factor leaves at once, as docs/DECISIONS.md says of the form of this search.
    let mut found = false;
    'search: for degree in 1..m {
        for pattern in 0..(1u32 << degree) {
            let divisor = (1u32 << degree) + pattern;
            if remainder(f as u64, divisor as u64) == 0 {
                found = true;
                break 'search;
            }
        }
    }
    found
}
