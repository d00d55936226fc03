// Whether powers of the step are all different.
ghost use Rattle.std.specs.Prelude.{◌≡◌, ℕ, ◌<◌, ◌≤◌, length, MatchBool, ◌≢◌, slice_index};
ghost use Rattle.label.specs.Labels.{Different};

use arithmetic::{Arithmetic, write_powers};

/// Whether the numbers in a row are all different.
fn all_different(row: &[u32]) -> bool
    ensures { MatchBool result ((i j : ℕ) → i < j → j < length row.now → slice_index row.now i ≢ slice_index row.now j) ((i : ℕ) × (j : ℕ) × (i < j) × (j < length row.now) × (slice_index row.now i ≡ slice_index row.now j)) }
{
    // As a chain by `all` it got no proof: what the chain answers stays open, though its closure is proved.
    for (j, x) in row.iter().enumerate() {
        if row[0..j].contains(x) {
            return false;
        }
    }
    true
}

/// Whether the first `n` powers of the step are all different.
pub(crate) fn powers_differ<A: Arithmetic>(arithmetic: &A, n: usize) -> bool
    requires { n ≤ 64 }
    ensures { MatchBool result (Different (A.Arithmetic.meaning arithmetic.now) n) (Different (A.Arithmetic.meaning arithmetic.now) n → ⊥) }
{
    // An array, since nothing is allocated; an ArrayVec made of it and cut to length would be no plainer than its first places.
    let mut powers = [0u32; 64];
    let powers = &mut powers[0..n];
    write_powers(arithmetic, powers);
    all_different(powers)
}
