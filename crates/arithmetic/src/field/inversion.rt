// Inversion in a binary field by its triangular and canonical bases.
ghost use Rattle.std.specs.Prelude.{◌≡◌, ◌+◌, ◌-◌, ◌*◌, ◌^◌, ◌<◌, ◌≤◌, length, MatchResult, ◌≢◌, slice_index};
ghost use Rattle.algebra.specs.Binary.{bit as bit_of, value};
ghost use Rattle.algebra.specs.Coordinates.{coordinates as coordinates_of, next, total};
ghost use Rattle.arithmetic.specs.Answers.{NoInverse};
ghost use Rattle.arithmetic.specs.Inverting.{Inverts};
ghost use Rattle.arithmetic.specs.Meaning.{Codes, field_of, residues};
ghost use Rattle.arithmetic.specs.Refusals.{Refused};
ghost use Rattle.arithmetic.specs.Rows.{Fitting, polynomial_of};

use crate::field::BinaryField;
use crate::interface::check_code;
use crate::iteration::iterate;
use crate::refusal::Refusal;
use crate::residues::Bits;

/// The bit i of a number.
fn bit(a: u32, i: u32) -> u32
    requires { i < 32 }
    ensures value { result ≡ bit_of a i }
    ensures bound { result < 2 }
{
    (a >> i) & 1
}

/// How many places i of a row of bits hold 1 where bit `from` + i of `f` is 1.
fn weighed(f: u32, from: u32, row: &[u32]) -> u32
    requires within { from + length row.now ≤ 32 }
    requires bits { Codes (residues 2 1) row.now }
    ensures bound { result ≤ length row.now }
    ensures value { result ≡ total (length row.now) (λ i. bit_of f (from + i) * slice_index row.now i) }
{
    row.iter()
        .enumerate()
        .map(|(i, b)| bit(f, from + i as u32) * b)
        .sum()
}

/// The number whose bits a row holds, the lowest first.
fn number(bits: &[u32]) -> u32
    requires few { length bits.now ≤ 16 }
    requires bits { Codes (residues 2 1) bits.now }
    ensures { result ≡ value (length bits.now) (polynomial_of bits.now) }
{
    bits.iter().enumerate().map(|(i, b)| b << i).sum()
}

/// An inverse, with the number of iterations that it took.
#[derive(Clone, Copy)]
pub struct Inverted {
    pub inverse: u32,
    pub iterations: u32,
}

impl BinaryField {
    /// The coordinate h_j of an element from those before it.
    fn coordinate(&self, a: u32, before: &[u32]) -> u32
        requires few { length before.now < 2 * self.now.degree }
        requires bits { Codes (residues 2 1) before.now }
        ensures { result ≡ next self.now.polynomial self.now.degree a (length before.now) before.now }
    {
        let m = self.degree as usize;
        let j = before.len();
        if j < m {
            (bit(a, (m - 1 - j) as u32) + weighed(self.polynomial, (m - j) as u32, before)) % 2
        } else {
            weighed(self.polynomial, 0, &before[j - m..]) % 2
        }
    }

    /// Writes the coordinates h_0, h_1, .. of an element into a row.
    fn coordinates(&self, a: u32, row: &mut [u32])
        requires { length row.old ≤ 2 * self.now.degree }
        ensures { row.new ≡ coordinates_of self.now.polynomial self.now.degree a (length row.old) }
    {
        // An iterator over the row would be no plainer: each coordinate comes of those before it in the same row.
        for j in 0..row.len() {
            row[j] = self.coordinate(a, &row[..j]);
        }
    }

    /// Writes the triangular coordinates of an element, as many as the field's degree, into a row.
    ///
    /// Refused by 3 where the element is no code, then by 13 where the row has another length; then the row is as it was.
    pub fn triangular(&self, a: u32, row: &mut [u32]) -> Result<(), Refusal>
        ensures { MatchResult result (λ _. (a < 2 ^ self.now.degree) × (length row.old ≡ self.now.degree) × (row.new ≡ coordinates_of self.now.polynomial self.now.degree a self.now.degree)) (λ e. (row.new ≡ row.old) × (2 ^ self.now.degree ≤ a → Refused e 3) × (a < 2 ^ self.now.degree → (length row.old ≢ self.now.degree) × Refused e 13)) }
    {
        check_code(a, self.codes())?;
        if row.len() != self.degree as usize {
            return Err(Refusal::WrongLength);
        }
        self.coordinates(a, row);
        Ok(())
    }

    // Four rows, as the iteration takes them.
    /// The inverse of a code that is not zero, in rows for the iteration.
    fn solve(
        &self,
        a: u32,
        big: &mut [u32],
        big_multiplier: &mut [u32],
        small: &mut [u32],
        small_multiplier: &mut [u32],
    ) -> Inverted
        requires code { (0 < a) × (a < 2 ^ self.now.degree) }
        requires fitting { Fitting (2 * self.now.degree - 1) (self.now.degree - 1) big.old big_multiplier.old small.old small_multiplier.old }
        ensures { Inverts self.now.polynomial self.now.degree a result.inverse result.iterations }
    {
        self.coordinates(a, small);
        small.reverse();
        let n = 2 * self.degree - 1;
        let iterations = iterate(
            &Bits,
            n,
            self.degree - 1,
            big,
            big_multiplier,
            small,
            small_multiplier,
        )
        .unwrap();
        Inverted {
            inverse: number(small_multiplier),
            iterations: iterations as u32,
        }
    }

    /// The inverse of a code, with the number of iterations that it took.
    ///
    /// Refused by 3 where the number is no code, then by 4 where it is 0.
    pub fn invert(&self, a: u32) -> Result<Inverted, Refusal>
        ensures { MatchResult result (λ v. (0 < a) × (a < 2 ^ self.now.degree) × Inverts self.now.polynomial self.now.degree a v.inverse v.iterations) (NoInverse (field_of self.now.polynomial self.now.degree) a) }
    {
        check_code(a, self.codes())?;
        if a == 0 {
            return Err(Refusal::InverseOfZero);
        }
        let m = self.degree as usize;
        // Arrays, since nothing is allocated, each as long as the largest degree asks for.
        let mut big = [0u32; 32];
        let mut big_multiplier = [0u32; 16];
        let mut small = [0u32; 31];
        let mut small_multiplier = [0u32; 16];
        Ok(self.solve(
            a,
            &mut big[0..2 * m],
            &mut big_multiplier[0..m],
            &mut small[0..2 * m - 1],
            &mut small_multiplier[0..m],
        ))
    }
}
