// Printing a door's label.
ghost use Rattle.std.specs.Prelude.{◌≡◌, ℕ, ◌+◌, ◌-◌, ◌^◌, ◌<◌, ◌≤◌, List, length, MatchResult, slice_index};
ghost use Rattle.algebra.specs.Generators.{generator as generator_of, register};
ghost use Rattle.algebra.specs.Polynomials.{delay};
ghost use Rattle.arithmetic.specs.Meaning.{Codes};
ghost use Rattle.label.specs.Labels.{Label, LabelOf, Spelled, character as character_of, digit, door as door_of};
ghost use Rattle.label.specs.Schemes.{NotPrinted, NotTyped};

use crate::refusal::Refusal;
use crate::scheme::Scheme;
use arithmetic::{Arithmetic, less};
use std::mem;

/// Writes the digits of a door in base `q`, the highest first, into a row.
fn write_digits(q: u32, door: u32, row: &mut [u32])
    requires { 0 < q }
    ensures { (p : ℕ) → p < length row.old → slice_index row.new p ≡ digit q (length row.old) door p }
{
    let mut rest = door;
    for x in row.iter_mut() {
        *x = rest % q;
        rest /= q;
    }
    row.reverse();
}

// That rows hold codes stays in the contracts: a struct of a row and its arithmetic would be made anew for each part of a row.
/// Shifts the polynomial in a row up by one place, and takes `factor` times that in `other` from it. Its top term is lost.
fn shift_less<A: Arithmetic>(arithmetic: &A, row: &mut [u32], factor: u32, other: &[u32])
    requires long { length row.old ≤ length other.now }
    requires codes { Codes (A.Arithmetic.meaning arithmetic.now) row.old }
    requires other_codes { Codes (A.Arithmetic.meaning arithmetic.now) other.now }
    requires code { factor < (A.Arithmetic.meaning arithmetic.now).size }
    ensures value { (t : ℕ) → t < length row.old → slice_index row.new t ≡ (A.Arithmetic.meaning arithmetic.now).codes.sum (delay (A.Arithmetic.meaning arithmetic.now).codes 1 (λ i. slice_index row.old i) t) ((A.Arithmetic.meaning arithmetic.now).codes.neg ((A.Arithmetic.meaning arithmetic.now).codes.prod factor (slice_index other.now t))) }
    ensures codes { Codes (A.Arithmetic.meaning arithmetic.now) row.new }
{
    let mut below = arithmetic.zero();
    // By place, since the check knows nothing of what is written in a loop over `iter_mut().zip(..)`.
    for (t, x) in row.iter_mut().enumerate() {
        below = mem::replace(x, less(arithmetic, below, factor, other[t]).unwrap());
    }
}

/// Multiplies the polynomial in a row by z - `root`. Its top term is lost.
fn multiply<A: Arithmetic>(arithmetic: &A, row: &mut [u32], root: u32)
    requires codes { Codes (A.Arithmetic.meaning arithmetic.now) row.old }
    requires code { root < (A.Arithmetic.meaning arithmetic.now).size }
    ensures value { (t : ℕ) → t < length row.old → slice_index row.new t ≡ (A.Arithmetic.meaning arithmetic.now).codes.sum (delay (A.Arithmetic.meaning arithmetic.now).codes 1 (λ i. slice_index row.old i) t) ((A.Arithmetic.meaning arithmetic.now).codes.neg ((A.Arithmetic.meaning arithmetic.now).codes.prod root (slice_index row.old t))) }
    ensures codes { Codes (A.Arithmetic.meaning arithmetic.now) row.new }
{
    let mut below = arithmetic.zero();
    // Apart from `shift_less`, whose other row would have to be a copy of this one.
    for x in row.iter_mut() {
        let value = less(arithmetic, below, root, *x).unwrap();
        below = mem::replace(x, value);
    }
}

/// Writes the generator of as many check characters as a row has places but one into it.
fn write_generator<A: Arithmetic>(arithmetic: &A, row: &mut [u32])
    requires { 0 < length row.old }
    ensures value { (t : ℕ) → t < length row.old → slice_index row.new t ≡ generator_of (A.Arithmetic.meaning arithmetic.now).codes (A.Arithmetic.meaning arithmetic.now).step (length row.old - 1) t }
    ensures codes { Codes (A.Arithmetic.meaning arithmetic.now) row.new }
{
    let step = arithmetic.step();
    let mut power = arithmetic.one();
    row.fill(arithmetic.zero());
    row[0] = power;
    // The rounds are counted, and no place by their number.
    for _ in 0..row.len() - 1 {
        power = arithmetic.product(step, power).unwrap();
        multiply(arithmetic, row, power);
    }
}

/// Divides the polynomial with the coefficients `digits`, the highest first, by the generator: `row` then holds the register.
fn divide<A: Arithmetic>(arithmetic: &A, digits: &[u32], row: &mut [u32], generator: &[u32])
    requires lengths { (0 < length row.old) × (length generator.now ≡ length row.old + 1) }
    requires digit_codes { Codes (A.Arithmetic.meaning arithmetic.now) digits.now }
    requires generates { (t : ℕ) → t < length generator.now → slice_index generator.now t ≡ generator_of (A.Arithmetic.meaning arithmetic.now).codes (A.Arithmetic.meaning arithmetic.now).step (length row.old) t }
    requires generator_codes { Codes (A.Arithmetic.meaning arithmetic.now) generator.now }
    ensures value { (t : ℕ) → t < length row.old → slice_index row.new t ≡ register (A.Arithmetic.meaning arithmetic.now).codes (A.Arithmetic.meaning arithmetic.now).step (length row.old) (λ p. slice_index digits.now p) (length digits.now) t }
    ensures codes { Codes (A.Arithmetic.meaning arithmetic.now) row.new }
{
    let top = row.len() - 1;
    row.fill(arithmetic.zero());
    for d in digits {
        let factor = arithmetic.sum(row[top], *d).unwrap();
        shift_less(arithmetic, row, factor, generator);
    }
}

/// Replaces each code in a row by its negative.
fn negate<A: Arithmetic>(arithmetic: &A, row: &mut [u32])
    requires { Codes (A.Arithmetic.meaning arithmetic.now) row.old }
    ensures value { (t : ℕ) → t < length row.old → slice_index row.new t ≡ (A.Arithmetic.meaning arithmetic.now).codes.neg (slice_index row.old t) }
    ensures codes { Codes (A.Arithmetic.meaning arithmetic.now) row.new }
{
    for x in row.iter_mut() {
        *x = arithmetic.negative(*x).unwrap();
    }
}

/// Writes the check characters behind a label's door characters.
fn write_checks<A: Arithmetic>(arithmetic: &A, digits: &[u32], checks: &mut [u32])
    requires lengths { (0 < length checks.old) × (length checks.old < 64) }
    requires codes { Codes (A.Arithmetic.meaning arithmetic.now) digits.now }
    ensures { (t : ℕ) → t < length checks.old → slice_index checks.new (length checks.old - 1 - t) ≡ (A.Arithmetic.meaning arithmetic.now).codes.neg (register (A.Arithmetic.meaning arithmetic.now).codes (A.Arithmetic.meaning arithmetic.now).step (length checks.old) (λ p. slice_index digits.now p) (length digits.now) t) }
{
    // An array, since nothing is allocated; an ArrayVec made of it and cut to length would be no plainer than its first places.
    let mut generator = [0u32; 64];
    let generator = &mut generator[0..=checks.len()];
    write_generator(arithmetic, generator);
    divide(arithmetic, digits, checks, generator);
    negate(arithmetic, checks);
    checks.reverse();
}

// No From: a code is a plain number, and so are the codes of all arithmetics.
/// The character of a code below 64.
fn character(code: u32) -> u8
    ensures { result ≡ character_of code }
{
    match code {
        0..=9 => b'0' + code as u8,
        10..=35 => b'A' + (code - 10) as u8,
        36 => b'-',
        37..=62 => b'a' + (code - 37) as u8,
        _ => b'+',
    }
}

/// Writes the characters of a row of codes into a row of bytes as long.
fn spell(codes: &[u32], text: &mut [u8])
    requires { length text.old ≡ length codes.now }
    ensures { Spelled codes.now text.new }
{
    // By place, since the check knows nothing of what is written in a loop over `iter_mut().zip(..)`.
    for (p, x) in text.iter_mut().enumerate() {
        *x = character(codes[p]);
    }
}

impl<A: Arithmetic> Scheme<A> {
    /// Writes a door's label, as codes, into a row.
    fn write_label(&self, door: u32, row: &mut [u32])
        requires { (door < self.now.doors) × (length row.old ≡ self.now.n) }
        ensures { LabelOf (A.Arithmetic.meaning self.now.arithmetic) self.now.n self.now.k door row.new }
    {
        let (digits, checks) = row.split_at_mut(self.k);
        write_digits(self.arithmetic.size(), door, digits);
        write_checks(&self.arithmetic, digits, checks);
    }

    /// Prints a door's label, as codes, into a row.
    ///
    /// Refused by 8 where there is no such door, then by 13 where the row has not the label's length; then the row is as it was.
    pub fn print_codes(&self, door: u32, row: &mut [u32]) -> Result<(), Refusal>
        ensures printed { MatchResult result (λ _. (door < self.now.doors) × (length row.old ≡ self.now.n) × LabelOf (A.Arithmetic.meaning self.now.arithmetic) self.now.n self.now.k door row.new) (λ e. (row.new ≡ row.old) × NotPrinted self.now.doors self.now.n door (length row.old) e) }
    {
        self.check_door(door)?;
        self.check_length(row.len())?;
        self.write_label(door, row);
        Ok(())
    }

    /// Prints a door's label, as text, into a row.
    ///
    /// Refused by 8 where there is no such door, then by 11 where the arithmetic has more than 64 elements, then by 13 where
    /// the row has not the label's length; then the row is as it was.
    pub fn print_text(&self, door: u32, row: &mut [u8]) -> Result<(), Refusal>
        ensures printed { MatchResult result (λ _. (door < self.now.doors) × ((A.Arithmetic.meaning self.now.arithmetic).size ≤ 64) × (length row.old ≡ self.now.n) × ((label : List ℕ) × LabelOf (A.Arithmetic.meaning self.now.arithmetic) self.now.n self.now.k door label × Spelled label row.new)) (λ e. (row.new ≡ row.old) × NotTyped (A.Arithmetic.meaning self.now.arithmetic) self.now.doors self.now.n door (length row.old) e) }
    {
        self.check_door(door)?;
        if self.arithmetic.size() > 64 {
            return Err(Refusal::NoText);
        }
        self.check_length(row.len())?;
        // An array, since nothing is allocated; an ArrayVec made of it and cut to length would be no plainer than its first places.
        let mut codes = [0u32; 64];
        let codes = &mut codes[0..self.n];
        self.write_label(door, codes);
        spell(codes, row);
        Ok(())
    }
}
