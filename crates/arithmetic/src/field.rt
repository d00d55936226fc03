// Binary fields.
ghost use Rattle.std.specs.Prelude.{◌≡◌, ℕ, ◌^◌, MatchResult};
ghost use Rattle.algebra.specs.Binary.{NoFactor};
ghost use Rattle.arithmetic.specs.Meaning.{field_of};
ghost use Rattle.arithmetic.specs.Opening.{RightDegree, NotOpened};
ghost use Rattle.arithmetic.specs.Lawful.{field_lawful};
ghost use Rattle.arithmetic.specs.Refusals.{Refused};

mod inversion;

use crate::interface::{Arithmetic, check_code};
use crate::polynomial;
use crate::refusal::Refusal;
pub use inversion::Inverted;

/// A binary field: its polynomial has degree 2 to 16 and no factor of a degree from 1 below its own.
///
/// A code is a polynomial of lower degree: bit i is the coefficient of z^i. A value comes only from opening.
#[derive(Clone, Copy)]
pub struct BinaryField {
    polynomial: u32,
    degree: u32,
    ghost right_degree: { RightDegree polynomial degree },
    ghost no_factor: { NoFactor polynomial degree },
}

/// The degree of a polynomial. Refused by 1 where it is not from 2 to 16.
fn right_degree(polynomial: u32) -> Result<u32, Refusal>
    ensures { MatchResult result (RightDegree polynomial) (λ e. ((m : ℕ) → RightDegree polynomial m → ⊥) × Refused e 1) }
{
    match polynomial::degree(u64::from(polynomial)) {
        Some(m) if (2..=16).contains(&m) => Ok(m),
        _ => Err(Refusal::WrongDegree),
    }
}

impl BinaryField {
    /// Opens the field of a polynomial: 1 where its degree is not from 2 to 16, then 2 where it has a factor.
    pub fn open(polynomial: u32) -> Result<BinaryField, Refusal>
        ensures { MatchResult result (λ f. f.polynomial ≡ polynomial) (NotOpened polynomial) }
    {
        let degree = right_degree(polynomial)?;
        if polynomial::has_factor(polynomial, degree) {
            return Err(Refusal::HasFactor);
        }
        Ok(BinaryField { polynomial, degree })
    }

    /// The degree of the field's polynomial.
    pub fn degree(&self) -> u32
        ensures { result ≡ self.now.degree }
    {
        self.degree
    }

    /// The number of codes.
    fn codes(&self) -> u32
        ensures { result ≡ 2 ^ self.now.degree }
    {
        1 << self.degree
    }
}

impl Arithmetic for BinaryField {
    ghost meaning = { λ f. field_of f.polynomial f.degree };

    ghost lawful = { λ f. field_lawful f.polynomial f.degree f.right_degree f.no_factor };

    fn size(&self) -> u32 {
        self.codes()
    }

    fn zero(&self) -> u32 {
        0
    }

    fn one(&self) -> u32 {
        1
    }

    fn step(&self) -> u32 {
        2
    }

    fn sum(&self, a: u32, b: u32) -> Result<u32, Refusal> {
        check_code(a, self.codes())?;
        check_code(b, self.codes())?;
        Ok(a ^ b)
    }

    fn negative(&self, a: u32) -> Result<u32, Refusal> {
        check_code(a, self.codes())?;
        Ok(a)
    }

    fn product(&self, a: u32, b: u32) -> Result<u32, Refusal> {
        check_code(a, self.codes())?;
        check_code(b, self.codes())?;
        let product = polynomial::product(a, b);
        Ok(polynomial::remainder(product, u64::from(self.polynomial)) as u32)
    }

    fn inverse(&self, a: u32) -> Result<u32, Refusal> {
        Ok(self.invert(a)?.inverse)
    }
}
