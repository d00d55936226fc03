// The interface of an arithmetic of label characters.
ghost use Rattle.std.specs.Prelude.{◌≡◌, ◌<◌, ◌≤◌, MatchResult};
ghost use Rattle.arithmetic.specs.Meaning.{Meaning, Lawful};
ghost use Rattle.arithmetic.specs.Answers.{OfOne, OfTwo, OfInverse};
ghost use Rattle.arithmetic.specs.Refusals.{Refused};

use crate::refusal::Refusal;

/// An arithmetic: a field of `size` elements, written as the codes 0 to `size` - 1, with a step that is not zero.
///
/// Each call gives the value that the meaning has, always a code. A number that is not a code is refused by 3.
pub trait Arithmetic {
    ghost meaning: { Self → Meaning };

    /// The number of elements, from 2 to 65,536.
    fn size(&self) -> u32
        ensures { result ≡ (meaning self.now).size };

    fn zero(&self) -> u32
        ensures { (result ≡ (meaning self.now).codes.zero) × (result < (meaning self.now).size) };

    fn one(&self) -> u32
        ensures { (result ≡ (meaning self.now).codes.one) × (result < (meaning self.now).size) };

    fn step(&self) -> u32
        ensures { (result ≡ (meaning self.now).step) × (result < (meaning self.now).size) };

    fn sum(&self, a: u32, b: u32) -> Result<u32, Refusal>
        ensures { OfTwo (meaning self.now) a b ((meaning self.now).codes.sum a b) result };

    fn negative(&self, a: u32) -> Result<u32, Refusal>
        ensures { OfOne (meaning self.now) a ((meaning self.now).codes.neg a) result };

    fn product(&self, a: u32, b: u32) -> Result<u32, Refusal>
        ensures { OfTwo (meaning self.now) a b ((meaning self.now).codes.prod a b) result };

    /// The inverse of a code; that of zero is refused by 4.
    fn inverse(&self, a: u32) -> Result<u32, Refusal>
        ensures { OfInverse (meaning self.now) a result };

    ghost lawful: { (a : Self) → Lawful (meaning a) };
}

/// Refuses a number by 3 unless it is a code, below `size`.
pub(crate) fn check_code(a: u32, size: u32) -> Result<(), Refusal>
    ensures { MatchResult result (λ _. a < size) (λ e. (size ≤ a) × Refused e 3) }
{
    if a < size {
        Ok(())
    } else {
        Err(Refusal::NotACode)
    }
}
