// The scheme that holds.
ghost use Rattle.std.specs.Prelude.{◌≡◌, MatchResult};
ghost use Rattle.queries.specs.Answers.{NoBinary, NoResidue};

use crate::unanswered::Unanswered;
use arithmetic::{BinaryField, Residues};
use label::Scheme;

/// A scheme that was laid out.
#[derive(Drop)]
pub enum Laid {
    /// A scheme over a binary field.
    OverField(Scheme<BinaryField>),
    /// A scheme over the residues modulo 37.
    OverResidues(Scheme<Residues>),
}

/// The scheme over the field of `f`. Refused where `f` opens no field, or else no scheme is laid out.
pub(crate) fn lay_out_binary(f: u32, n: u32, k: u32) -> Result<Scheme<BinaryField>, Unanswered>
    ensures { MatchResult result (λ s. (s.arithmetic.polynomial ≡ f) × (s.n ≡ n) × (s.k ≡ k)) (NoBinary f n k) }
{
    Ok(Scheme::lay_out(BinaryField::open(f)?, n, k)?)
}

// Apart from the function above: it takes other numbers, gives another type, and opens no field.
/// The scheme over the residues modulo 37. Refused where no scheme is laid out.
pub(crate) fn lay_out_residue(n: u32, k: u32) -> Result<Scheme<Residues>, Unanswered>
    ensures { MatchResult result (λ s. (s.n ≡ n) × (s.k ≡ k)) (NoResidue n k) }
{
    Ok(Scheme::lay_out(Residues, n, k)?)
}
