// An element of a field.
ghost use Rattle.std.specs.Prelude.{◌^◌, ◌≤◌, Some, MatchResult};
ghost use Rattle.arithmetic.specs.Answers.{NoInverse};
ghost use Rattle.arithmetic.specs.Meaning.{field_of};
ghost use Rattle.arithmetic.specs.Refusals.{Refused};
ghost use Rattle.field.specs.Elements.{Describes, Triangular};
ghost use Rattle.field.specs.Texts.{element_text};

use arithmetic::{BinaryField, Refusal};
use std::fmt;
use text::{Row, Spaced};

/// An element of a field, by its triangular coordinates and its inverse.
#[derive(Clone, Copy)]
pub struct Element {
    /// The triangular coordinates, as many as the degree of the field's polynomial.
    pub row: Row<16>,
    pub inverse: u32,
    /// How many iterations the inverse took.
    pub iterations: u32,
}

/// The triangular coordinates of a code, as many as the degree. Refused by 3 where the number is no code.
fn triangular(field: &BinaryField, a: u32) -> Result<Row<16>, Refusal>
    ensures { MatchResult result (Triangular field.now.polynomial field.now.degree a) (λ e. (2 ^ field.now.degree ≤ a) × Refused e 3) }
{
    let mut row = [0; 16];
    let places = field.degree() as usize;
    field.triangular(a, &mut row[..places])?;
    Ok(Row { row, places })
}

impl Element {
    /// The element with this code. Refused by 3 where the number is no code, then by 4 where it is 0.
    pub fn new(field: &BinaryField, a: u32) -> Result<Element, Refusal>
        ensures { MatchResult result (Describes field.now.polynomial field.now.degree a) (NoInverse (field_of field.now.polynomial field.now.degree) a) }
    {
        let row = triangular(field, a)?;
        let inverted = field.invert(a)?;
        Ok(Element {
            row,
            inverse: inverted.inverse,
            iterations: inverted.iterations,
        })
    }
}

impl fmt::Display for Element {
    // What `{}` writes.
    ghost output = { λ e. Some (element_text e) };

    fn fmt<W: fmt::Write>(&self, f: &mut fmt::Formatter<W>) -> fmt::Result {
        let row = Spaced(self.row.numbers());
        let inverse = self.inverse;
        let iterations = self.iterations;
        write!(
            f,
            "triangular{row} inverse {inverse} iterations {iterations}"
        )
    }
}
