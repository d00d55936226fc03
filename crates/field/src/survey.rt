// The inverses of all codes of a field.
ghost use Rattle.std.specs.Prelude.{Some, MatchResult};
ghost use Rattle.field.specs.Surveys.{Surveyed};
ghost use Rattle.field.specs.Texts.{survey_text};

use arithmetic::{Arithmetic, BinaryField};
use std::fmt;

/// A field after every nonzero code was inverted.
#[derive(Clone, Copy)]
pub struct Survey {
    /// The degree of the field's polynomial.
    pub degree: u32,
    /// The number of codes.
    pub size: u32,
    /// The largest count of iterations that an inverse took.
    pub most: u32,
    /// The sum of these counts.
    pub total: u32,
}

/// A code whose product with its inverse is not one.
#[derive(Clone, Copy)]
pub struct Wrong(pub u32);

impl Survey {
    /// Inverts every nonzero code, and multiplies it by its inverse.
    ///
    /// `Err` has the first code whose product with its inverse is not one. It is proved that there is none.
    pub fn new(field: &BinaryField) -> Result<Survey, Wrong>
        ensures { MatchResult result (Surveyed field.now.polynomial field.now.degree) (λ _. ⊥) }
    {
        let size = field.size();
        let mut most = 0;
        let mut total = 0;
        // The loop goes through codes, not places; a chain would be no plainer, with a largest, a sum and an early return.
        for a in 1..size {
            let inverted = field.invert(a).unwrap();
            let product = field.product(a, inverted.inverse).unwrap();
            if product != field.one() {
                return Err(Wrong(a));
            }
            most = most.max(inverted.iterations);
            total += inverted.iterations;
        }
        Ok(Survey {
            degree: field.degree(),
            size,
            most,
            total,
        })
    }
}

impl fmt::Display for Survey {
    // What `{}` writes.
    ghost output = { λ s. Some (survey_text s) };

    fn fmt<W: fmt::Write>(&self, f: &mut fmt::Formatter<W>) -> fmt::Result {
        let Survey {
            degree,
            size,
            most,
            total,
        } = *self;
        write!(f, "opens {degree} {size} most {most} total {total}")
    }
}
