// What is answered to a query.
ghost use Rattle.std.specs.Prelude.{◌≡◌, Some};
ghost use Rattle.field.specs.Answers.{Answers, OfElement, OfField};
ghost use Rattle.field.specs.Texts.{answer_text, unanswered_text};
ghost use Rattle.field.specs.declared.answer.Unanswered.TheVariants as unanswered;

use crate::element::Element;
use crate::query::Query;
use crate::survey::{Survey, Wrong};
use arithmetic::{BinaryField, Refusal};
use std::fmt;
use text::Refused;

/// What is answered to a query.
#[derive(Clone, Copy)]
pub enum Answer {
    /// The field opens.
    Opened(Survey),
    /// The element has an inverse.
    Described(Element),
}

/// Why a line has no answer.
#[derive(Clone, Copy)]
pub enum Unanswered {
    /// A call was refused.
    Refused(Refusal),
    /// The field opens, and the product of a code with its inverse is not one.
    Wrong(Wrong),
    /// The line asks nothing.
    NoQuery,
}

impl From<Refusal> for Unanswered {
    // The refusal as it is.
    ghost from_gives = { λ e u. u ≡ unanswered.Refused e };

    fn from(refusal: Refusal) -> Unanswered {
        Unanswered::Refused(refusal)
    }
}

impl From<Wrong> for Unanswered {
    // The code as it is.
    ghost from_gives = { λ w u. u ≡ unanswered.Wrong w };

    fn from(wrong: Wrong) -> Unanswered {
        Unanswered::Wrong(wrong)
    }
}

impl Answer {
    /// The answer to a query.
    pub fn new(query: Option<Query>) -> Result<Answer, Unanswered>
        ensures { Answers query result }
    {
        match query.ok_or(Unanswered::NoQuery)? {
            Query::Field(f) => Answer::of_field(f),
            Query::Element(f, a) => Answer::of_element(f, a),
        }
    }

    /// The answer to the polynomial of a field.
    fn of_field(f: u32) -> Result<Answer, Unanswered>
        ensures { OfField f result }
    {
        let field = BinaryField::open(f)?;
        Ok(Answer::Opened(Survey::new(&field)?))
    }

    /// The answer to the polynomial of a field and a code in it.
    fn of_element(f: u32, a: u32) -> Result<Answer, Unanswered>
        ensures { OfElement f a result }
    {
        let field = BinaryField::open(f)?;
        Ok(Answer::Described(Element::new(&field, a)?))
    }
}

impl fmt::Display for Answer {
    // What `{}` writes.
    ghost output = { λ a. Some (answer_text a) };

    fn fmt<W: fmt::Write>(&self, f: &mut fmt::Formatter<W>) -> fmt::Result {
        match self {
            Answer::Opened(survey) => write!(f, "{survey}"),
            Answer::Described(element) => write!(f, "{element}"),
        }
    }
}

impl fmt::Display for Unanswered {
    // What `{}` writes.
    ghost output = { λ u. Some (unanswered_text u) };

    fn fmt<W: fmt::Write>(&self, f: &mut fmt::Formatter<W>) -> fmt::Result {
        match *self {
            Unanswered::Refused(refusal) => write!(
                f,
                "{}",
                Refused(refusal.number(), refusal.place())
            ),
            Unanswered::Wrong(Wrong(code)) => write!(f, "wrong {code}"),
            Unanswered::NoQuery => write!(f, "no query"),
        }
    }
}
