// Why a query is not answered.
ghost use Rattle.std.specs.Prelude.{◌≡◌, Some};
ghost use Rattle.queries.specs.declared.unanswered.Unanswered.TheVariants.{NoField, Refused};
ghost use Rattle.queries.specs.Texts.{unanswered_text};

use arithmetic::Arithmetic;
use label::NotLaidOut;
use std::fmt;

/// Why a query is not answered.
#[derive(Clone, Copy)]
pub enum Unanswered {
    /// No field was opened.
    NoField(arithmetic::Refusal),
    /// No scheme was laid out, or no label printed.
    Refused(label::Refusal),
    /// The line asks nothing, or the label of a door where no scheme holds.
    NoQuery,
}

impl From<arithmetic::Refusal> for Unanswered {
    ghost from_gives = { λ e u. u ≡ NoField e };

    fn from(refusal: arithmetic::Refusal) -> Unanswered {
        Unanswered::NoField(refusal)
    }
}

impl From<label::Refusal> for Unanswered {
    ghost from_gives = { λ e u. u ≡ Refused e };

    fn from(refusal: label::Refusal) -> Unanswered {
        Unanswered::Refused(refusal)
    }
}

impl<A: Arithmetic + Drop> From<NotLaidOut<A>> for Unanswered {
    ghost from_gives = { λ e u. u ≡ Refused e.refusal };

    fn from(not: NotLaidOut<A>) -> Unanswered {
        Unanswered::Refused(not.refusal)
    }
}

impl fmt::Display for Unanswered {
    // What `{}` writes.
    ghost output = { λ u. Some (unanswered_text u) };

    fn fmt<W: fmt::Write>(&self, f: &mut fmt::Formatter<W>) -> fmt::Result {
        match *self {
            Unanswered::NoField(refusal) => write!(
                f,
                "{}",
                text::Refused(refusal.number(), refusal.place())
            ),
            Unanswered::Refused(refusal) => write!(
                f,
                "{}",
                text::Refused(refusal.number(), refusal.place())
            ),
            Unanswered::NoQuery => write!(f, "no query"),
        }
    }
}
