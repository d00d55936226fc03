// Why a query is not answered.
ghost use Rattle.std.specs.Prelude.{◌≡◌, Some};
ghost use Rattle.readings.specs.declared.unanswered.Unanswered.TheVariants.{Labels, Unread};
ghost use Rattle.readings.specs.Texts.{unanswered_text};

use std::fmt;

/// Why a query is not answered.
#[derive(Clone, Copy)]
pub enum Unanswered {
    /// As queries about labels are not answered; also a reading where no scheme holds.
    Labels(queries::Unanswered),
    /// No label was read.
    Unread(reading::Refusal),
}

impl From<queries::Unanswered> for Unanswered {
    ghost from_gives = { λ e u. u ≡ Labels e };

    fn from(unanswered: queries::Unanswered) -> Unanswered {
        Unanswered::Labels(unanswered)
    }
}

impl From<reading::Refusal> for Unanswered {
    ghost from_gives = { λ e u. u ≡ Unread e };

    fn from(refusal: reading::Refusal) -> Unanswered {
        Unanswered::Unread(refusal)
    }
}

impl fmt::Display for Unanswered {
    // What `{}` writes.
    ghost output = { λ u. Some (unanswered_text u) };

    fn fmt<W: fmt::Write>(&self, f: &mut fmt::Formatter<W>) -> fmt::Result {
        match *self {
            Unanswered::Labels(unanswered) => write!(f, "{unanswered}"),
            Unanswered::Unread(refusal) => write!(
                f,
                "{}",
                text::Refused(refusal.number(), refusal.place())
            ),
        }
    }
}
