// A door's label, printed.
ghost use Rattle.std.specs.Prelude.{◌<◌, ◌≤◌, Some, MatchResult};
ghost use Rattle.label.specs.Schemes.{NotPrinted, NotTyped};
ghost use Rattle.queries.specs.Answers.{OfDoor};
ghost use Rattle.queries.specs.Labels.{CodesOf, TextOf};
ghost use Rattle.queries.specs.Texts.{label_text};

use crate::characters::Characters;
use crate::unanswered::Unanswered;
use arithmetic::Arithmetic;
use label::{Refusal, Scheme};
use std::fmt;
use text::{Row, Spaced};

/// A door's label.
#[derive(Clone, Copy)]
pub enum Label {
    /// As text.
    Text(Characters),
    /// As codes.
    Codes(Row<64>),
}

/// The label of a door as text. Refused as printing text into a row of the label's length is.
fn text_of<A: Arithmetic>(scheme: &Scheme<A>, door: u32) -> Result<Characters, Refusal>
    ensures { MatchResult result (λ t. (door < scheme.now.doors) × ((A.Arithmetic.meaning scheme.now.arithmetic).size ≤ 64) × TextOf (A.Arithmetic.meaning scheme.now.arithmetic) scheme.now.n scheme.now.k door t) (NotTyped (A.Arithmetic.meaning scheme.now.arithmetic) scheme.now.doors scheme.now.n door scheme.now.n) }
{
    let mut row = [0; 64];
    let places = scheme.length();
    scheme.print_text(door, &mut row[..places])?;
    Ok(Characters { row, places })
}

/// The label of a door as codes. Refused as printing codes into a row of the label's length is.
fn codes_of<A: Arithmetic>(scheme: &Scheme<A>, door: u32) -> Result<Row<64>, Refusal>
    ensures { MatchResult result (λ t. (door < scheme.now.doors) × CodesOf (A.Arithmetic.meaning scheme.now.arithmetic) scheme.now.n scheme.now.k door t) (NotPrinted scheme.now.doors scheme.now.n door scheme.now.n) }
{
    let mut row = [0; 64];
    let places = scheme.length();
    scheme.print_codes(door, &mut row[..places])?;
    Ok(Row { row, places })
}

impl Label {
    /// The label of a door: as text, or as codes where the arithmetic has more than 64 elements. Refused by 8 where there is no
    /// such door.
    pub fn of_door<A: Arithmetic>(scheme: &Scheme<A>, door: u32) -> Result<Label, Unanswered>
        ensures { OfDoor (A.Arithmetic.meaning scheme.now.arithmetic) scheme.now.n scheme.now.k scheme.now.doors door result }
    {
        if scheme.arithmetic().size() <= 64 {
            Ok(Label::Text(text_of(scheme, door)?))
        } else {
            Ok(Label::Codes(codes_of(scheme, door)?))
        }
    }
}

impl fmt::Display for Label {
    // What `{}` writes.
    ghost output = { λ l. Some (label_text l) };

    fn fmt<W: fmt::Write>(&self, f: &mut fmt::Formatter<W>) -> fmt::Result {
        match self {
            Label::Text(text) => write!(f, "{text}"),
            Label::Codes(codes) => {
                // An empty row prints nothing, and is not an error that `?` would give.
                let Some((first, rest)) = codes.numbers().split_first() else {
                    return Ok(());
                };
                let rest = Spaced(rest);
                write!(f, "{first}{rest}")
            }
        }
    }
}
