// The lines answered in turn, by the scheme that holds.
ghost use Rattle.queries.specs.Answers.{Answers, OfCurrentDoor};

use crate::laid::{Laid, lay_out_binary, lay_out_residue};
use crate::printed::Label;
use crate::query::Query;
use crate::unanswered::Unanswered;

/// What is answered to a door, by the scheme that holds.
fn of_current(current: &Option<Laid>, door: u32) -> Result<Label, Unanswered>
    ensures { OfCurrentDoor current.now door result }
{
    // Each kind of scheme has its arm, here and for readings: a closure cannot be handed in that takes both types.
    match current.as_ref().ok_or(Unanswered::NoQuery)? {
        Laid::OverField(scheme) => Label::of_door(scheme, door),
        Laid::OverResidues(scheme) => Label::of_door(scheme, door),
    }
}

/// What is answered to the query of a line, by the scheme that holds: nothing where a scheme is laid out, which then holds.
///
/// A query for a scheme that is refused leaves none; any other query leaves the scheme as it was.
pub fn answer(current: &mut Option<Laid>, query: Option<Query>) -> Result<Option<Label>, Unanswered>
    ensures { Answers current.old query result current.new }
{
    match query.ok_or(Unanswered::NoQuery)? {
        Query::Binary(f, n, k) => {
            *current = None;
            *current = Some(Laid::OverField(lay_out_binary(f, n, k)?));
            Ok(None)
        }
        Query::Residue(n, k) => {
            *current = None;
            *current = Some(Laid::OverResidues(lay_out_residue(n, k)?));
            Ok(None)
        }
        Query::Door(door) => Ok(Some(of_current(current, door)?)),
    }
}
