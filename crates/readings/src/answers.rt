// The lines answered in turn, by the scheme that holds.
ghost use Rattle.std.specs.Prelude.{length};
ghost use Rattle.reading.specs.Working.{Zero};
ghost use Rattle.readings.specs.Answers.{Answers, OfCurrentReading};

use crate::found::FoundLabel;
use crate::query::Query;
use crate::reply::Reply;
use crate::unanswered::Unanswered;
use queries::Laid;
use reading::{Reading, Scan, Typed};

/// What is answered to a reading, by the scheme that holds. A worksheet whose numbers are all 0 is so afterwards.
fn of_current<R: Reading>(
    current: &Option<Laid>,
    reading: &R,
    worksheet: &mut [u32],
) -> Result<FoundLabel, Unanswered>
    ensures answers { OfCurrentReading current.now (R.Reading.shown reading.now) (length worksheet.old) result }
    ensures zero { Zero worksheet.old → Zero worksheet.new }
{
    // Each kind of scheme has its arm, here and for doors: a closure cannot be handed in that takes both types.
    match current.as_ref().ok_or(queries::Unanswered::NoQuery)? {
        Laid::OverField(scheme) => Ok(FoundLabel::new(scheme, reading, worksheet)?),
        Laid::OverResidues(scheme) => Ok(FoundLabel::new(scheme, reading, worksheet)?),
    }
}

/// What is answered to the query of a line, by the scheme that holds: nothing where a scheme is laid out, which then holds.
///
/// A query for a scheme that is refused leaves none; any other query leaves the scheme as it was. A reading is refused as reading
/// with this worksheet, into a row of the label's length, is. A worksheet whose numbers are all 0 is so afterwards.
pub fn answer(
    current: &mut Option<Laid>,
    query: Option<Query>,
    worksheet: &mut [u32],
) -> Result<Option<Reply>, Unanswered>
    ensures answers { Answers (length worksheet.old) current.old query.entry result current.new }
    ensures zero { Zero worksheet.old → Zero worksheet.new }
{
    match query.ok_or(queries::Unanswered::NoQuery)? {
        Query::Labels(query) => Ok(queries::answer(current, Some(query))?.map(Reply::Printed)),
        Query::Scan(pieces) => {
            let scan = Scan(pieces.numbers());
            Ok(Some(Reply::Found(of_current(current, &scan, worksheet)?)))
        }
        Query::Read(text) => {
            let typed = Typed(text);
            Ok(Some(Reply::Found(of_current(current, &typed, worksheet)?)))
        }
    }
}
