// What a line asks.
ghost use Rattle.readings.specs.Queries.{Asks};

use crate::scan::pieces;
use text::Row;

/// What a line asks.
#[derive(Clone, Copy)]
pub enum Query<'a> {
    /// A query about labels: `binary F n k`, `residue n k` or `door D`.
    Labels(queries::Query),
    /// `scan C C ..`: the scan of these pieces.
    Scan(Row<65>),
    /// `read TEXT`: the typed entry of the bytes of TEXT.
    Read(&'a [u8]),
}

impl<'a> Query<'a> {
    /// The query that a line asks: a word, then its numbers, each of one to ten digits and below 2^32, with one space before
    /// each. `None` where the line asks nothing.
    ///
    /// Behind `scan` a number may also be `?`, and behind `read` and one space stands any text.
    pub fn parse(line: &'a [u8]) -> Option<Query<'a>>
        ensures { Asks line.now result }
    {
        if let Some(query) = queries::Query::parse(line) {
            return Some(Query::Labels(query));
        }
        if let Some(rest) = line.strip_prefix(b"scan ") {
            return Some(Query::Scan(pieces(rest)?));
        }
        Some(Query::Read(line.strip_prefix(b"read ")?))
    }
}
