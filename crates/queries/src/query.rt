// What a line asks.
ghost use Rattle.queries.specs.Queries.{Asks};

/// What a line asks.
#[derive(Clone, Copy)]
pub enum Query {
    /// `binary F n k`: a scheme over the field of F, with labels of n characters, k of them for the door.
    Binary(u32, u32, u32),
    /// `residue n k`: a scheme over the residues modulo 37.
    Residue(u32, u32),
    /// `door D`: the label of door D.
    Door(u32),
}

impl Query {
    /// The query that a line asks: a word, then its numbers, each of one to ten digits and below 2^32, with one space before
    /// each. `None` where the line asks nothing.
    pub fn parse(line: &[u8]) -> Option<Query>
        ensures { Asks line.now result }
    {
        if let Some(rest) = line.strip_prefix(b"binary ") {
            let (f, n, k) = text::three_numbers(rest)?;
            return Some(Query::Binary(f, n, k));
        }
        if let Some(rest) = line.strip_prefix(b"residue ") {
            let (n, k) = text::two_numbers(rest)?;
            return Some(Query::Residue(n, k));
        }
        let door = text::number(line.strip_prefix(b"door ")?)?;
        Some(Query::Door(door))
    }
}
