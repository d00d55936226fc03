// What a line asks.
ghost use Rattle.field.specs.Queries.{Asks};

/// What a line asks.
#[derive(Clone, Copy)]
pub enum Query {
    /// `F`: the field of F.
    Field(u32),
    /// `F A`: the element A of the field of F.
    Element(u32, u32),
}

impl Query {
    /// The query that a line asks: one number, or two with one space between, each of one to ten digits and below 2^32.
    ///
    /// `None` where the line asks nothing.
    pub fn parse(line: &[u8]) -> Option<Query>
        ensures { Asks line.now result }
    {
        if let Some(f) = text::number(line) {
            return Some(Query::Field(f));
        }
        let (f, a) = text::two_numbers(line)?;
        Some(Query::Element(f, a))
    }
}
