// A cell of a reading.
ghost use Rattle.std.specs.Prelude.{ℕ, ◌<◌, Some};
ghost use Rattle.reading.specs.Readings.{CodeBelow};
ghost use Rattle.reading.specs.Working.{Taken};

// An enum of its own, not an Option of a code: a reading gives an Option of it, whose `None` is neither code nor smudge.
/// What a reading has at a place.
#[derive(Clone, Copy)]
pub enum Cell {
    /// A code.
    Code(u32),
    /// A smudge: a place whose character could not be made out. The usual word for it is erasure.
    Smudge,
}

impl Cell {
    /// What the cell leaves in the rows of codes and of smudges: its code and 0, or for a smudge 0 and 1.
    pub(crate) fn taken(self) -> (u32, u32)
        ensures taken { Taken (Some self) result.0 result.1 }
        ensures below { (q : ℕ) → 0 < q → CodeBelow q (Some self) → result.0 < q }
    {
        match self {
            Cell::Code(code) => (code, 0),
            Cell::Smudge => (0, 1),
        }
    }
}
