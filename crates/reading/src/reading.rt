// The interface of a reading of a label.
ghost use Rattle.std.specs.Prelude.{◌≡◌};
ghost use Rattle.reading.specs.Readings.{CodeBelow, Shown};

use crate::cell::Cell;

/// A reading of a label: a row of pieces, each a code, a smudge or neither. Asking changes nothing.
pub trait Reading {
    /// What a reading has at each place.
    type Piece: Copy;

    /// The piece that is a smudge.
    const SMUDGE: Self::Piece;

    ghost shown: { Self → Shown };

    /// Whether the pieces are characters of text.
    fn is_text(&self) -> bool
        ensures { result ≡ (shown self.now).text };

    /// How many pieces there are.
    fn pieces(&self) -> usize
        ensures { result ≡ (shown self.now).pieces };

    /// The cell at a place, for an arithmetic of `q` elements: none where the piece there is neither a code nor a smudge, and
    /// where there is no such place.
    fn cell(&self, q: u32, place: usize) -> Option<Cell>
        ensures value { result ≡ (shown self.now).cell q place }
        ensures code { CodeBelow q result };
}
