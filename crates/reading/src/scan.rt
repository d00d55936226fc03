// Scans: readings of numbers.
ghost use Rattle.reading.specs.Readings.{scanned};

use crate::cell::Cell;
use crate::reading::Reading;

/// A scan: a row of numbers, of which 4,294,967,295 is a smudge.
#[derive(Clone, Copy)]
pub struct Scan<'a>(pub &'a [u32]);

impl<'a> Reading for Scan<'a> {
    type Piece = u32;

    const SMUDGE: u32 = u32::MAX;

    ghost shown = { λ s. scanned s.0.now };

    fn is_text(&self) -> bool {
        false
    }

    fn pieces(&self) -> usize {
        self.0.len()
    }

    fn cell(&self, q: u32, place: usize) -> Option<Cell> {
        let piece = *self.0.get(place)?;
        if piece == Self::SMUDGE {
            return Some(Cell::Smudge);
        }
        (piece < q).then_some(Cell::Code(piece))
    }
}
