// Typed entries: readings of characters.
ghost use Rattle.std.specs.Prelude.{◌≡◌, ℕ, ◌<◌, ◌≤◌, MatchOption, ◌≢◌};
ghost use Rattle.label.specs.Labels.{character};
ghost use Rattle.reading.specs.Readings.{CodeBelow, code_with, typed as typed_entry};

use crate::cell::Cell;
use crate::reading::Reading;

/// A typed entry: a row of characters, of which the question mark is a smudge.
#[derive(Clone, Copy)]
pub struct Typed<'a>(pub &'a [u8]);

// No TryFrom: a code is a plain number, for which the conversion from a byte is the library's own.
/// The code whose character is a byte.
fn code_of(byte: u8) -> Option<u32>
    ensures { MatchOption result ((c : ℕ) → c < 64 → character c ≢ byte) (λ c. (c < 64) × (character c ≡ byte)) }
{
    match byte {
        b'0'..=b'9' => Some(u32::from(byte - b'0')),
        b'A'..=b'Z' => Some(u32::from(byte - b'A') + 10),
        b'-' => Some(36),
        b'a'..=b'z' => Some(u32::from(byte - b'a') + 37),
        b'+' => Some(63),
        _ => None,
    }
}

/// The cell of a byte that is not a smudge, for an arithmetic of `q` elements: the code below `q` whose character it is, and none
/// where it is the character of no such code.
fn character_cell(byte: u8, q: u32) -> Option<Cell>
    requires { q ≤ 64 }
    ensures value { result ≡ code_with q byte }
    ensures code { CodeBelow q result }
{
    let code = code_of(byte)?;
    (code < q).then_some(Cell::Code(code))
}

impl<'a> Reading for Typed<'a> {
    type Piece = u8;

    const SMUDGE: u8 = b'?';

    ghost shown = { λ s. typed_entry s.0.now };

    fn is_text(&self) -> bool {
        true
    }

    fn pieces(&self) -> usize {
        self.0.len()
    }

    fn cell(&self, q: u32, place: usize) -> Option<Cell> {
        if q > 64 {
            return None;
        }
        let piece = *self.0.get(place)?;
        if piece == Self::SMUDGE {
            return Some(Cell::Smudge);
        }
        character_cell(piece, q)
    }
}
