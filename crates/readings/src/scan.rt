// The pieces of a scan.
ghost use Rattle.std.specs.Prelude.{ℕ, List, [], ◌∷◌, ◌++◌, MatchOption};
ghost use Rattle.readings.specs.Pieces.{Holds, Listed, Piece};

use reading::{Reading, Scan};
use text::Row;

/// The number of one piece: that of a numeral, or 4294967295 for `?`.
fn piece(bytes: &[u8]) -> Option<u32>
    ensures { MatchOption result ((n : ℕ) → Piece bytes.now n → ⊥) (Piece bytes.now) }
{
    match bytes {
        b"?" => Some(Scan::SMUDGE),
        _ => text::number(bytes),
    }
}

/// Adds a number behind those that are held, or nothing where 65 are held.
fn add(pieces: &mut Row<65>, number: u32)
    ensures { (numbers : List ℕ) → Holds numbers pieces.old → Holds (numbers ++ number ∷ []) pieces.new }
{
    if pieces.places < pieces.row.len() {
        pieces.row[pieces.places] = number;
        pieces.places += 1;
    }
}

/// The pieces that the bytes write: one or more, with one space between; at most the first 65 of them. `None` where the bytes
/// write no such pieces, also where this shows only behind the 65th.
///
/// A label has at most 64 places, so 65 pieces are refused as any greater number is.
#[tactic(auto, using(crate::proofs::Listing::begun))]
pub fn pieces(bytes: &[u8]) -> Option<Row<65>>
    ensures { MatchOption result ((numbers : List ℕ) → Listed bytes.now numbers → ⊥) (λ p. (numbers : List ℕ) × Listed bytes.now numbers × Holds numbers p) }
{
    let mut pieces = Row {
        row: [0; 65],
        places: 0,
    };
    for part in bytes.split(|b| *b == b' ') {
        add(&mut pieces, piece(part)?);
    }
    Some(pieces)
}
