// Characters in the first places of an array.
ghost use Rattle.std.specs.Prelude.{ℕ, ◌<◌, ◌≤◌, slice_index};

use std::{fmt, str};

// Not the library's `ArrayString`: the check gets no proof of code that passes one by value and uses it again.
/// Characters below 128 in the first places of an array.
#[derive(Clone, Copy)]
pub struct Characters {
    /// The characters, in the first places.
    pub row: [u8; 64],
    /// How many characters there are.
    pub places: usize,
    // There are no more characters than the array has places, and each is one byte of text.
    ghost within: { places ≤ 64 },
    ghost ascii: { (k : ℕ) → k < places → slice_index row k < 128 },
}

impl fmt::Display for Characters {
    ghost use Rattle.std.specs.Prelude.{Some};
    ghost use Rattle.queries.specs.Characters.{characters};

    // What `{}` writes.
    ghost output = { λ t. Some (characters t) };

    fn fmt<W: fmt::Write>(&self, f: &mut fmt::Formatter<W>) -> fmt::Result {
        let text = str::from_utf8(&self.row[..self.places]).unwrap();
        write!(f, "{text}")
    }
}
