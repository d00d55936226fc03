// Why a reading is refused.
ghost use Rattle.std.specs.Prelude.{◌≡◌};
ghost use Rattle.reading.specs.Refusals.{number as refusal_number, place as refusal_place};

/// Why a reading is refused. Each refusal has a number and a place.
#[derive(Clone, Copy)]
pub enum Refusal {
    /// 11: text is read in an arithmetic of more than 64 elements.
    NoText,
    /// 12: the worksheet has fewer than 1,024 numbers.
    ShortWorksheet,
    /// 13: the result row has not the label's length.
    WrongLength,
    /// 14: the reading has not as many pieces as a label has places.
    WrongCount,
    /// 15: the piece at this place is neither a code nor a smudge.
    NoCell(u32),
    /// 16: no label is within reach.
    NoLabel,
}

impl Refusal {
    // A match, of this enum's own cases: the numbers and places are the product's, and no derive or trait has them.
    /// The refusal's number.
    pub fn number(self) -> u32
        ensures { result ≡ refusal_number self }
    {
        match self {
            Refusal::NoText => 11,
            Refusal::ShortWorksheet => 12,
            Refusal::WrongLength => 13,
            Refusal::WrongCount => 14,
            Refusal::NoCell(_) => 15,
            Refusal::NoLabel => 16,
        }
    }

    /// The refusal's place: that of the piece for 15, and 0 for the others.
    pub fn place(self) -> u32
        ensures { result ≡ refusal_place self }
    {
        match self {
            Refusal::NoCell(place) => place,
            Refusal::NoText
            | Refusal::ShortWorksheet
            | Refusal::WrongLength
            | Refusal::WrongCount
            | Refusal::NoLabel => 0,
        }
    }
}
