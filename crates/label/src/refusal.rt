// Why a call on schemes and labels is refused.
ghost use Rattle.std.specs.Prelude.{◌≡◌};
ghost use Rattle.label.specs.Refusals.{number as refusal_number, place as refusal_place};

/// Why a call on schemes and labels is refused. Each refusal has a number and a place.
#[derive(Clone, Copy)]
pub enum Refusal {
    /// 5: a length is outside 2 to 64, or the number of door characters outside 1 to one less.
    WrongCounts,
    /// 6: two of the powers of the step are equal.
    EqualPowers,
    /// 7: there would be more than 2^32 doors.
    TooManyDoors,
    /// 8: a door is not below the number of doors.
    NoSuchDoor,
    /// 11: text is asked of an arithmetic of more than 64 elements.
    NoText,
    /// 13: a row has not the label's length.
    WrongLength,
}

impl Refusal {
    // A match, of this enum's own cases: the numbers and places are the product's, and no derive or trait has them.
    /// The refusal's number.
    pub fn number(self) -> u32
        ensures { result ≡ refusal_number self }
    {
        match self {
            Refusal::WrongCounts => 5,
            Refusal::EqualPowers => 6,
            Refusal::TooManyDoors => 7,
            Refusal::NoSuchDoor => 8,
            Refusal::NoText => 11,
            Refusal::WrongLength => 13,
        }
    }

    /// The refusal's place: 0, since none of these refusals concerns a place.
    pub fn place(self) -> u32
        ensures { result ≡ refusal_place self }
    {
        match self {
            Refusal::WrongCounts
            | Refusal::EqualPowers
            | Refusal::TooManyDoors
            | Refusal::NoSuchDoor
            | Refusal::NoText
            | Refusal::WrongLength => 0,
        }
    }
}
