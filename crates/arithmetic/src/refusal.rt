// Why a call is refused.
ghost use Rattle.std.specs.Prelude.{◌≡◌};
ghost use Rattle.arithmetic.specs.Refusals.{number as refusal_number, place as refusal_place};

/// Why a call is refused. Each refusal has a number and a place.
#[derive(Clone, Copy)]
pub enum Refusal {
    /// 1: a polynomial is 0, or its degree is outside 2 to 16.
    WrongDegree,
    /// 2: a polynomial of degree m has a factor of degree 1 to m - 1.
    HasFactor,
    /// 3: a number handed to an arithmetic is not below its size.
    NotACode,
    /// 4: the inverse of zero is sought.
    InverseOfZero,
    /// 13: a row has not the stated length.
    WrongLength,
}

impl Refusal {
    // A match, of this enum's own cases: the numbers and places are the product's, and no derive or trait has them.
    /// The refusal's number.
    pub fn number(self) -> u32
        ensures { result ≡ refusal_number self }
    {
        match self {
            Refusal::WrongDegree => 1,
            Refusal::HasFactor => 2,
            Refusal::NotACode => 3,
            Refusal::InverseOfZero => 4,
            Refusal::WrongLength => 13,
        }
    }

    /// The refusal's place: 0, since none of these refusals concerns a place.
    pub fn place(self) -> u32
        ensures { result ≡ refusal_place self }
    {
        match self {
            Refusal::WrongDegree
            | Refusal::HasFactor
            | Refusal::NotACode
            | Refusal::InverseOfZero
            | Refusal::WrongLength => 0,
        }
    }
}
