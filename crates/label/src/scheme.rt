// Schemes of labels.
ghost use Rattle.std.specs.Prelude.{◌≡◌, ◌-◌, ◌^◌, ◌<◌, ◌≤◌, MatchOption, MatchResult, OnOk, ◌≢◌};
ghost use Rattle.label.specs.Labels.{Apart, EachDoor};
ghost use Rattle.label.specs.Refusals.{Refused};
ghost use Rattle.label.specs.Schemes.{IsScheme, NoScheme};

use crate::powers::powers_differ;
use crate::refusal::Refusal;
use arithmetic::Arithmetic;

/// The most doors that a scheme may have.
const MOST_DOORS: u64 = 1 << 32;

/// A scheme of labels: an arithmetic with a length and a number of door characters. A value comes only from laying out, and
/// carries what laying out proved of it.
#[derive(Drop)]
pub struct Scheme<A: Arithmetic> {
    pub(crate) arithmetic: A,
    pub(crate) n: usize,
    pub(crate) k: usize,
    pub(crate) doors: u64,
    ghost is_scheme: { IsScheme (A.Arithmetic.meaning arithmetic) n k doors },
}

/// Why no scheme was laid out, with the arithmetic that was handed in.
#[derive(Drop)]
pub struct NotLaidOut<A: Arithmetic> {
    pub arithmetic: A,
    pub refusal: Refusal,
}

/// q to the power k, where that is at most 2^32.
fn number_of_doors(q: u32, k: u32) -> Option<u64>
    ensures { MatchOption result (2 ^ 32 < q ^ k) (λ d. (d ≡ q ^ k) × (d ≤ 2 ^ 32)) }
{
    u64::from(q)
        .checked_pow(k)
        .filter(|doors| *doors <= MOST_DOORS)
}

/// The number of doors of the scheme of an arithmetic with labels of `n` characters, `k` of them for the door.
///
/// Refused as laying out this scheme is.
fn doors_of<A: Arithmetic>(arithmetic: &A, n: u32, k: u32) -> Result<u64, Refusal>
    ensures { MatchResult result (IsScheme (A.Arithmetic.meaning arithmetic.now) n k) (NoScheme (A.Arithmetic.meaning arithmetic.now) n k) }
{
    if !(2..=64).contains(&n) || !(1..n).contains(&k) {
        return Err(Refusal::WrongCounts);
    }
    if !powers_differ(arithmetic, n as usize) {
        return Err(Refusal::EqualPowers);
    }
    number_of_doors(arithmetic.size(), k).ok_or(Refusal::TooManyDoors)
}

impl<A: Arithmetic> Scheme<A> {
    /// Lays out the scheme of an arithmetic with labels of `n` characters, `k` of them for the door.
    ///
    /// Refused by 5 where `n` is not from 2 to 64 or `k` not from 1 to `n` - 1, then by 6 where two of the first `n` powers of
    /// the step are equal, then by 7 where there would be more than 2^32 doors. The arithmetic comes back with the refusal.
    pub fn lay_out(arithmetic: A, n: u32, k: u32) -> Result<Scheme<A>, NotLaidOut<A>>
        ensures laid { MatchResult result (λ s. (s.arithmetic ≡ arithmetic) × (s.n ≡ n) × (s.k ≡ k) × IsScheme (A.Arithmetic.meaning arithmetic) n k s.doors) (λ e. (e.arithmetic ≡ arithmetic) × NoScheme (A.Arithmetic.meaning arithmetic) n k e.refusal) }
        ensures labels { OnOk result (Apart (A.Arithmetic.meaning arithmetic) n (n - k) × EachDoor (A.Arithmetic.meaning arithmetic) n k) }
    {
        // No map with map_err: both sides take the arithmetic.
        match doors_of(&arithmetic, n, k) {
            Ok(doors) => Ok(Scheme {
                arithmetic,
                n: n as usize,
                k: k as usize,
                doors,
            }),
            Err(refusal) => Err(NotLaidOut {
                arithmetic,
                refusal,
            }),
        }
    }

    /// The scheme's arithmetic.
    pub fn arithmetic(&self) -> &A
        ensures { result.now ≡ self.now.arithmetic }
    {
        &self.arithmetic
    }

    /// How many characters a label has.
    pub fn length(&self) -> usize
        ensures { result ≡ self.now.n }
    {
        self.n
    }

    /// How many characters of a label are the door's.
    pub fn door_characters(&self) -> usize
        ensures { result ≡ self.now.k }
    {
        self.k
    }

    /// How many characters of a label are check characters.
    pub fn check_characters(&self) -> usize
        ensures { result ≡ self.now.n - self.now.k }
    {
        self.length() - self.door_characters()
    }

    /// The number of doors.
    pub fn doors(&self) -> u64
        ensures { result ≡ self.now.doors }
    {
        self.doors
    }

    /// That there is such a door. Refused by 8 where there is none.
    pub(crate) fn check_door(&self, door: u32) -> Result<(), Refusal>
        ensures { MatchResult result (λ _. door < self.now.doors) (λ e. (self.now.doors ≤ door) × Refused e 8) }
    {
        if u64::from(door) < self.doors {
            Ok(())
        } else {
            Err(Refusal::NoSuchDoor)
        }
    }

    /// That a row of `length` places has the label's length. Refused by 13 where it has not.
    pub(crate) fn check_length(&self, length: usize) -> Result<(), Refusal>
        ensures { MatchResult result (λ _. length ≡ self.now.n) (λ e. (length ≢ self.now.n) × Refused e 13) }
    {
        if length == self.n {
            Ok(())
        } else {
            Err(Refusal::WrongLength)
        }
    }
}
