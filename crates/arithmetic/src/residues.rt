// The residues modulo a number.
ghost use Rattle.std.specs.Prelude.{ℕ};
ghost use Rattle.arithmetic.specs.Answers.{OfInverse};
ghost use Rattle.arithmetic.specs.Meaning.{Lawful, residues};
ghost use Rattle.arithmetic.specs.Lawful.{bits_lawful, residues_37_lawful};

use crate::interface::{Arithmetic, check_code};
use crate::refusal::Refusal;
use std::marker::PhantomData;

/// A modulus, from 2 to 65,536, of which the residues are a field, with a step that is not zero.
pub trait Modulus {
    /// The number of residues.
    const SIZE: u32;

    ghost SIZE: { ℕ };

    /// The step.
    const STEP: u32;

    ghost STEP: { ℕ };

    /// They are a field, and the step is not zero.
    ghost field: { Lawful (residues SIZE STEP) };

    /// The inverse of a residue. Refused by 3 where the number is none, then by 4 where it is 0.
    ///
    /// Found by search, which takes up to as many products as there are residues; a modulus with a table of them looks it up.
    fn inverse(a: u32) -> Result<u32, Refusal>
        ensures { OfInverse (residues SIZE STEP) a result }
    {
        check_code(a, Self::SIZE)?;
        if a == 0 {
            return Err(Refusal::InverseOfZero);
        }
        Ok((1..Self::SIZE).find(|b| (a * b) % Self::SIZE == 1).unwrap())
    }
}

/// The modulus 2, with step 1.
#[derive(Clone, Copy)]
pub struct Two;

impl Modulus for Two {
    const SIZE: u32 = 2;

    ghost SIZE = { 2 };

    const STEP: u32 = 1;

    ghost STEP = { 1 };

    ghost field = { bits_lawful };
}

/// The modulus 37, with step 2.
#[derive(Clone, Copy)]
pub struct ThirtySeven;

impl Modulus for ThirtySeven {
    const SIZE: u32 = 37;

    ghost SIZE = { 37 };

    const STEP: u32 = 2;

    ghost STEP = { 2 };

    ghost field = { residues_37_lawful };

    fn inverse(a: u32) -> Result<u32, Refusal> {
        check_code(a, Self::SIZE)?;
        match a {
            0 => Err(Refusal::InverseOfZero),
            _ => Ok(INVERSES[a as usize]),
        }
    }
}

// A table, since a search takes longer, the longer the larger the modulus.
/// The inverse of each residue modulo 37; 0 stands for that of 0.
const INVERSES: [u32; 37] = [
    0, 1, 19, 25, 28, 15, 31, 16, 14, 33, 26, 27, 34, 20, 8, 5, 7, 24, 35, 2, 13, 30, 32, 29, 17,
    3, 10, 11, 4, 23, 21, 6, 22, 9, 12, 18, 36,
];

/// The residues of a modulus: sum and product are taken modulo it.
#[derive(Clone, Copy)]
pub struct Modulo<M>(pub PhantomData<M>);

// Structs of their own, not `Modulo<Two>` and `Modulo<ThirtySeven>` by other names: a struct with a type parameter has a field, so
// that `Bits {}` and `Residues {}` would not be values.
/// The arithmetic of two elements: 0 and 1 modulo 2, with step 1.
#[derive(Clone, Copy)]
pub struct Bits;

/// The residues modulo 37, with step 2.
#[derive(Clone, Copy)]
pub struct Residues;

/// What `Bits` calls.
const MODULO_2: Modulo<Two> = Modulo(PhantomData);

/// What `Residues` calls.
const MODULO_37: Modulo<ThirtySeven> = Modulo(PhantomData);

impl<M: Modulus> Arithmetic for Modulo<M> {
    ghost meaning = { λ _. residues M.SIZE M.STEP };

    ghost lawful = { λ _. M.field };

    fn size(&self) -> u32 {
        M::SIZE
    }

    fn zero(&self) -> u32 {
        0
    }

    fn one(&self) -> u32 {
        1
    }

    fn step(&self) -> u32 {
        M::STEP
    }

    fn sum(&self, a: u32, b: u32) -> Result<u32, Refusal> {
        check_code(a, M::SIZE)?;
        check_code(b, M::SIZE)?;
        Ok((a + b) % M::SIZE)
    }

    fn negative(&self, a: u32) -> Result<u32, Refusal> {
        check_code(a, M::SIZE)?;
        Ok((M::SIZE - a) % M::SIZE)
    }

    fn product(&self, a: u32, b: u32) -> Result<u32, Refusal> {
        check_code(a, M::SIZE)?;
        check_code(b, M::SIZE)?;
        Ok((a * b) % M::SIZE)
    }

    fn inverse(&self, a: u32) -> Result<u32, Refusal> {
        M::inverse(a)
    }
}

// This and the next are written out: a macro cannot write an implementation that states a meaning. One for every modulus would stand
// beside that of the binary fields, and the check finds no proof of code that makes an enum of schemes over both.
impl Arithmetic for Bits {
    ghost meaning = { λ _. residues 2 1 };

    ghost lawful = { λ _. bits_lawful };

    fn size(&self) -> u32 {
        MODULO_2.size()
    }

    fn zero(&self) -> u32 {
        MODULO_2.zero()
    }

    fn one(&self) -> u32 {
        MODULO_2.one()
    }

    fn step(&self) -> u32 {
        MODULO_2.step()
    }

    fn sum(&self, a: u32, b: u32) -> Result<u32, Refusal> {
        MODULO_2.sum(a, b)
    }

    fn negative(&self, a: u32) -> Result<u32, Refusal> {
        MODULO_2.negative(a)
    }

    fn product(&self, a: u32, b: u32) -> Result<u32, Refusal> {
        MODULO_2.product(a, b)
    }

    fn inverse(&self, a: u32) -> Result<u32, Refusal> {
        MODULO_2.inverse(a)
    }
}

impl Arithmetic for Residues {
    ghost meaning = { λ _. residues 37 2 };

    ghost lawful = { λ _. residues_37_lawful };

    fn size(&self) -> u32 {
        MODULO_37.size()
    }

    fn zero(&self) -> u32 {
        MODULO_37.zero()
    }

    fn one(&self) -> u32 {
        MODULO_37.one()
    }

    fn step(&self) -> u32 {
        MODULO_37.step()
    }

    fn sum(&self, a: u32, b: u32) -> Result<u32, Refusal> {
        MODULO_37.sum(a, b)
    }

    fn negative(&self, a: u32) -> Result<u32, Refusal> {
        MODULO_37.negative(a)
    }

    fn product(&self, a: u32, b: u32) -> Result<u32, Refusal> {
        MODULO_37.product(a, b)
    }

    fn inverse(&self, a: u32) -> Result<u32, Refusal> {
        MODULO_37.inverse(a)
    }
}
