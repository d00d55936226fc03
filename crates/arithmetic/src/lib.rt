// Arithmetics of label characters.
#![tactic(auto)]

mod field;
mod interface;
mod iteration;
mod polynomial;
mod refusal;
mod residues;
mod values;

pub use field::{BinaryField, Inverted};
pub use interface::Arithmetic;
pub use iteration::{all_codes, iterate};
pub use refusal::Refusal;
pub use residues::{Bits, Modulo, Modulus, Residues, ThirtySeven, Two};
pub use values::{evaluate, less, write_powers};
