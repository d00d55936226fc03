// Labels over any arithmetic.
#![tactic(auto)]

mod powers;
mod printing;
mod refusal;
mod scheme;
mod testing;

pub use refusal::Refusal;
pub use scheme::{NotLaidOut, Scheme};
