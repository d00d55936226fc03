// Reading labels that are smudged.
#![tactic(auto)]

mod cell;
mod cells;
mod filling;
mod points;
mod reader;
mod reading;
mod refusal;
mod scan;
mod suspects;
mod typed;
mod worksheet;

pub use cell::Cell;
pub use reader::{Found, read};
pub use reading::Reading;
pub use refusal::Refusal;
pub use scan::Scan;
pub use typed::Typed;
