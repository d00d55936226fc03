// Queries about labels: what a line asks, and what is answered to it.
#![tactic(auto)]

mod answers;
mod characters;
mod laid;
mod printed;
mod query;
mod unanswered;

pub use answers::answer;
pub use characters::Characters;
pub use laid::Laid;
pub use printed::Label;
pub use query::Query;
pub use unanswered::Unanswered;
