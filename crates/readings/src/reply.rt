// What is answered to a query.
ghost use Rattle.std.specs.Prelude.{Some};
ghost use Rattle.readings.specs.Texts.{reply_text};

use crate::found::FoundLabel;
use queries::Label;
use std::fmt;

/// What is answered to a query.
#[derive(Clone, Copy)]
pub enum Reply {
    /// The label of a door.
    Printed(Label),
    /// A label that was read.
    Found(FoundLabel),
}

impl fmt::Display for Reply {
    // What `{}` writes.
    ghost output = { λ r. Some (reply_text r) };

    fn fmt<W: fmt::Write>(&self, f: &mut fmt::Formatter<W>) -> fmt::Result {
        match self {
            Reply::Printed(label) => write!(f, "{label}"),
            Reply::Found(label) => write!(f, "{label}"),
        }
    }
}
