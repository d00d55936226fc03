// Prints the labels of doors and reads labels, one a line.
#![tactic(auto)]

mod answers;
mod found;
mod query;
mod reply;
mod scan;
mod unanswered;

use answers::answer;
use query::Query;
use std::io;
use std::io::{Read, Write};
use text::{Answered, Lines};

// Like the other programs' main but for what answers: a function of all three would take that as a closure, and be no shorter.
/// Reads the standard input to its end, and prints what is answered to each line that is not empty.
fn main(rt: HostRuntime) -> io::Result<()> {
    let mut input = Vec::new(rt.alloc());
    rt.stdin().read_to_end(&mut input)?;
    let mut output = Vec::new(rt.alloc());
    let mut current = None;
    // An array: a worksheet is of a stated size.
    let worksheet: &mut [u32] = &mut [0; 1024];
    for line in Lines::new(input.as_slice()).filter(|line| !line.is_empty()) {
        if let Some(answered) = answer(&mut current, Query::parse(line), worksheet).transpose() {
            writeln!(output, "{}", Answered(answered))?;
        }
    }
    rt.stdout().write_all(output.as_slice())
}
