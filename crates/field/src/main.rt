// Answers queries about binary fields, one a line.
#![tactic(auto)]

mod answer;
mod element;
mod query;
mod survey;

use answer::Answer;
use query::Query;
use std::io;
use std::io::{Read, Write};
use text::{Answered, Lines};

// Like the other programs' main but for what answers: a function of all three would take that as a closure, and be no shorter.
/// Reads the standard input to its end, and prints the answer to each line that is not empty.
fn main(rt: HostRuntime) -> io::Result<()> {
    let mut input = Vec::new(rt.alloc());
    rt.stdin().read_to_end(&mut input)?;
    let mut output = Vec::new(rt.alloc());
    for line in Lines::new(input.as_slice()).filter(|line| !line.is_empty()) {
        writeln!(output, "{}", Answered(Answer::new(Query::parse(line))))?;
    }
    rt.stdout().write_all(output.as_slice())
}
