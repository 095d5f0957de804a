// Runs the commands of tests/line_cases.py, read from standard input, and prints a line for each case.
// Assumes nothing: a line longer than the room for it is taken in pieces. A read or a write that fails ends the program with its error.
#![tactic(auto)]

mod print;
mod run;

use run::Case;
use std::io;
use text_lines::streams::Lines;

// Every line of the input, up to its end.
fn main(rt: HostRuntime) -> io::Result<()> {
    let mut case = Case::fresh();
    for line in Lines::new(&mut rt.stdin()) {
        case.command(&rt, line?.text())?;
    }
    Ok(())
}
