// Runs the cases of tests/requester_cases.py, read from standard input, over every call of the main processor's end.
// Assumes nothing: what is out of range is passed over. A read or a write that fails ends the program with its error.
#![tactic(auto)]

mod parts;
mod print;
mod run;

use run::Case;
use std::io;
use text_lines::streams::Lines;

// Every line of the input, up to its end.
fn main(rt: HostRuntime) -> io::Result<()> {
    let mut case = Case::fresh();
    for line in Lines::new(&mut rt.stdin()) {
        case.command(&rt, line?.text())?;
    }
    Ok(())
}
