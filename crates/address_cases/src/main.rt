// Runs the commands of tests/address_cases.py, read from standard input, and prints a line for each case.
// Assumes nothing: a line longer than the room for it is taken in pieces. A read or a write that fails ends the program with its error.
#![tactic(auto)]

use addresses::{ADDRESS_LENGTH, ROWS};
use std::io;
use text_lines::streams::Lines;
use text_lines::{fields, streams};

// Every line of the input, up to its end.
fn main(rt: HostRuntime) -> io::Result<()> {
    for line in Lines::new(&mut rt.stdin()) {
        command(&rt, line?.text())?;
    }
    Ok(())
}

fn command(rt: &impl Print, line: &[u8]) -> io::Result<()> {
    match fields::key(line) {
        b'=' => streams::name(rt, line),
        b'a' => run_plan(rt, line),
        _ => streams::word(rt, b"\n"),
    }
}

// The plan of a line: its answer and its rows.
fn run_plan(rt: &impl Print, line: &[u8]) -> io::Result<()> {
    let base = base_of(line);
    let count = fields::decimal_u16(line, 2);
    let stride = fields::decimal_u8(line, 3);
    match addresses::plan(base, count, stride) {
        Ok(()) => streams::word(rt, b" fits")?,
        Err(why) => streams::refused(rt, u64::from(why.number()))?,
    }
    print_rows(rt, addresses::addresses(base, count, stride))
}

// The address in the line's first field.
fn base_of(line: &[u8]) -> [u8; ADDRESS_LENGTH] {
    let digits = fields::behind_key(line);
    [
        fields::pair(digits, 0),
        fields::pair(digits, 1),
        fields::pair(digits, 2),
        fields::pair(digits, 3),
        fields::pair(digits, 4),
        fields::pair(digits, 5),
    ]
}

// Of each row a comma, and its bytes in hex.
fn print_rows(rt: &impl Print, rows: [[u8; ADDRESS_LENGTH]; ROWS]) -> io::Result<()> {
    for row in rows {
        streams::word(rt, b",")?;
        for byte in row {
            streams::hex(rt, u64::from(byte), 2)?;
        }
    }
    Ok(())
}
