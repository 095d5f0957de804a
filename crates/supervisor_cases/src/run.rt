// The commands of tests/supervisor_cases.py over the caller's own bytes and the lent parts.
// Assumes nothing: a command whose counts do not fit does nothing.
use crate::own::Own;
use crate::parts::{Parts, lent};
use crate::{local, print};
use std::io;
use text_lines::{fields, streams};

#[derive(Clone, Copy)]
pub(crate) struct Case {
    own: Own,
    parts: Parts,
}

impl Case {
    pub(crate) fn fresh() -> Case {
        Case {
            own: Own::fresh(),
            parts: Parts::fresh(),
        }
    }

    // What a line does to the parts, and then to the caller's own bytes.
    pub(crate) fn command(&mut self, rt: &impl Print, line: &[u8]) -> io::Result<()> {
        let Case { own, parts } = self;
        call(rt, line, own, parts)?;
        own.prepare(line, parts);
        Ok(())
    }
}

// Calls the supervisor, begins the case, lends, stores, compares or ends the line.
fn call(rt: &impl Print, line: &[u8], own: &Own, parts: &mut Parts) -> io::Result<()> {
    let key = fields::key(line);
    match key {
        b'a' => parts.begin(rt, &own.data),
        b'r' | b'c' | b'b' | b'q' => parts.receive_by(rt, line, own),
        b't' => local::take_into(rt, fields::count(line, 1), parts),
        b'l' => local::look_up(rt, line, parts),
        b'k' => local::ask_edition(rt, fields::decimal_u8(line, 1), parts),
        b'w' => local::save_into(rt, fields::count(line, 1), parts),
        b'x' => local::restore_from(rt, own.piece.used(), parts),
        b'g' => compare(rt, own, parts),
        b'h' => print::stores_compared(rt, parts.digest_of_stores() == own.stores_noted),
        b'=' | b'n' | b'i' => set(rt, line, own, parts),
        _ => local::ask(rt, line, own.piece.used(), lent(&mut parts.registers)),
    }
}

// A command that begins the case, lends or stores.
fn set(rt: &impl Print, line: &[u8], own: &Own, parts: &mut Parts) -> io::Result<()> {
    let part = fields::count(line, 1);
    let n = fields::count(line, 2);
    match fields::key(line) {
        b'=' => {
            streams::name(rt, line)?;
            *parts = Parts::fresh();
        }
        b'n' => parts.lend(part, n),
        _ => parts.store(part, n, own.piece.used()),
    }
    Ok(())
}

// Whether all five parts are as noted.
fn compare(rt: &impl Print, own: &Own, parts: &Parts) -> io::Result<()> {
    let same = parts.digest_of_stores() == own.stores_noted
        && parts.digest_of_others() == own.others_noted;
    print::compared(rt, same)
}
