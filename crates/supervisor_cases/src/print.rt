// Prints answers, each with one space in front; failures and refusals go by the numbers of document 01.
// Assumes nothing: a write that fails ends the call with its error.
use counters::outcome::Outcome;
use refusals::Refusal;
use saving::restore::RestoreError;
use std::io;
use supervisor::keys::{LookupError, result_number};
use supervisor::registers::{Asked, Entry};
use text_lines::streams::{bytes, digest, number, refused, word};

// A refusal by its number.
fn no(rt: &impl Print, why: Refusal) -> io::Result<()> {
    refused(rt, u64::from(why.number()))
}

// Whether a call was carried out, told by a word.
pub(crate) fn done(rt: &impl Print, how: &[u8], a: Result<(), Refusal>) -> io::Result<()> {
    match a {
        Ok(()) => word(rt, how),
        Err(why) => no(rt, why),
    }
}

// What a call put into a room, and the digest of the room.
pub(crate) fn put(
    rt: &impl Print,
    how: &[u8],
    a: Result<usize, Refusal>,
    room: &[u8],
) -> io::Result<()> {
    match a {
        Ok(n) => {
            word(rt, how)?;
            bytes(rt, octets::part(room, 0, n))?;
        }
        Err(why) => no(rt, why)?,
    }
    digest(rt, room)
}

// How many bytes a step used, how it ended, and what it tells of a request: its command, or a set's key and result.
pub(crate) fn stepped(rt: &impl Print, used: usize, outcome: Outcome) -> io::Result<()> {
    number(rt, used as u64)?;
    match outcome {
        Outcome::Refused => no(rt, Refusal::BadState),
        Outcome::More => word(rt, b" more"),
        Outcome::Empty => word(rt, b" empty"),
        Outcome::Request(command) => told(rt, b" request", command),
        Outcome::KeySet(key, result) => {
            told(rt, b" set", key)?;
            number(rt, u64::from(result))
        }
        Outcome::Failure(reason) => told(rt, b" failure", reason),
    }
}

// A word and a number.
fn told(rt: &impl Print, what: &[u8], n: u8) -> io::Result<()> {
    word(rt, what)?;
    number(rt, u64::from(n))
}

// The result of a lookup, and the part handed out.
pub(crate) fn found(
    rt: &impl Print,
    a: Result<usize, LookupError>,
    value: &[u8],
) -> io::Result<()> {
    match a {
        Err(LookupError::Refused) => no(rt, Refusal::BadState)?,
        _ => told(rt, b" result", result_number(a))?,
    }
    bytes(rt, value)
}

// The result, and the edition of a key that has a value.
pub(crate) fn edition(rt: &impl Print, a: Result<u32, LookupError>) -> io::Result<()> {
    match a {
        Ok(n) => {
            told(rt, b" result", 0)?;
            number(rt, u64::from(n))
        }
        Err(LookupError::Refused) => no(rt, Refusal::BadState),
        Err(why) => told(rt, b" result", result_number(Err(why))),
    }
}

// A fault's number and offset.
pub(crate) fn restored(rt: &impl Print, a: Result<(), RestoreError>) -> io::Result<()> {
    match a {
        Ok(()) => word(rt, b" restored"),
        Err(RestoreError::Refused) => no(rt, Refusal::BadState),
        Err(RestoreError::Fault(fault, offset)) => {
            refused(rt, u64::from(fault.number()))?;
            number(rt, offset as u64)
        }
    }
}

pub(crate) fn signal(rt: &impl Print, a: Result<bool, Refusal>) -> io::Result<()> {
    match a {
        Ok(true) => word(rt, b" asserted"),
        Ok(false) => word(rt, b" clear"),
        Err(why) => no(rt, why),
    }
}

pub(crate) fn flags(rt: &impl Print, a: Result<Asked, Refusal>) -> io::Result<()> {
    match a {
        Ok(asked) => two_flags(rt, asked),
        Err(why) => no(rt, why),
    }
}

fn two_flags(rt: &impl Print, asked: Asked) -> io::Result<()> {
    word(rt, b" flags")?;
    number(rt, u64::from(asked.reboot))?;
    number(rt, u64::from(asked.power_off))
}

// A record, and the part handed out.
pub(crate) fn recorded(
    rt: &impl Print,
    a: Result<Option<Entry>, Refusal>,
    kept: &[u8],
) -> io::Result<()> {
    match a {
        Ok(None) => word(rt, b" none")?,
        Ok(Some(e)) => entry(rt, e)?,
        Err(why) => no(rt, why)?,
    }
    bytes(rt, kept)
}

fn entry(rt: &impl Print, e: Entry) -> io::Result<()> {
    word(rt, b" record")?;
    number(rt, e.code as u64)?;
    number(rt, e.whole as u64)?;
    number(rt, e.kept as u64)
}

pub(crate) fn compared(rt: &impl Print, same: bool) -> io::Result<()> {
    if same {
        word(rt, b" same")
    } else {
        word(rt, b" changed")
    }
}

pub(crate) fn stores_compared(rt: &impl Print, same: bool) -> io::Result<()> {
    word(rt, b" stores")?;
    compared(rt, same)
}
