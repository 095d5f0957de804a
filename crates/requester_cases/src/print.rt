// Prints the answers of the main processor's end, each with one space in front; refusals go by the numbers of documents 01 and 02.
// Assumes nothing: a write that fails ends the call with its error.
use line::reader::Head;
use refusals::Refusal;
use requester::outcome::{Handed, Status};
use requester::receive::Received;
use requester::state::{Stage, Standing};
use std::io;
use text_lines::streams;

// A refusal by its number.
fn no(rt: &impl Print, why: Refusal) -> io::Result<()> {
    streams::refused(rt, u64::from(why.number()))
}

// What start and interrupt answered.
pub(crate) fn done(rt: &impl Print, a: Result<(), Refusal>) -> io::Result<()> {
    match a {
        Ok(()) => streams::word(rt, b" done"),
        Err(why) => no(rt, why),
    }
}

// What request and send answered.
pub(crate) fn put(rt: &impl Print, a: Result<usize, Refusal>) -> io::Result<()> {
    match a {
        Ok(n) => {
            streams::word(rt, b" put")?;
            streams::number(rt, n as u64)
        }
        Err(why) => no(rt, why),
    }
}

// A call of receive that is refused, and so used nothing.
pub(crate) fn not_receiving(rt: &impl Print, why: Refusal) -> io::Result<()> {
    streams::number(rt, 0)?;
    no(rt, why)
}

// Whether a call of receive has nothing to report.
pub(crate) fn is_quiet(r: Received) -> bool {
    !r.ended && r.handed.is_none()
}

// What a call of receive answered.
pub(crate) fn receiving(rt: &impl Print, r: Received, reader: &[u8]) -> io::Result<()> {
    streams::number(rt, r.used as u64)?;
    handing(rt, r.handed, reader)?;
    word_if(rt, r.ended, b" ended")?;
    word_if(rt, r.unsent, b" out")
}

fn handing(rt: &impl Print, handed: Option<Handed>, reader: &[u8]) -> io::Result<()> {
    match handed {
        None => streams::word(rt, b" nothing"),
        Some(Handed::Answer(h)) => message(rt, b" answer", h, reader),
        Some(Handed::Status(s)) => status(rt, s),
        Some(Handed::Alert(h)) => message(rt, b" alert", h, reader),
    }
}

// A message's version, sequence, command, length and the digest of its data.
fn message(rt: &impl Print, kind: &[u8], h: Head, reader: &[u8]) -> io::Result<()> {
    streams::word(rt, kind)?;
    streams::number(rt, u64::from(h.version))?;
    streams::hex(rt, h.sequence, 16)?;
    streams::hex(rt, u64::from(h.command), 2)?;
    streams::number(rt, h.length as u64)?;
    streams::digest(rt, line::reader::message_data(reader, h.length))
}

fn status(rt: &impl Print, s: Status) -> io::Result<()> {
    streams::word(rt, b" status")?;
    streams::hex(rt, s.status, 16)?;
    streams::hex(rt, s.options, 16)?;
    streams::number(rt, u64::from(s.set_bits))
}

pub(crate) fn stating(rt: &impl Print, a: Result<Standing, Refusal>) -> io::Result<()> {
    match a {
        Ok(s) => standing(rt, s),
        Err(why) => no(rt, why),
    }
}

// What is outstanding: its stage, command and number, and two flags.
fn standing(rt: &impl Print, s: Standing) -> io::Result<()> {
    streams::word(rt, stage(s.stage))?;
    streams::hex(rt, u64::from(s.command), 2)?;
    streams::hex(rt, s.number, 16)?;
    word_if(rt, s.unsent, b" out")?;
    word_if(rt, s.original, b" original")
}

fn stage(kind: Stage) -> &'static [u8] {
    match kind {
        Stage::Idle => b" idle",
        Stage::Waiting => b" waiting",
        Stage::Fetch => b" fetch",
        Stage::Acknowledge => b" acknowledge",
        Stage::Alert => b" alert",
    }
}

fn word_if(rt: &impl Print, is_so: bool, word: &[u8]) -> io::Result<()> {
    if is_so {
        return streams::word(rt, word);
    }
    Ok(())
}
