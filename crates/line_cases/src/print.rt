// Prints answers, each with one space in front; failures and refusals go by the numbers of document 01.
// Assumes nothing: a write that fails ends the call with its error.
use line::numbers;
use line::reader::{Answer, Failure, Head, Unfinished, message_data};
use refusals::Refusal;
use std::io;
use text_lines::streams::{digest, hex, number, refused, word};

// A refusal by its number.
pub(crate) fn no(rt: &impl Print, why: Refusal) -> io::Result<()> {
    refused(rt, u64::from(why.number()))
}

fn failed(rt: &impl Print, reason: u8) -> io::Result<()> {
    word(rt, b" fail")?;
    number(rt, u64::from(reason))
}

fn failed_at(rt: &impl Print, reason: u8, sequence: u64) -> io::Result<()> {
    failed(rt, reason)?;
    hex(rt, sequence, 16)
}

fn failure(rt: &impl Print, why: Failure) -> io::Result<()> {
    match why {
        Failure::Form => failed(rt, numbers::REASON_FORM),
        Failure::Length => failed(rt, numbers::REASON_LENGTH),
        Failure::Checksum(sequence) => failed_at(rt, numbers::REASON_CHECKSUM, sequence),
        Failure::Magic(sequence) => failed_at(rt, numbers::REASON_MAGIC, sequence),
    }
}

fn message(rt: &impl Print, head: Head, state: &[u8]) -> io::Result<()> {
    word(rt, b" message")?;
    hex(rt, u64::from(head.version), 8)?;
    hex(rt, head.sequence, 16)?;
    hex(rt, u64::from(head.command), 2)?;
    number(rt, head.length as u64)?;
    digest(rt, message_data(state, head.length))
}

// What read answered.
pub(crate) fn reading(rt: &impl Print, a: Answer, state: &[u8]) -> io::Result<()> {
    match a {
        Answer::More => Ok(()),
        Answer::Empty => word(rt, b" empty"),
        Answer::Message(head) => message(rt, head, state),
        Answer::Failed(why) => failure(rt, why),
    }
}

pub(crate) fn starting(rt: &impl Print, a: Result<(), Refusal>) -> io::Result<()> {
    match a {
        Ok(()) => word(rt, b" started"),
        Err(why) => no(rt, why),
    }
}

// What collect or write answered: the number of bytes taken or written, and none for a refusal.
pub(crate) fn counting(
    rt: &impl Print,
    how: &[u8],
    a: Result<usize, Refusal>,
) -> io::Result<usize> {
    match a {
        Ok(n) => {
            word(rt, how)?;
            number(rt, n as u64)?;
            Ok(n)
        }
        Err(why) => {
            no(rt, why)?;
            Ok(0)
        }
    }
}

pub(crate) fn tail(rt: &impl Print, a: Result<Unfinished, Refusal>) -> io::Result<()> {
    match a {
        Ok(Unfinished::Longer) => word(rt, b" tail longer"),
        Ok(Unfinished::Bytes(n)) => {
            word(rt, b" tail")?;
            number(rt, n as u64)
        }
        Err(why) => no(rt, why),
    }
}

// What message_data_given answered, with the digest of the data.
pub(crate) fn data(rt: &impl Print, a: Result<(), Refusal>, s: &[u8]) -> io::Result<()> {
    match a {
        Ok(()) => {
            word(rt, b" data")?;
            digest(rt, s)
        }
        Err(why) => no(rt, why),
    }
}
