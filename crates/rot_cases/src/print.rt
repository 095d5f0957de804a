// Prints the answers of the root-of-trust link, each with one space in front; refusals go by the numbers of document 02.
// Assumes nothing: a write that fails ends the call with its error.
use rot::reader::Answer;
use rot::refusals::Refusal;
use std::io;
use text_lines::streams::{hex, number, refused, word};

// What read answered; how many bytes it wrote.
pub(crate) fn reading(rt: &impl Print, a: Result<Answer, Refusal>) -> io::Result<usize> {
    match a {
        Err(why) => no(rt, why),
        Ok(Answer::Nothing) => {
            word(rt, b" nothing")?;
            Ok(0)
        }
        Ok(Answer::Message(head)) => {
            word(rt, b" message")?;
            hex(rt, u64::from(head.kind), 2)?;
            number(rt, head.length as u64)?;
            Ok(0)
        }
        Ok(Answer::Echoed(n)) => put(rt, b" echoed", n),
    }
}

// What write answered; how many bytes it wrote.
pub(crate) fn writing(rt: &impl Print, a: Result<usize, Refusal>) -> io::Result<usize> {
    match a {
        Err(why) => no(rt, why),
        Ok(n) => put(rt, b" wrote", n),
    }
}

// How many bytes were put out.
fn put(rt: &impl Print, how: &[u8], n: usize) -> io::Result<usize> {
    word(rt, how)?;
    number(rt, n as u64)?;
    Ok(n)
}

// A refusal, which puts out nothing.
fn no(rt: &impl Print, why: Refusal) -> io::Result<usize> {
    refused(rt, u64::from(why.number()))?;
    Ok(0)
}
