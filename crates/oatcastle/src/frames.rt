// The line layer's calls: the reader, the writer and the checksum.
// Assumes nothing: no exported function has a `requires`.
ghost use Rattle.std.specs.Prelude.{◌≡◌};
ghost use Rattle.line.specs.Reader.{read_report, tail_report};
ghost use Rattle.line.specs.Writer.{message_of_parts};
ghost use Rattle.oatcastle.specs.Answers.{call_outcome, given};
ghost use Rattle.oatcastle.specs.LineCalls.{line_start_call, read_given, line_read_call, line_data_call, tail_given, line_tail_call};
ghost use Rattle.oatcastle.specs.LineCalls.{line_write_call, collect_call, line_checksum_call};

use crate::answer_writing::{answered, count, fill, number};
use crate::kinds::{CHECKSUM, EMPTY, FAILURE, FORM, LENGTH, MAGIC, MESSAGE, MORE};
use line::reader::{Answer, Failure, Reading, Unfinished};

// Begins a fresh reader in a state of any contents.
#[unsafe(no_mangle)]
pub extern "C" fn oatcastle_line_start(state: &mut [u8]) -> u32
    ensures { call_outcome result state.new ≡ line_start_call state.old }
{
    let started = line::reader::start(state);
    number(started)
}

// Reads a piece to its end, or up to and with its first 00.
#[unsafe(no_mangle)]
pub extern "C" fn oatcastle_line_read(state: &mut [u8], piece: &[u8], answer: &mut [u64; 7]) -> u32
    ensures { call_outcome result (state.new, answer.new)
        ≡ line_read_call state.old piece.now answer.old }
{
    let read = line::reader::read(state, piece);
    answered(read.map(reading_numbers), answer)
}

// The numbers of the reader's answer.
fn reading_numbers(read: Reading) -> [u64; 7]
    ensures { given result ≡ read_given read.used (read_report read.answer) }
{
    let used = read.used as u64;
    match read.answer {
        Answer::More => [used, MORE, 0, 0, 0, 0, 0],
        Answer::Empty => [used, EMPTY, 0, 0, 0, 0, 0],
        Answer::Message(h) => {
            let version = u64::from(h.version);
            let command = u64::from(h.command);
            [
                used,
                MESSAGE,
                0,
                version,
                h.sequence,
                command,
                h.length as u64,
            ]
        }
        Answer::Failed(Failure::Form) => [used, FAILURE, FORM, 0, 0, 0, 0],
        Answer::Failed(Failure::Length) => [used, FAILURE, LENGTH, 0, 0, 0, 0],
        Answer::Failed(Failure::Checksum(sequence)) => [used, FAILURE, CHECKSUM, 0, sequence, 0, 0],
        Answer::Failed(Failure::Magic(sequence)) => [used, FAILURE, MAGIC, 0, sequence, 0, 0],
    }
}

// Takes a piece's bytes ahead of its first 00 into the reader's part.
#[unsafe(no_mangle)]
pub extern "C" fn oatcastle_collect(reader: &mut [u8], piece: &[u8], answer: &mut [u64; 1]) -> u32
    ensures { call_outcome result (reader.new, answer.new)
        ≡ collect_call reader.old piece.now answer.old }
{
    let collected = line::reader::collect(reader, piece);
    answered(collected.map(count), answer)
}

// Copies the data of the message that was just handed out with this length.
#[unsafe(no_mangle)]
pub extern "C" fn oatcastle_line_data(state: &[u8], length: u64, room: &mut [u8]) -> u32
    ensures { call_outcome result room.new ≡ line_data_call state.now length room.old }
{
    let n = length as usize;
    match line::reader::message_data_given(state, n) {
        Ok(()) => number(fill(Ok(()), line::reader::message_data(state, n), room)),
        Err(why) => why.number(),
    }
}

// How many bytes of an unfinished frame have come.
#[unsafe(no_mangle)]
pub extern "C" fn oatcastle_line_tail(state: &[u8], answer: &mut [u64; 2]) -> u32
    ensures { call_outcome result answer.new ≡ line_tail_call state.now answer.old }
{
    let tail = line::reader::tail(state);
    answered(tail.map(tail_numbers), answer)
}

// The numbers of an unfinished frame.
fn tail_numbers(tail: Unfinished) -> [u64; 2]
    ensures { given result ≡ tail_given (tail_report (Ok tail)) }
{
    match tail {
        Unfinished::Bytes(n) => [0, n as u64],
        Unfinished::Longer => [1, 0],
    }
}

// Writes the frame of a message whose data are head and then rest.
#[unsafe(no_mangle)]
pub extern "C" fn oatcastle_line_write(
    version: u32,
    sequence: u64,
    command: u8,
    head: &[u8],
    rest: &[u8],
    out: &mut [u8],
    answer: &mut [u64; 1],
) -> u32
    ensures { call_outcome result (out.new, answer.new)
        ≡ line_write_call (message_of_parts version sequence command head.now rest.now) out.old
        answer.old }
{
    let written = line::writer::write(version, sequence, command, head, rest, out);
    answered(written.map(count), answer)
}

// The checksum of a message's body.
#[unsafe(no_mangle)]
pub extern "C" fn oatcastle_line_checksum(body: &[u8], answer: &mut [u64; 1]) -> u32
    ensures { call_outcome result answer.new ≡ line_checksum_call body.now answer.old }
{
    let sum = line::sums::checksum(body);
    answered(Ok([u64::from(sum)]), answer)
}
