// Receiving: a piece of the received stream, up to one frame's end.
// Assumes nothing: no public function here has a `requires`.
ghost use Rattle.std.specs.Prelude.{◌≡◌, true, ◌≤◌};
ghost use Rattle.line.specs.Limits.{longest_form};
ghost use Rattle.line.specs.Reader.{unfinished, longer, tail_promise};
ghost use Rattle.requester.specs.Calls.{main_parts, main_valid_parts, main_receive_outcome, main_receive_valid, main_receive_promise};

use crate::outcome::{Handed, Outcome};
use crate::progress::Progress;
use crate::{hearing, layout, progress, valid};
use line::reader::{Reading, Unfinished};
use refusals::Refusal;

// How many bytes were read, what is handed out, whether a recovery ended with 14 (`end_report`), and whether a frame is to go out.
#[derive(Clone, Copy, Debug, PartialEq, Eq)]
pub struct Received {
    pub used: usize,
    pub handed: Option<Handed>,
    pub ended: bool,
    pub unsent: bool,
}

// Reads a piece up to and with its first 00 or a frame's 4,141st byte, or to its end, and goes by what was heard.
// C lends both parts by themselves, and the two functions below take them on.
pub fn receive(piece: &[u8], reader: &mut [u8], requester: &mut [u8]) -> Result<Received, Refusal>
    ensures { main_receive_outcome result (main_parts reader.new requester.new)
        ≡ main_receive_promise (main_parts reader.old requester.old) piece.now }
{
    if !valid::requester_is_valid(requester) {
        return Err(Refusal::BadState);
    }
    match line::reader::tail(reader)? {
        Unfinished::Bytes(n) => listen(piece, reader, requester, n),
        Unfinished::Longer => skip(piece, reader, requester),
    }
}

// A frame of which n bytes have come, n at most 4,140.
fn listen(
    piece: &[u8],
    reader: &mut [u8],
    requester: &mut [u8],
    n: usize,
) -> Result<Received, Refusal>
    requires requester_value { main_valid_parts (main_parts reader.old requester.old) ≡ true }
    requires reader_value { tail_promise reader.old ≡ unfinished n }
    requires n_le_longest_form { n ≤ longest_form }
    ensures { main_receive_outcome result (main_parts reader.new requester.new)
        ≡ main_receive_valid (main_parts reader.old requester.old) piece.now }
{
    let end = (layout::OVERLONG - n).min(piece.len());
    let Reading { used, answer } = line::reader::read(reader, &piece[..end])?;
    let Outcome { handed, next } = hearing::settle(reader, Progress::read(requester), answer);
    let ended = progress::go_on(requester, next);
    Ok(Received {
        used,
        handed,
        ended,
        unsent: Progress::read(requester).is_unsent(),
    })
}

// What is left of a frame of more than 4,140 bytes.
fn skip(piece: &[u8], reader: &mut [u8], requester: &[u8]) -> Result<Received, Refusal>
    requires requester_value { main_valid_parts (main_parts reader.old requester.now) ≡ true }
    requires reader_value { tail_promise reader.old ≡ longer }
    ensures { main_receive_outcome result (main_parts reader.new requester.now)
        ≡ main_receive_valid (main_parts reader.old requester.now) piece.now }
{
    let read = line::reader::read(reader, piece)?;
    Ok(Received {
        used: read.used,
        handed: None,
        ended: false,
        unsent: Progress::read(requester).is_unsent(),
    })
}
