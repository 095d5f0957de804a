// What comes of a received frame: what is handed out, and what comes next.
// Assumes nothing.
ghost use Rattle.std.specs.Prelude.{◌≡◌, None};

use crate::step::Step;
use line::reader::Head;

// A status read, and how many of its bits are set.
#[derive(Clone, Copy, Debug, PartialEq, Eq)]
pub struct Status {
    pub status: u64,
    pub options: u64,
    pub set_bits: u32,
}

// What a call of `receive` hands out; `handed_report` in specs/Calls.antt gives the papers' numbers. The data of an answer lie in the
// reader's part: `line::reader::message_data` with its length.
#[derive(Clone, Copy, Debug, PartialEq, Eq)]
pub enum Handed {
    Answer(Head),
    Status(Status),
    Alert(Head),
}

// What comes next: a step of a recovery, or the original where there is no step, goes out under a new number.
#[derive(Clone, Copy, Debug, PartialEq, Eq)]
pub(crate) enum Next {
    Same,
    Again,
    Anew(Option<Step>),
    Idle,
}

#[derive(Clone, Copy, Debug, PartialEq, Eq)]
pub(crate) struct Outcome {
    pub handed: Option<Handed>,
    pub next: Next,
}

impl Outcome {
    // Nothing is handed out.
    pub(crate) fn silent(next: Next) -> Outcome
        ensures { result ≡ record { handed = None; next = next } }
    {
        Outcome { handed: None, next }
    }
}
