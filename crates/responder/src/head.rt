// The head of a reply: its version and its number.
// Assumes nothing.
ghost use Rattle.std.specs.Prelude.{◌≡◌};
ghost use Rattle.std.proofs.Math.Option.{none, some};
ghost use Rattle.line.specs.Numbers.{first_version};
ghost use Rattle.responder.specs.Receive.{reply_head, failure_head};

use line::numbers;
use supervisor::number;
use supervisor::number::{ReplyNumber, RequestNumber};

#[derive(Drop)]
pub(crate) struct ReplyHead {
    pub version: u32,
    pub number: ReplyNumber,
}

// The head of a reply of this version to a request.
pub(crate) fn head_to(version: u32, number: RequestNumber) -> ReplyHead
    ensures { result ≡ reply_head version number.0 }
{
    let reply = number::reply_to(number);
    ReplyHead {
        version,
        number: reply,
    }
}

// The head of a failure's reply whose request has no number.
pub(crate) fn unnumbered() -> ReplyHead
    ensures { result ≡ failure_head first_version none }
{
    let reply = ReplyNumber(numbers::ALL_ONES);
    ReplyHead {
        version: numbers::FIRST_VERSION,
        number: reply,
    }
}

// The head of a failure's reply whose request has this number.
pub(crate) fn numbered(sequence: u64) -> ReplyHead
    ensures { result ≡ failure_head first_version (some sequence) }
{
    head_to(numbers::FIRST_VERSION, RequestNumber(sequence))
}
