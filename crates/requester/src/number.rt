// Request and reply numbers: two types, so that one is never passed for the other. The supervisor has such types of its own: the two ends
// share the line layer alone, which takes any number.
// Assumes nothing of a request's number but that its top bit is clear, as the `requires` says.
ghost use Rattle.std.specs.Prelude.{◌≡◌, ◌<◌};
ghost use Rattle.line.specs.Numbers.{top_bit};
ghost use Rattle.requester.specs.Number.{main_reply_number};

use line::numbers;

#[derive(Clone, Copy, Debug, PartialEq, Eq)]
pub struct RequestNumber(pub u64);

#[derive(Clone, Copy, Debug, PartialEq, Eq)]
pub struct ReplyNumber(pub u64);

// The sequence of a reply to a request.
pub(crate) fn reply_to(n: RequestNumber) -> ReplyNumber
    requires { n.0 < top_bit }
    ensures { result ≡ main_reply_number n }
{
    ReplyNumber(n.0 + numbers::TOP_BIT)
}
