// Request and reply numbers: two types, so that one is never passed for the other.
// Assumes nothing.
ghost use Rattle.std.specs.Prelude.{◌≡◌};
ghost use Rattle.supervisor.specs.Number.{reply_number, top_set};

use line::numbers;

#[derive(Clone, Copy, Debug, PartialEq, Eq)]
pub struct RequestNumber(pub u64);

#[derive(Clone, Copy, Debug, PartialEq, Eq)]
pub struct ReplyNumber(pub u64);

// The request's number with the top bit set.
pub fn reply_to(n: RequestNumber) -> ReplyNumber
    ensures { result ≡ reply_number n }
{
    ReplyNumber(with_top_bit(n.0))
}

fn with_top_bit(n: u64) -> u64
    ensures { result ≡ top_set n }
{
    n | numbers::TOP_BIT
}
