// The outbox: the bytes of the pending reply, taken by the caller as room allows.
// Assumes nothing: no public function here has a `requires`.
ghost use Rattle.std.specs.Prelude.{◌≡◌};
ghost use Rattle.supervisor.specs.Calls.{take_outcome, take_promise};

use crate::{layout, valid};
use refusals::Refusal;

// Moves the smaller of the room and the bytes pending.
#[tactic(auto, unfolding(crate::specs::Calls::take_promise))]
pub fn take(outbox: &mut [u8], room: &mut [u8]) -> Result<usize, Refusal>
    ensures { take_outcome result outbox.new room.new ≡ take_promise outbox.old room.old }
{
    if !valid::outbox_is_valid(outbox) {
        return Err(Refusal::BadState);
    }
    let from = usize::from(octets::read_u16(outbox, layout::OUTBOX_FROM_OFFSET));
    let to = usize::from(octets::read_u16(outbox, layout::OUTBOX_TO_OFFSET));
    let n = room.len().min(to - from);
    if n == 0 {
        return Ok(0);
    }
    let at = layout::OUTBOX_BYTES_OFFSET + from;
    let last = octets::read_u8(outbox, at + n - 1);
    octets::copy(outbox, at, n, room, 0);
    octets::write_u16(outbox, layout::OUTBOX_FROM_OFFSET, (from + n) as u16);
    outbox[layout::OUTBOX_TERMINATOR_OWED_OFFSET] = u8::from(last != 0);
    Ok(n)
}
