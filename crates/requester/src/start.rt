// Start: from any bytes of sufficient length to a fresh state.
// Assumes nothing: no public function here has a `requires`.
ghost use Rattle.std.specs.Prelude.{◌≡◌};
ghost use Rattle.requester.specs.Calls.{main_parts, main_start_outcome, main_start_promise};

use crate::layout;
use refusals::Refusal;

// Begins the main processor's end: no number used, nothing outstanding.
pub fn start(reader: &mut [u8], requester: &mut [u8]) -> Result<(), Refusal>
    ensures { main_start_outcome result (main_parts reader.new requester.new)
        ≡ main_start_promise (main_parts reader.old requester.old) }
{
    if requester.len() < layout::REQUESTER_LENGTH {
        return Err(Refusal::BadState);
    }
    line::reader::start(reader)?;
    requester[..layout::REQUESTER_LENGTH].fill(0);
    Ok(())
}
