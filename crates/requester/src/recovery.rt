// An interrupt: the beginning of a recovery.
// Assumes nothing: no public function here has a `requires`.
ghost use Rattle.std.specs.Prelude.{◌≡◌};
ghost use Rattle.requester.specs.Calls.{interrupt_report, interrupt_outcome, interrupt_promise};

use crate::progress::Progress;
use crate::step::Step;
use crate::valid;
use refusals::Refusal;

// Begins a recovery, whose fetch is to go out under a new number; in a recovery it adds nothing.
pub fn interrupt(requester: &mut [u8]) -> Result<(), Refusal>
    ensures { interrupt_outcome (interrupt_report result) requester.new ≡ interrupt_promise requester.old }
{
    if !valid::requester_is_valid(requester) {
        return Err(Refusal::BadState);
    }
    let now = Progress::read(requester);
    if now.recovery.is_some() {
        return Ok(());
    }
    let Some(begun) = now.anew(Some(Step::Fetch)) else {
        return Err(Refusal::NoNumber);
    };
    begun.write(requester);
    Ok(())
}
