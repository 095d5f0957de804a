// Startup options.
// Assumes nothing: no function here has a `requires`.
ghost use Rattle.std.specs.Prelude.{◌≡◌};
ghost use Rattle.supervisor.specs.Calls.{registers_outcome, options_report, options_promise};

use crate::{layout, valid};
use refusals::Refusal;

// Sets the options, if the highest option bit set is at most 8.
#[tactic(auto, unfolding(crate::specs::Calls::options_promise))]
pub fn set_options(registers: &mut [u8], options: u64) -> Result<(), Refusal>
    ensures { registers_outcome (options_report result) registers.new ≡ options_promise registers.old options }
{
    if !valid::registers_are_valid(registers) {
        return Err(Refusal::BadState);
    }
    if !valid::options_are_allowed(options) {
        return Err(Refusal::BadValue);
    }
    octets::write_u64(registers, layout::OPTIONS_OFFSET, options);
    Ok(())
}
