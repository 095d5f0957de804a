// Saving the settings to an image, and restoring them from one.
// Assumes nothing: no exported function has a `requires`.
ghost use Rattle.std.specs.Prelude.{◌≡◌};
ghost use Rattle.oatcastle.specs.Answers.{call_outcome};
ghost use Rattle.oatcastle.specs.SavingCalls.{save_call, restore_call};

use crate::answer_writing::{DONE, answered, count};
use refusals::Refusal;
use saving::restore::RestoreError;

// Writes the settings that have a value as an image.
#[unsafe(no_mangle)]
pub extern "C" fn oatcastle_save(settings: &[u8], out: &mut [u8], answer: &mut [u64; 1]) -> u32
    ensures { call_outcome result (out.new, answer.new)
        ≡ save_call settings.now out.old answer.old }
{
    let saved = saving::save::save(settings, out);
    answered(saved.map(count), answer)
}

// Replaces the saved settings by those of an image, if it has no fault.
#[unsafe(no_mangle)]
pub extern "C" fn oatcastle_restore(settings: &mut [u8], image: &[u8], answer: &mut [u64; 1]) -> u32
    ensures { call_outcome result (settings.new, answer.new)
        ≡ restore_call settings.old image.now answer.old }
{
    match saving::restore::restore(settings, image) {
        Ok(()) => DONE,
        Err(RestoreError::Refused) => Refusal::BadState.number(),
        Err(RestoreError::Fault(fault, offset)) => {
            *answer = [offset as u64];
            fault.number()
        }
    }
}
