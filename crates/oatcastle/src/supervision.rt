// The supervisor's calls that change what they are lent: start, take, post an alert, set options.
// Assumes nothing: no exported function has a `requires`.
ghost use Rattle.std.specs.Prelude.{◌≡◌};
ghost use Rattle.supervisor.specs.Calls.{parts};
ghost use Rattle.oatcastle.specs.Answers.{call_outcome};
ghost use Rattle.oatcastle.specs.SupervisorCalls.{start_call, take_call, post_call, options_call};

use crate::answer_writing::{answered, count, number};
use supervisor::layout;

// Begins the supervisor with start data.
#[unsafe(no_mangle)]
pub extern "C" fn oatcastle_start(
    data: &[u8; layout::START_LENGTH],
    reader: &mut [u8],
    outbox: &mut [u8],
    factory: &mut [u8],
    settings: &mut [u8],
    registers: &mut [u8],
) -> u32
    ensures { call_outcome result
        (parts reader.new outbox.new factory.new settings.new registers.new)
        ≡ start_call «data».now
        (parts reader.old outbox.old factory.old settings.old registers.old) }
{
    let started = supervisor::start::start(data, reader, outbox, factory, settings, registers);
    number(started)
}

// Moves the smaller of the room and the bytes pending.
#[unsafe(no_mangle)]
pub extern "C" fn oatcastle_take(outbox: &mut [u8], room: &mut [u8], answer: &mut [u64; 1]) -> u32
    ensures { call_outcome result ((outbox.new, room.new), answer.new)
        ≡ take_call outbox.old room.old answer.old }
{
    let taken = supervisor::outbox::take(outbox, room);
    answered(taken.map(count), answer)
}

// Posts an alert.
#[unsafe(no_mangle)]
pub extern "C" fn oatcastle_post(registers: &mut [u8], action: u8, text: &[u8]) -> u32
    ensures { call_outcome result registers.new ≡ post_call registers.old action text.now }
{
    let posted = supervisor::alerts::post(registers, action, text);
    number(posted)
}

// Sets the options.
#[unsafe(no_mangle)]
pub extern "C" fn oatcastle_set_options(registers: &mut [u8], options: u64) -> u32
    ensures { call_outcome result registers.new ≡ options_call registers.old options }
{
    let set = supervisor::options::set_options(registers, options);
    number(set)
}
