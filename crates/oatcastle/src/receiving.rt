// The supervisor's calls that receive.
// Assumes nothing: no exported function has a `requires`.
ghost use Rattle.std.specs.Prelude.{◌≡◌};
ghost use Rattle.supervisor.specs.Calls.{parts};
ghost use Rattle.counters.specs.Ended.{step_report, served_report};
ghost use Rattle.responder.specs.Receive.{step_promise};
ghost use Rattle.oatcastle.specs.Answers.{call_outcome, numbers_of};
ghost use Rattle.oatcastle.specs.ReceiveCalls.{receive_call, step_given, step_call};

use crate::answer_writing::{answered, number};
use crate::kinds::{EMPTY, FAILURE, KEY_SET, MESSAGE, MORE};
use counters::outcome::Outcome;
use refusals::Refusal;

// Reads a whole piece and carries out each request in it.
#[tactic(auto, unfolding(responder::specs::Receive::receive_report))]
#[unsafe(no_mangle)]
pub extern "C" fn oatcastle_receive(
    image: &[u8],
    piece: &[u8],
    reader: &mut [u8],
    outbox: &mut [u8],
    factory: &[u8],
    settings: &mut [u8],
    registers: &mut [u8],
) -> u32
    ensures { call_outcome result
        (parts reader.new outbox.new factory.now settings.new registers.new)
        ≡ receive_call image.now
        (parts reader.old outbox.old factory.now settings.old registers.old)
        piece.now }
{
    let received = responder::receive::receive(
        image, piece, reader, outbox, factory, settings, registers,
    );
    number(received)
}

// Reads a piece up to and with its first 00, or to its end, and carries out the request that ends there.
#[unsafe(no_mangle)]
pub extern "C" fn oatcastle_step(
    image: &[u8],
    piece: &[u8],
    reader: &mut [u8],
    outbox: &mut [u8],
    factory: &[u8],
    settings: &mut [u8],
    registers: &mut [u8],
    answer: &mut [u64; 6],
) -> u32
    ensures { call_outcome result (
      parts reader.new outbox.new factory.now settings.new registers.new,
      answer.new,
    ) ≡ step_call image.now
        (parts reader.old outbox.old factory.now settings.old registers.old)
        piece.now answer.old }
{
    let told = step_told(
        image, piece, reader, outbox, factory, settings, registers, answer,
    );
    told.0
}

// A step with its answer: its number, and how the frame that it ended did.
pub(crate) fn step_told(
    image: &[u8],
    piece: &[u8],
    reader: &mut [u8],
    outbox: &mut [u8],
    factory: &[u8],
    settings: &mut [u8],
    registers: &mut [u8],
    answer: &mut [u64; 6],
) -> (u32, Outcome)
    ensures { (call_outcome result.0 (
      parts reader.new outbox.new factory.now settings.new registers.new,
      answer.new,
    ) ≡ step_call image.now
        (parts reader.old outbox.old factory.now settings.old registers.old)
        piece.now answer.old)
        × (step_report result.1
        ≡ (step_promise image.now
        (parts reader.old outbox.old factory.now settings.old registers.old)
        piece.now).ended) }
{
    let stepped = responder::receive::step(
        image, piece, reader, outbox, factory, settings, registers,
    );
    let outcome = stepped.outcome;
    let numbers = step_numbers(stepped.used as u64, outcome);
    (answered(numbers, answer), outcome)
}

// The numbers of a step's answer.
#[tactic(auto, unfolding(counters::specs::Ended::step_report, counters::specs::Ended::served_report))]
fn step_numbers(used: u64, ended: Outcome) -> Result<[u64; 6], Refusal>
    ensures { numbers_of result ≡ step_given used (step_report ended) (served_report ended) }
{
    let numbers = match ended {
        Outcome::Refused => return Err(Refusal::BadState),
        Outcome::More => [used, MORE, 0, 0, 0, 0],
        Outcome::Empty => [used, EMPTY, 0, 0, 0, 0],
        Outcome::Request(command) => [used, MESSAGE, 0, u64::from(command), 0, 0],
        Outcome::KeySet(key, result) => [
            used,
            MESSAGE,
            0,
            KEY_SET,
            u64::from(key),
            u64::from(result),
        ],
        Outcome::Failure(reason) => [used, FAILURE, u64::from(reason), 0, 0, 0],
    };
    Ok(numbers)
}
