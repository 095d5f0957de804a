// The root-of-trust link's calls: the reader, the payload, the writer and the CRC.
// Assumes nothing: no exported function has a `requires`.
ghost use Rattle.std.specs.Prelude.{◌≡◌};
ghost use Rattle.rot.specs.Writing.{rot_message_with};
ghost use Rattle.rot.specs.Reading.{rot_read_report};
ghost use Rattle.oatcastle.specs.Answers.{call_outcome, given};
ghost use Rattle.oatcastle.specs.RotCalls.{rot_read_given, rot_read_call, rot_payload_call, rot_write_call, rot_crc_call};

use crate::answer_writing::{answered, count, fill, number};
use crate::kinds::{ROT_ECHOED, ROT_MESSAGE, ROT_NOTHING};
use rot::reader::Answer;

// Reads what came over the link.
#[tactic(auto, unfolding(rot::specs::Reading::rot_read_report))]
#[unsafe(no_mangle)]
pub extern "C" fn oatcastle_rot_read(input: &[u8], out: &mut [u8], answer: &mut [u64; 3]) -> u32
    ensures { call_outcome result (out.new, answer.new)
        ≡ rot_read_call input.now out.old answer.old }
{
    match rot::reader::read(input, out) {
        Ok(read) => answered(Ok(read_numbers(read)), answer),
        Err(why) => why.number(),
    }
}

// The numbers of the link's answer.
#[tactic(auto, unfolding(rot::specs::Reading::rot_read_report))]
fn read_numbers(read: Answer) -> [u64; 3]
    ensures { given result ≡ rot_read_given (rot_read_report (Ok read)) }
{
    match read {
        Answer::Nothing => [ROT_NOTHING, 0, 0],
        Answer::Message(head) => [ROT_MESSAGE, u64::from(head.kind), head.length as u64],
        Answer::Echoed(n) => [ROT_ECHOED, 0, n as u64],
    }
}

// Copies the payload of the message that `oatcastle_rot_read` hands out; input that it refuses is refused alike.
#[tactic(auto, unfolding(rot::specs::Reading::payload_given_report))]
#[unsafe(no_mangle)]
pub extern "C" fn oatcastle_rot_payload(input: &[u8], room: &mut [u8]) -> u32
    ensures { call_outcome result room.new ≡ rot_payload_call input.now room.old }
{
    match rot::reader::payload_given(input) {
        Ok(()) => number(fill(Ok(()), rot::reader::payload(input), room)),
        Err(why) => why.number(),
    }
}

// Writes a message of version 1.
#[tactic(auto, unfolding(rot::specs::Writing::rot_write_report))]
#[unsafe(no_mangle)]
pub extern "C" fn oatcastle_rot_write(
    kind: u8,
    payload: &[u8],
    out: &mut [u8],
    answer: &mut [u64; 1],
) -> u32
    ensures { call_outcome result (out.new, answer.new)
        ≡ rot_write_call (rot_message_with kind payload.now) out.old answer.old }
{
    match rot::writer::write(kind, payload, out) {
        Ok(n) => answered(Ok(count(n)), answer),
        Err(why) => why.number(),
    }
}

// The CRC of some bytes.
#[unsafe(no_mangle)]
pub extern "C" fn oatcastle_rot_crc(bytes: &[u8], answer: &mut [u64; 1]) -> u32
    ensures { call_outcome result answer.new ≡ rot_crc_call «bytes».now answer.old }
{
    let sum = rot::crc::crc(bytes);
    answered(Ok([u64::from(sum)]), answer)
}
