// The reader: what came over the link is refused, was nothing, is handed out, or is an echo request and answered.
// Assumes nothing of what a caller lends.
ghost use Rattle.std.specs.Prelude.{◌≡◌, ◌+◌, eqb};
ghost use Rattle.rot.specs.Message.{echo_response};
ghost use Rattle.rot.specs.Crc.{crc};
ghost use Rattle.rot.specs.Answers.{rot_outcome};
ghost use Rattle.rot.specs.Writing.{rot_message_with, rot_write_promise};
ghost use Rattle.rot.specs.Reading.{payload_length, crc_field, checked, judge_message, judge_length, rot_judge, judged_as, rot_read_report};
ghost use Rattle.rot.specs.Reading.{rot_read_promise, payload_promise, payload_place, payload_given_report, payload_given_promise};

use crate::refusals::Refusal;
use crate::{crc, limits, writer};

// A message that is handed out: its type, and how long its payload is, which lies in the input.
#[derive(Clone, Copy, Debug, PartialEq, Eq)]
pub struct Head {
    pub kind: u8,
    pub length: usize,
}

// What a call of `read` makes of the input, unless it refuses it.
#[derive(Clone, Copy, Debug, PartialEq, Eq)]
pub enum Answer {
    Nothing,
    Message(Head),
    Echoed(usize),
}

// Reads what came. An echo request is answered in `out`, which stays as it is otherwise.
// `rot_read_report` in specs/Reading.antt gives document 02's numbers and values.
pub fn read(input: &[u8], out: &mut [u8]) -> Result<Answer, Refusal>
    ensures { rot_outcome (rot_read_report result) out.new ≡ rot_read_promise input.now out.old }
{
    let Some(kind) = judge(input)? else {
        return Ok(Answer::Nothing);
    };
    let length = payload_length(input);
    if kind == limits::ECHO_REQUEST {
        return echo(octets::part(input, limits::HEADER_LENGTH, length), out);
    }
    Ok(Answer::Message(Head { kind, length }))
}

// Whether `payload` hands out a part: the refusals are those of `read`, but for the room.
pub fn payload_given(input: &[u8]) -> Result<(), Refusal>
    ensures { payload_given_report result ≡ payload_given_promise input.now }
{
    judge(input)?;
    Ok(())
}

// The payload of the message that `read` hands out; an empty part where it hands out none.
pub fn payload<'a>(input: &'a [u8]) -> &'a [u8]
    ensures result_value { result.now ≡ payload_promise input.now }
    ensures ref_ptr_value { result.ref_ptr ≡ payload_place input.entry }
{
    let Ok(Some(kind)) = judge(input) else {
        return &input[..0];
    };
    if kind == limits::ECHO_REQUEST {
        return &input[..0];
    }
    octets::part(input, limits::HEADER_LENGTH, payload_length(input))
}

// The answer to an echo request with this payload.
#[tactic(auto, unfolding(crate::specs::Reading::rot_read_report, crate::specs::Writing::rot_write_report))]
fn echo(payload: &[u8], out: &mut [u8]) -> Result<Answer, Refusal>
    ensures { rot_outcome (rot_read_report result) out.new
        ≡ rot_write_promise (rot_message_with echo_response payload.now) out.old }
{
    let n = writer::write(limits::ECHO_RESPONSE, payload, out)?;
    Ok(Answer::Echoed(n))
}

// How long the header says that the payload is.
fn payload_length(input: &[u8]) -> usize
    ensures { result ≡ payload_length input.now }
{
    usize::from(octets::read_u16(input, limits::LENGTH_OFFSET))
}

// What is made of the input: a message by its type, or nothing was sent. The tests down to the header's length.
#[tactic(auto, unfolding(crate::specs::Answers::refusal_number, crate::specs::Reading::judged_as, crate::specs::Reading::rot_judge))]
fn judge(input: &[u8]) -> Result<Option<u8>, Refusal>
    ensures { judged_as input.now result ≡ rot_judge input.now }
{
    if input.is_empty() {
        return Err(Refusal::NoInput);
    }
    let protocol = octets::read_u8(input, 0);
    if protocol == limits::NULL_PROTOCOL {
        return Ok(None);
    }
    if protocol != limits::VERSION_1 {
        return Err(Refusal::BadProtocol);
    }
    if input.len() < limits::HEADER_LENGTH {
        return Err(Refusal::ShortHeader);
    }
    judge_length(input)
}

// The tests of the payload's length.
#[tactic(auto, unfolding(crate::specs::Answers::refusal_number, crate::specs::Reading::judged_as, crate::specs::Reading::judge_length))]
fn judge_length(input: &[u8]) -> Result<Option<u8>, Refusal>
    ensures { judged_as input.now result ≡ judge_length input.now }
{
    let n = payload_length(input);
    if limits::LONGEST_PAYLOAD < n {
        return Err(Refusal::TooLong);
    }
    if input.len() < limits::HEADER_LENGTH + n {
        return Err(Refusal::CutShort);
    }
    judge_message(input, n)
}

// The tests of a message with a payload of n bytes.
#[tactic(auto, unfolding(crate::specs::Answers::refusal_number, crate::specs::Reading::judged_as, crate::specs::Reading::judge_message))]
fn judge_message(input: &[u8], n: usize) -> Result<Option<u8>, Refusal>
    requires { n ≡ payload_length input.now }
    ensures { judged_as input.now result ≡ judge_message input.now }
{
    let kind = octets::read_u8(input, limits::TYPE_OFFSET);
    if !has_its_crc(input, n) {
        return Err(Refusal::BadCrc);
    }
    if !writer::is_listed(kind) {
        return Err(Refusal::BadType);
    }
    Ok(Some(kind))
}

// Whether a message with a payload of n bytes carries its CRC.
fn has_its_crc(input: &[u8], n: usize) -> bool
    requires { n ≡ payload_length input.now }
    ensures { result ≡ eqb (crc_field input.now) (crc (checked input.now)) }
{
    let start = octets::part(input, 0, limits::START_LENGTH);
    let payload = octets::part(input, limits::HEADER_LENGTH, n);
    octets::read_u32(input, limits::START_LENGTH) == crc::crc_of_parts(start, payload)
}
