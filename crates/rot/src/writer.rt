// The writer: a message's bytes into a lent room, or a refusal that leaves the room as it is.
// Assumes nothing of what a caller lends.
ghost use Rattle.std.specs.Prelude.{◌≡◌, ◌+◌, ◌≤◌, length};
ghost use Rattle.octets.specs.Bytes.{overlay};
ghost use Rattle.rot.specs.Limits.{rot_header_length, longest_payload};
ghost use Rattle.rot.specs.Message.{listed_type, crc_of, rot_message};
ghost use Rattle.rot.specs.Answers.{rot_outcome};
ghost use Rattle.rot.specs.Writing.{rot_write_report, rot_message_with, rot_write_promise};

use crate::refusals::Refusal;
use crate::{crc, limits};

// Writes a message of version 1; how many bytes it has.
pub fn write(kind: u8, payload: &[u8], out: &mut [u8]) -> Result<usize, Refusal>
    ensures { rot_outcome (rot_write_report result) out.new
        ≡ rot_write_promise (rot_message_with kind payload.now) out.old }
{
    if limits::LONGEST_PAYLOAD < payload.len() {
        return Err(Refusal::TooLong);
    }
    if !is_listed(kind) {
        return Err(Refusal::BadType);
    }
    let n = limits::HEADER_LENGTH + payload.len();
    if out.len() < n {
        return Err(Refusal::NoRoom);
    }
    put(kind, payload, out);
    Ok(n)
}

// Whether a type is 01 to 09.
pub(crate) fn is_listed(kind: u8) -> bool
    ensures { result ≡ listed_type kind }
{
    (limits::ERROR_RESPONSE..=limits::SINK_RESPONSE).contains(&kind)
}

// The message's bytes at the start of the room.
#[tactic(auto, using(crate::proofs::Message::assembled))]
fn put(kind: u8, payload: &[u8], out: &mut [u8])
    requires payload_len_bound { length payload.now ≤ longest_payload }
    requires payload_in_bounds { rot_header_length + length payload.now ≤ length out.old }
    ensures { out.new ≡ overlay 0 (rot_message (rot_message_with kind payload.now)) out.old }
{
    let crc = crc_for(kind, payload);
    out[0] = limits::VERSION_1;
    out[limits::TYPE_OFFSET] = kind;
    octets::write_u16(out, limits::LENGTH_OFFSET, payload.len() as u16);
    octets::write_u32(out, limits::START_LENGTH, crc);
    octets::copy(payload, 0, payload.len(), out, limits::HEADER_LENGTH);
}

// The CRC that a message carries.
#[tactic(auto, unfolding(octets::specs::Bytes::bytes, crate::specs::Message::header_start, crate::specs::Message::crc_of))]
fn crc_for(kind: u8, payload: &[u8]) -> u32
    requires { length payload.now ≤ longest_payload }
    ensures { result ≡ crc_of (rot_message_with kind payload.now) }
{
    let [low, high] = (payload.len() as u16).to_le_bytes();
    let start = [limits::VERSION_1, kind, low, high];
    crc::crc_of_parts(&start, payload)
}
