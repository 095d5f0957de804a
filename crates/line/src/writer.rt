// The writer: a message's frame into a lent room, or a refusal that leaves the room as it is.
// The message is put together in a local array, so that the room is tested before it is written. Assumes nothing of what a caller lends.
ghost use Rattle.std.specs.Prelude.{◌≡◌, [], ◌∷◌, ◌++◌, ◌+◌, ◌≤◌, ltb, length, take};
ghost use Rattle.line.specs.Limits.{shortest_message, longest_message, longest_data};
ghost use Rattle.line.specs.Message.{message};
ghost use Rattle.line.specs.Cobs.{cobs};
ghost use Rattle.line.specs.Writer.{message_of_parts, write_outcome, write_promise, write_into};

use crate::{cobs, limits, sums};
use refusals::Refusal;

// A message with few data is put together in an array of its own.
const SHORT_MESSAGE: usize = 64;

const SHORT_DATA: usize = SHORT_MESSAGE - limits::SHORTEST_MESSAGE;

// Writes the frame of a message whose data are head and then rest, and says how many bytes it has.
pub fn write(
    version: u32,
    sequence: u64,
    command: u8,
    head: &[u8],
    rest: &[u8],
    out: &mut [u8],
) -> Result<usize, Refusal>
    ensures { write_outcome result out.new
        ≡ write_promise (message_of_parts version sequence command head.now rest.now) out.old }
{
    if limits::LONGEST_DATA < head.len() {
        return Err(Refusal::TooLong);
    }
    if limits::LONGEST_DATA - head.len() < rest.len() {
        return Err(Refusal::TooLong);
    }
    if head.len() + rest.len() <= SHORT_DATA {
        let mut message = [0u8; SHORT_MESSAGE];
        return write_by(version, sequence, command, head, rest, &mut message, out);
    }
    let mut message = [0u8; limits::LONGEST_MESSAGE];
    write_by(version, sequence, command, head, rest, &mut message, out)
}

// The same with an array that the message is put together in. `assemble` takes the parts one by one: a record of them would be made and
// taken apart at once.
fn write_by(
    version: u32,
    sequence: u64,
    command: u8,
    head: &[u8],
    rest: &[u8],
    m: &mut [u8],
    out: &mut [u8],
) -> Result<usize, Refusal>
    requires rest_len_bound { length head.now + length rest.now ≤ longest_data }
    requires rest_in_bounds { shortest_message + length head.now + length rest.now ≤ length m.old }
    ensures { write_outcome result out.new
        ≡ write_promise (message_of_parts version sequence command head.now rest.now) out.old }
{
    let n = assemble(version, sequence, command, head, rest, m);
    send(m, n, out)
}

// The message's bytes at the start of an array, and how many they are.
fn assemble(
    version: u32,
    sequence: u64,
    command: u8,
    head: &[u8],
    rest: &[u8],
    m: &mut [u8],
) -> usize
    requires rest_len_bound { length head.now + length rest.now ≤ longest_data }
    requires rest_in_bounds { shortest_message + length head.now + length rest.now ≤ length m.old }
    ensures value { result ≡ shortest_message + length head.now + length rest.now }
    ensures m_after { take result m.new ≡ message (message_of_parts version sequence command head.now rest.now) }
{
    octets::write_u32(m, 0, limits::MAGIC);
    octets::write_u32(m, 4, version);
    octets::write_u64(m, 8, sequence);
    m[16] = command;
    octets::copy(head, 0, head.len(), m, limits::HEADER_LENGTH);
    let at = limits::HEADER_LENGTH + head.len();
    octets::copy(rest, 0, rest.len(), m, at);
    let end = at + rest.len();
    let sum = sums::checksum_of_first(m, end);
    octets::write_u16(m, end, sum);
    end + limits::CHECKSUM_LENGTH
}

// The frame of the message in the first n bytes of m.
fn send(m: &[u8], n: usize, out: &mut [u8]) -> Result<usize, Refusal>
    requires n_le_longest_message { n ≤ longest_message }
    requires n_in_bounds { n ≤ length m.now }
    ensures { write_outcome result out.new ≡ write_into (cobs (take n m.now) ++ (0 ∷ [])) out.old }
{
    if !has_room(m, n, out.len()) {
        return Err(Refusal::NoRoom);
    }
    let k = cobs::encode(m, n as u32, out) as usize;
    out[k] = 0;
    Ok(k + 1)
}

// Whether a room is long enough for the form and its 00. The form is measured only where the room could be too small for it.
fn has_room(m: &[u8], n: usize, room: usize) -> bool
    requires n_le_longest_message { n ≤ longest_message }
    requires n_in_bounds { n ≤ length m.now }
    ensures { result ≡ ltb (length (cobs (take n m.now))) room }
{
    if limits::LONGEST_FORM < room {
        return true;
    }
    (cobs::form_length(m, n as u32) as usize) < room
}
