// What a call returns, and what it hands out to the caller's rooms: numbers as its answer, bytes at the start of a room.
// Assumes nothing of what a caller lends.
ghost use Rattle.std.specs.Prelude.{◌≡◌, [], ◌∷◌};
ghost use Rattle.refusals.specs.Refusals.{refusal_of};
ghost use Rattle.oatcastle.specs.Answers.{call_outcome, call_number, answering, numbers_of, room_told, room_left};

use refusals::Refusal;

// What a call that is carried out returns.
pub(crate) const DONE: u32 = 0;

// What a call returns that hands out nothing.
pub(crate) fn number(done: Result<(), Refusal>) -> u32
    ensures { result ≡ call_number (refusal_of done) }
{
    match done {
        Ok(()) => DONE,
        Err(why) => why.number(),
    }
}

// What a call returns whose whole answer is numbers, which it writes.
pub(crate) fn answered<const N: usize>(
    told: Result<[u64; N], Refusal>,
    answer: &mut [u64; N],
) -> u32
    ensures { call_outcome result answer.new ≡ answering (numbers_of told.entry) answer.old }
{
    match told {
        Ok(numbers) => {
            *answer = numbers;
            DONE
        }
        Err(why) => why.number(),
    }
}

// A count as the only number of an answer.
pub(crate) fn count(n: usize) -> [u64; 1]
    ensures { result ≡ n ∷ [] }
{
    [n as u64]
}

// What was told, once bytes stand at the start of a room; a room that is too short is a refusal, and any refusal leaves the room.
pub(crate) fn fill<T: Copy>(
    told: Result<T, Refusal>,
    bytes: &[u8],
    room: &mut [u8],
) -> Result<T, Refusal>
    ensures { (result ≡ room_told told «bytes».now room.old)
        × (room.new ≡ room_left told «bytes».now room.old) }
{
    let given = told?;
    if room.len() < bytes.len() {
        return Err(Refusal::NoRoom);
    }
    octets::copy(bytes, 0, bytes.len(), room, 0);
    Ok(given)
}
