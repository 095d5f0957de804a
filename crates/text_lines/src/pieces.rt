// The bytes that a line adds to a piece, which stands at the start of a lent room.
// Assumes nothing: what does not fit is left out.
ghost use Rattle.std.specs.Prelude.{◌≡◌};
ghost use Rattle.text_lines.specs.Pieces.{last_again, adds, added_at, room_after, count_after};

use crate::fields;

// How many bytes a line adds.
#[tactic(auto, unfolding(crate::specs::Pieces::adds))]
fn how_many(line: &[u8]) -> usize
    ensures { result ≡ adds line.now }
{
    match fields::key(line) {
        b'+' => fields::behind_key(line).len() / 2,
        b'*' | b'<' => fields::count(line, 2),
        _ => 0,
    }
}

// The j-th of the piece's last bytes, as many as back says, again and again.
#[tactic(auto, unfolding(crate::specs::Pieces::last_again))]
fn last_again(piece: &[u8], back: usize, j: usize) -> u8
    ensures { result ≡ last_again back piece.now j }
{
    if back == 0 {
        return 0;
    }
    octets::read_u8(piece, piece.len().saturating_sub(back) + j % back)
}

// The j-th byte that a line adds to a piece.
#[tactic(auto, unfolding(crate::specs::Pieces::added_at))]
fn added_at(line: &[u8], piece: &[u8], j: usize) -> u8
    ensures { result ≡ added_at line.now piece.now j }
{
    match fields::key(line) {
        b'+' => fields::pair(fields::behind_key(line), j),
        b'*' => fields::hex_u8(line, 1),
        _ => last_again(piece, fields::count(line, 1), j),
    }
}

// Adds what the line says to the room's first n bytes; how many they are then.
pub fn add(line: &[u8], room: &mut [u8], n: usize) -> usize
    ensures { (result ≡ count_after line.now room.old n)
        × (room.new ≡ room_after line.now room.old n) }
{
    let more = how_many(line);
    if room.len() < n || room.len() - n < more {
        return n;
    }
    for j in 0..more {
        let byte = added_at(line, &room[..n], j);
        room[n + j] = byte;
    }
    n + more
}
