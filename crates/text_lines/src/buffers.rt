// A room of a fixed length, and how many bytes from its start on are in use.
// Assumes nothing: a count past the room's end is that of the whole room.
ghost use Rattle.std.specs.Prelude.{◌≡◌, replicate, length};
ghost use Rattle.octets.specs.Bytes.{run, copied};
ghost use Rattle.text_lines.specs.Pieces.{room_after, count_after};

use crate::pieces;

#[derive(Clone, Copy)]
pub struct Buffer<const ROOM: usize> {
    pub bytes: [u8; ROOM],
    pub count: usize,
}

impl<const ROOM: usize> Buffer<ROOM> {
    // A room of one byte again and again, of which so many bytes are in use.
    pub fn filled(byte: u8, count: usize) -> Buffer<ROOM>
        ensures { (result.bytes ≡ replicate ROOM byte) × (result.count ≡ count) }
    {
        Buffer {
            bytes: [byte; ROOM],
            count,
        }
    }

    // The bytes in use.
    pub fn used(&self) -> &[u8]
        ensures result_value { result.now ≡ run 0 self.now.count self.now.bytes }
        ensures ref_ptr_value { result.ref_ptr ≡ self.entry.ref_ptr }
    {
        octets::part(&self.bytes, 0, self.count)
    }

    // Adds what a line says.
    pub fn add(&mut self, line: &[u8])
        ensures { (self.new.bytes ≡ room_after line.now self.old.bytes self.old.count)
            × (self.new.count ≡ count_after line.now self.old.bytes self.old.count) }
    {
        let n = pieces::add(line, &mut self.bytes, self.count);
        self.count = n;
    }

    // Puts bytes at an offset; what is in use stays.
    pub fn put(&mut self, s: &[u8], at: usize)
        ensures { (self.new.bytes ≡ copied s.now 0 (length s.now) self.old.bytes at)
            × (self.new.count ≡ self.old.count) }
    {
        let n = s.len();
        octets::copy(s, 0, n, &mut self.bytes, at);
    }
}
