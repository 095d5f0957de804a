// The text that the program writes: a fixed room that is filled from its start on.
// Assumes nothing.
ghost use Rattle.std.specs.Prelude.{◌≡◌, ◌++◌, [], ◌+◌, ◌≤◌, length};
ghost use Rattle.audit.specs.Text.{longest_capture, text_room, decimal};

use std::marker::Model;

// The longest capture that is listed.
pub(crate) const LONGEST_CAPTURE: usize = 65536;

const ROOM: usize = 5 * LONGEST_CAPTURE + 11;

#[derive(Drop)]
pub(crate) struct Text {
    room: [u8; ROOM],
    end: usize,
}

impl Model for Text {
    ghost use Rattle.std.specs.Prelude.{List, ℕ, take, ◌≤◌};
    ghost use Rattle.audit.specs.Text.{text_room};

    ghost Value = { List ℕ };

    ghost view = { λ t. take t.end t.room };

    ghost invariant = { λ t. t.end ≤ text_room };
}

impl Text {
    // No bytes.
    pub(crate) fn new() -> Text
        ensures { result ≡ [] }
    {
        Text {
            room: [0; ROOM],
            end: 0,
        }
    }

    pub(crate) fn as_bytes(&self) -> &[u8]
        ensures { result.now ≡ self.now }
    {
        &self.room[..self.end]
    }

    // Adds bytes at the end.
    pub(crate) fn put(&mut self, bytes: &[u8])
        requires { length self.old + length bytes.now ≤ text_room }
        ensures { self.new ≡ self.old ++ bytes.now }
    {
        let end = self.end + bytes.len();
        self.room[self.end..end].copy_from_slice(bytes);
        self.end = end;
    }

    // Adds a number in decimal.
    pub(crate) fn put_number(&mut self, n: usize)
        requires n_le_longest_capture { n ≤ longest_capture }
        requires room { length self.old + 5 ≤ text_room }
        ensures wrote { self.new ≡ self.old ++ decimal n }
        ensures upper_bound { length self.new ≤ length self.old + 5 }
    {
        let mut digits = [0u8; 20];
        let count = io::decimal(n as u64, &mut digits);
        self.put(&digits[..count]);
    }
}
