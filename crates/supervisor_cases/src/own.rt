// The caller's own bytes: the start data, the piece and the image; and the digests noted of the parts.
// Assumes nothing: a command whose counts do not fit does nothing.
use crate::parts::Parts;
use supervisor::layout;
use text_lines::buffers::Buffer;
use text_lines::fields;

pub(crate) const PIECE_ROOM: usize = 8500;

// The digests are those of the reader and the outbox, and of the stores and the registers.
#[derive(Clone, Copy)]
pub(crate) struct Own {
    pub data: [u8; layout::START_LENGTH],
    pub piece: Buffer<PIECE_ROOM>,
    pub image: Buffer<PIECE_ROOM>,
    pub others_noted: u32,
    pub stores_noted: u32,
}

impl Own {
    // Start data and notes of zeros, no piece, no image.
    pub(crate) fn fresh() -> Own {
        Own {
            data: [0; layout::START_LENGTH],
            piece: Buffer::filled(0, 0),
            image: Buffer::filled(0, 0),
            others_noted: 0,
            stores_noted: 0,
        }
    }

    // What a command does to these bytes; a command that neither adds to the piece nor is m, n or v leaves no piece.
    pub(crate) fn prepare(&mut self, line: &[u8], parts: &Parts) {
        match fields::key(line) {
            b'n' => {}
            b'm' => self.note(parts),
            b'v' => self.image.count = fields::count(line, 1),
            b'=' => *self = Own::fresh(),
            b'I' => self.make_image(),
            b'd' => self.put_start_data(fields::count(line, 1)),
            b'+' | b'*' | b'<' => self.piece.add(line),
            _ => self.piece.count = 0,
        }
    }

    fn note(&mut self, parts: &Parts) {
        self.others_noted = parts.digest_of_others();
        self.stores_noted = parts.digest_of_stores();
    }

    // The piece becomes the image.
    fn make_image(&mut self) {
        let piece = self.piece;
        self.image = piece;
        self.piece.count = 0;
    }

    // The piece is stored in the start data.
    fn put_start_data(&mut self, at: usize) {
        let Own { data, piece, .. } = self;
        let new = piece.used();
        octets::copy(new, 0, new.len(), data, at);
        piece.count = 0;
    }
}
