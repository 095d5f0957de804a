// The parts that a case lends to the main processor's end, and the calls that receive.
// Assumes nothing: a write that fails ends the call with its error.
use crate::print;
use requester::{layout, receive};
use std::io;
use text_lines::buffers::Buffer;
use text_lines::digest::digest_on;

// How many bytes each part has past its published length.
const SPARE: usize = 9;

const READER_ROOM: usize = line::reader::STATE_LENGTH + SPARE;

const REQUESTER_ROOM: usize = layout::REQUESTER_LENGTH + SPARE;

const PART_FILL: u8 = 0xa5;

// The first bytes of each part are lent.
#[derive(Clone, Copy)]
pub(crate) struct Parts {
    pub reader: Buffer<READER_ROOM>,
    pub requester: Buffer<REQUESTER_ROOM>,
}

// What is lent of a part. No method of `Buffer`: what its promise would say of the bytes behind a `&mut` is not proved.
pub(crate) fn lent<const ROOM: usize>(part: &mut Buffer<ROOM>) -> &mut [u8] {
    let n = part.count.min(ROOM);
    &mut part.bytes[..n]
}

impl Parts {
    // Parts of known contents, all lent.
    pub(crate) fn fresh() -> Parts {
        Parts {
            reader: Buffer::filled(PART_FILL, READER_ROOM),
            requester: Buffer::filled(PART_FILL, REQUESTER_ROOM),
        }
    }

    pub(crate) fn digest(&self) -> u32 {
        digest_on(digest_on(0, &self.reader.bytes), &self.requester.bytes)
    }

    // Calls of receive, each with so many bytes at most, until the piece is used up or one uses nothing.
    pub(crate) fn receive_by(
        &mut self,
        rt: &impl Print,
        piece: &[u8],
        most: usize,
    ) -> io::Result<()> {
        // A `loop`: each turn passes as many bytes as a call uses.
        let mut at = 0;
        loop {
            let used = self.receive_once(rt, octets::part(piece, at, most), most == 1)?;
            if used == 0 || piece.len() - at <= used {
                return Ok(());
            }
            at += used;
        }
    }

    // One call of receive; how many bytes it used. With brief, one that has nothing to report prints nothing.
    fn receive_once(&mut self, rt: &impl Print, piece: &[u8], brief: bool) -> io::Result<usize> {
        let Parts { reader, requester } = self;
        match receive::receive(piece, lent(reader), lent(requester)) {
            Ok(r) => {
                if !(brief && print::is_quiet(r)) {
                    print::receiving(rt, r, reader.used())?;
                }
                Ok(r.used)
            }
            Err(why) => {
                print::not_receiving(rt, why)?;
                Ok(0)
            }
        }
    }
}
