// The commands of tests/rot_cases.py over the piece and a lent output.
// Assumes nothing: a command whose counts do not fit does nothing.
use crate::print;
use rot::{crc, reader, writer};
use std::io;
use text_lines::buffers::Buffer;
use text_lines::{fields, streams};

const PIECE_ROOM: usize = 1024;

const OUT_ROOM: usize = 600;

const OUT_FILL: u8 = 0xee;

// The piece, and the lent output, of which the last call wrote the first bytes.
#[derive(Clone, Copy)]
pub(crate) struct Case {
    piece: Buffer<PIECE_ROOM>,
    out: Buffer<OUT_ROOM>,
}

impl Case {
    // An output of known contents, and no piece.
    pub(crate) fn fresh() -> Case {
        Case {
            piece: Buffer::filled(0, 0),
            out: Buffer::filled(OUT_FILL, 0),
        }
    }

    // One line.
    pub(crate) fn command(&mut self, rt: &impl Print, line: &[u8]) -> io::Result<()> {
        match fields::key(line) {
            b'=' => self.begin(rt, line),
            b'+' | b'*' => {
                self.piece.add(line);
                Ok(())
            }
            b'r' => self.read(rt, fields::count(line, 1)),
            b'w' => self.write(rt, line),
            b'o' => {
                self.take_written();
                Ok(())
            }
            b'k' => streams::hex(rt, u64::from(crc::crc(self.piece.used())), 8),
            b'.' => streams::word(rt, b"\n"),
            _ => Ok(()),
        }
    }

    // A fresh case, with its name.
    fn begin(&mut self, rt: &impl Print, line: &[u8]) -> io::Result<()> {
        streams::name(rt, line)?;
        *self = Case::fresh();
        Ok(())
    }

    // Reads the piece with the first bytes of the output as room.
    fn read(&mut self, rt: &impl Print, room: usize) -> io::Result<()> {
        let Case { piece, out } = self;
        let answer = reader::read(piece.used(), &mut out.bytes[..room.min(OUT_ROOM)]);
        out.count = print::reading(rt, answer)?;
        streams::bytes(rt, reader::payload(piece.used()))?;
        streams::digest(rt, &out.bytes)
    }

    // Writes a message with the piece as its payload: the type is the line's first field, the room its second.
    fn write(&mut self, rt: &impl Print, line: &[u8]) -> io::Result<()> {
        let Case { piece, out } = self;
        let kind = fields::hex_u8(line, 1);
        let room = fields::count(line, 2).min(OUT_ROOM);
        let answer = writer::write(kind, piece.used(), &mut out.bytes[..room]);
        out.count = print::writing(rt, answer)?;
        streams::digest(rt, &out.bytes)
    }

    // Makes what was written the piece.
    fn take_written(&mut self) {
        let Case { piece, out } = self;
        piece.put(out.used(), 0);
        piece.count = out.count;
    }
}
