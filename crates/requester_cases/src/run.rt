// The commands of tests/requester_cases.py over lent parts, the piece and a lent output.
// Assumes nothing: a command whose counts do not fit does nothing.
use crate::parts::{Parts, lent};
use crate::print;
use requester::{recovery, sending, start, state};
use std::io;
use text_lines::buffers::Buffer;
use text_lines::{fields, streams};

const PIECE_ROOM: usize = 8320;

const OUT_ROOM: usize = 4199;

const OUT_FILL: u8 = 0xee;

// The parts, the piece and the lent output; then the digest noted of the parts.
#[derive(Clone, Copy)]
pub(crate) struct Case {
    parts: Parts,
    piece: Buffer<PIECE_ROOM>,
    out: [u8; OUT_ROOM],
    noted: u32,
}

impl Case {
    // Fresh parts, an output of known contents, and no piece.
    pub(crate) fn fresh() -> Case {
        Case {
            parts: Parts::fresh(),
            piece: Buffer::filled(0, 0),
            out: [OUT_FILL; OUT_ROOM],
            noted: 0,
        }
    }

    // One line: a letter is a call. Of a cut the case keeps nothing.
    pub(crate) fn command(&mut self, rt: &impl Print, line: &[u8]) -> io::Result<()> {
        let key = fields::key(line);
        match key {
            b'=' => self.begin(rt, line),
            b'/' => {
                let mut cut = *self;
                cut.call(rt, line, key)
            }
            b'?' => same(rt, self.parts.digest() == self.noted),
            b'.' => streams::word(rt, b"\n"),
            _ if b'a' <= key => self.call(rt, line, key),
            _ => {
                self.set(line, key);
                Ok(())
            }
        }
    }

    // A fresh case, with its name, started.
    fn begin(&mut self, rt: &impl Print, line: &[u8]) -> io::Result<()> {
        streams::name(rt, line)?;
        *self = Case::fresh();
        let Parts { reader, requester } = &mut self.parts;
        let _ = start::start(lent(reader), lent(requester));
        Ok(())
    }

    // How many bytes of each part are lent, the digest of both parts, bytes stored in a part, or more of the piece.
    fn set(&mut self, line: &[u8], key: u8) {
        match key {
            b'#' => {
                self.parts.reader.count = fields::count(line, 1);
                self.parts.requester.count = fields::count(line, 2);
            }
            b':' => self.noted = self.parts.digest(),
            b'!' => self.store(fields::count(line, 1), fields::count(line, 2)),
            _ => self.piece.add(line),
        }
    }

    // The piece is stored in a part, and is used up.
    fn store(&mut self, part: usize, at: usize) {
        let Case { parts, piece, .. } = self;
        let Parts { reader, requester } = parts;
        if part == 0 {
            reader.put(piece.used(), at);
        } else {
            requester.put(piece.used(), at);
        }
        piece.count = 0;
    }

    // A call on what is lent of each part; the piece is used up.
    fn call(&mut self, rt: &impl Print, line: &[u8], key: u8) -> io::Result<()> {
        match key {
            b'/' => self.receive_and_send(rt, line)?,
            b'q' => self.request(rt, line)?,
            b's' => self.send(rt, fields::count(line, 1))?,
            _ => self.listen(rt, line, key)?,
        }
        self.piece.count = 0;
        Ok(())
    }

    // The piece cut in two, and what goes out then, on a line of its own.
    fn receive_and_send(&mut self, rt: &impl Print, line: &[u8]) -> io::Result<()> {
        streams::word(rt, b"\ncut")?;
        streams::number(rt, fields::decimal(line, 1))?;
        self.receive_cut(rt, fields::count(line, 1))?;
        self.send(rt, OUT_ROOM)
    }

    // A request with the piece as its data.
    fn request(&mut self, rt: &impl Print, line: &[u8]) -> io::Result<()> {
        let command = fields::hex_u8(line, 1);
        let room = fields::count(line, 2);
        let Case {
            parts,
            piece,
            out,
            ..
        } = self;
        print::put(
            rt,
            sending::request(
                lent(&mut parts.requester),
                command,
                piece.used(),
                &mut out[..room.min(OUT_ROOM)],
            ),
        )?;
        streams::digest(rt, out)
    }

    // The frame that is to go out, to the first bytes of the output.
    fn send(&mut self, rt: &impl Print, room: usize) -> io::Result<()> {
        let Case { parts, out, .. } = self;
        print::put(
            rt,
            sending::send(lent(&mut parts.requester), &mut out[..room.min(OUT_ROOM)]),
        )?;
        streams::digest(rt, out)
    }

    // The calls that put nothing out.
    fn listen(&mut self, rt: &impl Print, line: &[u8], key: u8) -> io::Result<()> {
        let Case { parts, piece, .. } = self;
        let Parts { reader, requester } = parts;
        match key {
            b'i' => print::done(rt, recovery::interrupt(lent(requester))),
            b'x' => print::done(rt, start::start(lent(reader), lent(requester))),
            b't' => print::stating(rt, state::state(requester.used())),
            b'c' => self.receive_cut(rt, fields::count(line, 1)),
            _ => parts.receive_by(rt, piece.used(), fields::count(line, 1)),
        }
    }

    // The piece's first bytes, then the rest.
    fn receive_cut(&mut self, rt: &impl Print, n: usize) -> io::Result<()> {
        let Case { parts, piece, .. } = self;
        let piece = piece.used();
        parts.receive_by(rt, octets::part(piece, 0, n), PIECE_ROOM)?;
        parts.receive_by(rt, octets::part(piece, n, PIECE_ROOM), PIECE_ROOM)
    }
}

fn same(rt: &impl Print, is_same: bool) -> io::Result<()> {
    if is_same {
        streams::word(rt, b" same")
    } else {
        streams::word(rt, b" changed")
    }
}
