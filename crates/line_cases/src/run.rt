// The commands of tests/line_cases.py over a lent state, the piece and a lent output.
// Assumes nothing: a command whose counts do not fit does nothing.
use crate::print;
use line::{reader, sums, writer};
use std::io;
use text_lines::buffers::Buffer;
use text_lines::{fields, streams};

const STATE_ROOM: usize = 4200;

const PIECE_ROOM: usize = 8192;

const OUT_ROOM: usize = 4199;

const STATE_FILL: u8 = 0xa5;

const OUT_FILL: u8 = 0xee;

// The lent state, the piece, and the lent output, of which the last write put out the first bytes.
#[derive(Clone, Copy)]
pub(crate) struct Case {
    state: [u8; STATE_ROOM],
    piece: Buffer<PIECE_ROOM>,
    out: Buffer<OUT_ROOM>,
}

impl Case {
    // A state and an output of known contents, and no piece.
    pub(crate) fn fresh() -> Case {
        Case {
            state: [STATE_FILL; STATE_ROOM],
            piece: Buffer::filled(0, 0),
            out: Buffer::filled(OUT_FILL, 0),
        }
    }

    // One line.
    pub(crate) fn command(&mut self, rt: &impl Print, line: &[u8]) -> io::Result<()> {
        let key = fields::key(line);
        match key {
            b'=' => self.begin(rt, line),
            b'+' | b'*' => {
                self.piece.add(line);
                Ok(())
            }
            b'w' => self.write(rt, line),
            b'r' | b'c' | b'b' | b'a' | b'o' | b'k' => self.use_up(rt, line, key),
            b'l' | b'e' | b's' | b'i' => self.change(rt, line, key),
            _ => look(rt, key, fields::count(line, 1), &self.state),
        }
    }

    // A fresh case, with its name and a reader.
    fn begin(&mut self, rt: &impl Print, line: &[u8]) -> io::Result<()> {
        streams::name(rt, line)?;
        *self = Case::fresh();
        let _ = reader::start(&mut self.state);
        Ok(())
    }

    // A message with the piece as its data, by the line's fields.
    fn write(&mut self, rt: &impl Print, line: &[u8]) -> io::Result<()> {
        let Case { piece, out, .. } = self;
        out.count = write_data(rt, line, piece.used(), &mut out.bytes)?;
        streams::digest(rt, &out.bytes)?;
        piece.count = 0;
        Ok(())
    }

    // A command that empties the piece, or reads what was written.
    fn use_up(&mut self, rt: &impl Print, line: &[u8], key: u8) -> io::Result<()> {
        let Case { state, piece, out } = self;
        if key == b'o' {
            read_whole(rt, state, out.used())?;
        } else {
            use_piece(rt, line, key, state, piece.used())?;
        }
        piece.count = 0;
        Ok(())
    }

    // A command that changes the state and leaves the piece; a call is lent the state's first bytes.
    fn change(&mut self, rt: &impl Print, line: &[u8], key: u8) -> io::Result<()> {
        let Case { state, piece, .. } = self;
        let lent = &mut state[..fields::count(line, 1).min(STATE_ROOM)];
        match key {
            b'l' => {
                read_once(rt, lent, piece.used())?;
            }
            b'e' => {
                collect_once(rt, lent, piece.used())?;
            }
            b's' => print::starting(rt, reader::start(lent))?,
            _ => octets::write_u16(state, 0, fields::decimal_u16(line, 1)),
        }
        Ok(())
    }
}

// The version, sequence and command are the line's first three fields.
// The fourth is how many of the data are the first part, and the fifth is the room.
fn write_data(rt: &impl Print, line: &[u8], data: &[u8], out: &mut [u8]) -> io::Result<usize> {
    let version = fields::hex_u32(line, 1);
    let sequence = fields::hex(line, 2);
    let command = fields::hex_u8(line, 3);
    let cut = fields::count(line, 4).min(data.len());
    let room = fields::count(line, 5).min(out.len());
    let written = writer::write(
        version,
        sequence,
        command,
        &data[0..cut],
        &data[cut..],
        &mut out[..room],
    );
    print::counting(rt, b" wrote", written)
}

fn use_piece(
    rt: &impl Print,
    line: &[u8],
    key: u8,
    state: &mut [u8],
    piece: &[u8],
) -> io::Result<()> {
    let n = fields::count(line, 1);
    match key {
        b'k' => streams::hex(rt, u64::from(sums::checksum(piece)), 4),
        b'b' => read_by(rt, state, piece, 1),
        b'a' => {
            let taken = collect_once(rt, state, piece)?;
            read_whole(rt, state, octets::part(piece, taken, piece.len()))
        }
        b'c' => {
            read_whole(rt, state, octets::part(piece, 0, n))?;
            read_whole(rt, state, octets::part(piece, n, piece.len()))
        }
        _ => read_whole(rt, state, piece),
    }
}

// A command that changes nothing.
fn look(rt: &impl Print, key: u8, n: usize, state: &[u8]) -> io::Result<()> {
    match key {
        b't' => print::tail(rt, reader::tail(state)),
        b'u' => print::tail(rt, reader::tail(octets::part(state, 0, n))),
        b'd' => hand_out(rt, state, n),
        b'g' => streams::digest(rt, octets::part(state, 0, reader::STATE_LENGTH)),
        b'.' => streams::word(rt, b"\n"),
        _ => Ok(()),
    }
}

fn hand_out(rt: &impl Print, state: &[u8], n: usize) -> io::Result<()> {
    print::data(
        rt,
        reader::message_data_given(state, n),
        reader::message_data(state, n),
    )
}

// One call of read; how many bytes it used.
fn read_once(rt: &impl Print, state: &mut [u8], piece: &[u8]) -> io::Result<usize> {
    match reader::read(state, piece) {
        Ok(r) => {
            print::reading(rt, r.answer, state)?;
            Ok(r.used)
        }
        Err(why) => {
            print::no(rt, why)?;
            Ok(0)
        }
    }
}

// One call of collect; how many bytes it took.
fn collect_once(rt: &impl Print, state: &mut [u8], piece: &[u8]) -> io::Result<usize> {
    print::counting(rt, b" took", reader::collect(state, piece))
}

fn read_whole(rt: &impl Print, state: &mut [u8], piece: &[u8]) -> io::Result<()> {
    read_by(rt, state, piece, piece.len())
}

// Calls of read, each with at most so many bytes, until the piece is used up, or one uses nothing.
fn read_by(rt: &impl Print, state: &mut [u8], piece: &[u8], most: usize) -> io::Result<()> {
    // A `loop`: each turn passes as many bytes as a call uses.
    let mut at = 0;
    loop {
        let used = read_once(rt, state, octets::part(piece, at, most))?;
        if used == 0 || piece.len() - at <= used {
            return Ok(());
        }
        at += used;
    }
}
