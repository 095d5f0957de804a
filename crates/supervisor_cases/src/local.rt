// The local calls, each with its answer printed.
// Assumes nothing: a write that fails ends the call with its error.
use crate::own::PIECE_ROOM;
use crate::parts::{Parts, lent};
use crate::print;
use saving::restore::restore;
use saving::save::save;
use std::io;
use supervisor::alerts::post;
use supervisor::keys::{edition, lookup, lookup_result};
use supervisor::options::set_options;
use supervisor::outbox::take;
use supervisor::registers::{Kind, flags, record, record_bytes, signal};
use text_lines::fields;
use text_lines::streams::word;

const ROOM: usize = 4200;

const ROOM_FILL: u8 = 0xee;

// Take, into the first n bytes of a room of known contents.
pub(crate) fn take_into(rt: &impl Print, n: usize, parts: &mut Parts) -> io::Result<()> {
    let mut room = [ROOM_FILL; ROOM];
    let taken = take(lent(&mut parts.outbox), &mut room[..n.min(ROOM)]);
    print::put(rt, b" took", taken, &room)
}

// A lookup, by the line's fields.
pub(crate) fn look_up(rt: &impl Print, line: &[u8], parts: &Parts) -> io::Result<()> {
    let factory = parts.factory.used();
    let settings = parts.settings.used();
    let key = fields::decimal_u8(line, 1);
    let most = fields::decimal_u16(line, 2);
    print::found(
        rt,
        lookup_result(factory, settings, key, most),
        lookup(factory, settings, key, most),
    )
}

// The edition of a key.
pub(crate) fn ask_edition(rt: &impl Print, key: u8, parts: &Parts) -> io::Result<()> {
    let found = edition(parts.factory.used(), parts.settings.used(), key);
    print::edition(rt, found)
}

// Save, into the first n bytes of a room of known contents.
pub(crate) fn save_into(rt: &impl Print, n: usize, parts: &Parts) -> io::Result<()> {
    let mut room = [ROOM_FILL; PIECE_ROOM];
    let saved = save(parts.settings.used(), &mut room[..n.min(PIECE_ROOM)]);
    print::put(rt, b" saved", saved, &room)
}

// Restore an image.
pub(crate) fn restore_from(rt: &impl Print, image: &[u8], parts: &mut Parts) -> io::Result<()> {
    print::restored(rt, restore(lent(&mut parts.settings), image))
}

// A call that is lent the registers alone, or the line's end.
pub(crate) fn ask(
    rt: &impl Print,
    line: &[u8],
    piece: &[u8],
    registers: &mut [u8],
) -> io::Result<()> {
    match fields::key(line) {
        b'p' => {
            let posted = post(registers, fields::decimal_u8(line, 1), piece);
            print::done(rt, b" posted", posted)
        }
        b'o' => {
            let set = set_options(registers, fields::hex(line, 1));
            print::done(rt, b" set", set)
        }
        b's' => print::signal(rt, signal(registers)),
        b'f' => print::flags(rt, flags(registers)),
        b'e' => read_record(rt, kind_of(fields::count(line, 1)), registers),
        b'.' => word(rt, b"\n"),
        _ => Ok(()),
    }
}

fn kind_of(n: usize) -> Kind {
    match n {
        0 => Kind::BootFailure,
        _ => Kind::Panic,
    }
}

fn read_record(rt: &impl Print, kind: Kind, registers: &[u8]) -> io::Result<()> {
    print::recorded(rt, record(registers, kind), record_bytes(registers, kind))
}
