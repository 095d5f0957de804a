// Lines of an input, and printing, each number with one space in front.
// No contract says what is read or printed; what is lent to be printed stays as it is.
// Assumes nothing: a read or a write that fails ends the call with its error.
ghost use Rattle.std.specs.Prelude.{◌<◌, ◌≤◌, ◌≡◌, IfOk, length};
ghost use Rattle.std.specs.Iterator.{at_most};
ghost use Rattle.octets.specs.Bytes.{run};

use crate::digest::digest_on;
use crate::fields;
use std::io;
use std::io::Read;

// More lines than any input has.
pub const MOST_LINES: u64 = 1000000;

// A line longer than this is taken in pieces.
pub const LINE_ROOM: usize = 128;

// How many bytes are printed in hex at most.
const MOST_DIGITS: usize = 48;

// Reads a line, without its end, into the start of room; how many bytes it has, and 0 at the end of the input.
pub fn read_line<R: Read>(input: &mut R, room: &mut [u8]) -> io::Result<usize>
    ensures count { IfOk result (λ n. n ≤ length room.old) }
    ensures room { length room.new ≡ length room.old }
{
    for n in 0..room.len() {
        if input.read(&mut room[n..n + 1])? == 0 {
            return Ok(0);
        }
        if room[n] == b'\n' {
            return Ok(n);
        }
    }
    Ok(room.len())
}

// A line of an input, without its end.
#[derive(Clone, Copy)]
pub struct Line {
    room: [u8; LINE_ROOM],
    count: usize,
    ghost count_bounds: { (0 < count) × (count ≤ 128) },
}

impl Line {
    // Its bytes: at least one, and at most as many as the room.
    pub fn text(&self) -> &[u8]
        ensures result_value { result.now ≡ run 0 self.now.count self.now.room }
        ensures count { (0 < length result.now) × (length result.now ≤ 128) }
        ensures ref_ptr_value { result.ref_ptr ≡ self.entry.ref_ptr }
    {
        &self.room[..self.count]
    }
}

// The lines of an input, up to its end or an empty line.
#[derive(Drop)]
pub struct Lines<'a, R> {
    input: &'a mut R,
    left: u64,
}

impl<'a, R: Read> Lines<'a, R> {
    pub fn new(input: &'a mut R) -> Lines<'a, R>
        ensures input { result.input.ghost_name ≡ input.entry.ghost_name }
        ensures left { result.left ≡ 1000000 }
    {
        Lines {
            input,
            left: MOST_LINES,
        }
    }
}

impl<R: Read> Iterator for Lines<'_, R> {
    type Item = io::Result<Line>;

    ghost remaining = { λ s. at_most s.left };

    fn next(&mut self) -> Option<io::Result<Line>> {
        if self.left == 0 {
            return None;
        }
        self.left -= 1;
        let mut room = [0; LINE_ROOM];
        let count = match read_line(self.input, &mut room) {
            Ok(count) => count,
            Err(why) => return Some(Err(why)),
        };
        if count == 0 {
            return None;
        }
        Some(Ok(Line { room, count }))
    }
}

pub fn word(rt: &impl Print, s: &[u8]) -> io::Result<()>
    ensures { IfOk result (λ done. (done ≡ tt) × (s.now ≡ s.now)) }
{
    rt.write_all(s)
}

pub fn number(rt: &impl Print, n: u64) -> io::Result<()>
    ensures { IfOk result (λ done. done ≡ tt) }
{
    print!(rt; " {n}")
}

pub fn hex(rt: &impl Print, n: u64, width: usize) -> io::Result<()>
    ensures { IfOk result (λ done. done ≡ tt) }
{
    print!(rt; " {n:0width$x}")
}

// The name of the case that the line begins.
pub fn name(rt: &impl Print, line: &[u8]) -> io::Result<()>
    ensures { IfOk result (λ done. (done ≡ tt) × (line.now ≡ line.now)) }
{
    word(rt, fields::behind_key(line))?;
    word(rt, b":")
}

// A refusal by its number in the papers.
pub fn refused(rt: &impl Print, n: u64) -> io::Result<()>
    ensures { IfOk result (λ done. done ≡ tt) }
{
    word(rt, b" refused")?;
    number(rt, n)
}

// The digest of bytes.
pub fn digest(rt: &impl Print, s: &[u8]) -> io::Result<()>
    ensures { IfOk result (λ done. (done ≡ tt) × (s.now ≡ s.now)) }
{
    number(rt, u64::from(digest_on(0, s)))
}

// The bytes in hex.
fn digits(rt: &impl Print, s: &[u8]) -> io::Result<()> {
    word(rt, b" ")?;
    for b in s {
        print!(rt; "{b:02x}")?;
    }
    Ok(())
}

// How many bytes; then, unless there are none, the first of them in hex and the digest of all.
pub fn bytes(rt: &impl Print, s: &[u8]) -> io::Result<()>
    ensures { IfOk result (λ done. (done ≡ tt) × (s.now ≡ s.now)) }
{
    number(rt, s.len() as u64)?;
    if s.is_empty() {
        return Ok(());
    }
    digits(rt, octets::part(s, 0, MOST_DIGITS))?;
    digest(rt, s)
}
