// The plain reader: a captured stream split at its zeros, and each frame decoded and tested, byte by byte. It has no code of the line
// layer, only the meaning, `split` and `judge`. Assumes nothing: no public function has a `requires`.
#![tactic(auto)]

ghost use Rattle.std.specs.Prelude.{◌≡◌, ◌+◌, ◌≤◌, ◌<◌, length, take};
ghost use Rattle.std.proofs.Math.Option.{some};
ghost use Rattle.octets.specs.Bytes.{overlay};
ghost use Rattle.line.specs.Checksum.{checksum};
ghost use Rattle.line.specs.Cobs.{implied_zero, last_one_after_full};
ghost use Rattle.line.specs.Judge.{judge_form, judge};
ghost use Rattle.plain.specs.Answers.{next_report, piece_at, plain_verdict, decode_form, decoded_into};
ghost use Rattle.plain.specs.Inner.{decoded_report};

// Document 01's numbers stand here by themselves: the second reader takes nothing of the line layer's code, these neither.

// A COBS form has at most so many bytes, and decodes to no more.
pub const LONGEST_FORM: usize = 4140;

const LONGEST_MESSAGE: usize = 4123;

// Magic, version, sequence, command and checksum: a message without data.
const SHORTEST_MESSAGE: usize = 19;

const MAGIC: u32 = 0x01DE19CC;

// What begins at an offset of a capture: a frame with so many bytes before its 00, or the unfinished tail of so many bytes.
#[derive(Clone, Copy, Debug, PartialEq, Eq)]
pub enum Piece {
    Frame(usize),
    Tail(usize),
}

// A message; its data stand in the array from offset 17 on.
#[derive(Clone, Copy, Debug, PartialEq, Eq)]
pub struct Head {
    pub version: u32,
    pub sequence: u64,
    pub command: u8,
    pub length: usize,
}

// The line layer's reason 1, 3, 2 or 4; the last two with the message's sequence.
#[derive(Clone, Copy, Debug, PartialEq, Eq)]
pub enum Failure {
    Form,
    Length,
    Checksum(u64),
    Magic(u64),
}

// What begins at an offset of a capture.
pub fn next(capture: &[u8], at: usize) -> Piece
    ensures { next_report result ≡ piece_at capture.now at }
{
    let rest = capture.get(at..).unwrap_or(&[]);
    match rest.iter().position(|b| *b == 0) {
        Some(n) => Piece::Frame(n),
        None => Piece::Tail(rest.len()),
    }
}

// What the bytes before a 00 are.
pub fn judged(frame: &[u8], message: &mut [u8; LONGEST_FORM]) -> Result<Head, Failure>
    ensures message_after { plain_verdict result message.new ≡ judge frame.now }
    ensures message_after_2 { message.new ≡ decoded_into frame.now message.old }
{
    if LONGEST_FORM < frame.len() {
        return Err(Failure::Form);
    }
    let n = decode(frame, message).ok_or(Failure::Form)?;
    tested(message, n)
}

// Decodes a COBS form to the start of out, which has room for as many bytes as the form; how many bytes it decodes to, unless it is none.
fn decode(form: &[u8], out: &mut [u8]) -> Option<usize>
    requires { length form.now ≤ length out.old }
    ensures { (result ≡ decoded_report (decode_form form.now)) × (out.new ≡ overlay 0 (decode_form form.now).bytes out.old) }
{
    let mut left: usize = 0; // bytes of the group that are to come
    let mut zero = false; // whether a zero follows the group, unless the form ends there
    let mut n: usize = 0; // bytes decoded
    for (i, b) in form.iter().enumerate() {
        if 0 < left {
            out[n] = *b;
            n += 1;
            left -= 1;
        } else {
            if *b == 0 || last_one_after_full(*b, &form[i + 1..]) {
                return None;
            }
            n = put_zero(out, n, zero);
            left = usize::from(*b) - 1;
            zero = *b < 255;
        }
    }
    if 0 < left {
        return None;
    }
    Some(n)
}

// Puts the zero that follows a group, where one does; how many bytes are decoded then.
fn put_zero(out: &mut [u8], n: usize, zero: bool) -> usize
    requires { n < length out.old }
    ensures { (result ≡ n + length (implied_zero zero)) × (out.new ≡ overlay n (implied_zero zero) out.old) }
{
    if zero {
        out[n] = 0;
        return n + 1;
    }
    n
}

// Whether a code byte is ff and the bytes behind it are its 254 bytes and a last 01.
fn last_one_after_full(code: u8, behind: &[u8]) -> bool
    ensures { result ≡ last_one_after_full code behind.now }
{
    code == 255 && behind.len() == 255 && behind[254] == 1
}

// The tests on the first n bytes, which a form decoded to.
fn tested(message: &[u8], n: usize) -> Result<Head, Failure>
    requires { n ≤ length message.now }
    ensures { plain_verdict result message.now ≡ judge_form (some (take n message.now)) }
{
    if n < SHORTEST_MESSAGE || LONGEST_MESSAGE < n {
        return Err(Failure::Length);
    }
    let sequence = octets::read_u64(message, 8);
    if octets::read_u16(message, n - 2) != checksum(&message[..n - 2]) {
        return Err(Failure::Checksum(sequence));
    }
    if octets::read_u32(message, 0) != MAGIC {
        return Err(Failure::Magic(sequence));
    }
    Ok(Head {
        version: octets::read_u32(message, 4),
        sequence,
        command: octets::read_u8(message, 16),
        length: n - SHORTEST_MESSAGE,
    })
}

// The checksum of a body.
fn checksum(body: &[u8]) -> u16
    ensures { result ≡ checksum body.now }
{
    let mut first: u32 = 0;
    let mut second: u32 = 0;
    for b in body {
        first = (first + u32::from(*b)) % 255;
        second = (second + first) % 255;
    }
    (second * 256 + first) as u16
}
