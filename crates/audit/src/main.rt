// The audit program of document 02: reads a capture from standard input and writes the plain reader's listing of it as lines of text.
// Assumes nothing: a read or a write that fails ends the program with its error.
#![tactic(auto)]

mod text;

ghost use Rattle.std.specs.Prelude.{◌≡◌, ◌∷◌, ◌++◌, [], ◌+◌, ◌*◌, ◌≤◌, IfOk, IfSome, OnOk, length, take};
ghost use Rattle.std.specs.Io.KnownBytes.{Appends};
ghost use Rattle.octets.specs.Bytes.{run};
ghost use Rattle.plain.specs.Listing.{listed_frame, listing};
ghost use Rattle.plain.specs.Answers.{plain_verdict};
ghost use Rattle.audit.specs.Text.{longest_capture, text_room, word, lines, tail_line, text as text_of, audit as audit_of};

use crate::text::{LONGEST_CAPTURE, Text};
use plain::{Failure, Head, Piece};
use std::io::{Read, Write};

fn main(rt: HostRuntime) -> std::io::Result<()> {
    let mut room = [0u8; LONGEST_CAPTURE + 1];
    audit_input(&mut rt.stdin(), &mut rt.stdout(), &mut room)
}

// All input is read before anything is written, and one byte more than the longest capture.
fn audit_input<R: Read, W: Write>(
    input: &mut R,
    output: &mut W,
    room: &mut [u8; LONGEST_CAPTURE + 1],
) -> std::io::Result<()>
    ensures { OnOk result (IfSome (R.remaining input.old)
        (λ capture. Appends (W.contents output.old) (W.contents output.new) (audit_of capture))) }
{
    let n = read_full(input, room)?;
    let mut text = Text::new();
    audit(&room[..n], &mut text);
    output.write_all(text.as_bytes())?;
    Ok(())
}

// Reads until the room is full or the input ends; how many bytes it put at the room's start.
fn read_full<R: Read>(input: &mut R, room: &mut [u8]) -> std::io::Result<usize>
    ensures count { IfOk result (λ n. n ≤ length room.new) }
    ensures bytes { IfOk result (λ n. IfSome (R.remaining input.old)
        (λ xs. take n room.new ≡ take (length room.old) xs)) }
{
    let mut done = 0;
    // A `while`: each read passes as many bytes as it got.
    while done < room.len() {
        let got = input.read(&mut room[done..])?;
        if got == 0 {
            return Ok(done);
        }
        done += got;
    }
    Ok(done)
}

// The program's text for a capture. It is lent: handed out by value, it would lie on the stack twice.
fn audit(capture: &[u8], text: &mut Text)
    requires { text.old ≡ [] }
    ensures { text.new ≡ audit_of capture.now }
{
    if LONGEST_CAPTURE < capture.len() {
        text.put(b"too long\n");
    } else {
        list(capture, text);
    }
}

// The listing of a capture as text.
fn list(capture: &[u8], text: &mut Text)
    requires capture_len_bound { length capture.now ≤ longest_capture }
    requires empty { text.old ≡ [] }
    ensures { text.new ≡ text_of (listing capture.now) }
{
    let mut at = 0;
    // A `loop`: each turn passes a frame, of a length that varies.
    loop {
        match plain::next(capture, at) {
            Piece::Frame(n) => {
                put_frame(capture, at, n, text);
                at += n + 1;
            }
            Piece::Tail(n) => return put_tail(n, text),
        }
    }
}

// The line of the frame of n bytes at an offset of a capture, unless it is empty.
fn put_frame(capture: &[u8], at: usize, n: usize, text: &mut Text)
    requires n_in_bounds { at + n ≤ length capture.now }
    requires capture_len_bound { length capture.now ≤ longest_capture }
    requires room { length text.old + 9 ≤ text_room }
    ensures wrote { text.new ≡ text.old ++ lines (listed_frame at (run at n capture.now)) }
    ensures upper_bound { length text.new ≤ length text.old + 5 * (n + 1) }
{
    if n == 0 {
        return;
    }
    let mut message = [0u8; plain::LONGEST_FORM];
    let answer = plain::judged(&capture[at..at + n], &mut message);
    text.put_number(at);
    put_answer(answer, text);
}

// The end of a frame's line.
fn put_answer(answer: Result<Head, Failure>, text: &mut Text)
    requires { length text.old + 4 ≤ text_room }
    ensures wrote { text.new ≡ text.old ++ 0x20 ∷ (word (plain_verdict answer []) ++ 0x0a ∷ []) }
    ensures upper_bound { length text.new ≤ length text.old + 4 }
{
    match answer {
        Ok(_) => text.put(b" ok\n"),
        Err(Failure::Form) => text.put(b" 1\n"),
        Err(Failure::Length) => text.put(b" 3\n"),
        Err(Failure::Checksum(_)) => text.put(b" 2\n"),
        Err(Failure::Magic(_)) => text.put(b" 4\n"),
    }
}

// The line of a tail of n bytes.
fn put_tail(n: usize, text: &mut Text)
    requires n_le_longest_capture { n ≤ longest_capture }
    requires room { length text.old + 11 ≤ text_room }
    ensures { text.new ≡ text.old ++ tail_line n }
{
    text.put(b"tail ");
    text.put_number(n);
    text.put(b"\n");
}
