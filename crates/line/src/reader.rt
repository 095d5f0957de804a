// The reader: a lent state takes pieces of the received stream and answers once for each 00. docs/STATE.md has the state's fields.
// Assumes nothing of what a caller lends: no public function here has a `requires`.
ghost use Rattle.std.specs.Prelude.{◌≡◌, ◌+◌, ◌≤◌, ◌<◌, length, take};
ghost use Rattle.std.proofs.Math.Option.{some};
ghost use Rattle.octets.specs.Bytes.{run, overlay};
ghost use Rattle.line.specs.Limits.{shortest_message, longest_message, longest_form};
ghost use Rattle.line.specs.Cobs.{uncobs};
ghost use Rattle.line.specs.Runs.{nonzero};
ghost use Rattle.line.specs.Decoding.{measured, plain};
ghost use Rattle.line.specs.Judge.{judge_form};
ghost use Rattle.line.specs.ReaderLayout.{frame_offset, overlong, received_count, with_count};
ghost use Rattle.line.specs.Reader.{reader_length, valid_reader, form_report, read_report};
ghost use Rattle.line.specs.Reader.{verdict_report, pushed_all, frame_outcome, finish_form, finish, read_outcome, read_promise};
ghost use Rattle.line.specs.Reader.{collect_outcome, collect_promise, reader_start_outcome, reader_start_promise, tail_report};
ghost use Rattle.line.specs.Reader.{tail_promise};
ghost use Rattle.line.specs.Reader.{data_report, data_given_promise, data_promise, data_place};

use crate::scan::{copy_run, nonzero_run};
use crate::{cobs, limits, sums};
use refusals::Refusal;

const FRAME_OFFSET: usize = 2;

// The state's published length: 4,142 bytes.
pub const STATE_LENGTH: usize = FRAME_OFFSET + limits::LONGEST_FORM;

// The count of a frame that is longer than any form.
const OVERLONG: usize = limits::LONGEST_FORM + 1;

// The longest piece that `collect` takes byte by byte.
const SHORT_PIECE: usize = 64;

const DATA_OFFSET: usize = FRAME_OFFSET + limits::HEADER_LENGTH;

// A message that was handed out; its data lie in the state.
#[derive(Clone, Copy, Debug, PartialEq, Eq)]
pub struct Head {
    pub version: u32,
    pub sequence: u64,
    pub command: u8,
    pub length: usize,
}

// Why a frame fails; with the frame's sequence where it has a message's length.
#[derive(Clone, Copy, Debug, PartialEq, Eq)]
pub enum Failure {
    Form,
    Length,
    Checksum(u64),
    Magic(u64),
}

// What a call of `read` answers; `read_report` in specs/Reader.antt gives document 01's numbers and values.
#[derive(Clone, Copy, Debug, PartialEq, Eq)]
pub enum Answer {
    More,
    Empty,
    Message(Head),
    Failed(Failure),
}

// How many bytes of the piece a call of `read` read, and what it says.
#[derive(Clone, Copy, Debug, PartialEq, Eq)]
pub struct Reading {
    pub used: usize,
    pub answer: Answer,
}

// How many bytes of an unfinished frame have come, or that they are more than the longest form has.
#[derive(Clone, Copy, Debug, PartialEq, Eq)]
pub enum Unfinished {
    Bytes(usize),
    Longer,
}

// Begins a fresh reader in a room of any contents.
pub fn start(state: &mut [u8]) -> Result<(), Refusal>
    ensures { reader_start_outcome result state.new ≡ reader_start_promise state.old }
{
    if state.len() < STATE_LENGTH {
        return Err(Refusal::BadState);
    }
    octets::clear(state, 0, STATE_LENGTH);
    Ok(())
}

// Reads a piece to its end, or up to and with its first 00.
pub fn read(state: &mut [u8], piece: &[u8]) -> Result<Reading, Refusal>
    ensures { read_outcome result state.new ≡ read_promise state.old piece.now }
{
    if !is_valid(state) {
        return Err(Refusal::BadState);
    }
    let n = nonzero_run(piece);
    append(state, piece, n);
    if n == piece.len() {
        return Ok(Reading {
            used: n,
            answer: Answer::More,
        });
    }
    let answer = finish_frame(state);
    Ok(Reading {
        used: n + 1,
        answer,
    })
}

// Reads a piece's bytes ahead of its first 00, and leaves that 00 and what is behind it.
pub fn collect(state: &mut [u8], piece: &[u8]) -> Result<usize, Refusal>
    ensures { collect_outcome result state.new ≡ collect_promise state.old piece.now }
{
    if !is_valid(state) {
        return Err(Refusal::BadState);
    }
    let have = get_count(state);
    if piece.len() <= SHORT_PIECE && have + piece.len() <= limits::LONGEST_FORM {
        return Ok(append_short(state, piece, have));
    }
    let n = nonzero_run(piece);
    append(state, piece, n);
    Ok(n)
}

// Whether `message_data` hands out what was asked.
pub fn message_data_given(state: &[u8], count: usize) -> Result<(), Refusal>
    ensures { data_report result ≡ data_given_promise state.now count }
{
    if !is_valid(state) {
        return Err(Refusal::BadState);
    }
    if limits::LONGEST_DATA < count {
        return Err(Refusal::TooLong);
    }
    Ok(())
}

// The data of the message that `read` handed out with this length; an empty part where `message_data_given` refuses.
pub fn message_data<'a>(state: &'a [u8], count: usize) -> &'a [u8]
    ensures result_value { result.now ≡ data_promise state.now count }
    ensures ref_ptr_value { result.ref_ptr ≡ data_place state.entry count }
{
    match message_data_given(state, count) {
        Ok(()) => &state[DATA_OFFSET..DATA_OFFSET + count],
        Err(_) => &state[..0],
    }
}

// How many bytes of an unfinished frame have come.
pub fn tail(state: &[u8]) -> Result<Unfinished, Refusal>
    ensures { tail_report result ≡ tail_promise state.now }
{
    if !is_valid(state) {
        return Err(Refusal::BadState);
    }
    let n = get_count(state);
    if limits::LONGEST_FORM < n {
        return Ok(Unfinished::Longer);
    }
    Ok(Unfinished::Bytes(n))
}

fn get_count(state: &[u8]) -> usize
    ensures { (result ≡ received_count state.now) × (result < 65536) }
{
    usize::from(octets::read_u16(state, 0))
}

fn set_count(state: &mut [u8], n: usize)
    requires in_bounds { 2 ≤ length state.old }
    requires n_le_overlong { n ≤ overlong }
    ensures { state.new ≡ with_count n state.old }
{
    octets::write_u16(state, 0, n as u16);
}

// Whether a state passes the tests for 12.
pub fn is_valid(state: &[u8]) -> bool
    ensures { result ≡ valid_reader state.now }
{
    STATE_LENGTH <= state.len() && get_count(state) <= OVERLONG
}

// The first n bytes of a piece, none of them zero, as far as they fit.
fn append(state: &mut [u8], piece: &[u8], n: usize)
    requires reader_length_in_bounds { reader_length ≤ length state.old }
    requires state_bound { received_count state.old ≤ overlong }
    requires n_in_bounds { n ≤ length piece.now }
    ensures { state.new ≡ pushed_all state.old (take n piece.now) }
{
    if n == 0 {
        return;
    }
    let have = get_count(state);
    if limits::LONGEST_FORM < have {
        set_count(state, OVERLONG);
        return;
    }
    let room = limits::LONGEST_FORM - have;
    if room < n {
        octets::copy(piece, 0, room, state, FRAME_OFFSET + have);
        set_count(state, OVERLONG);
        return;
    }
    octets::copy(piece, 0, n, state, FRAME_OFFSET + have);
    set_count(state, have + n);
}

// A short piece's bytes ahead of its first 00, behind those that have come; all of the piece would fit.
fn append_short(state: &mut [u8], piece: &[u8], have: usize) -> usize
    requires reader_length_in_bounds { reader_length ≤ length state.old }
    requires have_value { have ≡ received_count state.old }
    requires piece_bound { have + length piece.now ≤ longest_form }
    ensures { (result ≡ length (nonzero (length piece.now) piece.now))
        × (state.new ≡ pushed_all state.old (take result piece.now)) }
{
    let taken = copy_run(
        piece,
        0,
        piece.len() as u32,
        state,
        (FRAME_OFFSET + have) as u32,
    ) as usize;
    if taken == 0 {
        return 0;
    }
    set_count(state, have + taken);
    taken
}

// The 00 of a frame.
fn finish_frame(state: &mut [u8]) -> Answer
    requires reader_length_in_bounds { reader_length ≤ length state.old }
    requires state_bound { received_count state.old ≤ overlong }
    ensures { frame_outcome (read_report result) state.new ≡ finish state.old }
{
    let n = get_count(state);
    set_count(state, 0); // for the next frame
    if n == 0 {
        return Answer::Empty;
    }
    if limits::LONGEST_FORM < n {
        return Answer::Failed(Failure::Form);
    }
    match finish_form(state, n as u32) {
        Ok(head) => Answer::Message(head),
        Err(why) => Answer::Failed(why),
    }
}

// The length that the frame's n bytes decode to, unless they are no COBS form.
fn frame_length(state: &[u8], n: u32) -> Option<usize>
    requires { frame_offset + n ≤ length state.now }
    ensures { result ≡ measured (uncobs (run frame_offset n state.now)) }
{
    cobs::decoded_length(&state[FRAME_OFFSET..], n)
}

// The frame's n bytes decoded in their place.
fn decode_frame(state: &mut [u8], n: u32)
    requires { frame_offset + n ≤ length state.old }
    ensures { state.new ≡ overlay frame_offset (plain (run frame_offset n state.old)) state.old }
{
    cobs::decode(&mut state[FRAME_OFFSET..], n);
}

// A frame of n bytes.
fn finish_form(state: &mut [u8], n: u32) -> Result<Head, Failure>
    requires reader_length_in_bounds { reader_length ≤ length state.old }
    requires n_le_longest_form { n ≤ longest_form }
    ensures { frame_outcome (form_report result) state.new ≡ finish_form (run frame_offset n state.old) state.old }
{
    let k = frame_length(state, n).ok_or(Failure::Form)?;
    if k < limits::SHORTEST_MESSAGE || limits::LONGEST_MESSAGE < k {
        return Err(Failure::Length);
    }
    decode_frame(state, n);
    inspect(state, k)
}

// A decoded message of k bytes.
fn inspect(state: &[u8], k: usize) -> Result<Head, Failure>
    requires reader_length_in_bounds { reader_length ≤ length state.now }
    requires shortest_message_le_k { shortest_message ≤ k }
    requires k_le_longest_message { k ≤ longest_message }
    ensures { form_report result ≡ verdict_report (judge_form (some (run frame_offset k state.now))) }
{
    let message = &state[FRAME_OFFSET..FRAME_OFFSET + k];
    let sequence = octets::read_u64(message, 8);
    if octets::read_u16(message, k - limits::CHECKSUM_LENGTH)
        != sums::checksum_of_first(message, k - limits::CHECKSUM_LENGTH)
    {
        return Err(Failure::Checksum(sequence));
    }
    if octets::read_u32(message, 0) != limits::MAGIC {
        return Err(Failure::Magic(sequence));
    }
    Ok(Head {
        version: octets::read_u32(message, 4),
        sequence,
        command: octets::read_u8(message, 16),
        length: k - limits::SHORTEST_MESSAGE,
    })
}
