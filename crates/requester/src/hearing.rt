// What a received frame is to the one outstanding, what it hands out, and what comes next.
// Assumes a reader's answer whose data it holds, and a newest number without the top bit, as each `requires` states.
ghost use Rattle.std.specs.Prelude.{◌≡◌, true, cond, ◌&&◌, ◌||◌, List, ℕ, ◌<◌, eqb};
ghost use Rattle.std.proofs.Math.Option.{none, some};
ghost use Rattle.line.specs.Numbers.{top_bit, all_ones, reply_decode_failure};
ghost use Rattle.line.specs.Judge.{good};
ghost use Rattle.line.specs.Reader.{read_report, valid_reader as reader_valid};
ghost use Rattle.requester.specs.Requester.{hear, ground, serve, fetched, answered_in};
ghost use Rattle.requester.specs.Calls.{is_overlong, heard_of};
ghost use Rattle.requester.specs.Progress.{recovery_report};
ghost use Rattle.requester.specs.Hearing.{head_message, heard_report, next_of, outcome_report, outcome_report_of, heard_in, data_fit};

use crate::message::Message;
use crate::number::{ReplyNumber, RequestNumber, reply_to};
use crate::outcome::{Handed, Next, Outcome, Status};
use crate::progress::Progress;
use crate::step::Step;
use line::numbers;
use line::reader::{Answer, Head, Unfinished};

// What a good message is to the one outstanding.
#[derive(Clone, Copy, Debug, PartialEq, Eq)]
pub(crate) enum Heard {
    Ground,
    Other,
    Answer,
}

// Whether a message is a decode failure of the one outstanding, or of none.
fn fails_decode(expected: ReplyNumber, sequence: u64, command: u8) -> bool
    ensures { result ≡ (eqb command reply_decode_failure && (eqb sequence expected.0 || eqb sequence all_ones)) }
{
    command == numbers::REPLY_DECODE_FAILURE
        && (sequence == expected.0 || sequence == numbers::ALL_ONES)
}

// By the newest number: a ground for sending the same bytes again, another reply, or the answer.
fn hear(newest: RequestNumber, head: Head) -> Heard
    requires { newest.0 < top_bit }
    ensures { (d : List ℕ) → heard_report result (head_message head d) ≡ hear newest.0 (good (head_message head d)) }
{
    if head.version != numbers::FIRST_VERSION {
        return Heard::Ground;
    }
    if head.sequence < numbers::TOP_BIT {
        return Heard::Ground;
    }
    let expected = reply_to(newest);
    if fails_decode(expected, head.sequence, head.command) {
        return Heard::Ground;
    }
    if head.sequence != expected.0 {
        return Heard::Other;
    }
    Heard::Answer
}

// What comes after a status: the service of its lowest set bit, or the original.
fn serve(original: bool, status: u64) -> Next
    ensures { next_of result ≡ serve original status }
{
    if status % 2 == 1 {
        return Next::Anew(Some(Step::Acknowledge));
    }
    if status / 2 % 2 == 1 {
        return Next::Anew(Some(Step::Alert));
    }
    if original {
        return Next::Anew(None);
    }
    Next::Idle
}

// The answer to a recovery's fetch.
fn settle_fetch(original: bool, message: Message) -> Outcome
    ensures { outcome_report result
        ≡ outcome_report_of (fetched original (head_message message.entry.head message.entry.data.now)) }
{
    let Message { head, data } = message;
    if head.command != numbers::REPLY_STATUS {
        return Outcome::silent(Next::Again);
    }
    if head.length != numbers::STATUS_LENGTH {
        return Outcome::silent(Next::Again);
    }
    let status = octets::read_u64(data, 0);
    let handed = Handed::Status(Status {
        status,
        options: octets::read_u64(data, 8),
        set_bits: status.count_ones(),
    });
    Outcome {
        handed: Some(handed),
        next: serve(original, status),
    }
}

// The answer to the one outstanding.
#[tactic(auto, unfolding(crate::specs::Calls::handed_report, crate::specs::Calls::handed_report_of))]
fn settle_answer(now: Progress, message: Message) -> Outcome
    ensures { outcome_report result
        ≡ outcome_report_of
        (answered_in (recovery_report now.recovery) now.kept (head_message message.entry.head message.entry.data.now)) }
{
    match now.recovery {
        None => Outcome {
            handed: Some(Handed::Answer(message.head)),
            next: Next::Idle,
        },
        Some(Step::Fetch) => settle_fetch(now.kept, message),
        Some(Step::Acknowledge) => Outcome::silent(Next::Anew(Some(Step::Fetch))),
        Some(Step::Alert) => Outcome {
            handed: Some(Handed::Alert(message.head)),
            next: Next::Anew(Some(Step::Fetch)),
        },
    }
}

// A good message.
fn settle_message(now: Progress, message: Message) -> Outcome
    requires { now.number < top_bit }
    ensures { outcome_report result
        ≡ outcome_report_of
        (heard_in now (some (hear now.number (good (head_message message.entry.head message.entry.data.now))))) }
{
    if !now.is_outstanding() {
        return Outcome::silent(Next::Same);
    }
    match hear(RequestNumber(now.number), message.head) {
        Heard::Ground => Outcome::silent(Next::Again),
        Heard::Other => Outcome::silent(Next::Same),
        Heard::Answer => settle_answer(now, message),
    }
}

// A ground for sending the same bytes again.
fn settle_ground(now: Progress) -> Outcome
    ensures { outcome_report result ≡ outcome_report_of (heard_in now (some ground)) }
{
    if now.is_outstanding() {
        return Outcome::silent(Next::Again);
    }
    Outcome::silent(Next::Same)
}

// No 00 has come: a ground where the frame has passed 4,140 bytes.
fn settle_more(reader: &[u8], now: Progress) -> Outcome
    ensures { outcome_report result
        ≡ outcome_report_of (heard_in now (cond (is_overlong reader.now) (some ground) none)) }
{
    match line::reader::tail(reader) {
        Ok(Unfinished::Longer) => settle_ground(now),
        Ok(Unfinished::Bytes(_)) => Outcome::silent(Next::Same),
        Err(_) => Outcome::silent(Next::Same),
    }
}

// What comes of the line reader's answer, by the state that it left.
pub(crate) fn settle(reader: &[u8], now: Progress, answer: Answer) -> Outcome
    requires reader_value { reader_valid reader.now ≡ true }
    requires answer_value { data_fit (read_report answer) ≡ true }
    requires number_bound { now.number < top_bit }
    ensures { outcome_report result
        ≡ outcome_report_of (heard_in now (heard_of now.number reader.now (read_report answer))) }
{
    match answer {
        Answer::More => settle_more(reader, now),
        Answer::Empty => Outcome::silent(Next::Same),
        Answer::Message(head) => {
            let data = line::reader::message_data(reader, head.length);
            settle_message(now, Message { head, data })
        }
        Answer::Failed(_) => settle_ground(now),
    }
}
