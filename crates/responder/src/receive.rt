// Receiving: a piece of the received stream, frame by frame.
// Assumes nothing: no public function here has a `requires`.
ghost use Rattle.std.specs.Prelude.{◌≡◌, true, ◌<◌, ℕ, length, get_or};
ghost use Rattle.std.proofs.Math.Option.{Option};
ghost use Rattle.line.specs.Numbers.{first_version};
ghost use Rattle.line.specs.Reader.{read_report, failed};
ghost use Rattle.line.specs.declared.reader.Answer.TheVariants as answered;
ghost use Rattle.supervisor.specs.Calls.{parts};
ghost use Rattle.counters.specs.Ended.{step_report, served_report};
ghost use Rattle.responder.specs.Receive.{valid_inner, inner_after, verdict_of, ended_by_reader, served_after, valid_parts};
ghost use Rattle.responder.specs.Receive.{reader_behind, failure_head, step_outcome, step_promise, valid_step};
ghost use Rattle.responder.specs.Receive.{receive_outcome, receive_promise};
ghost use Rattle.responder.specs.Stores.{parts_of, inner_held, ValidStores, SameStores};

use crate::head;
use crate::head::ReplyHead;
use crate::requests::{Request, respond};
use crate::sending::fail;
use crate::stores::{Stores, are_valid};
use crate::wiping::wipe_passphrase;
use counters::outcome::Outcome;
use line::numbers;
use line::reader::{Answer, Failure, Reading};
use refusals::Refusal;
use supervisor::number::RequestNumber;

// How many bytes of the piece a call of `step` read, and how the frame ended.
#[derive(Clone, Copy)]
pub struct Stepped {
    pub used: usize,
    pub outcome: Outcome,
}

// Reads a piece to its end, or up to and with its first 00, and carries out what the frame asks for. C lends each part by itself.
pub fn step(
    image: &[u8],
    piece: &[u8],
    reader: &mut [u8],
    outbox: &mut [u8],
    factory: &[u8],
    settings: &mut [u8],
    registers: &mut [u8],
) -> Stepped
    ensures { step_outcome result
        (parts reader.new outbox.new factory.now settings.new registers.new)
        ≡ step_promise image.now
        (parts reader.old outbox.old factory.now settings.old registers.old)
        piece.now }
{
    let mut stores = Stores {
        image,
        factory,
        outbox,
        settings,
        registers,
    };
    if !are_valid(reader, &stores) {
        return Stepped {
            used: 0,
            outcome: Outcome::Refused,
        };
    }
    valid_step(piece, reader, &mut stores)
}

// Reads a whole piece, frame by frame. `receive_tallied` counts besides, and has no short way for a single byte: a trait for one loop of
// three lines in each would be no plainer. C lends each part by itself.
pub fn receive(
    image: &[u8],
    piece: &[u8],
    reader: &mut [u8],
    outbox: &mut [u8],
    factory: &[u8],
    settings: &mut [u8],
    registers: &mut [u8],
) -> Result<(), Refusal>
    ensures { receive_outcome result
        (parts reader.new outbox.new factory.now settings.new registers.new)
        ≡ receive_promise image.now
        (parts reader.old outbox.old factory.now settings.old registers.old)
        piece.now }
{
    let mut stores = Stores {
        image,
        factory,
        outbox,
        settings,
        registers,
    };
    if !are_valid(reader, &stores) {
        return Err(Refusal::BadState);
    }
    if is_kept(piece) {
        let _ = line::reader::collect(reader, piece); // no valid reader is refused
        return Ok(());
    }
    // A `while`: each step passes as many bytes as a call of `valid_step` reads.
    let mut at = 0;
    while at < piece.len() {
        let done = valid_step(&piece[at..], reader, &mut stores);
        at += done.used;
    }
    Ok(())
}

// Whether a piece is a single byte that ends no frame: the line reader keeps it, and nothing else comes of it.
fn is_kept(piece: &[u8]) -> bool
    ensures { result ≡ true → (length piece.now ≡ 1) × (0 < get_or piece.now 0 0) }
{
    piece.len() == 1 && piece[0] != 0
}

// One step of valid parts: what the line reader reads of a piece, and what comes of the frame that it ends.
pub(crate) fn valid_step(piece: &[u8], reader: &mut [u8], stores: &mut Stores) -> Stepped
    requires { valid_parts (parts_of reader.old stores.old) ≡ true }
    ensures same { SameStores stores.new stores.old }
    ensures registers_after { step_outcome result (parts_of reader.new stores.new)
        ≡ valid_step stores.old.image.now (parts_of reader.old stores.old) piece.now }
    ensures registers_after_2 { valid_parts (parts_of reader.new stores.new) ≡ true }
{
    let Reading { used, answer } = line::reader::read(reader, piece).unwrap();
    let outcome = answer_frame(answer, reader, stores);
    Stepped { used, outcome }
}

// What comes of the line reader's answer.
fn answer_frame(answer: Answer, reader: &mut [u8], stores: &mut Stores) -> Outcome
    requires { ValidStores stores.old }
    ensures same { SameStores stores.new stores.old }
    ensures result_value { step_report result ≡ ended_by_reader reader.old (read_report answer) }
    ensures result_value_2 { served_report result
        ≡ served_after stores.old.settings.now (verdict_of reader.old (read_report answer)) }
    ensures registers_after { inner_held stores.new
        ≡ inner_after stores.old.image.now stores.old.factory.now (inner_held stores.old)
        (verdict_of reader.old (read_report answer)) }
    ensures registers_after_2 { valid_inner (inner_held stores.new) ≡ true }
    ensures reader_after { reader.new ≡ reader_behind reader.old (read_report answer) }
{
    match answer {
        Answer::More => Outcome::More,
        Answer::Empty => Outcome::Empty,
        Answer::Message(head) => {
            let asked = Request {
                version: head.version,
                number: RequestNumber(head.sequence),
                command: head.command,
                payload: line::reader::message_data(reader, head.length),
            };
            let outcome = respond(&asked, stores);
            wipe_passphrase(reader, head.command, head.length);
            outcome
        }
        Answer::Failed(failure) => {
            let (reply, reason) = head_and_reason(failure);
            fail(stores.outbox, reply, reason)
        }
    }
}

// The head of a failure's reply, and its reason.
fn head_and_reason(failure: Failure) -> (ReplyHead, u8)
    ensures { (sequence : Option ℕ) × (result.0 ≡ failure_head first_version sequence)
        × (read_report (answered.Failed failure) ≡ failed result.1 sequence) }
{
    match failure {
        Failure::Form => (head::unnumbered(), numbers::REASON_FORM),
        Failure::Length => (head::unnumbered(), numbers::REASON_LENGTH),
        Failure::Checksum(sequence) => (head::numbered(sequence), numbers::REASON_CHECKSUM),
        Failure::Magic(sequence) => (head::numbered(sequence), numbers::REASON_MAGIC),
    }
}
