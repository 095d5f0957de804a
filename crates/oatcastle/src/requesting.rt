// The main processor's calls: start, request, interrupt, send, receive, state.
// Assumes nothing: no exported function has a `requires`.
ghost use Rattle.std.specs.Prelude.{◌≡◌};
ghost use Rattle.requester.specs.Calls.{main_parts, handed_report, end_report, stage_report, state_report};
ghost use Rattle.requester.specs.State.{is_some};
ghost use Rattle.oatcastle.specs.Answers.{call_outcome, given};
ghost use Rattle.oatcastle.specs.RequesterCalls.{requester_start_call, request_call, send_call, interrupt_call, receipt_given};
ghost use Rattle.oatcastle.specs.RequesterCalls.{listen_call, stage_number, state_given, state_call};

use crate::answer_writing::{answered, count, number};
use crate::kinds::{
    ALERT, ANSWER, IDLE, NOTHING, RECOVERY_ACKNOWLEDGE, RECOVERY_ALERT, RECOVERY_STATUS, STATUS,
    WAITING,
};
use requester::outcome::Handed;
use requester::receive::Received;
use requester::state::{Stage, Standing};

// Begins the main processor's end.
#[tactic(auto, unfolding(requester::specs::Calls::main_start_report))]
#[unsafe(no_mangle)]
pub extern "C" fn oatcastle_requester_start(reader: &mut [u8], requester: &mut [u8]) -> u32
    ensures { call_outcome result (main_parts reader.new requester.new)
        ≡ requester_start_call (main_parts reader.old requester.old) }
{
    let started = requester::start::start(reader, requester);
    number(started)
}

// Puts out a request's frame.
#[tactic(auto, unfolding(requester::specs::Calls::request_report))]
#[unsafe(no_mangle)]
pub extern "C" fn oatcastle_requester_request(
    requester: &mut [u8],
    command: u8,
    data: &[u8],
    out: &mut [u8],
    answer: &mut [u64; 1],
) -> u32
    ensures { call_outcome result ((requester.new, out.new), answer.new)
        ≡ request_call requester.old command «data».now out.old answer.old }
{
    let requested = requester::sending::request(requester, command, data, out);
    answered(requested.map(count), answer)
}

// Begins a recovery, unless one is under way.
#[tactic(auto, unfolding(requester::specs::Calls::interrupt_report))]
#[unsafe(no_mangle)]
pub extern "C" fn oatcastle_requester_interrupt(requester: &mut [u8]) -> u32
    ensures { call_outcome result requester.new ≡ interrupt_call requester.old }
{
    let interrupted = requester::recovery::interrupt(requester);
    number(interrupted)
}

// Puts out the frame of the one outstanding, where it is to go out.
#[tactic(auto, unfolding(requester::specs::Calls::send_report))]
#[unsafe(no_mangle)]
pub extern "C" fn oatcastle_requester_send(
    requester: &mut [u8],
    out: &mut [u8],
    answer: &mut [u64; 1],
) -> u32
    ensures { call_outcome result ((requester.new, out.new), answer.new)
        ≡ send_call requester.old out.old answer.old }
{
    let sent = requester::sending::send(requester, out);
    answered(sent.map(count), answer)
}

// Reads a piece up to and with its first 00 or a frame's 4,141st byte, or to its end.
#[unsafe(no_mangle)]
pub extern "C" fn oatcastle_requester_receive(
    piece: &[u8],
    reader: &mut [u8],
    requester: &mut [u8],
    answer: &mut [u64; 10],
) -> u32
    ensures { call_outcome result (main_parts reader.new requester.new, answer.new)
        ≡ listen_call (main_parts reader.old requester.old) piece.now answer.old }
{
    let received = requester::receive::receive(piece, reader, requester);
    answered(received.map(received_numbers), answer)
}

// The numbers of a receive's answer.
#[tactic(auto, using(crate::proofs::RequesterLaws::end_told), unfolding(requester::specs::Calls::handed_report))]
fn received_numbers(received: Received) -> [u64; 10]
    ensures { given result
        ≡ receipt_given received.used (handed_report received.handed) (is_some (end_report received.ended))
        received.unsent }
{
    let used = received.used as u64;
    let ended = u64::from(received.ended);
    let unsent = u64::from(received.unsent);
    match received.handed {
        None => [used, NOTHING, ended, unsent, 0, 0, 0, 0, 0, 0],
        Some(Handed::Answer(h)) => {
            let command = u64::from(h.command);
            let n = h.length as u64;
            [used, ANSWER, ended, unsent, h.sequence, command, n, 0, 0, 0]
        }
        Some(Handed::Status(s)) => {
            let n = u64::from(s.set_bits);
            [used, STATUS, ended, unsent, 0, 0, 0, s.status, s.options, n]
        }
        Some(Handed::Alert(h)) => {
            let command = u64::from(h.command);
            let n = h.length as u64;
            [used, ALERT, ended, unsent, h.sequence, command, n, 0, 0, 0]
        }
    }
}

// What is outstanding.
#[tactic(auto, unfolding(requester::specs::Calls::state_report))]
#[unsafe(no_mangle)]
pub extern "C" fn oatcastle_requester_state(requester: &[u8], answer: &mut [u64; 5]) -> u32
    ensures { call_outcome result answer.new ≡ state_call requester.now answer.old }
{
    let stated = requester::state::state(requester);
    answered(stated.map(standing_numbers), answer)
}

// The numbers of what is outstanding.
#[tactic(auto, unfolding(requester::specs::Calls::state_report, requester::specs::Calls::standing_report))]
fn standing_numbers(s: Standing) -> [u64; 5]
    ensures { given result ≡ state_given (state_report (Ok s)) }
{
    let state = stage_number(s.stage);
    let command = u64::from(s.command);
    let unsent = u64::from(s.unsent);
    let original = u64::from(s.original);
    [state, command, s.number, unsent, original]
}

// C's number of a stage.
#[tactic(auto, unfolding(requester::specs::Calls::stage_report))]
fn stage_number(stage: Stage) -> u64
    ensures { result ≡ stage_number (stage_report stage) }
{
    match stage {
        Stage::Idle => IDLE,
        Stage::Waiting => WAITING,
        Stage::Fetch => RECOVERY_STATUS,
        Stage::Acknowledge => RECOVERY_ACKNOWLEDGE,
        Stage::Alert => RECOVERY_ALERT,
    }
}
