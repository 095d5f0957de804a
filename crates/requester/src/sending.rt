// Requests of the caller's, and the frame of the one outstanding when it is to go out.
// Assumes nothing: no public function here has a `requires`.
ghost use Rattle.std.specs.Prelude.{◌≡◌, true, ◌≤◌, length};
ghost use Rattle.line.specs.Limits.{longest_data};
ghost use Rattle.line.specs.Writer.{write_outcome, write_into as line_sending};
ghost use Rattle.requester.specs.State.{request_frame};
ghost use Rattle.requester.specs.Layout.{requester_length, newest_number, out_request};
ghost use Rattle.requester.specs.Valid.{valid_requester};
ghost use Rattle.requester.specs.Progress.{ProgressIn};
ghost use Rattle.requester.specs.Calls.{request_report, send_report, put_outcome, with_request, request_promise, send_promise};

use crate::progress::Progress;
use crate::{layout, valid};
use line::{limits, numbers};
use refusals::Refusal;

// Puts out a request's frame under the next number and keeps the request, unless it never stays outstanding. How many bytes it put out.
pub fn request(
    requester: &mut [u8],
    command: u8,
    data: &[u8],
    out: &mut [u8],
) -> Result<usize, Refusal>
    ensures { put_outcome (request_report result) out.new requester.new
        ≡ request_promise requester.old command «data».now out.old }
{
    if !valid::requester_is_valid(requester) {
        return Err(Refusal::BadState);
    }
    if limits::LONGEST_DATA < data.len() {
        return Err(Refusal::TooLong);
    }
    let now = Progress::read(requester);
    if now.is_outstanding() {
        return Err(Refusal::Outstanding);
    }
    if layout::LAST_NUMBER <= now.number {
        return Err(Refusal::NoNumber);
    }
    let number = now.number + 1;
    let n = line::writer::write(numbers::FIRST_VERSION, number, command, data, &[], out)?;
    keep(requester, number, command, data);
    Ok(n)
}

// The request of the newest number, kept unless it never stays outstanding.
fn keep(requester: &mut [u8], number: u64, command: u8, data: &[u8])
    requires requester_length_in_bounds { requester_length ≤ length requester.old }
    requires data_len_bound { length «data».now ≤ longest_data }
    ensures { requester.new ≡ with_request number command «data».now requester.old }
{
    let kept = valid::stays_out(command);
    let progress = Progress {
        kept,
        ..Progress::idle(number)
    };
    progress.write(requester);
    if !kept {
        return;
    }
    requester[layout::COMMAND_OFFSET] = command;
    octets::write_u16(requester, layout::LENGTH_OFFSET, data.len() as u16);
    requester[layout::DATA_OFFSET..layout::DATA_OFFSET + data.len()].copy_from_slice(data);
}

// Puts out the frame of the one outstanding, where it is to go out. How many bytes it put out, 0 where nothing is to.
pub fn send(requester: &mut [u8], out: &mut [u8]) -> Result<usize, Refusal>
    ensures { put_outcome (send_report result) out.new requester.new
        ≡ send_promise requester.old out.old }
{
    if !valid::requester_is_valid(requester) {
        return Err(Refusal::BadState);
    }
    let now = Progress::read(requester);
    if !now.is_unsent() {
        return Ok(0);
    }
    let n = write_outstanding(requester, now, out)?;
    requester[layout::UNSENT_OFFSET] = 0;
    Ok(n)
}

// The frame of the one outstanding: a step of a recovery, or the request kept.
fn write_outstanding(requester: &[u8], now: Progress, out: &mut [u8]) -> Result<usize, Refusal>
    requires requester_value { valid_requester requester.now ≡ true }
    requires now_value { ProgressIn requester.now now }
    ensures { write_outcome result out.new
        ≡ line_sending (request_frame (newest_number requester.now) (out_request requester.now)) out.old }
{
    match now.recovery {
        None => {
            let command = octets::read_u8(requester, layout::COMMAND_OFFSET);
            let n = usize::from(octets::read_u16(requester, layout::LENGTH_OFFSET));
            let end = layout::DATA_OFFSET + n;
            let data = &requester[layout::DATA_OFFSET..end];
            line::writer::write(numbers::FIRST_VERSION, now.number, command, data, &[], out)
        }
        Some(step) => {
            line::writer::write(
                numbers::FIRST_VERSION,
                now.number,
                step.command(),
                &[],
                &[],
                out,
            )
        }
    }
}
