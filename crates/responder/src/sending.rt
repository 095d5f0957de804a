// Sending: a reply, or none, takes the place of what is unsent.
// Assumes that the outbox has its published length and that the data fit a message, as each `requires` states.
ghost use Rattle.std.specs.Prelude.{◌≡◌, cond, [], ◌∷◌, ◌++◌, ◌+◌, ◌≤◌, suc, eqb, length};
ghost use Rattle.octets.specs.Bytes.{bytes, overlay};
ghost use Rattle.line.specs.Limits.{longest_data, longest_form};
ghost use Rattle.line.specs.Numbers.{reply_acknowledged, reply_decode_failure};
ghost use Rattle.supervisor.specs.Layout.{outbox_length, outbox_from_offset, outbox_bytes_offset, outbox_terminator_owed};
ghost use Rattle.counters.specs.Ended.{failed, step_report, nothing, served_report};
ghost use Rattle.responder.specs.Receive.{sent_box, reply_bytes};

use crate::head::ReplyHead;
use counters::outcome::Outcome;
use line::numbers;
use supervisor::layout;

// A reply whose data are head and then rest.
pub(crate) fn send(outbox: &mut [u8], reply: ReplyHead, command: u8, head: &[u8], rest: &[u8])
    requires outbox_length_in_bounds { outbox_length ≤ length outbox.old }
    requires rest_len_bound { length head.now + length rest.now ≤ longest_data }
    ensures { outbox.new
        ≡ sent_box (reply_bytes reply command (head.now ++ rest.now)) outbox.old }
{
    let n = write_reply(outbox, reply, command, head, rest);
    set_pending(outbox, n);
}

// No reply.
pub(crate) fn send_none(outbox: &mut [u8])
    requires { outbox_length ≤ length outbox.old }
    ensures { outbox.new ≡ sent_box [] outbox.old }
{
    set_pending(outbox, 0);
}

// The reply's frame behind the place for a 00, and its length. Its parameters are those of `send`.
fn write_reply(outbox: &mut [u8], reply: ReplyHead, command: u8, head: &[u8], rest: &[u8]) -> usize
    requires outbox_length_in_bounds { outbox_length ≤ length outbox.old }
    requires rest_len_bound { length head.now + length rest.now ≤ longest_data }
    ensures value { result ≡ length (reply_bytes reply command (head.now ++ rest.now)) }
    ensures upper_bound { result ≤ longest_form + 1 }
    ensures outbox_after { outbox.new
        ≡ overlay (outbox_bytes_offset + 1) (reply_bytes reply command (head.now ++ rest.now)) outbox.old }
{
    line::writer::write(
        reply.version,
        reply.number.0,
        command,
        head,
        rest,
        &mut outbox[layout::OUTBOX_BYTES_OFFSET + 1..],
    )
    .unwrap()
}

// The n bytes of a reply behind the place for a 00 become the pending ones.
// So does the 00 ahead of them where it is owed.
fn set_pending(outbox: &mut [u8], n: usize)
    requires outbox_length_in_bounds { outbox_length ≤ length outbox.old }
    requires n_bound { n ≤ longest_form + 1 }
    ensures { outbox.new
        ≡ overlay outbox_from_offset (bytes 2 (cond (eqb (outbox_terminator_owed outbox.old) 1) 0 1) ++ bytes 2 (suc n))
        (overlay outbox_bytes_offset (0 ∷ []) outbox.old) }
{
    let owed = octets::read_u8(outbox, layout::OUTBOX_TERMINATOR_OWED_OFFSET);
    let from = u16::from(owed != 1);
    outbox[layout::OUTBOX_BYTES_OFFSET] = 0;
    octets::write_u16(outbox, layout::OUTBOX_FROM_OFFSET, from);
    octets::write_u16(outbox, layout::OUTBOX_TO_OFFSET, (n + 1) as u16);
}

// A reply whose data are one part.
pub(crate) fn send_part(outbox: &mut [u8], reply: ReplyHead, command: u8, part: &[u8])
    requires outbox_length_in_bounds { outbox_length ≤ length outbox.old }
    requires part_len_bound { length part.now ≤ longest_data }
    ensures { outbox.new ≡ sent_box (reply_bytes reply command part.now) outbox.old }
{
    send(outbox, reply, command, part, &[]);
}

// A reply whose data are one byte.
pub(crate) fn send_byte(outbox: &mut [u8], reply: ReplyHead, command: u8, byte: u8)
    requires { outbox_length ≤ length outbox.old }
    ensures { outbox.new ≡ sent_box (reply_bytes reply command (bytes 1 byte)) outbox.old }
{
    send_part(outbox, reply, command, &[byte]);
}

// A reply without data.
pub(crate) fn acknowledge(outbox: &mut [u8], reply: ReplyHead)
    requires { outbox_length ≤ length outbox.old }
    ensures { outbox.new ≡ sent_box (reply_bytes reply reply_acknowledged []) outbox.old }
{
    send_part(outbox, reply, numbers::REPLY_ACKNOWLEDGED, &[]);
}

// A decode failure with its reason.
pub(crate) fn fail(outbox: &mut [u8], reply: ReplyHead, reason: u8) -> Outcome
    requires { outbox_length ≤ length outbox.old }
    ensures result_value { step_report result ≡ failed reason }
    ensures result_value_2 { served_report result ≡ nothing }
    ensures outbox_after { outbox.new ≡ sent_box (reply_bytes reply reply_decode_failure (bytes 1 reason)) outbox.old }
{
    send_byte(outbox, reply, numbers::REPLY_DECODE_FAILURE, reason);
    Outcome::Failure(reason)
}
