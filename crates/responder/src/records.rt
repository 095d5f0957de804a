// Requests that change the registers but for the alerts that wait: a flag, a record, status bit 0.
// Assumes an outbox and registers of their published lengths, as each `requires` states.
ghost use Rattle.std.specs.Prelude.{◌≡◌, [], min, ◌≤◌, length, drop};
ghost use Rattle.octets.specs.Bytes.{bytes, number_at, overlay};
ghost use Rattle.line.specs.Limits.{longest_data};
ghost use Rattle.line.specs.Numbers.{reply_acknowledged};
ghost use Rattle.supervisor.specs.Layout.{outbox_length, registers_length, status_offset, status_of, power_off_offset, boot_failure_offset};
ghost use Rattle.supervisor.specs.Layout.{panic_offset};
ghost use Rattle.responder.specs.Requests.{clear_bit};
ghost use Rattle.responder.specs.Receive.{sent_box, reply_bytes, asked_for, with_record};

use crate::head::ReplyHead;
use crate::sending::{acknowledge, send_none};
use supervisor::layout;

// A reboot or a power-off is asked for, by the offset of its flag: no reply, and the retained alert reply is dropped.
pub(crate) fn ask_for(outbox: &mut [u8], registers: &mut [u8], flag: usize)
    requires outbox_length_in_bounds { outbox_length ≤ length outbox.old }
    requires flag_le_power_off_offset { flag ≤ power_off_offset }
    requires registers_length_in_bounds { registers_length ≤ length registers.old }
    ensures outbox_after { outbox.new ≡ sent_box [] outbox.old }
    ensures registers_after { registers.new ≡ asked_for registers.old flag }
{
    registers[flag] = 1;
    registers[layout::RETAINED_OFFSET] = 0;
    send_none(outbox);
}

// A boot failure: its reason is recorded with the data behind it, no reply.
pub(crate) fn boot_failure(outbox: &mut [u8], registers: &mut [u8], reason: u16, data: &[u8])
    requires outbox_length_in_bounds { outbox_length ≤ length outbox.old }
    requires registers_length_in_bounds { registers_length ≤ length registers.old }
    requires in_bounds { 1 ≤ length «data».now }
    requires data_len_bound { length «data».now ≤ longest_data }
    ensures outbox_after { outbox.new ≡ sent_box [] outbox.old }
    ensures registers_after { registers.new
        ≡ with_record registers.old boot_failure_offset reason (drop 1 «data».now) }
{
    set_record(registers, layout::BOOT_FAILURE_OFFSET, reason, data, 1);
    send_none(outbox);
}

// A panic: its cause, u16, is recorded with the data behind it, and acknowledged.
pub(crate) fn panic(outbox: &mut [u8], registers: &mut [u8], reply: ReplyHead, data: &[u8])
    requires outbox_length_in_bounds { outbox_length ≤ length outbox.old }
    requires registers_length_in_bounds { registers_length ≤ length registers.old }
    requires in_bounds { 2 ≤ length «data».now }
    requires data_len_bound { length «data».now ≤ longest_data }
    ensures outbox_after { outbox.new ≡ sent_box (reply_bytes reply reply_acknowledged []) outbox.old }
    ensures registers_after { registers.new
        ≡ with_record registers.old panic_offset (number_at 2 «data».now 0) (drop 2 «data».now) }
{
    set_record(
        registers,
        layout::PANIC_OFFSET,
        octets::read_u16(data, 0),
        data,
        2,
    );
    acknowledge(outbox, reply);
}

// A record of a code and of the data from an offset on: at most 512 bytes of them are kept. Its five parameters
// travel no further.
fn set_record(registers: &mut [u8], at: usize, code: u16, data: &[u8], from: usize)
    requires at_le_panic_offset { at ≤ panic_offset }
    requires registers_length_in_bounds { registers_length ≤ length registers.old }
    requires from_in_bounds { from ≤ length «data».now }
    requires data_len_bound { length «data».now ≤ longest_data }
    ensures { registers.new ≡ with_record registers.old at code (drop from «data».now) }
{
    let whole = data.len() - from;
    registers[at] = 1;
    octets::write_u16(registers, at + layout::RECORD_CODE_OFFSET, code);
    octets::write_u16(registers, at + layout::RECORD_WHOLE_OFFSET, whole as u16);
    let kept = whole.min(layout::MOST_KEPT);
    octets::copy(data, from, kept, registers, at + layout::RECORD_KEPT_OFFSET);
}

// The start is acknowledged: status bit 0 is cleared, and the request acknowledged.
pub(crate) fn start_acknowledged(outbox: &mut [u8], registers: &mut [u8], reply: ReplyHead)
    requires outbox_length_in_bounds { outbox_length ≤ length outbox.old }
    requires registers_length_in_bounds { registers_length ≤ length registers.old }
    ensures outbox_after { outbox.new ≡ sent_box (reply_bytes reply reply_acknowledged []) outbox.old }
    ensures registers_after { registers.new
        ≡ overlay status_offset (bytes 8 (clear_bit (status_of registers.old) 0)) registers.old }
{
    let status = octets::read_u64(registers, layout::STATUS_OFFSET);
    octets::write_u64(registers, layout::STATUS_OFFSET, without_bit_0(status));
    acknowledge(outbox, reply);
}

#[tactic(auto, unfolding(crate::specs::Requests::clear_bit))]
fn without_bit_0(status: u64) -> u64
    ensures { result ≡ clear_bit status 0 }
{
    status - status % 2
}
