// An alert request: the retained reply again, or the oldest alert.
// Assumes valid registers, as each `requires` states. A request's version and number are two parameters: what is retained has them apart.
// `word_at` has the bound that a proof here cites.
ghost use Rattle.std.specs.Prelude.{◌≡◌, true, cond, ◌-◌, ◌≤◌, ◌<◌, leb, length};
ghost use Rattle.supervisor.specs.Layout.{outbox_length, registers_length, alert_count};
ghost use Rattle.supervisor.specs.Valid.{valid_registers};
ghost use Rattle.responder.specs.Requests.{clear_bit};
ghost use Rattle.responder.specs.Receive.{with_reply, with_taken, is_retained, alert_registers, alert_parts, alert_answered};

use crate::head;
use crate::sending::send_part;
use line::numbers;
use supervisor::layout;
use supervisor::number::RequestNumber;

// An alert request: the retained reply again, or the oldest alert.
pub(crate) fn alert(outbox: &mut [u8], registers: &mut [u8], version: u32, number: RequestNumber)
    requires outbox_length_in_bounds { outbox_length ≤ length outbox.old }
    requires registers_value { valid_registers registers.old ≡ true }
    requires version_bound { version < 256 }
    ensures { alert_parts outbox.new registers.new
        ≡ alert_answered outbox.old registers.old version number.0 }
{
    update_alerts(registers, version, number);
    let first = octets::read_u8(registers, layout::RETAINED_OFFSET) as u32;
    let reply = head::head_to(first, number);
    let at = layout::RETAINED_ALERT_OFFSET;
    let n = octets::word_at(registers, at) + 1;
    let from = at + layout::ALERT_ACTION_OFFSET;
    send_part(
        outbox,
        reply,
        numbers::REPLY_ALERT,
        &registers[from..from + n],
    );
}

// The registers after an alert request: as they are where its reply is retained.
fn update_alerts(registers: &mut [u8], version: u32, number: RequestNumber)
    requires registers_value { valid_registers registers.old ≡ true }
    requires version_bound { version < 256 }
    ensures { registers.new ≡ alert_registers registers.old version number.0 }
{
    if !is_retained(registers, number) {
        take_alert(registers, version, number);
    }
}

#[tactic(auto, unfolding(crate::specs::Receive::is_retained))]
fn is_retained(registers: &[u8], number: RequestNumber) -> bool
    ensures { result ≡ is_retained registers.now number.0 }
{
    octets::read_u8(registers, layout::RETAINED_OFFSET) != 0
        && octets::read_u64(registers, layout::RETAINED_SEQUENCE_OFFSET) == number.0
}

// The oldest alert, or none, is retained with the request's version and number, and the others move down.
fn take_alert(registers: &mut [u8], version: u32, number: RequestNumber)
    requires registers_value { valid_registers registers.old ≡ true }
    requires version_bound { version < 256 }
    ensures { registers.new ≡ with_taken registers.old version number.0 }
{
    let count = octets::read_u8(registers, layout::ALERT_COUNT_OFFSET);
    let status = octets::read_u64(registers, layout::STATUS_OFFSET);
    retain(registers, count, version, number);
    octets::move_down(
        registers,
        layout::ALERTS_OFFSET + layout::ALERT_LENGTH,
        layout::ALERTS_OFFSET,
        (layout::MOST_ALERTS - 1) * layout::ALERT_LENGTH,
    );
    registers[layout::ALERT_COUNT_OFFSET] = count.saturating_sub(1);
    octets::write_u64(
        registers,
        layout::STATUS_OFFSET,
        status_after(count, status),
    );
}

// Status bit 1 is cleared where none of the alerts that waited is left.
#[tactic(auto, using(std::proofs::lemmas::Bool::Decides::nat_tests))]
fn status_after(count: u8, status: u64) -> u64
    ensures { result ≡ cond (leb count 1) (clear_bit status 1) status }
{
    if count <= 1 {
        without_bit_1(status)
    } else {
        status
    }
}

#[tactic(auto, unfolding(crate::specs::Requests::clear_bit))]
fn without_bit_1(status: u64) -> u64
    ensures { result ≡ clear_bit status 1 }
{
    status - status / 2 % 2 * 2
}

// The oldest of so many alerts, or action 0 and no text, with the request's version and number.
fn retain(registers: &mut [u8], count: u8, version: u32, number: RequestNumber)
    requires registers_length_in_bounds { registers_length ≤ length registers.old }
    requires version_bound { version < 256 }
    requires count_value { count ≡ alert_count registers.old }
    ensures { registers.new ≡ with_reply registers.old version number.0 }
{
    registers[layout::RETAINED_OFFSET] = version as u8;
    octets::write_u64(registers, layout::RETAINED_SEQUENCE_OFFSET, number.0);
    if count == 0 {
        octets::write_u16(registers, layout::RETAINED_ALERT_OFFSET, 0);
        registers[layout::RETAINED_ALERT_OFFSET + layout::ALERT_ACTION_OFFSET] = 0;
        return;
    }
    registers.copy_within(
        layout::ALERTS_OFFSET..layout::ALERTS_OFFSET + layout::ALERT_LENGTH,
        layout::RETAINED_ALERT_OFFSET,
    );
}
