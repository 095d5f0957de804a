// Alerts: up to eight wait, the oldest first.
// Assumes nothing: no public function here has a `requires`.
ghost use Rattle.std.specs.Prelude.{◌≡◌, ◌≤◌, ◌<◌, length};
ghost use Rattle.supervisor.specs.Limits.{longest_alert, most_alerts};
ghost use Rattle.supervisor.specs.Layout.{registers_length, status_of, alert_count};
ghost use Rattle.supervisor.specs.Local.{set_bit};
ghost use Rattle.supervisor.specs.Calls.{registers_outcome, post_report, with_alert, post_promise};

use crate::{layout, valid};
use refusals::Refusal;

// Posts an alert.
#[tactic(auto, unfolding(crate::specs::Calls::post_promise))]
pub fn post(registers: &mut [u8], action: u8, text: &[u8]) -> Result<(), Refusal>
    ensures { registers_outcome (post_report result) registers.new
        ≡ post_promise registers.old action text.now }
{
    if !valid::registers_are_valid(registers) {
        return Err(Refusal::BadState);
    }
    if action == 0 {
        return Err(Refusal::BadValue);
    }
    if layout::LONGEST_ALERT < text.len() {
        return Err(Refusal::TooLong);
    }
    let count = usize::from(octets::read_u8(registers, layout::ALERT_COUNT_OFFSET));
    if layout::MOST_ALERTS <= count {
        return Err(Refusal::AlertsFull);
    }
    add_alert(registers, count, action, text);
    Ok(())
}

// Puts an alert behind those that wait.
fn add_alert(registers: &mut [u8], count: usize, action: u8, text: &[u8])
    requires registers_length_in_bounds { registers_length ≤ length registers.old }
    requires count_value { count ≡ alert_count registers.old }
    requires count_lt_most_alerts { count < most_alerts }
    requires registers_bound { status_of registers.old ≤ 3 }
    requires text_len_bound { length text.now ≤ longest_alert }
    ensures { registers.new ≡ with_alert registers.old action text.now }
{
    let status = octets::read_u64(registers, layout::STATUS_OFFSET);
    let at = layout::ALERTS_OFFSET + count * layout::ALERT_LENGTH;
    octets::write_u16(registers, at, text.len() as u16);
    registers[at + layout::ALERT_ACTION_OFFSET] = action;
    octets::copy(
        text,
        0,
        text.len(),
        registers,
        at + layout::ALERT_TEXT_OFFSET,
    );
    registers[layout::ALERT_COUNT_OFFSET] = (count + 1) as u8;
    octets::write_u64(registers, layout::STATUS_OFFSET, with_bit_1(status));
}

fn with_bit_1(status: u64) -> u64
    requires { status ≤ 3 }
    ensures { result ≡ set_bit status 1 }
{
    status | 2
}
