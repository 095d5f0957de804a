// The tests for 12 on the main processor's part.
// Assumes nothing.
ghost use Rattle.std.specs.Prelude.{◌≡◌, ◌&&◌, leb};
ghost use Rattle.line.specs.Limits.{longest_data};
ghost use Rattle.requester.specs.Layout.{kept_flag, kept_length, kept_command};
ghost use Rattle.requester.specs.Requester.{stays_out};
ghost use Rattle.requester.specs.Valid.{is_numbered, valid_requester};

use crate::layout;
use crate::progress::Progress;
use line::{limits, numbers};

// Whether a request with this command stays outstanding: reboot, power off and boot failure never do.
#[tactic(auto, unfolding(crate::specs::Requester::stays_out))]
pub(crate) fn stays_out(command: u8) -> bool
    ensures { result ≡ stays_out command }
{
    !matches!(
        command,
        numbers::COMMAND_REBOOT | numbers::COMMAND_POWER_OFF | numbers::COMMAND_BOOT_FAILURE
    )
}

#[tactic(auto, unfolding(crate::specs::Valid::valid_requester))]
pub fn requester_is_valid(requester: &[u8]) -> bool
    ensures { result ≡ valid_requester requester.now }
{
    layout::REQUESTER_LENGTH <= requester.len()
        && octets::read_u64(requester, layout::NUMBER_OFFSET) <= layout::LAST_NUMBER
        && octets::read_u8(requester, layout::RECOVERY_OFFSET) <= 3
        && octets::read_u8(requester, layout::UNSENT_OFFSET) <= 1
        && is_kept_well(requester)
}

// The request kept, and the number of the one outstanding.
fn is_kept_well(requester: &[u8]) -> bool
    ensures { result
        ≡ (leb (kept_flag requester.now) 1
        && (leb (kept_length requester.now) longest_data
        && (stays_out (kept_command requester.now) && is_numbered requester.now))) }
{
    octets::read_u8(requester, layout::KEPT_OFFSET) <= 1
        && usize::from(octets::read_u16(requester, layout::LENGTH_OFFSET)) <= limits::LONGEST_DATA
        && stays_out(octets::read_u8(requester, layout::COMMAND_OFFSET))
        && is_numbered(requester)
}

// Whether the one outstanding has a number: sequences run from 1.
fn is_numbered(requester: &[u8]) -> bool
    ensures { result ≡ is_numbered requester.now }
{
    let now = Progress::read(requester);
    !now.is_outstanding() || 1 <= now.number
}
