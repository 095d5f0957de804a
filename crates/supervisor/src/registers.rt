// What a caller reads of the registers: the line signal, the two flags, the two records.
// Assumes nothing: no public function here has a `requires`.
ghost use Rattle.std.specs.Prelude.{◌≡◌, ◌≤◌, ◌<◌};
ghost use Rattle.supervisor.specs.Limits.{most_kept};
ghost use Rattle.supervisor.specs.Layout.{panic_offset};
ghost use Rattle.supervisor.specs.Calls.{signal_report, signal_promise, flags_report, flags_promise, record_offset, record_report};
ghost use Rattle.supervisor.specs.Calls.{record_promise, record_bytes_promise, record_bytes_place, kept_count};

use crate::{layout, valid};
use refusals::Refusal;

// Reboot asked for, power off asked for.
#[derive(Clone, Copy, Debug, PartialEq, Eq)]
pub struct Asked {
    pub reboot: bool,
    pub power_off: bool,
}

#[derive(Clone, Copy, Debug, PartialEq, Eq)]
pub enum Kind {
    BootFailure,
    Panic,
}

// A record's code, the whole length of its rest, and how many bytes of the rest are kept.
#[derive(Clone, Copy, Debug, PartialEq, Eq)]
pub struct Entry {
    pub code: usize,
    pub whole: usize,
    pub kept: usize,
}

// Whether the line signal is asserted: exactly when status is not 0.
#[tactic(auto, unfolding(crate::specs::Calls::signal_promise))]
pub fn signal(registers: &[u8]) -> Result<bool, Refusal>
    ensures { signal_report result ≡ signal_promise registers.now }
{
    if !valid::registers_are_valid(registers) {
        return Err(Refusal::BadState);
    }
    Ok(octets::read_u64(registers, layout::STATUS_OFFSET) != 0)
}

// The two flags.
#[tactic(auto, unfolding(crate::specs::Calls::flags_promise))]
pub fn flags(registers: &[u8]) -> Result<Asked, Refusal>
    ensures { flags_report result ≡ flags_promise registers.now }
{
    if !valid::registers_are_valid(registers) {
        return Err(Refusal::BadState);
    }
    Ok(Asked {
        reboot: octets::read_u8(registers, layout::REBOOT_OFFSET) == 1,
        power_off: octets::read_u8(registers, layout::POWER_OFF_OFFSET) == 1,
    })
}

// A record, or that there is none.
#[tactic(auto, unfolding(crate::specs::Calls::record_promise, crate::specs::Calls::record_at))]
pub fn record(registers: &[u8], kind: Kind) -> Result<Option<Entry>, Refusal>
    ensures { record_report result ≡ record_promise registers.now kind }
{
    if !valid::registers_are_valid(registers) {
        return Err(Refusal::BadState);
    }
    let at = record_offset(kind);
    if octets::read_u8(registers, at) != 1 {
        return Ok(None);
    }
    let code = octets::read_u16(registers, at + layout::RECORD_CODE_OFFSET);
    let whole = octets::read_u16(registers, at + layout::RECORD_WHOLE_OFFSET);
    Ok(Some(Entry {
        code: usize::from(code),
        whole: usize::from(whole),
        kept: kept(registers, at),
    }))
}

// A record's kept bytes; an empty part where there is no record.
#[tactic(auto, unfolding(crate::specs::Calls::record_bytes_promise, crate::specs::Calls::record_bytes_place))]
pub fn record_bytes<'a>(registers: &'a [u8], kind: Kind) -> &'a [u8]
    ensures result_value { result.now ≡ record_bytes_promise registers.now kind }
    ensures ref_ptr_value { result.ref_ptr ≡ record_bytes_place registers.entry kind }
{
    if !valid::registers_are_valid(registers) {
        return &registers[0..0];
    }
    let at = record_offset(kind);
    if octets::read_u8(registers, at) != 1 {
        return &registers[0..0];
    }
    let from = at + layout::RECORD_KEPT_OFFSET;
    let n = kept(registers, at);
    &registers[from..from + n]
}

#[tactic(auto, unfolding(crate::specs::Calls::record_offset))]
fn record_offset(kind: Kind) -> usize
    ensures { (result ≡ record_offset kind) × (result ≤ panic_offset) }
{
    match kind {
        Kind::BootFailure => layout::BOOT_FAILURE_OFFSET,
        Kind::Panic => layout::PANIC_OFFSET,
    }
}

fn kept(registers: &[u8], at: usize) -> usize
    requires { at < 65536 }
    ensures { (result ≡ kept_count registers.now at) × (result ≤ most_kept) }
{
    let whole = octets::read_u16(registers, at + layout::RECORD_WHOLE_OFFSET);
    usize::from(whole).min(layout::MOST_KEPT)
}
