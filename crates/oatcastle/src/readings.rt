// The supervisor's calls that read: a key's value, the line signal, the two flags, the two records.
// Assumes nothing: no exported function has a `requires`.
ghost use Rattle.std.specs.Prelude.{◌≡◌};
ghost use Rattle.supervisor.specs.Calls.{lookup_report, signal_report, flags_report, record_report};
ghost use Rattle.supervisor.specs.declared.registers.Kind.TheVariants.{BootFailure, Panic};
ghost use Rattle.oatcastle.specs.Answers.{call_outcome, given, numbers_of};
ghost use Rattle.oatcastle.specs.SupervisorCalls.{lookup_given, lookup_call, edition_call, signal_given, signal_call, flags_given};
ghost use Rattle.oatcastle.specs.SupervisorCalls.{flags_call, record_given, record_call};

use crate::answer_writing::{answered, fill};
use refusals::Refusal;
use supervisor::keys;
use supervisor::keys::LookupError;
use supervisor::registers::{Asked, Entry, Kind};

// Looks a key up and copies its value.
#[unsafe(no_mangle)]
pub extern "C" fn oatcastle_lookup<'a>(
    factory: &'a [u8],
    settings: &'a [u8],
    key: u8,
    maxresponse: u16,
    room: &mut [u8],
    answer: &mut [u64; 2],
) -> u32
    ensures { call_outcome result (room.new, answer.new)
        ≡ lookup_call factory.now settings.now key maxresponse room.old answer.old }
{
    let value = keys::lookup(factory, settings, key, maxresponse);
    let found = keys::lookup_result(factory, settings, key, maxresponse);
    let numbers = found_numbers(found.map(|n| n as u64));
    answered(fill(numbers, value, room), answer)
}

// The numbers of a lookup or an edition: its result, and what was found.
fn found_numbers(found: Result<u64, LookupError>) -> Result<[u64; 2], Refusal>
    ensures { numbers_of result ≡ lookup_given (lookup_report found) }
{
    let numbers = match found {
        Ok(n) => [0, n],
        Err(LookupError::Refused) => return Err(Refusal::BadState),
        Err(LookupError::BadKey) => [1, 0],
        Err(LookupError::NoValue) => [2, 0],
        Err(LookupError::TooLong) => [3, 0],
        Err(LookupError::SetOnly) => [4, 0],
    };
    Ok(numbers)
}

// The edition of a key.
#[unsafe(no_mangle)]
pub extern "C" fn oatcastle_edition(
    factory: &[u8],
    settings: &[u8],
    key: u8,
    answer: &mut [u64; 2],
) -> u32
    ensures { call_outcome result answer.new
        ≡ edition_call factory.now settings.now key answer.old }
{
    let found = keys::edition(factory, settings, key);
    answered(found_numbers(found.map(u64::from)), answer)
}

// The line signal.
#[unsafe(no_mangle)]
pub extern "C" fn oatcastle_signal(registers: &[u8], answer: &mut [u64; 1]) -> u32
    ensures { call_outcome result answer.new ≡ signal_call registers.now answer.old }
{
    let read = supervisor::registers::signal(registers);
    answered(read.map(flag_number), answer)
}

// A flag as the only number of an answer.
fn flag_number(on: bool) -> [u64; 1]
    ensures { given result ≡ signal_given (signal_report (Ok on)) }
{
    [u64::from(on)]
}

// Whether a reboot and power off were asked for.
#[unsafe(no_mangle)]
pub extern "C" fn oatcastle_flags(registers: &[u8], answer: &mut [u64; 2]) -> u32
    ensures { call_outcome result answer.new ≡ flags_call registers.now answer.old }
{
    let read = supervisor::registers::flags(registers);
    answered(read.map(asked_numbers), answer)
}

fn asked_numbers(asked: Asked) -> [u64; 2]
    ensures { given result ≡ flags_given (flags_report (Ok asked)) }
{
    [u64::from(asked.reboot), u64::from(asked.power_off)]
}

// The record of a boot failure, and its kept bytes.
#[unsafe(no_mangle)]
pub extern "C" fn oatcastle_boot_failure_record(
    registers: &[u8],
    room: &mut [u8],
    answer: &mut [u64; 4],
) -> u32
    ensures { call_outcome result (room.new, answer.new)
        ≡ record_call registers.now BootFailure room.old answer.old }
{
    read_record(registers, Kind::BootFailure, room, answer)
}

// The record of a panic, and its kept bytes.
#[unsafe(no_mangle)]
pub extern "C" fn oatcastle_panic_record(
    registers: &[u8],
    room: &mut [u8],
    answer: &mut [u64; 4],
) -> u32
    ensures { call_outcome result (room.new, answer.new)
        ≡ record_call registers.now Panic room.old answer.old }
{
    read_record(registers, Kind::Panic, room, answer)
}

fn read_record(registers: &[u8], kind: Kind, room: &mut [u8], answer: &mut [u64; 4]) -> u32
    ensures { call_outcome result (room.new, answer.new)
        ≡ record_call registers.now kind room.old answer.old }
{
    let kept = supervisor::registers::record_bytes(registers, kind);
    let found = supervisor::registers::record(registers, kind);
    answered(fill(found.map(entry_numbers), kept, room), answer)
}

// The numbers of a record, if there is one.
fn entry_numbers(found: Option<Entry>) -> [u64; 4]
    ensures { given result ≡ record_given (record_report (Ok found)) }
{
    match found {
        None => [0, 0, 0, 0],
        Some(e) => [1, e.code as u64, e.whole as u64, e.kept as u64],
    }
}
