// Requests: the supervisor's tests on a message, and what each valid request does.
// Assumes valid parts, as each `requires` states.
ghost use Rattle.std.specs.Prelude.{◌≡◌, true, ◌≤◌, length};
ghost use Rattle.std.proofs.Math.Option.{some};
ghost use Rattle.line.specs.Limits.{longest_data};
ghost use Rattle.counters.specs.Ended.{step_report, served_report};
ghost use Rattle.responder.specs.Commands.{command_of_number, length_right};
ghost use Rattle.responder.specs.Kinds.{command_meant};
ghost use Rattle.responder.specs.Requests.{version_served, good, tested};
ghost use Rattle.responder.specs.Stores.{asked_message, ValidStores, StoresAnswered};

use crate::alert::alert;
use crate::answers::{
    send_block, send_bsu, send_identity, send_item, send_mac, send_status, send_value,
};
use crate::commands::Command;
use crate::head;
use crate::records::{ask_for, boot_failure, panic, start_acknowledged};
use crate::sending::fail;
use crate::settings::set_key;
use crate::stores::Stores;
use counters::outcome::Outcome;
use line::numbers;
use supervisor::layout;
use supervisor::number::RequestNumber;

// A message that the line layer found good.
#[derive(Clone, Copy)]
pub(crate) struct Request<'a> {
    pub version: u32,
    pub number: RequestNumber,
    pub command: u8,
    pub payload: &'a [u8],
}

// A request: failure 5, 6, 3 or 7, or what it does.
pub(crate) fn respond(asked: &Request, stores: &mut Stores) -> Outcome
    requires stores_valid { ValidStores stores.old }
    requires data_len_bound { length asked.now.payload.now ≤ longest_data }
    ensures { StoresAnswered stores.old (tested (asked_message asked.now)) (step_report result) (served_report result) stores.new }
{
    if !is_served(asked.version) {
        let first = head::head_to(numbers::FIRST_VERSION, asked.number);
        return fail(stores.outbox, first, numbers::REASON_VERSION);
    }
    let reply = head::head_to(asked.version, asked.number);
    if numbers::TOP_BIT <= asked.number.0 {
        return fail(stores.outbox, reply, numbers::REASON_SEQUENCE);
    }
    let Ok(command) = Command::try_from(asked.command) else {
        let none = head::unnumbered();
        return fail(stores.outbox, none, numbers::REASON_LENGTH);
    };
    if !command.allows(asked.payload.len()) {
        return fail(stores.outbox, reply, numbers::REASON_DATA);
    }
    serve(asked, command, stores)
}

fn is_served(version: u32) -> bool
    ensures { result ≡ version_served version }
{
    matches!(version, numbers::FIRST_VERSION | numbers::SECOND_VERSION)
}

// What a valid request does, and what is told of it.
fn serve(asked: &Request, command: Command, stores: &mut Stores) -> Outcome
    requires stores_valid { ValidStores stores.old }
    requires data_len_bound { length asked.now.payload.now ≤ longest_data }
    requires command_value { command_of_number asked.now.command ≡ some (command_meant command) }
    requires data_value { length_right (command_meant command) (length asked.now.payload.now) ≡ true }
    requires version_value { version_served asked.now.version ≡ true }
    ensures { StoresAnswered stores.old (good (asked_message asked.now)) (step_report result) (served_report result) stores.new }
{
    let data = asked.payload;
    let first = octets::read_u8(data, 0);
    let reply = head::head_to(asked.version, asked.number);
    let outbox = &mut *stores.outbox;
    let registers = &mut *stores.registers;
    let settings = &mut *stores.settings;
    let factory = stores.factory;
    match command {
        Command::Reboot => ask_for(outbox, registers, layout::REBOOT_OFFSET),
        Command::PowerOff => ask_for(outbox, registers, layout::POWER_OFF_OFFSET),
        Command::Bsu => send_bsu(outbox, reply, factory),
        Command::Identity => send_identity(outbox, reply, factory),
        Command::Mac => send_mac(outbox, reply, factory),
        Command::BootFailure => boot_failure(outbox, registers, u16::from(first), data),
        Command::Panic => panic(outbox, registers, reply, data),
        Command::Status => send_status(outbox, reply, registers),
        Command::StartAcknowledged => start_acknowledged(outbox, registers, reply),
        Command::Alert => alert(outbox, registers, asked.version, asked.number),
        Command::ImageBlock => send_block(outbox, reply, factory, stores.image, data),
        Command::KeyLookup => send_value(outbox, reply, factory, settings, data),
        Command::Inventory => {
            let index = octets::read_u32(data, 0);
            send_item(outbox, reply, factory, index as usize);
        }
        Command::KeySet => {
            let result = set_key(outbox, settings, reply, data);
            return Outcome::KeySet(first, result);
        }
    }
    Outcome::Request(asked.command)
}
