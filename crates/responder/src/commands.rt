// The commands of requests: the byte that asks for each, and the data that it may have.
// Assumes nothing: no function here has a `requires`.
ghost use Rattle.std.specs.Prelude.{◌≡◌};
ghost use Rattle.responder.specs.Commands.{commands, with_number, length_right};
ghost use Rattle.responder.specs.Kinds.{command_meant, command_listed};

use line::numbers;

// The data of three requests: hash[32], offset u64; key u8, maxresponse u16; index u32.
const IMAGE_BLOCK_LENGTH: usize = 40;

const KEY_LOOKUP_LENGTH: usize = 3;

const INVENTORY_LENGTH: usize = 4;

// What a request asks for, in document 01's order.
#[derive(Clone, Copy, Debug, PartialEq, Eq)]
pub(crate) enum Command {
    Reboot,
    PowerOff,
    Bsu,
    Identity,
    Mac,
    BootFailure,
    Panic,
    Status,
    StartAcknowledged,
    Alert,
    ImageBlock,
    KeyLookup,
    Inventory,
    KeySet,
}

// A byte that asks for none of them.
#[derive(Clone, Copy, Debug, PartialEq, Eq)]
pub(crate) struct UnknownCommand;

impl TryFrom<u8> for Command {
    type Error = UnknownCommand;

    ghost try_from_gives = { λ byte r. command_listed r ≡ with_number byte commands };

    #[tactic(auto, unfolding(crate::specs::Commands::with_number, crate::specs::Commands::command_number))]
    fn try_from(byte: u8) -> Result<Self, UnknownCommand> {
        match byte {
            numbers::COMMAND_REBOOT => Ok(Command::Reboot),
            numbers::COMMAND_POWER_OFF => Ok(Command::PowerOff),
            numbers::COMMAND_BSU => Ok(Command::Bsu),
            numbers::COMMAND_IDENTITY => Ok(Command::Identity),
            numbers::COMMAND_MAC => Ok(Command::Mac),
            numbers::COMMAND_BOOT_FAILURE => Ok(Command::BootFailure),
            numbers::COMMAND_PANIC => Ok(Command::Panic),
            numbers::COMMAND_STATUS => Ok(Command::Status),
            numbers::COMMAND_START_ACKNOWLEDGED => Ok(Command::StartAcknowledged),
            numbers::COMMAND_ALERT => Ok(Command::Alert),
            numbers::COMMAND_IMAGE_BLOCK => Ok(Command::ImageBlock),
            numbers::COMMAND_KEY_LOOKUP => Ok(Command::KeyLookup),
            numbers::COMMAND_INVENTORY => Ok(Command::Inventory),
            numbers::COMMAND_KEY_SET => Ok(Command::KeySet),
            _ => Err(UnknownCommand),
        }
    }
}

impl Command {
    // Whether it may have so many bytes of data.
    #[tactic(auto, unfolding(crate::specs::Commands::length_right))]
    pub(crate) fn allows(self, n: usize) -> bool
        ensures { result ≡ length_right (command_meant self) n }
    {
        match self {
            Command::Reboot
            | Command::PowerOff
            | Command::Bsu
            | Command::Identity
            | Command::Mac
            | Command::Status
            | Command::StartAcknowledged
            | Command::Alert => n == 0,
            Command::BootFailure | Command::KeySet => 1 <= n,
            Command::Panic => 2 <= n,
            Command::ImageBlock => n == IMAGE_BLOCK_LENGTH,
            Command::KeyLookup => n == KEY_LOOKUP_LENGTH,
            Command::Inventory => n == INVENTORY_LENGTH,
        }
    }
}
