// The main processor's part: its published length, and which byte is where. docs/STATE.md lists every field.
// Numbers are little-endian. Assumes nothing.
use line::limits;

// The count of a frame that is longer than any form.
pub const OVERLONG: usize = limits::LONGEST_FORM + 1;

// Sequences run from 1 to this one.
pub const LAST_NUMBER: u64 = 0x7ffffffffffffffe;

pub const NUMBER_OFFSET: usize = 0;

pub const RECOVERY_OFFSET: usize = 8;

pub const UNSENT_OFFSET: usize = 9;

pub const KEPT_OFFSET: usize = 10;

pub const COMMAND_OFFSET: usize = 11;

pub const LENGTH_OFFSET: usize = 12;

pub const DATA_OFFSET: usize = 14;

pub const REQUESTER_LENGTH: usize = DATA_OFFSET + limits::LONGEST_DATA;

// The steps of a recovery.
pub const NO_STEP: u8 = 0;

pub const FETCH: u8 = 1;

pub const ACKNOWLEDGE: u8 = 2;

pub const ALERT: u8 = 3;
