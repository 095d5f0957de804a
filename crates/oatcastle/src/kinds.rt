// The kinds of answers, the line layer's reasons, the states and the command of a key set, as numbers of a lent answer.
// include/oatcastle.h has the same, so that they are numbers.
// Assumes nothing.
use line::numbers;

// How a piece ended.
pub(crate) const MORE: u64 = 0;

pub(crate) const EMPTY: u64 = 1;

pub(crate) const MESSAGE: u64 = 2;

pub(crate) const FAILURE: u64 = 3;

// Why a frame failed.
pub(crate) const FORM: u64 = numbers::REASON_FORM as u64;

pub(crate) const CHECKSUM: u64 = numbers::REASON_CHECKSUM as u64;

pub(crate) const LENGTH: u64 = numbers::REASON_LENGTH as u64;

pub(crate) const MAGIC: u64 = numbers::REASON_MAGIC as u64;

// The command that sets a key.
pub(crate) const KEY_SET: u64 = numbers::COMMAND_KEY_SET as u64;

// What the main processor's end hands out.
pub(crate) const NOTHING: u64 = 0;

pub(crate) const ANSWER: u64 = 1;

pub(crate) const STATUS: u64 = 2;

pub(crate) const ALERT: u64 = 3;

// What is outstanding at the main processor's end.
pub(crate) const IDLE: u64 = 0;

pub(crate) const WAITING: u64 = 1;

pub(crate) const RECOVERY_STATUS: u64 = 2;

pub(crate) const RECOVERY_ACKNOWLEDGE: u64 = 3;

pub(crate) const RECOVERY_ALERT: u64 = 4;

// What the root-of-trust link hands out.
pub(crate) const ROT_NOTHING: u64 = 0;

pub(crate) const ROT_MESSAGE: u64 = 1;

pub(crate) const ROT_ECHOED: u64 = 2;
