// The numbers that both ends put into messages (documents 01 and 02); specs/Numbers.antt has the same.
// Assumes nothing: the line layer itself takes any version, sequence and command, so that each is a number here.

// In the second version a lookup's reply carries the edition.
pub const FIRST_VERSION: u32 = 1;

pub const SECOND_VERSION: u32 = 2;

// The top bit of a sequence: clear in a request's, set in a reply's.
pub const TOP_BIT: u64 = 0x8000000000000000;

// The sequence of a decode failure's reply whose request has none.
pub const ALL_ONES: u64 = 0xffffffffffffffff;

// The data of a status reply: status u64, options u64.
pub const STATUS_LENGTH: usize = 16;

// Commands of requests.
pub const COMMAND_REBOOT: u8 = 0x01;

pub const COMMAND_POWER_OFF: u8 = 0x02;

pub const COMMAND_BSU: u8 = 0x03;

pub const COMMAND_IDENTITY: u8 = 0x04;

pub const COMMAND_MAC: u8 = 0x05;

pub const COMMAND_BOOT_FAILURE: u8 = 0x06;

pub const COMMAND_PANIC: u8 = 0x07;

pub const COMMAND_STATUS: u8 = 0x08;

pub const COMMAND_START_ACKNOWLEDGED: u8 = 0x09;

pub const COMMAND_ALERT: u8 = 0x0a;

pub const COMMAND_IMAGE_BLOCK: u8 = 0x0d;

pub const COMMAND_KEY_LOOKUP: u8 = 0x0e;

pub const COMMAND_INVENTORY: u8 = 0x0f;

pub const COMMAND_KEY_SET: u8 = 0x10;

// Commands of replies.
pub const REPLY_ACKNOWLEDGED: u8 = 0x01;

pub const REPLY_DECODE_FAILURE: u8 = 0x02;

pub const REPLY_BSU: u8 = 0x03;

pub const REPLY_IDENTITY: u8 = 0x04;

pub const REPLY_MAC: u8 = 0x05;

pub const REPLY_STATUS: u8 = 0x06;

pub const REPLY_ALERT: u8 = 0x07;

pub const REPLY_IMAGE_BLOCK: u8 = 0x09;

pub const REPLY_KEY_LOOKUP: u8 = 0x0a;

pub const REPLY_INVENTORY: u8 = 0x0b;

pub const REPLY_KEY_SET: u8 = 0x0c;

// Why a frame fails: the data of a decode failure. Numbers, since `counters` promises of each number of a failure.
pub const REASON_FORM: u8 = 1;

pub const REASON_CHECKSUM: u8 = 2;

pub const REASON_LENGTH: u8 = 3;

pub const REASON_MAGIC: u8 = 4;

pub const REASON_VERSION: u8 = 5;

pub const REASON_SEQUENCE: u8 = 6;

pub const REASON_DATA: u8 = 7;
