// The lengths and numbers of the root-of-trust link, each in one place; specs/Limits.antt and specs/Message.antt have the same.
// Assumes nothing. A type is a number: `write` takes any, and refuses one that is not listed.
pub(crate) const TYPE_OFFSET: usize = 1;

pub(crate) const LENGTH_OFFSET: usize = 2;

pub(crate) const START_LENGTH: usize = 4;

pub(crate) const HEADER_LENGTH: usize = 8;

pub(crate) const LONGEST_PAYLOAD: usize = 512;

pub(crate) const NULL_PROTOCOL: u8 = 0x00;

pub(crate) const VERSION_1: u8 = 0x01;

pub(crate) const ERROR_RESPONSE: u8 = 0x01;

pub(crate) const ECHO_REQUEST: u8 = 0x02;

pub(crate) const ECHO_RESPONSE: u8 = 0x03;

pub(crate) const SINK_RESPONSE: u8 = 0x09;
