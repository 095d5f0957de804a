// The line layer's limits, each in one place; specs/Limits.antt has the same.
// Assumes nothing.
pub(crate) const MAGIC: u32 = 0x01DE19CC;

pub(crate) const HEADER_LENGTH: usize = 17;

pub(crate) const CHECKSUM_LENGTH: usize = 2;

pub(crate) const SHORTEST_MESSAGE: usize = HEADER_LENGTH + CHECKSUM_LENGTH;

pub(crate) const LONGEST_MESSAGE: usize = 4123;

pub const LONGEST_DATA: usize = LONGEST_MESSAGE - SHORTEST_MESSAGE;

pub(crate) const LONGEST_GROUP: u32 = 254;

pub const LONGEST_FORM: usize = LONGEST_MESSAGE + 1 + LONGEST_MESSAGE / LONGEST_GROUP as usize;
