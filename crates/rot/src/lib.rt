// The root-of-trust link of document 02's item 7: messages over SPI as source document 003 has them, read and written.
// No public function has a `requires`; each promise settles the result and every byte lent. There is no state.
#![tactic(auto)]

pub mod crc;
mod limits;
pub mod reader;
pub mod refusals;
mod table;
pub mod writer;
