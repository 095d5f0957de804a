// The line layer of document 01: checksum, COBS frames, messages; the reader and the writer.
// No public function has a `requires`; each promise settles the result and every byte lent.
#![tactic(auto)]

mod cobs;
pub mod limits;
pub mod numbers;
pub mod reader;
mod scan;
pub mod sums;
pub mod writer;
