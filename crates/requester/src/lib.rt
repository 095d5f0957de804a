// The main processor's end of document 02, item 2: one request outstanding, recoveries, and the replies read in pieces.
// No public function has a `requires`; each promise settles the result and every byte lent.
#![tactic(auto)]

mod hearing;
pub mod layout;
mod message;
pub mod number;
pub mod outcome;
mod progress;
pub mod receive;
pub mod recovery;
pub mod sending;
pub mod start;
pub mod state;
mod step;
pub mod valid;
