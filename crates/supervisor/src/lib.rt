// The supervisor of document 01: its lent state in five parts, its stores and the local calls.
// No public function has a `requires`; each promise settles the result and every byte lent.
#![tactic(auto)]

pub mod alerts;
pub mod keys;
pub mod layout;
mod loads;
pub mod number;
pub mod options;
pub mod outbox;
pub mod registers;
pub mod start;
pub mod valid;
