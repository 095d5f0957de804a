// The supervisor's requests: what each does and its reply, and the calls that receive, with counters or without.
// No public function has a `requires`; each promise settles the result and every byte lent.
#![tactic(auto)]

mod alert;
mod answers;
mod commands;
pub mod counting;
mod head;
pub mod receive;
mod records;
mod requests;
mod sending;
mod settings;
mod stores;
mod wiping;
