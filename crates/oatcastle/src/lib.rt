// The C interface: line layer, supervisor, main processor's end, address plan, probe list and root-of-trust link as functions on numbers
// and lent slices. include/oatcastle.h is its header.
// No function here that others can call has a `requires`; each promise settles the number returned and everything lent.
#![tactic(auto)]

mod answer_writing;
pub mod counting;
pub mod frames;
mod kinds;
pub mod plans;
pub mod probe_list;
pub mod readings;
pub mod receiving;
pub mod requesting;
pub mod rot_link;
pub mod saving_calls;
pub mod supervision;
