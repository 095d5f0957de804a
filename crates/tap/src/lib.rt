// No code: the meaning of a tap on the wire.
// Assumes nothing.
#![tactic(auto)]
