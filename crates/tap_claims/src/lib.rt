// The claims over a tap on the wire: specs/ states them, proofs/ proves them.
// No code.
#![tactic(auto)]
