// The claims over both ends of the wire: specs/ states them, proofs/ proves them.
// No code.
#![tactic(auto)]
