// The claims over the supervisor: specs/ states them, proofs/ proves them.
// No code.
#![tactic(auto)]
