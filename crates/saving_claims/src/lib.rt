// The claims over saving and restoring: specs/ states them, proofs/ proves them.
// No code.
#![tactic(auto)]
