// The claims over the field counters: specs/ states them, proofs/ proves them.
// No code.
#![tactic(auto)]
