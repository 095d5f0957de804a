// The claims over the main processor's end: specs/ states them, proofs/ proves them.
// No code.
#![tactic(auto)]
