// The claims over the line layer: specs/ states them, proofs/ proves them.
// No code.
#![tactic(auto)]
