// The claims over the plain reader: specs/ states them, proofs/ proves them.
// No code.
#![tactic(auto)]
