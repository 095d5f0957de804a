// The customer's demands and requests: specs/ states them, proofs/ proves them.
// No code.
#![tactic(auto)]
