// What several crates say of lists, loops, lent slices and signed numbers, and its laws. No code: specs/ has the
// definitions, proofs/ the laws.
#![tactic(auto)]
