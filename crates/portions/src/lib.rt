// What marks, records and portions guarantee, over any rule of cells; the order of tuples and what a search for the
// next promises. No code: specs/ has the definitions, proofs/ the laws.
#![tactic(auto)]
