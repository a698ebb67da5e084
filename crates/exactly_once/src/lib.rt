// Each cell is listed once, whichever way it is turned: theorems over the cell rule.
// No code: specs/ has the statements, proofs/ the proofs.
#![tactic(auto)]
