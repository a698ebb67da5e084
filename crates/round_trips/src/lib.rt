// Reading undoes writing, and writing undoes reading: theorems over `file_of` and `packed`.
// No code: specs/ has the statements, proofs/ the proofs.
#![tactic(auto)]
