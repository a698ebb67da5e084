// Theorems alone, in specs and proofs: `pack` undoes `unpack`, and `unpack` undoes `pack`.
#![tactic(auto)]
