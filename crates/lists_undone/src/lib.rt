// Reading the text of lists undoes printing it, a text may come in pieces, and lent lists of any lengths hold the front
// of what it says.
// No code: specs/ has the statements, proofs/ the proofs.
#![tactic(auto)]
