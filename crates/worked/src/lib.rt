// The meshes worked by hand: their full lists, least forms, and from the bytes of their files the check's answers, calls
// of `portion` and why tuples are not cells. No code: specs/ has the rows, proofs/ that they hold.
#![tactic(auto)]
