// How many tetrahedra a cell can have: at most 25, 8 or 3 by its kind, so a record has places for them. No code.
#![tactic(auto)]
