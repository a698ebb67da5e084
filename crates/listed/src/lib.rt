// A listed tuple, which is a cell in least form, place by place:
// it passes the test of every level, its vertices stand in the rows of the corners joined to them
// and above those they must be above, and each follows by whatever aim is known. No code.
#![tactic(auto)]
