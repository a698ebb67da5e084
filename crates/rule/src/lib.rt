// The rule of hexahedra, prisms and pyramids: what a mark and a record of a cell are, how cells are ordered,
// and that the full list of a mesh keeps to what `portions` asks of a rule. No code.
#![tactic(auto)]
