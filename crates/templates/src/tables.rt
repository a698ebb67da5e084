// The tables of the three kinds one after the other, corners a to h being 0 to 7: of each kind its edges in twos, its
// triangles in threes, its quadrilaterals and its corner triples in fours, and its triples on no face in threes.
pub const ROWS: [u8; 308] = [
    // the hexahedron: edges
    0, 1, 1, 2, 2, 3, 0, 3, 0, 4, 1, 5, 2, 6, 3, 7, 4, 5, 5, 6, 6, 7, 4, 7,
    // quadrilaterals
    0, 1, 2, 3, 4, 5, 6, 7, 0, 1, 5, 4, 3, 2, 6, 7, 1, 2, 6, 5, 0, 3, 7, 4,
    // corner triples
    0, 1, 3, 4, 1, 2, 0, 5, 2, 3, 1, 6, 3, 0, 2, 7, 4, 7, 5, 0, 5, 4, 6, 1, 6, 5, 7, 2, 7, 6, 4, 3,
    // triples on no face
    0, 1, 6, 0, 1, 7, 0, 2, 4, 0, 2, 5, 0, 2, 6, 0, 2, 7, 0, 3, 5, 0, 3, 6, 0, 4, 6, 0, 5, 6, 0, 5,
    7, 0, 6, 7, 1, 2, 4, 1, 2, 7, 1, 3, 4, 1, 3, 5, 1, 3, 6, 1, 3, 7, 1, 4, 6, 1, 4, 7, 1, 5, 7, 1,
    6, 7, 2, 3, 4, 2, 3, 5, 2, 4, 5, 2, 4, 6, 2, 4, 7, 2, 5, 7, 3, 4, 5, 3, 4, 6, 3, 5, 6, 3, 5, 7,
    // the prism: edges
    0, 1, 1, 2, 2, 0, 0, 3, 1, 4, 2, 5, 3, 4, 4, 5, 5, 3,
    // triangles
    0, 1, 2, 3, 4, 5,
    // quadrilaterals
    0, 1, 4, 3, 4, 5, 2, 1, 0, 2, 5, 3,
    // corner triples
    0, 1, 2, 3, 1, 2, 0, 4, 2, 0, 1, 5, 3, 5, 4, 0, 4, 3, 5, 1, 5, 4, 3, 2,
    // triples on no face
    0, 1, 5, 0, 2, 4, 0, 4, 5, 1, 2, 3, 1, 3, 5, 2, 3, 4,
    // the pyramid: edges
    0, 1, 1, 2, 2, 3, 0, 3, 0, 4, 1, 4, 2, 4, 3, 4,
    // triangles
    0, 1, 4, 1, 2, 4, 2, 3, 4, 0, 3, 4,
    // quadrilaterals
    0, 1, 2, 3,
    // corner triples
    0, 1, 3, 4, 1, 2, 0, 4, 2, 3, 1, 4, 3, 0, 2, 4,
    // triples on no face
    0, 2, 4, 1, 3, 4,
];
