// The pairs of the least form, of each kind: of each two corners, a to h being 0 to 7, the first has the lesser vertex.
pub const HEX_LESS: [u8; 18] = [0, 1, 0, 3, 1, 3, 0, 4, 1, 4, 0, 2, 0, 5, 0, 7, 0, 6];

pub const PRISM_LESS: [u8; 10] = [0, 1, 0, 2, 0, 3, 0, 4, 0, 5];

pub const PYRAMID_LESS: [u8; 6] = [0, 1, 0, 2, 0, 3];
