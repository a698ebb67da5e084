// A mesh that was accepted, as everyone who asks about its cells is lent it.
#![tactic(auto)]

ghost use Rattle.tets_around.specs.between.Arrays.{Arrays};

use crate::Index;

// The coordinates of its vertices, three to each; a part to each tetrahedron; its labels with their index.
#[derive(Clone, Copy)]
pub struct Mesh<'a> {
    pub coords: &'a [i64],
    pub parts: &'a [u16],
    pub index: Index<'a>,
    pub ghost arrays: { Arrays coords.now index.labels.now parts.now index.n index.offsets.now index.entries.now },
}
