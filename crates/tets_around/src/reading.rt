// Questions that the index answers by looking around one vertex only.
#![tactic(auto)]

ghost use Rattle.std.specs.Prelude.{◌≡◌, [], ◌∷◌};
ghost use Rattle.space.specs.between.Working.{around};
ghost use Rattle.tets_around.specs.between.Index.{Indexed, AroundRow, fewest};
ghost use Rattle.tets_around.specs.Sharing.{sharers, together_in};

use crate::Row;
use space::{Tet, Vertex, tet_has3};

// The labels of the tetrahedra of n vertices, four to each, with their index: where each vertex's row starts, and the rows.
#[derive(Clone, Copy)]
pub struct Index<'a> {
    pub labels: &'a [u16],
    pub n: usize,
    pub offsets: &'a [u16],
    pub entries: &'a [u16],
    pub ghost indexed: { Indexed labels.now n offsets.now entries.now },
}

impl<'a> Index<'a> {
    // Where the row of a vertex stands. It is empty where there is no such vertex.
    pub fn row(&self, v: Vertex) -> Row
        ensures { AroundRow self.now.labels.now self.now.entries.now v.0 result }
    {
        let k = v.0 as usize;
        if k < self.n {
            let from = self.offsets[k] as usize;
            let end = self.offsets[k + 1] as usize;
            Row {
                from,
                size: end - from,
            }
        } else {
            Row {
                from: self.offsets[self.n] as usize,
                size: 0,
            }
        }
    }

    // The tetrahedra around a vertex, as they stand in the index.
    pub fn around(&self, v: Vertex) -> &'a [u16]
        ensures { result.now ≡ around self.now.labels.now v.0 }
    {
        let row = self.row(v);
        let end = row.from + row.size;
        &self.entries[row.from..end]
    }

    // Of three vertices, one with the fewest tetrahedra.
    pub fn rarest(&self, a: Vertex, b: Vertex, c: Vertex) -> Vertex
        ensures { result.0 ≡ fewest self.now.labels.now a.0 b.0 c.0 }
    {
        let x = self.row(a).size;
        let y = self.row(b).size;
        let z = self.row(c).size;
        if x <= y {
            if x <= z { a } else { c }
        } else {
            if y <= z { b } else { c }
        }
    }

    // Some tetrahedron has the three vertices; it is looked for around the rarest of them.
    pub fn together3(&self, u: Vertex, v: Vertex, w: Vertex) -> bool
        ensures { result ≡ together_in self.now.labels.now (u.0 ∷ v.0 ∷ w.0 ∷ []) }
    {
        let row = self.around(self.rarest(u, v, w));
        for i in row {
            if tet_has3(self.labels, Tet(*i), u, v, w) {
                return true;
            }
        }
        false
    }

    // Some tetrahedron has the two vertices.
    pub fn together2(&self, u: Vertex, v: Vertex) -> bool
        ensures { result ≡ together_in self.now.labels.now (u.0 ∷ v.0 ∷ []) }
    {
        self.together3(u, v, v)
    }

    // How many tetrahedra have the three vertices; they are looked for around the rarest of them.
    pub fn sharing(&self, a: Vertex, b: Vertex, c: Vertex) -> usize
        ensures { result ≡ sharers self.now.labels.now (a.0 ∷ b.0 ∷ c.0 ∷ []) }
    {
        let row = self.around(self.rarest(a, b, c));
        let mut found: usize = 0;
        for i in row {
            if tet_has3(self.labels, Tet(*i), a, b, c) {
                found += 1;
            }
        }
        found
    }
}
