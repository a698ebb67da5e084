// Looking ahead of a cell's face that has three known corners at most:
// which vertices can be reached over an edge of it.
// What is gone through is the row, in the neighbour table, of the one of two vertices that has fewer neighbours;
// facets are told by their hints.
#![tactic(auto)]

ghost use Rattle.std.specs.Prelude.{◌≡◌, ◌⊎◌, true, ◌+◌, ◌≤◌, length};
ghost use Rattle.facet_hints.specs.between.Hints.{hinted};
ghost use Rattle.neighbours.specs.between.Reading.{Rowed};
ghost use Rattle.reaching.specs.between.Reaching.{Lent, Chosen, may_link, Faces, Links, Closes, LeastAsked, ByRow, HintedNext};

use facet_hints::{Hints, is_hinted};
use neighbours::neighbour_row;
use space::Vertex;
use tets_around::Row;

// A row that is longer than this is not gone through. The choice is a matter of speed alone.
pub const MANY: usize = 48;

// An edge of a face, from w to u, that the next corner follows;
// and the vertices that may not link that corner and w at u: those below the floor, o, p and q.
#[derive(Clone, Copy)]
pub struct FaceEdge {
    pub u: Vertex,
    pub w: Vertex,
    pub floor: usize,
    pub o: Vertex,
    pub p: Vertex,
    pub q: Vertex,
}

// A neighbour table of n vertices and the hints of their facets, which can be read.
#[derive(Clone, Copy)]
pub struct Near<'a> {
    pub n: usize,
    pub table: &'a [u16],
    pub hints: &'a Hints,
    pub ghost lent: { Lent n table.now hints.now },
}

// v where it is from lo on and less than best, and else best.
pub fn lower(v: Vertex, lo: usize, best: usize) -> usize
    ensures { LeastAsked (λ y. y ≡ v.0) lo best result }
{
    let y = v.0 as usize;
    if lo <= y && y < best { y } else { best }
}

// Of two rows the one with fewer neighbours.
pub fn fewer(r: Row, q: Row) -> Row
    ensures { (result ≡ r) ⊎ (result ≡ q) }
{
    if q.size < r.size { q } else { r }
}

// The row of that one of two vertices that has fewer neighbours. It takes the table alone, as it asks for no hints.
pub fn shorter(n: usize, table: &[u16], u: Vertex, w: Vertex) -> Row
    requires { Rowed n table.now }
    ensures chosen { Chosen n table.now u.0 w.0 result }
    ensures inside { result.from + result.size ≤ length table.now }
{
    let r = neighbour_row(n, table, u);
    let q = neighbour_row(n, table, w);
    fewer(r, q)
}

// x is another vertex than those of the edge, which leaves it in.
pub fn may_link(e: FaceEdge, x: Vertex) -> bool
    ensures { result ≡ may_link e x.0 }
{
    let y = x.0;
    y != e.u.0 && y != e.w.0 && e.floor <= y as usize && y != e.o.0 && y != e.p.0 && y != e.q.0
}

// ---- the least vertex that makes a facet with two others

// The first vertex from lo on that may make a facet with u and x, or best.
fn next_hinted(hints: &Hints, u: Vertex, x: Vertex, lo: usize, best: usize) -> usize
    requires { best ≤ 512 }
    ensures { LeastAsked (λ v. hinted hints.now u.0 x.0 v ≡ true) lo best result }
{
    for v in lo..best {
        if is_hinted(hints, u, x, Vertex(v as u16)) {
            return v;
        }
    }
    best
}

// y where it is from lo on, less than best, and may make a facet with u and x; and else best.
fn hinted_at(hints: &Hints, u: Vertex, x: Vertex, y: Vertex, lo: usize, best: usize) -> usize
    ensures { LeastAsked (HintedNext hints.now u.0 x.0 y.0) lo best result }
{
    let v = y.0 as usize;
    if lo <= v && v < best && is_hinted(hints, u, x, y) {
        v
    } else {
        best
    }
}

// The same for each entry of a row.
fn hinted_row(hints: &Hints, row: &[u16], u: Vertex, x: Vertex, lo: usize, best: usize) -> usize
    ensures { LeastAsked (ByRow (HintedNext hints.now u.0 x.0) row.now (length row.now)) lo best result }
{
    let mut b = best;
    for &y in row {
        b = hinted_at(hints, u, x, Vertex(y), lo, b);
    }
    b
}

impl Near<'_> {
    // The least of best and the vertices from lo on that make a facet with u and x.
    // Where both have many neighbours, the hints alone are asked.
    fn facing(&self, u: Vertex, x: Vertex, lo: usize, best: usize) -> usize
        requires { best ≤ 512 }
        ensures { LeastAsked (Faces self.now.n self.now.table.now self.now.hints.now u.0 x.0) lo best result }
    {
        let row = shorter(self.n, self.table, u, x);
        if MANY < row.size {
            return next_hinted(self.hints, u, x, lo, best);
        }
        let from = row.from;
        let end = from + row.size;
        let b = lower(x, lo, best);
        hinted_row(self.hints, &self.table[from..end], u, x, lo, b)
    }

    // ---- the least vertex that can follow two others

    // The least of best and the vertices from lo on that x links with w at u, where the edge goes from w to u.
    fn beside(&self, e: FaceEdge, x: Vertex, lo: usize, best: usize) -> usize
        requires { best ≤ 512 }
        ensures { LeastAsked (Links self.now.n self.now.table.now self.now.hints.now e x.0) lo best result }
    {
        if best <= lo {
            return best;
        }
        if !may_link(e, x) {
            return best;
        }
        let u = e.u;
        let w = e.w;
        if is_hinted(self.hints, u, w, x) {
            return self.facing(u, x, lo, best);
        }
        best
    }

    // The same for each entry x of a row; the loop is that of hinted_row, and by a closure for the step no shorter.
    fn beside_row(&self, row: &[u16], e: FaceEdge, lo: usize, best: usize) -> usize
        requires { best ≤ 512 }
        ensures { LeastAsked (ByRow (Links self.now.n self.now.table.now self.now.hints.now e) row.now (length row.now)) lo best result }
    {
        let mut b = best;
        for &x in row {
            b = self.beside(e, Vertex(x), lo, b);
        }
        b
    }

    // The least vertex from lo on that can follow the edge in a face, by a linking vertex that the edge leaves in, or n.
    // Where it is lo anyhow, or both have many neighbours, it is lo: that leaves out none.
    pub fn beyond(&self, e: FaceEdge, lo: usize) -> usize
        requires { lo ≤ self.now.n }
        ensures { LeastAsked (Closes self.now.n self.now.table.now self.now.hints.now e) lo self.now.n result }
    {
        let u = e.u;
        let w = e.w;
        let row = shorter(self.n, self.table, u, w);
        if MANY < row.size {
            return lo;
        }
        if is_hinted(self.hints, u, w, Vertex(lo as u16)) {
            return lo;
        }
        let from = row.from;
        let end = from + row.size;
        self.beside_row(&self.table[from..end], e, lo, self.n)
    }
}
