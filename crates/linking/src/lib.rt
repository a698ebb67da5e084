// The vertices that link the two ends of a face's three known corners: none, a single one, a pair, or more.
#![tactic(auto)]

ghost use Rattle.std.specs.Prelude.{◌≡◌, ◌⊎◌, true, length};
ghost use Rattle.facet_hints.specs.between.Hints.{hinted};
ghost use Rattle.neighbours.specs.between.Reading.{Rowed};
ghost use Rattle.reaching.specs.between.Reaching.{Links, ByRow};
ghost use Rattle.linking.specs.between.Met.{AllMet, Adds, LinkAt};

use facet_hints::is_hinted;
use neighbours::neighbour_row;
use reaching::{FaceEdge, MANY, Near, may_link, shorter};
use space::Vertex;

// The linking vertices that were met: none, a single one, a pair, or more. Of more there are two of them, the first one with
// the most neighbours; both are 65535, no vertex, where too many were to be looked through, as the record Aims has it. The
// choice is a matter of speed alone.
#[derive(Clone, Copy)]
pub enum Linking {
    None,
    One(Vertex),
    Pair(Vertex, Vertex),
    More(Vertex, Vertex),
}

// Of two vertices, one with the most neighbours. It takes the table alone, as it asks for no hints.
pub fn fuller(n: usize, table: &[u16], x: Vertex, y: Vertex) -> Vertex
    requires { Rowed n table.now }
    ensures { (result ≡ x) ⊎ (result ≡ y) }
{
    let p = neighbour_row(n, table, x);
    let q = neighbour_row(n, table, y);
    if p.size < q.size { y } else { x }
}

// A linking vertex more.
fn one_more(near: &Near, x: Vertex, s: Linking) -> Linking
    ensures { Adds (λ y. y ≡ x.0) s result }
{
    match s {
        Linking::None => Linking::One(x),
        Linking::One(y) => Linking::Pair(y, x),
        Linking::Pair(y, o) | Linking::More(y, o) => {
            let z = fuller(near.n, near.table, y, o);
            Linking::More(fuller(near.n, near.table, x, z), x)
        }
    }
}

// The vertex x more, where it may link w and v at u, where the edge goes from w to u.
fn sole_at(near: &Near, e: FaceEdge, v: Vertex, x: Vertex, s: Linking) -> Linking
    ensures { Adds (LinkAt near.now.n near.now.table.now near.now.hints.now e v.0 x.0) s result }
{
    let u = e.u;
    let w = e.w;
    if may_link(e, x) && is_hinted(near.hints, u, x, v) && is_hinted(near.hints, u, w, x) {
        one_more(near, x, s)
    } else {
        s
    }
}

// The same for each entry x of a row.
fn sole_row(near: &Near, row: &[u16], e: FaceEdge, v: Vertex) -> Linking
    ensures { AllMet (ByRow (LinkAt near.now.n near.now.table.now near.now.hints.now e v.0) row.now (length row.now)) result }
{
    let mut s = Linking::None;
    for &x in row {
        s = sole_at(near, e, v, Vertex(x), s);
    }
    s
}

// The vertices that link w and v at u. None of them is left out; one that the hints merely do not exclude may be
// counted too. Where there are many to look through, it is said that there may be several, and they are no vertices.
pub fn sole(near: &Near, e: FaceEdge, v: Vertex) -> Linking
    ensures { AllMet (λ x. Links near.now.n near.now.table.now near.now.hints.now e x v.0) result }
{
    let u = e.u;
    let w = e.w;
    let row = shorter(near.n, near.table, u, w);
    if MANY < row.size {
        return Linking::More(Vertex(65535), Vertex(65535));
    }
    let from = row.from;
    let end = from + row.size;
    sole_row(near, &near.table[from..end], e, v)
}

// Of the vertices that may make a facet with u and w, one with the most neighbours; where there is none or both have
// many, no vertex.
pub fn fullest(near: &Near, u: Vertex, w: Vertex) -> Vertex
    ensures { (result.0 ≡ 65535) ⊎ (hinted near.now.hints.now u.0 w.0 result.0 ≡ true) }
{
    let mut p = Vertex(65535);
    let row = shorter(near.n, near.table, u, w);
    if MANY < row.size {
        return p;
    }
    let from = row.from;
    let end = from + row.size;
    for &x in &near.table[from..end] {
        if is_hinted(near.hints, u, w, Vertex(x)) {
            p = fuller(near.n, near.table, Vertex(x), p);
        }
    }
    p
}
