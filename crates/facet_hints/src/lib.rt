// Hints of facets, by which most vertices that cannot go on a tuple are told at once:
// a table in which three vertices have one place.
#![tactic(auto)]

ghost use Rattle.std.specs.Prelude.{◌≡◌, ◌/◌, ◌<◌, [], ◌∷◌, length};
ghost use Rattle.base.specs.Lists.{all};
ghost use Rattle.space.specs.Arrays.{row4};
ghost use Rattle.cells.specs.Cells.{splits};
ghost use Rattle.cells.specs.between.Rows.{row3, threes, fours};
ghost use Rattle.facet_hints.specs.between.Hints.{hint_places, hint_place, hinted, HintsOf, hinted_at, both_hinted, split_at, faces_hinted, AddsHints, Among, OfPoint, OfSquare, OfFour};

use cells::corners_at;
use space::{Vertex, hash3};

// How many places the table of the hints has.
pub const HINT_PLACES: usize = 131072;

// A place for each three vertices: 0 where no facet has it.
pub type Hints = [u8; HINT_PLACES];

// The place of three vertices, whatever their order.
fn hint_place(u: Vertex, v: Vertex, w: Vertex) -> usize
    ensures { (result ≡ hint_place u.0 v.0 w.0) × (result < hint_places) }
{
    hash3(u, v, w) % HINT_PLACES
}

// Three vertices may be a facet: where this is false, they are none.
pub fn is_hinted(hints: &Hints, u: Vertex, v: Vertex, w: Vertex) -> bool
    ensures { result ≡ hinted hints.now u.0 v.0 w.0 }
{
    let at = hint_place(u, v, w);
    hints[at] != 0
}

// ---- making the hints

fn hint(hints: &mut Hints, u: Vertex, v: Vertex, w: Vertex)
    ensures { AddsHints hints.old hints.new (OfPoint u.0 v.0 w.0) }
{
    let at = hint_place(u, v, w);
    hints[at] = 1;
}

// u and v with each of some vertices, in one order and also where two are one.
fn hint_line(hints: &mut Hints, u: Vertex, v: Vertex, ws: &[u16])
    ensures { AddsHints hints.old hints.new (Among (u.0 ∷ []) (v.0 ∷ []) ws.now) }
{
    for w in ws {
        hint(hints, u, v, Vertex(*w));
    }
}

// u with each two of some vertices: those with the first in them, of the others those with the second, and so on.
fn hint_square(hints: &mut Hints, u: Vertex, vs: &[u16])
    ensures { AddsHints hints.old hints.new (OfSquare u.0 vs.now) }
{
    for (i, v) in vs.iter().enumerate() {
        hint_line(hints, u, Vertex(*v), &vs[i..]);
    }
}

// Each three of some vertices, in the same way.
fn hint_tet(hints: &mut Hints, vs: &[u16])
    ensures { AddsHints hints.old hints.new (OfFour vs.now) }
{
    for (i, u) in vs.iter().enumerate() {
        hint_square(hints, Vertex(*u), &vs[i..]);
    }
}

// Hints at every facet. Other hints stay.
pub fn hint_facets(labels: &[u16], hints: &mut Hints)
    ensures { HintsOf labels.now hints.new }
{
    let t = labels.len() / 4;
    for i in 0..t {
        hint_tet(hints, &labels[4 * i..4 * i + 4]);
    }
}

// ---- the faces of a table

// Two triangles may be facets.
fn both_hinted(
    hints: &Hints,
    a: Vertex,
    b: Vertex,
    c: Vertex,
    d: Vertex,
    e: Vertex,
    f: Vertex,
) -> bool
    ensures { result ≡ both_hinted hints.now a.0 b.0 c.0 d.0 e.0 f.0 }
{
    is_hinted(hints, a, b, c) && is_hinted(hints, d, e, f)
}

// Both triangles of a diagonal of a quadrilateral may be facets.
fn split_hinted(hints: &Hints, a: Vertex, b: Vertex, c: Vertex, d: Vertex) -> bool
    ensures { result ≡ split_at hints.now a.0 b.0 c.0 d.0 }
{
    both_hinted(hints, a, b, c, a, c, d) || both_hinted(hints, a, b, d, b, c, d)
}

fn triangle_hinted(hints: &Hints, c: &[u16], rows: &[u8], i: usize) -> bool
    requires { i < length rows.now / 3 }
    ensures { result ≡ hinted_at hints.now c.now (row3 rows.now i) }
{
    let f = corners_at::<3>(c, rows, i);
    is_hinted(hints, Vertex(f[0]), Vertex(f[1]), Vertex(f[2]))
}

fn quad_hinted(hints: &Hints, c: &[u16], rows: &[u8], i: usize) -> bool
    requires { i < length rows.now / 4 }
    ensures { result ≡ splits (hinted_at hints.now c.now) (row4 rows.now i) }
{
    let q = corners_at::<4>(c, rows, i);
    split_hinted(
        hints,
        Vertex(q[0]),
        Vertex(q[1]),
        Vertex(q[2]),
        Vertex(q[3]),
    )
}

fn triangles_hinted(hints: &Hints, c: &[u16], rows: &[u8]) -> bool
    ensures { result ≡ all (hinted_at hints.now c.now) (threes rows.now) }
{
    let k = rows.len() / 3;
    for i in 0..k {
        if !triangle_hinted(hints, c, rows, i) {
            return false;
        }
    }
    true
}

// Beside `triangles_hinted`: one function for both would take the width and the test, and be longer.
fn quads_hinted(hints: &Hints, c: &[u16], rows: &[u8]) -> bool
    ensures { result ≡ all (splits (hinted_at hints.now c.now)) (fours rows.now) }
{
    let k = rows.len() / 4;
    for i in 0..k {
        if !quad_hinted(hints, c, rows, i) {
            return false;
        }
    }
    true
}

// Every face of the tables may be one of the mesh.
#[tactic(auto, unfolding(crate::specs::between::Hints::faces_hinted))]
pub fn faces_hinted(hints: &Hints, c: &[u16], triangles: &[u8], quads: &[u8]) -> bool
    ensures { result ≡ faces_hinted hints.now c.now (threes triangles.now) (fours quads.now) }
{
    triangles_hinted(hints, c, triangles) && quads_hinted(hints, c, quads)
}
