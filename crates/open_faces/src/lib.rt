// The faces at which condition 5 fails. All tetrahedra of the mesh are looked at for each triple, so that a tuple may
// have any number of them. The cell is lent by its corners and its quadrilaterals.
#![tactic(auto)]

ghost use Rattle.std.specs.Prelude.{◌≡◌, cond, ◌&&◌, [], ◌∷◌, ◌/◌, ◌≤◌, ◌<◌, length};
ghost use Rattle.base.specs.Lists.{all};
ghost use Rattle.space.specs.Arrays.{row4};
ghost use Rattle.tets_around.specs.Sharing.{has_all};
ghost use Rattle.cells.specs.Cells.{once};
ghost use Rattle.cells.specs.between.Rows.{row3, threes, fours, owns_by};
ghost use Rattle.reasons.specs.First.{first_fail};
ghost use Rattle.reasons.specs.Reason.{faces_by, halves, is_closed};
ghost use Rattle.open_faces.specs.between.Counts.{sides_at, sides_in};

use cells::corners_at;
use own::belongs_to;
use reasons::first_fail;
use space::{Tet, Vertex, tet_has3};

// ---- counts

// 1 where the tetrahedron is one of the cell's and has these vertices, else 0.
fn side(labels: &[u16], e: Tet, c: &[u16], quads: &[u8], u: Vertex, v: Vertex, w: Vertex) -> usize
    requires { e.0 < length labels.now / 4 }
    ensures { (result ≡ cond (has_all labels.now (u.0 ∷ v.0 ∷ w.0 ∷ []) e.0
        && owns_by labels.now quads.now c.now e.0) 1 0) × (result ≤ 1) }
{
    (tet_has3(labels, e, u, v, w) && belongs_to(labels, e, c, quads)) as usize
}

// Of how many of the cell's tetrahedra three vertices are a facet.
pub fn sides_at(labels: &[u16], c: &[u16], quads: &[u8], u: Vertex, v: Vertex, w: Vertex) -> usize
    requires { length labels.now / 4 ≤ 2048 }
    ensures { result ≡ sides_at labels.now quads.now c.now (u.0 ∷ v.0 ∷ w.0 ∷ []) }
{
    let t = labels.len() / 4;
    let mut found: usize = 0;
    for i in 0..t {
        found += side(labels, Tet(i as u16), c, quads, u, v, w);
    }
    found
}

// The same for row i of a table of places of x.
pub fn sides_row(labels: &[u16], c: &[u16], quads: &[u8], x: &[u16], rows: &[u8], i: usize) -> usize
    requires { (length labels.now / 4 ≤ 2048) × (i < length rows.now / 3) }
    ensures { result ≡ sides_in labels.now quads.now c.now x.now (row3 rows.now i) }
{
    let f = corners_at::<3>(x, rows, i);
    sides_at(labels, c, quads, Vertex(f[0]), Vertex(f[1]), Vertex(f[2]))
}

// ---- triangles

// The first row of a table of places of x that is not a facet of exactly one.
fn first_not_once(labels: &[u16], c: &[u16], quads: &[u8], x: &[u16], rows: &[u8]) -> usize
    requires { length labels.now / 4 ≤ 2048 }
    ensures { result ≡ first_fail (once (sides_in labels.now quads.now c.now x.now))
        (threes rows.now) }
{
    first_fail(rows.len() / 3, |i| {
        sides_row(labels, c, quads, x, rows, i) == 1
    })
}

// ---- quadrilaterals

// The triangles of a quadrilateral's one diagonal, and of its other, by the places of its four vertices.
pub const ONE: [u8; 6] = [0, 1, 2, 0, 2, 3];

pub const OTHER: [u8; 6] = [0, 1, 3, 1, 2, 3];

// Each row of the table is a facet of exactly one.
pub fn all_once(labels: &[u16], c: &[u16], quads: &[u8], x: &[u16], rows: &[u8]) -> bool
    requires { length labels.now / 4 ≤ 2048 }
    ensures { result ≡ all (once (sides_in labels.now quads.now c.now x.now)) (threes rows.now) }
{
    first_not_once(labels, c, quads, x, rows) == rows.len() / 3
}

// Both triangles of exactly one diagonal of quadrilateral i are.
fn is_halved(labels: &[u16], c: &[u16], quads: &[u8], i: usize) -> bool
    requires { (length labels.now / 4 ≤ 2048) × (i < length quads.now / 4) }
    ensures { result ≡ halves (sides_in labels.now quads.now c.now c.now) (row4 quads.now i) }
{
    let q = corners_at::<4>(c, quads, i);
    all_once(labels, c, quads, &q, &ONE) != all_once(labels, c, quads, &q, &OTHER)
}

fn first_not_halved(labels: &[u16], c: &[u16], quads: &[u8]) -> usize
    requires { length labels.now / 4 ≤ 2048 }
    ensures { result ≡ first_fail (halves (sides_in labels.now quads.now c.now c.now))
        (fours quads.now) }
{
    first_fail(quads.len() / 4, |i| is_halved(labels, c, quads, i))
}

// The row of the first face that offends, triangles before quadrilaterals; how many faces there are where none does.
pub fn first_open(labels: &[u16], c: &[u16], triangles: &[u8], quads: &[u8]) -> usize
    requires { length labels.now / 4 ≤ 2048 }
    ensures { result ≡ first_fail (is_closed (sides_in labels.now quads.now c.now c.now))
        (faces_by (threes triangles.now) (fours quads.now)) }
{
    let i = first_not_once(labels, c, quads, c, triangles);
    let j = first_not_halved(labels, c, quads);
    if i < triangles.len() / 3 {
        return i;
    }
    i + j
}
