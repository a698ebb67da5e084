// Where conditions 1 to 4 fail first, of a kind and eight numbers: the place of a corner, or a row of the template's
// table; how many there are where none fails. A kind other than 8 and 6 counts as 5.
#![tactic(auto)]

ghost use Rattle.std.specs.Prelude.{◌≡◌, ◌≤◌, ◌<◌, length};
ghost use Rattle.base.specs.Lists.{up_to};
ghost use Rattle.space.specs.Box.{is_above0};
ghost use Rattle.space.specs.between.Working.{Close};
ghost use Rattle.tets_around.specs.Sharing.{together_in};
ghost use Rattle.templates.specs.Tables.{template_of, tuple_of, at};
ghost use Rattle.templates.specs.between.Flat.{pairs};
ghost use Rattle.cells.specs.Cells.{splits, box_of};
ghost use Rattle.cells.specs.between.Rows.{threes, fours, points_of, facet_in};
ghost use Rattle.reasons.specs.First.{first_fail};
ghost use Rattle.reasons.specs.Reason.{is_new, faces_by, faces, is_there};

use cells::{edge, facet, sound_at, split};
use reasons::first_fail;
use templates::is_in;
use tets_around::Index;
use verdict::tables_of;

// ---- condition 1

// The vertex at place i is below n and stands at no earlier place.
fn is_new(n: usize, c: &[u16], i: usize) -> bool
    requires { i < length c.now }
    ensures { result ≡ is_new n c.now i }
{
    (c[i] as usize) < n && !is_in(c[i], &c[..i])
}

fn corner_in(n: usize, c: &[u16]) -> usize
    ensures { result ≡ first_fail (is_new n c.now) (up_to (length c.now)) }
{
    first_fail(c.len(), |i| is_new(n, c, i))
}

// The place of the first corner that is not below n or stands at an earlier place too.
pub fn first_corner(n: usize, kind: u16, tuple: &[u16]) -> u16
    requires { 8 ≤ length tuple.now }
    ensures { result ≡ first_fail (is_new n (tuple_of kind tuple.now)) (up_to (template_of kind).corners) }
{
    let tables = tables_of(kind);
    corner_in(n, &tuple[..tables.corners]) as u16
}

// ---- condition 2

fn edge_in(ix: &Index<'_>, c: &[u16], rows: &[u8]) -> usize
    ensures { result ≡ first_fail (λ ks. together_in ix.now.labels.now (at c.now ks)) (pairs rows.now) }
{
    first_fail(rows.len() / 2, |i| edge(ix, c, rows, i))
}

// The row of the first edge that is no edge of the mesh.
pub fn first_edge(ix: &Index<'_>, kind: u16, tuple: &[u16]) -> u16
    requires { 8 ≤ length tuple.now }
    ensures { result ≡ first_fail (λ ks. together_in ix.now.labels.now (at (tuple_of kind tuple.now) ks)) (template_of kind).edges }
{
    let tables = tables_of(kind);
    edge_in(ix, &tuple[..tables.corners], tables.edges) as u16
}

// ---- condition 3

fn facet_in(ix: &Index<'_>, c: &[u16], rows: &[u8]) -> usize
    ensures { result ≡ first_fail (facet_in ix.now.labels.now c.now) (threes rows.now) }
{
    first_fail(rows.len() / 3, |i| facet(ix, c, rows, i))
}

fn split_in(ix: &Index<'_>, c: &[u16], rows: &[u8]) -> usize
    ensures { result ≡ first_fail (splits (facet_in ix.now.labels.now c.now)) (fours rows.now) }
{
    first_fail(rows.len() / 4, |i| split(ix, c, rows, i))
}

// Triangles before quadrilaterals.
fn face_in(ix: &Index<'_>, c: &[u16], triangles: &[u8], quads: &[u8]) -> usize
    ensures { result ≡ first_fail (is_there (facet_in ix.now.labels.now c.now))
        (faces_by (threes triangles.now) (fours quads.now)) }
{
    let i = facet_in(ix, c, triangles);
    if i < triangles.len() / 3 {
        return i;
    }
    i + split_in(ix, c, quads)
}

// The row of the first face that is not there: a triangle that is no facet, or a quadrilateral that no diagonal splits
// into two facets.
pub fn first_face(ix: &Index<'_>, kind: u16, tuple: &[u16]) -> u16
    requires { 8 ≤ length tuple.now }
    ensures { result ≡ first_fail (is_there (facet_in ix.now.labels.now (tuple_of kind tuple.now))) (faces (template_of kind)) }
{
    let tables = tables_of(kind);
    face_in(ix, &tuple[..tables.corners], tables.triangles, tables.quads) as u16
}

// ---- condition 4

fn box_in(coords: &[i64], c: &[u16], rows: &[u8]) -> usize
    requires { Close coords.now }
    ensures { result ≡ first_fail (λ ks. is_above0 (box_of (points_of coords.now) (at c.now ks))) (fours rows.now) }
{
    first_fail(rows.len() / 4, |i| sound_at(coords, c, rows, i))
}

// The row of the first corner triple whose box is not above 0.
pub fn first_box(coords: &[i64], kind: u16, tuple: &[u16]) -> u16
    requires { Close coords.now × (8 ≤ length tuple.now) }
    ensures { result ≡ first_fail (λ ks. is_above0 (box_of (points_of coords.now) (at (tuple_of kind tuple.now) ks)))
        (template_of kind).triples }
{
    let tables = tables_of(kind);
    box_in(coords, &tuple[..tables.corners], tables.triples) as u16
}
