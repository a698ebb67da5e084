// When a tuple of corners is a cell of a mesh: conditions 1 to 4.
// A tuple is the vertices of its corners, in letter order;
// the template is lent as flat tables of corners (a to h are 0 to 7).
#![tactic(auto)]

ghost use Rattle.std.specs.Prelude.{◌≡◌, ◌/◌, ◌<◌, ltb, length};
ghost use Rattle.base.specs.Lists.{all};
ghost use Rattle.space.specs.Box.{is_above0};
ghost use Rattle.space.specs.Arrays.{row4};
ghost use Rattle.space.specs.between.Working.{Close};
ghost use Rattle.tets_around.specs.Sharing.{together_in};
ghost use Rattle.templates.specs.Tables.{at};
ghost use Rattle.templates.specs.between.Flat.{row_at, pair_at, pairs};
ghost use Rattle.cells.specs.Cells.{are_corners, all_joined, splits, all_faces, box_of};
ghost use Rattle.cells.specs.between.Rows.{row3, threes, fours, points_of, sound_by, facet_in};

use space::{Vertex, point_at, volume};
use std::array;
use templates::{all_distinct, corner};
use tets_around::Index;

// ---- the vertices of a tuple

// The vertices at row i of a table of N corners a row.
pub fn corners_at<const N: usize>(c: &[u16], rows: &[u8], i: usize) -> [u16; N]
    requires { i < length rows.now / N }
    ensures { result ≡ at c.now (row_at N rows.now i) }
{
    let row = &rows[N * i..N * i + N];
    array::from_fn(|j| corner(c, row[j]))
}

// ---- condition 1

fn all_below(c: &[u16], n: usize) -> bool
    ensures { result ≡ all (λ v. ltb v n) c.now }
{
    c.iter().all(|v| usize::from(*v) < n)
}

// 1: as many corners as asked, distinct vertices of the mesh.
pub fn is_tuple(coords: &[i64], c: &[u16], corners: usize) -> bool
    ensures { result ≡ are_corners (length coords.now / 3) corners c.now }
{
    c.len() == corners && all_below(c, coords.len() / 3) && all_distinct(c)
}

// ---- condition 2

// Row i of the table is an edge of the mesh.
pub fn edge(ix: &Index<'_>, c: &[u16], rows: &[u8], i: usize) -> bool
    requires { i < length rows.now / 2 }
    ensures { result ≡ together_in ix.now.labels.now (at c.now (pair_at rows.now i)) }
{
    let e = corners_at::<2>(c, rows, i);
    ix.together2(Vertex(e[0]), Vertex(e[1]))
}

// 2: every edge is a mesh edge.
pub fn has_edges(ix: &Index<'_>, c: &[u16], edges: &[u8]) -> bool
    ensures { result ≡ all_joined (together_in ix.now.labels.now) c.now (pairs edges.now) }
{
    (0..edges.len() / 2).all(|i| edge(ix, c, edges, i))
}

// ---- condition 3

// Row i of the table is a facet.
pub fn facet(ix: &Index<'_>, c: &[u16], rows: &[u8], i: usize) -> bool
    requires { i < length rows.now / 3 }
    ensures { result ≡ facet_in ix.now.labels.now c.now (row3 rows.now i) }
{
    let f = corners_at::<3>(c, rows, i);
    ix.together3(Vertex(f[0]), Vertex(f[1]), Vertex(f[2]))
}

fn all_facets(ix: &Index<'_>, c: &[u16], rows: &[u8]) -> bool
    ensures { result ≡ all (facet_in ix.now.labels.now c.now) (threes rows.now) }
{
    (0..rows.len() / 3).all(|i| facet(ix, c, rows, i))
}

// The triangles of a quadrilateral's one diagonal, and of its other, by the places of its four vertices.
const FIRST: [u8; 6] = [0, 1, 2, 0, 2, 3];

const SECOND: [u8; 6] = [0, 1, 3, 1, 2, 3];

// Both triangles of a diagonal of quadrilateral i are facets.
pub fn split(ix: &Index<'_>, c: &[u16], rows: &[u8], i: usize) -> bool
    requires { i < length rows.now / 4 }
    ensures { result ≡ splits (facet_in ix.now.labels.now c.now) (row4 rows.now i) }
{
    let q = corners_at::<4>(c, rows, i);
    all_facets(ix, &q, &FIRST) || all_facets(ix, &q, &SECOND)
}

// One line beside `all_facets`: one function for both would take the width and the test, and be longer.
fn all_split(ix: &Index<'_>, c: &[u16], rows: &[u8]) -> bool
    ensures { result ≡ all (splits (facet_in ix.now.labels.now c.now)) (fours rows.now) }
{
    (0..rows.len() / 4).all(|i| split(ix, c, rows, i))
}

// 3: every triangle is a facet, and both triangles of a diagonal of every quadrilateral.
pub fn has_faces(ix: &Index<'_>, c: &[u16], triangles: &[u8], quads: &[u8]) -> bool
    ensures { result ≡ all_faces (facet_in ix.now.labels.now c.now) (threes triangles.now) (fours quads.now) }
{
    all_facets(ix, c, triangles) && all_split(ix, c, quads)
}

// ---- condition 4

// The box at row i of the corner triples is above 0.
pub fn sound_at(coords: &[i64], c: &[u16], rows: &[u8], i: usize) -> bool
    requires { (i < length rows.now / 4) × Close coords.now }
    ensures { result ≡ is_above0 (box_of (points_of coords.now) (at c.now (row4 rows.now i))) }
{
    let k = corners_at::<4>(c, rows, i);
    let p = point_at(coords, Vertex(k[0]));
    let q = point_at(coords, Vertex(k[1]));
    let r = point_at(coords, Vertex(k[2]));
    let s = point_at(coords, Vertex(k[3]));
    0 < volume(p, q, r, s)
}

// 4: the box at every corner triple is above 0.
pub fn is_sound(coords: &[i64], c: &[u16], triples: &[u8]) -> bool
    requires { Close coords.now }
    ensures { result ≡ sound_by coords.now c.now (fours triples.now) }
{
    (0..triples.len() / 4).all(|i| sound_at(coords, c, triples, i))
}
