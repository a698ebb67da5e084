// Of how many tetrahedra the triangles of a face are facets; two of a cell's tetrahedra that are of two parts.
#![tactic(auto)]

ghost use Rattle.std.specs.Prelude.{◌≡◌, [], ◌∷◌, ◌/◌, ◌≤◌, ◌<◌, length, IfSome};
ghost use Rattle.tets_around.specs.Sharing.{sharers};

use open_faces::sides_at;
use own::belongs_to;
use space::{Tet, Vertex, tet_has3};
use templates::corner;
use verdict::tables_of;

// ---- of how many tetrahedra three vertices are a facet

// Of all the mesh's.
pub fn sharers_at(labels: &[u16], u: Vertex, v: Vertex, w: Vertex) -> usize
    requires { length labels.now / 4 ≤ 2048 }
    ensures { result ≡ sharers labels.now (u.0 ∷ v.0 ∷ w.0 ∷ []) }
{
    let mut found: usize = 0;
    for i in 0..labels.len() / 4 {
        if tet_has3(labels, Tet(i as u16), u, v, w) {
            found += 1;
        }
    }
    found
}

// Of the cell's.
pub fn own_at(labels: &[u16], kind: u16, tuple: &[u16], u: Vertex, v: Vertex, w: Vertex) -> usize
    requires { (length labels.now / 4 ≤ 2048) × (8 ≤ length tuple.now) }
{
    let tables = tables_of(kind);
    sides_at(labels, &tuple[..tables.corners], tables.quads, u, v, w)
}

// The triangle at three corners of a tuple, counted.
fn count_at<F: Fn(Vertex, Vertex, Vertex) -> usize>(tuple: &[u16], at: [u8; 3], count: &F) -> u16
    requires { F.IsAlwaysCallable count.now }
{
    let [u, v, w] = at.map(|k| Vertex(corner(tuple, k)));
    (count(u, v, w) % 65536) as u16
}

// The triangles of a face, counted: itself, or those of a quadrilateral's one diagonal and then of its other.
pub fn counts<F: Fn(Vertex, Vertex, Vertex) -> usize>(
    tuple: &[u16],
    p: [u8; 4],
    width: usize,
    count: F,
) -> [u16; 4]
    requires { F.IsAlwaysCallable count }
{
    let first = count_at(tuple, [p[0], p[1], p[2]], &count);
    if width < 4 {
        return [first, 0, 0, 0];
    }
    [
        first,
        count_at(tuple, [p[0], p[2], p[3]], &count),
        count_at(tuple, [p[0], p[1], p[3]], &count),
        count_at(tuple, [p[1], p[2], p[3]], &count),
    ]
}

// ---- two parts

// The first of the cell's tetrahedra that is not of a part.
fn first_apart(
    labels: &[u16],
    parts: &[u16],
    c: &[u16],
    quads: &[u8],
    part: Option<u16>,
) -> Option<usize>
    requires { length labels.now / 4 ≤ 2048 }
    ensures { IfSome result (λ i. i < length parts.now) }
{
    for (i, x) in parts.iter().enumerate() {
        if i < labels.len() / 4 && part != Some(*x) && belongs_to(labels, Tet(i as u16), c, quads) {
            return Some(i);
        }
    }
    None
}

// The cell's first tetrahedron and its part, and the first of another part with that.
fn two_parts(labels: &[u16], parts: &[u16], c: &[u16], quads: &[u8]) -> [u16; 4]
    requires { length labels.now / 4 ≤ 2048 }
{
    let Some(e) = first_apart(labels, parts, c, quads, None) else {
        return [0; 4];
    };
    let Some(f) = first_apart(labels, parts, c, quads, Some(parts[e])) else {
        return [0; 4];
    };
    [(e % 65536) as u16, parts[e], (f % 65536) as u16, parts[f]]
}

pub fn two_parts_of(labels: &[u16], parts: &[u16], kind: u16, tuple: &[u16]) -> [u16; 4]
    requires { (length labels.now / 4 ≤ 2048) × (8 ≤ length tuple.now) }
{
    let tables = tables_of(kind);
    two_parts(labels, parts, &tuple[..tables.corners], tables.quads)
}
