// What is asked of each tetrahedron by itself: refusals 5, 6 and 7, over the working arrays.
#![tactic(auto)]

ghost use Rattle.std.specs.Prelude.{◌≡◌, [], ◌∷◌, not, ◌/◌, ◌≤◌, ◌<◌, leb, length};
ghost use Rattle.base.specs.Lists.{distinct};
ghost use Rattle.space.specs.Arrays.{row4};
ghost use Rattle.space.specs.between.Working.{Close};
ghost use Rattle.tets.specs.Tets.{box_in, outside, twice, flat, any_outside, any_twice, any_flat};

use space::{Tet, Vertex, point_at, volume};

// The four vertices of a tetrahedron.
pub fn corners(labels: &[u16], e: Tet) -> [u16; 4]
    requires { e.0 < length labels.now / 4 }
    ensures { result ≡ row4 labels.now e.0 }
{
    let at = 4 * usize::from(e.0);
    [labels[at], labels[at + 1], labels[at + 2], labels[at + 3]]
}

// ---- 5

fn is_outside(n: usize, labels: &[u16], e: Tet) -> bool
    requires { e.0 < length labels.now / 4 }
    ensures { result ≡ outside n labels.now e.0 }
{
    corners(labels, e).iter().any(|v| n <= usize::from(*v))
}

// ---- 6

fn names_twice(labels: &[u16], e: Tet) -> bool
    requires { e.0 < length labels.now / 4 }
    ensures { result ≡ twice labels.now e.0 }
{
    let [a, b, c, d] = corners(labels, e);
    a == b || a == c || a == d || b == c || b == d || c == d
}

// ---- 7

// box(a; b, c, d) of four vertices.
pub fn box_in(coords: &[i64], a: Vertex, b: Vertex, c: Vertex, d: Vertex) -> i64
    requires { Close coords.now }
    ensures { result ≡ box_in coords.now a.0 b.0 c.0 d.0 }
{
    volume(
        point_at(coords, a),
        point_at(coords, b),
        point_at(coords, c),
        point_at(coords, d),
    )
}

fn is_flat(coords: &[i64], labels: &[u16], e: Tet) -> bool
    requires close { Close coords.now }
    requires e_in_bounds { e.0 < length labels.now / 4 }
    ensures { result ≡ flat coords.now labels.now e.0 }
{
    let [a, b, c, d] = corners(labels, e);
    box_in(coords, Vertex(a), Vertex(b), Vertex(c), Vertex(d)) <= 0
}

// ---- over all tetrahedra

// Refusal 5: some tetrahedron names a vertex that is not below n.
pub fn any_outside(n: usize, labels: &[u16]) -> bool
    requires { length labels.now ≤ 8192 }
    ensures { result ≡ any_outside n labels.now }
{
    (0..labels.len() / 4).any(|j| is_outside(n, labels, Tet(j as u16)))
}

// Refusal 6: some tetrahedron names a vertex twice.
pub fn any_twice(labels: &[u16]) -> bool
    requires { length labels.now ≤ 8192 }
    ensures { result ≡ any_twice labels.now }
{
    (0..labels.len() / 4).any(|j| names_twice(labels, Tet(j as u16)))
}

// Refusal 7: the box of some tetrahedron is not above 0.
pub fn any_flat(coords: &[i64], labels: &[u16]) -> bool
    requires close { Close coords.now }
    requires labels_len_bound { length labels.now ≤ 8192 }
    ensures { result ≡ any_flat coords.now labels.now }
{
    (0..labels.len() / 4).any(|j| is_flat(coords, labels, Tet(j as u16)))
}
