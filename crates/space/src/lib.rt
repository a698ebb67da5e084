// Points and the box product of four of them; the numbers of vertices and of tetrahedra, kept apart by their types.
#![tactic(auto)]

ghost use Rattle.std.specs.Prelude.{◌≡◌, [], ◌∷◌, ◌+◌, ◌*◌, ◌/◌, ◌<◌, ◌≤◌, length, ◌+ℤ◌, ◌-ℤ◌, ◌*ℤ◌};
ghost use Rattle.base.specs.Lists.{all, is_in};
ghost use Rattle.base.specs.between.Size.{Small};
ghost use Rattle.space.specs.Box.{near, near_point, from_to, det, box, boxed};
ghost use Rattle.space.specs.between.Working.{Sized};
ghost use Rattle.space.specs.Mesh.{point};
ghost use Rattle.space.specs.between.Hash.{hash3};
ghost use Rattle.space.specs.Arrays.{row4, mesh_of};
ghost use Rattle.space.specs.between.Working.{Close};

// The number of a vertex, and the number of a tetrahedron.
#[derive(Clone, Copy, PartialEq, Eq, PartialOrd, Ord, Debug)]
pub struct Vertex(pub u16);

#[derive(Clone, Copy, PartialEq, Eq, PartialOrd, Ord, Debug)]
pub struct Tet(pub u16);

#[derive(Clone, Copy, PartialEq, Eq, PartialOrd, Ord, Debug)]
pub struct Point {
    pub x: i64,
    pub y: i64,
    pub z: i64,
}

pub fn is_near(x: i64) -> bool
    ensures { result ≡ near x }
{
    (-50000..=50000).contains(&x)
}

#[tactic(auto, unfolding(crate::specs::Box::near_point))]
fn is_near_point(p: Point) -> bool
    ensures { result ≡ near_point p }
{
    is_near(p.x) && is_near(p.y) && is_near(p.z)
}

// q - p.
fn from_to(p: Point, q: Point) -> Point
    requires { Sized 50000 p × Sized 50000 q }
    ensures { result ≡ from_to p q }
{
    Point {
        x: q.x - p.x,
        y: q.y - p.y,
        z: q.z - p.z,
    }
}

// (a × b) · c of three edges. For the edges ab, ad, ae at a hexahedron's first corner it is the paper's (ab × ad) · ae.
// Each of the three numbers of the cross product is at most 20,000,000,000 in size.
fn determinant(a: Point, b: Point, c: Point) -> i64
    requires { Sized 100000 a × (Sized 100000 b × Sized 100000 c) }
    ensures { result ≡ det a b c }
{
    let cross_x = a.y * b.z - a.z * b.y;
    let cross_y = a.z * b.x - a.x * b.z;
    let cross_z = a.x * b.y - a.y * b.x;
    cross_x * c.x + cross_y * c.y + cross_z * c.z
}

// box(p; q, r, s) of points in bounds.
pub fn volume(p: Point, q: Point, r: Point, s: Point) -> i64
    requires { Sized 50000 p × (Sized 50000 q × (Sized 50000 r × Sized 50000 s)) }
    ensures { result ≡ box p q r s }
{
    determinant(from_to(p, q), from_to(p, r), from_to(p, s))
}

// box(p; q, r, s), or a refusal where a coordinate is out of bounds.
pub fn box_product(p: Point, q: Point, r: Point, s: Point) -> Option<i64>
    ensures { result ≡ boxed p q r s }
{
    if is_near_point(p) && is_near_point(q) && is_near_point(r) && is_near_point(s) {
        Some(volume(p, q, r, s))
    } else {
        None
    }
}

// ---- the mesh in working arrays

// The point of a vertex; the origin where there is no such vertex.
pub fn point_at(coords: &[i64], v: Vertex) -> Point
    requires { Close coords.now }
    ensures { (result ≡ point (mesh_of coords.now [] []) v.0) × Sized 50000 result }
{
    let at = v.0 as usize;
    if at < coords.len() / 3 {
        Point {
            x: coords[3 * at],
            y: coords[3 * at + 1],
            z: coords[3 * at + 2],
        }
    } else {
        Point { x: 0, y: 0, z: 0 }
    }
}

// v is a vertex of the tetrahedron.
pub fn tet_has(labels: &[u16], e: Tet, v: Vertex) -> bool
    requires { e.0 < length labels.now / 4 }
    ensures { result ≡ is_in v.0 (row4 labels.now e.0) }
{
    let at = 4 * (e.0 as usize);
    let x = v.0;
    x == labels[at] || x == labels[at + 1] || x == labels[at + 2] || x == labels[at + 3]
}

// Two vertices, and three: docs/PROMISES.md names the three functions, and a list of vertices would cost its callers.
pub fn tet_has2(labels: &[u16], e: Tet, u: Vertex, v: Vertex) -> bool
    requires { e.0 < length labels.now / 4 }
    ensures { result ≡ all (λ x. is_in x (row4 labels.now e.0)) (u.0 ∷ v.0 ∷ []) }
{
    tet_has(labels, e, u) && tet_has(labels, e, v)
}

pub fn tet_has3(labels: &[u16], e: Tet, u: Vertex, v: Vertex, w: Vertex) -> bool
    requires { e.0 < length labels.now / 4 }
    ensures { result ≡ all (λ x. is_in x (row4 labels.now e.0)) (u.0 ∷ v.0 ∷ w.0 ∷ []) }
{
    tet_has(labels, e, u) && tet_has2(labels, e, v, w)
}

// ---- a number for three vertices

// Three vertices as one number, whatever their order. Other three rarely have the same one at the last bits,
// so it tells a place in a table.
#[tactic(auto, unfolding(crate::specs::between::Hash::hash3))]
pub fn hash3(u: Vertex, v: Vertex, w: Vertex) -> usize
    ensures { result ≡ hash3 u.0 v.0 w.0 }
{
    let odd = |p: Vertex| 2 * usize::from(p.0) + 1013;
    odd(u) * odd(v) * odd(w) / 2
}
