// Which vertices stand together in a tetrahedron: a matrix of 512 times 512 places,
// from the vertex numbers of the tetrahedra.
#![tactic(auto)]

ghost use Rattle.std.specs.Prelude.{◌≡◌, true, ℕ, ◌+◌, ◌/◌, ◌<◌, ◌≤◌, length, get_or};
ghost use Rattle.matrix.specs.between.Matrix.{joined_by, is_joined, AddsJoins, one_pair, row_pairs, tet_pairs, next_to, Blank};

use space::Vertex;

// How many places a row has, one for each vertex that a mesh may have.
const SIDE: usize = 512;

// A row of places for each vertex, one behind the other.
pub type Matrix = [u8; SIDE * SIDE];

// ---- stores

fn join(m: &mut Matrix, u: Vertex, v: Vertex)
    requires { (u.0 < 512) × (v.0 < 512) }
    ensures { AddsJoins m.old m.new (one_pair u.0 v.0) }
{
    m[usize::from(u.0) * SIDE + usize::from(v.0)] = 1;
}

// Four straight lines, here and below: for a loop the four would have to be put in an array first.
fn join_row(m: &mut Matrix, u: Vertex, a: Vertex, b: Vertex, c: Vertex, d: Vertex)
    requires { (u.0 < 512) × ((a.0 < 512) × (b.0 < 512)) × ((c.0 < 512) × (d.0 < 512)) }
    ensures { AddsJoins m.old m.new (row_pairs u.0 a.0 b.0 c.0 d.0) }
{
    join(m, u, a);
    join(m, u, b);
    join(m, u, c);
    join(m, u, d);
}

fn join_tet(m: &mut Matrix, a: Vertex, b: Vertex, c: Vertex, d: Vertex)
    requires { ((a.0 < 512) × (b.0 < 512)) × ((c.0 < 512) × (d.0 < 512)) }
    ensures { AddsJoins m.old m.new (tet_pairs a.0 b.0 c.0 d.0) }
{
    join_row(m, a, a, b, c, d);
    join_row(m, b, a, b, c, d);
    join_row(m, c, a, b, c, d);
    join_row(m, d, a, b, c, d);
}

fn label(labels: &[u16], k: usize) -> Vertex
    requires { k < length labels.now }
    ensures { result.0 ≡ get_or labels.now k 0 }
{
    Vertex(labels[k])
}

// Joins every two vertices of every tetrahedron.
pub fn join_all(m: &mut Matrix, labels: &[u16])
    requires { (k : ℕ) → k < length labels.now → get_or labels.now k 0 < 512 }
    ensures { AddsJoins m.old m.new (joined_by labels.now (length labels.now / 4)) }
{
    let t = labels.len() / 4;
    for i in 0..t {
        let j = 4 * i;
        let a = label(labels, j);
        let b = label(labels, j + 1);
        let c = label(labels, j + 2);
        let d = label(labels, j + 3);
        join_tet(m, a, b, c, d);
    }
}

// ---- rows

// The two are joined, and differ. v stays plain: it runs along a row, and to narrow it costs an instruction a place.
pub fn is_next(m: &Matrix, u: Vertex, v: usize) -> bool
    requires { (u.0 < 512) × (v < 512) }
    ensures { result ≡ next_to (is_joined m.now) u.0 v }
{
    let k = usize::from(u.0);
    k != v && m[k * SIDE + v] != 0
}

// Whether row u joins none of the 16 vertices from v on.
// No place is tested alone, so that the compiler reads all 16 at once.
pub fn is_blank(m: &Matrix, u: Vertex, v: usize) -> bool
    requires { (u.0 < 512) × (v + 16 ≤ 512) }
    ensures { result ≡ true → Blank m.now u.0 v 16 }
{
    let k = usize::from(u.0);
    let from = k * SIDE + v;
    let mut x = 0;
    for i in 0..16 {
        x |= m[from + i];
    }
    x == 0
}
