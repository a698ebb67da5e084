// Whether cells remain, at a glance:
// a pyramid of the last or the first tetrahedron and one beside it tells it without a search.
// Which are tried is a matter of speed alone:
// at one end of the file the vertices mostly have great numbers, and so the pyramids come late in the list.
#![tactic(auto)]

ghost use Rattle.std.specs.Prelude.{◌≡◌, true, ◌/◌, ◌<◌, length};
ghost use Rattle.space.specs.Arrays.{mesh_of};
ghost use Rattle.tets_around.specs.between.Build.{Within};
ghost use Rattle.pyramid_left.specs.between.Seen.{Seen};

use joints::{joint_of, pyramid};
use space::{Tet, Vertex};
use tets_around::Mesh;
use verdict::is_leaf;

// The tuple is a pyramid of the list from the first corner lo on.
fn is_seen(mesh: &Mesh<'_>, lo: usize, tuple: [u16; 8]) -> bool
    ensures { result ≡ true → Seen (mesh_of mesh.now.coords.now mesh.now.index.labels.now mesh.now.parts.now) lo }
{
    lo <= tuple[0] as usize && is_leaf(mesh, 5, tuple).is_some()
}

// A pyramid of e and m: of three, where they have a facet in common.
fn is_beside(mesh: &Mesh<'_>, lo: usize, e: Tet, m: Tet) -> bool
    requires { (e.0 < length mesh.now.index.labels.now / 4) × (m.0 < length mesh.now.index.labels.now / 4) }
    ensures { result ≡ true → Seen (mesh_of mesh.now.coords.now mesh.now.index.labels.now mesh.now.parts.now) lo }
{
    let Some(p) = joint_of(mesh.index.labels, e, m) else {
        return false;
    };
    (0..3).any(|j| is_seen(mesh, lo, pyramid(p, j)))
}

// A pyramid of e and one of the row. It is no `any`: there the check finds no proof that each entry is a tetrahedron.
fn is_in_row(mesh: &Mesh<'_>, lo: usize, row: &[u16], e: Tet) -> bool
    requires { (e.0 < length mesh.now.index.labels.now / 4) × Within (length mesh.now.index.labels.now / 4) row.now }
    ensures { result ≡ true → Seen (mesh_of mesh.now.coords.now mesh.now.index.labels.now mesh.now.parts.now) lo }
{
    for &m in row {
        if is_beside(mesh, lo, e, Tet(m)) {
            return true;
        }
    }
    false
}

// A pyramid of e and one beside it, looked for around the rarest of three of its vertices.
fn is_at(mesh: &Mesh<'_>, lo: usize, e: Tet) -> bool
    requires { e.0 < length mesh.now.index.labels.now / 4 }
    ensures { result ≡ true → Seen (mesh_of mesh.now.coords.now mesh.now.index.labels.now mesh.now.parts.now) lo }
{
    let ix = mesh.index;
    let at = 4 * (e.0 as usize);
    let a = Vertex(ix.labels[at]);
    let b = Vertex(ix.labels[at + 1]);
    let c = Vertex(ix.labels[at + 2]);
    is_in_row(mesh, lo, ix.around(ix.rarest(a, b, c)), e)
}

// Whether a pyramid of the list from the first corner lo on is seen at once.
// Where this is false, there may be one all the same.
pub fn sees(mesh: &Mesh<'_>, lo: usize) -> bool
    ensures { result ≡ true → Seen (mesh_of mesh.now.coords.now mesh.now.index.labels.now mesh.now.parts.now) lo }
{
    let t = mesh.index.labels.len() / 4;
    0 < t && (is_at(mesh, lo, Tet((t - 1) as u16)) || is_at(mesh, lo, Tet(0)))
}
