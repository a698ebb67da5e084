// Two tetrahedra with a facet in common, and the pyramids that they may be, from the labels alone: a guess, which is
// tested elsewhere.
#![tactic(auto)]

ghost use Rattle.std.specs.Prelude.{◌≡◌, ◌/◌, ◌<◌, ◌≤◌, length};
ghost use Rattle.joints.specs.between.Joints.{lone_of, lesser_first, least_first, across_of, joint_of, pyramid_of};

use space::{Tet, Vertex, tet_has};

// Two tetrahedra with a facet in common: its vertices x, y, z, and u and w on either side.
#[derive(Clone, Copy)]
pub struct Joint {
    pub u: Vertex,
    pub w: Vertex,
    pub x: Vertex,
    pub y: Vertex,
    pub z: Vertex,
}

// The place of the vertex of e that m does not have; 4 where there is not just one. A number and no Option: the laws of
// the only place, and the edit two_apart, are of the bound 4.
fn lone(labels: &[u16], e: Tet, m: Tet) -> usize
    requires { (e.0 < length labels.now / 4) × (m.0 < length labels.now / 4) }
    ensures { (result ≡ lone_of labels.now e.0 m.0) × (result ≤ 4) }
{
    let at = 4 * (e.0 as usize);
    let mut found = 4;
    for i in 0..4 {
        if !tet_has(labels, m, Vertex(labels[at + i])) {
            if found < 4 {
                return 4;
            }
            found = i;
        }
    }
    found
}

// The base with the lesser of a and c first, and the apex.
fn lesser_first(a: Vertex, b: Vertex, c: Vertex, d: Vertex, apex: Vertex) -> [u16; 8]
    ensures { result ≡ lesser_first a.0 b.0 c.0 d.0 apex.0 }
{
    if c.0 < a.0 {
        return [c.0, d.0, a.0, b.0, apex.0, 0, 0, 0];
    }
    [a.0, b.0, c.0, d.0, apex.0, 0, 0, 0]
}

// The base with its least corner first, and the apex.
fn least_first(a: Vertex, b: Vertex, c: Vertex, d: Vertex, apex: Vertex) -> [u16; 8]
    ensures { result ≡ least_first a.0 b.0 c.0 d.0 apex.0 }
{
    let s = lesser_first(a, b, c, d, apex);
    let t = lesser_first(b, c, d, a, apex);
    if s[0] < t[0] { s } else { t }
}

// The facet of e that lies opposite its place i, and w behind it. Turned by one place, four vertices are mirrored:
// at places 1 and 3 two are exchanged.
fn across(labels: &[u16], e: Tet, i: usize, w: Vertex) -> Joint
    requires { (e.0 < length labels.now / 4) × (i < 4) }
    ensures { result ≡ across_of labels.now e.0 i w }
{
    let at = 4 * (e.0 as usize);
    let u = Vertex(labels[at + i]);
    let x = Vertex(labels[at + (i + 1) % 4]);
    let y = Vertex(labels[at + (i + 2) % 4]);
    let z = Vertex(labels[at + (i + 3) % 4]);
    if i % 2 == 0 {
        return Joint { u, w, x, y, z };
    }
    Joint {
        u,
        w,
        x,
        y: z,
        z: y,
    }
}

// The pair of e and m, where they have a facet in common.
pub fn joint_of(labels: &[u16], e: Tet, m: Tet) -> Option<Joint>
    requires { (e.0 < length labels.now / 4) × (m.0 < length labels.now / 4) }
    ensures { result ≡ joint_of labels.now e.0 m.0 }
{
    let i = lone(labels, e, m);
    if i == 4 {
        return None;
    }
    let j = lone(labels, m, e);
    if j == 4 {
        return None;
    }
    let w = Vertex(labels[4 * (m.0 as usize) + j]);
    Some(across(labels, e, i, w))
}

// A pyramid of the pair: each of the facet's vertices may be the apex, z where k is 0, x where it is 1, and else y.
pub fn pyramid(p: Joint, k: usize) -> [u16; 8]
    ensures { result ≡ pyramid_of p k }
{
    if k == 0 {
        return least_first(p.u, p.x, p.w, p.y, p.z);
    }
    if k == 1 {
        return least_first(p.u, p.y, p.w, p.z, p.x);
    }
    least_first(p.u, p.z, p.w, p.x, p.y)
}
