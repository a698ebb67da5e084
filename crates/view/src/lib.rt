// One vertex and one tetrahedron of a mesh file, read from its own bytes for given counts. Where these do not fill the
// file, nothing is anywhere.
#![tactic(auto)]

ghost use Rattle.std.specs.Prelude.{◌≡◌, ◌+◌, ◌*◌, ◌≤◌, IsTrue, length};
ghost use Rattle.view.specs.View.{fills_file, place_in, tetra_in, part_in};
ghost use Rattle.view.specs.between.Reads.{point_read, tetra_read};

use layout::{i32_at, u16_at};
use space::{Point, Tet, Vertex};

// The counts fill the file: without this no reader below looks into it.
#[tactic(auto, unfolding(crate::specs::View::fills_file))]
fn counts_fit(file: &[u8], n: usize, t: usize) -> bool
    ensures fits { result ≡ fills_file file.now n t }
    ensures sizes { IsTrue result → (n ≤ 512) × (t ≤ 2048) × (length file.now ≡ 24 + 12 * n + 10 * t) }
{
    n <= 512 && t <= 2048 && file.len() == 24 + 12 * n + 10 * t
}

// Point `k` of a vertex part.
fn point_in(part: &[u8], k: usize) -> Point
    requires { 12 * k + 12 ≤ length part.now }
    ensures { result ≡ point_read part.now k }
{
    let at = 12 * k;
    Point {
        x: i32_at(part, at),
        y: i32_at(part, at + 4),
        z: i32_at(part, at + 8),
    }
}

// The vertices of tetrahedron `j` of a tetrahedron part.
fn tet_in(part: &[u8], j: usize) -> [Vertex; 4]
    requires { 10 * j + 10 ≤ length part.now }
    ensures { result ≡ tetra_read part.now j }
{
    let at = 10 * j;
    [
        Vertex(u16_at(part, at)),
        Vertex(u16_at(part, at + 2)),
        Vertex(u16_at(part, at + 4)),
        Vertex(u16_at(part, at + 6)),
    ]
}

// The point of a vertex, in a file with `n` vertices and `t` tetrahedra.
#[tactic(auto, unfolding(crate::specs::View::place_in))]
pub fn point_of(file: &[u8], n: usize, t: usize, v: Vertex) -> Option<Point>
    ensures { result ≡ place_in file.now n t v }
{
    let k = v.0 as usize;
    if counts_fit(file, n, t) && k < n {
        Some(point_in(&file[24..], k))
    } else {
        None
    }
}

// The vertices of a tetrahedron.
#[tactic(auto, unfolding(crate::specs::View::tetra_in))]
pub fn tet_of(file: &[u8], n: usize, t: usize, e: Tet) -> Option<[Vertex; 4]>
    ensures { result ≡ tetra_in file.now n t e }
{
    let j = e.0 as usize;
    if counts_fit(file, n, t) && j < t {
        Some(tet_in(&file[24 + 12 * n..], j))
    } else {
        None
    }
}

// The part of a tetrahedron.
#[tactic(auto, unfolding(crate::specs::View::part_in))]
pub fn part_of(file: &[u8], n: usize, t: usize, e: Tet) -> Option<u16>
    ensures { result ≡ part_in file.now n t e }
{
    let j = e.0 as usize;
    if counts_fit(file, n, t) && j < t {
        Some(u16_at(&file[24 + 12 * n..], 10 * j + 8))
    } else {
        None
    }
}
