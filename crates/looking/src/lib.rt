// What a reader would look up of a finding: how many vertices the mesh has; the places of the corners of the edge, the
// face or the corner triple that is told; of how many tetrahedra a face's triangles are facets; the size of a box; two
// parts. These are numbers for the program's words. The counts at the cell's triples are promised (`open_faces`), and the
// box (`space`); that they are those of the row that is told is tested.
#![tactic(auto)]

ghost use Rattle.std.specs.Prelude.{◌*◌, ◌/◌, ◌≤◌, ◌<◌, ◌≡◌, length};
ghost use Rattle.layout.specs.between.Framed.{Framed};

use arrays::{Counts, Lists, Room};
use reasons::Finding;
use space::{Point, Vertex};
use tallies::{counts, own_at, sharers_at, two_parts_of};
use templates::corner;
use verdict::{Bounds, all_rows, bounds_of};

// A tuple of a kind, and what was found of it, or the number of a refusal, of which nothing is looked up.
#[derive(Clone, Copy)]
pub struct Asked {
    pub kind: u16,
    pub tuple: [u16; 8],
    pub found: Result<Finding, u8>,
}

// ---- where the row that is told stands

// Where it begins in the tables of all kinds, and how many corners it has.
#[derive(Clone, Copy)]
struct Spot {
    at: usize,
    width: usize,
}

fn face_spot(triangles: usize, quads: usize, i: usize) -> Spot
    requires { (triangles ≤ quads) × (quads ≤ 308) × (i < 64) }
    ensures { result.at ≤ 1000 }
{
    let k = (quads - triangles) / 3;
    if i < k {
        return Spot {
            at: triangles + 3 * i,
            width: 3,
        };
    }
    Spot {
        at: quads + 4 * (i - k),
        width: 4,
    }
}

fn spot_of(kind: u16, found: Result<Finding, u8>) -> Spot
    ensures { result.at ≤ 1000 }
{
    let Bounds {
        corners: _,
        edges,
        triangles,
        quads,
        triples,
        within: _,
        end: _,
    } = bounds_of(kind);
    match found {
        Ok(Finding::NoEdge(i)) => Spot {
            at: edges + 2 * ((i % 64) as usize),
            width: 2,
        },
        Ok(Finding::NoFace(i)) => face_spot(triangles, quads, (i % 64) as usize),
        Ok(Finding::OpenFace(i)) => face_spot(triangles, quads, (i % 64) as usize),
        Ok(Finding::BadBox(i)) => Spot {
            at: triples + 4 * ((i % 64) as usize),
            width: 4,
        },
        _ => Spot { at: 0, width: 0 },
    }
}

// The corner that stands at place j of the tables, 0 past their end.
fn place(j: usize) -> u8 {
    all_rows().get(j).copied().unwrap_or(0)
}

fn places(j: usize) -> [u8; 4]
    requires { j ≤ 1000 }
{
    [place(j), place(j + 1), place(j + 2), place(j + 3)]
}

// ---- what the finding asks for

fn counts_of(
    labels: &[u16],
    parts: &[u16],
    kind: u16,
    tuple: &[u16; 8],
    found: Result<Finding, u8>,
) -> [u16; 4]
    requires { length labels.now / 4 ≤ 2048 }
{
    let Spot { at, width } = spot_of(kind, found);
    match found {
        Ok(Finding::NoFace(_)) => counts(tuple, places(at), width, |u, v, w| {
            sharers_at(labels, u, v, w)
        }),
        Ok(Finding::OpenFace(_)) => counts(tuple, places(at), width, |u, v, w| {
            own_at(labels, kind, tuple, u, v, w)
        }),
        Ok(Finding::OpenTriple(u, v, w)) => {
            let k = own_at(labels, kind, tuple, Vertex(u), Vertex(v), Vertex(w));
            [(k % 65536) as u16, 0, 0, 0]
        }
        Ok(Finding::TwoParts) => two_parts_of(labels, parts, kind, tuple),
        _ => [0; 4],
    }
}

// ---- a corner's box

// The point of a corner of a tuple.
fn point_in(file: &[u8], n: usize, t: usize, tuple: &[u16], at: u8) -> Point {
    view::point_of(file, n, t, Vertex(corner(tuple, at))).unwrap_or(Point { x: 0, y: 0, z: 0 })
}

// How far the box at a corner triple is from 0.
fn box_at(file: &[u8], n: usize, t: usize, tuple: &[u16; 8], p: [u8; 4]) -> u64 {
    let [a, b, c, d] = p.map(|at| point_in(file, n, t, tuple, at));
    space::box_product(a, b, c, d).map_or(0, i64::unsigned_abs)
}

// ---- all of it

// What was seen: the line of the mesh, of the row that is told and of its counts; the size of the box.
#[derive(Clone, Copy)]
pub struct Seen {
    pub line: [u16; 10],
    pub box_size: u64,
}

// The line of the mesh, the row that is told and its counts.
fn line_of(n: usize, kind: u16, found: Result<Finding, u8>, counts: [u16; 4]) -> [u16; 10]
    ensures { 10 ≡ length result }
{
    let Spot { at, width } = spot_of(kind, found);
    let p = places(at);
    [
        (n % 65536) as u16,
        (width % 65536) as u16,
        p[0] as u16,
        p[1] as u16,
        p[2] as u16,
        p[3] as u16,
        counts[0],
        counts[1],
        counts[2],
        counts[3],
    ]
}

// Of a file with a sound header.
pub fn look(file: &[u8], n: usize, t: usize, asked: Asked) -> Seen
    requires { Framed file.now n t }
    ensures { 10 ≡ length result.line }
{
    let mut room = Room::new();
    let Lists {
        coords: _,
        labels,
        parts,
    } = room.decode(
        file,
        Counts {
            vertices: n,
            tets: t,
        },
    );
    let Asked { kind, tuple, found } = asked;
    let Spot { at, width: _ } = spot_of(kind, found);
    Seen {
        line: line_of(
            n,
            kind,
            found,
            counts_of(labels, parts, kind, &tuple, found),
        ),
        box_size: box_at(file, n, t, &tuple, places(at)),
    }
}
