// The check of a mesh file, refusals 1 to 9, and the view over an accepted file's own bytes. Knows nothing of cells.
#![tactic(auto)]

ghost use Rattle.std.specs.Prelude.{◌≡◌};
ghost use Rattle.arrays.specs.Refusals.{checked, refusal};
ghost use Rattle.view.specs.View.{place_in, tetra_in, part_in};
ghost use Rattle.mesh.specs.Counts.{sizes_in};

use arrays::{Counts, Room};
use refusals::Refusal;
use space::{Point, Tet, Vertex};
use view::{part_of, point_of, tet_of};

// The file's answer: refusals 1 to 9 in their order, else the counts.
pub fn check(file: &[u8]) -> Result<Counts, Refusal>
    ensures { result ≡ checked file.now }
{
    let counts = arrays::header(file)?;
    let mut room = Room::new();
    room.load(file, counts)?;
    Ok(counts)
}

// The number of that answer, as the C boundary tells it: 0 where the file is accepted.
pub fn refusal_of(file: &[u8]) -> u8
    ensures { result ≡ refusal file.now }
{
    match check(file) {
        Ok(_) => 0,
        Err(refusal) => u8::from(refusal),
    }
}

// ---- the view

// The counts of a file: those of its header where it is accepted, else none.
#[derive(Clone, Copy)]
pub struct Sizes {
    pub n: usize,
    pub t: usize,
}

pub fn counts_of(file: &[u8]) -> Sizes
    ensures { result ≡ sizes_in file.now }
{
    match check(file) {
        Ok(Counts { vertices, tets }) => Sizes {
            n: vertices,
            t: tets,
        },
        Err(_) => Sizes { n: 0, t: 0 },
    }
}

// The view over a file's own bytes.
#[derive(Clone, Copy)]
pub struct View<'a> {
    pub file: &'a [u8],
    pub n: usize,
    pub t: usize,
}

// The view of any file: of a refused one it has no vertices and no tetrahedra.
pub fn open<'a>(file: &'a [u8]) -> View<'a>
    ensures { (result.file ≡ file.entry) × ((result.n ≡ (sizes_in file.now).n) × (result.t ≡ (sizes_in file.now).t)) }
{
    let s = counts_of(file);
    View {
        file,
        n: s.n,
        t: s.t,
    }
}

pub fn vertex_count<'a>(m: View<'a>) -> usize
    ensures { result ≡ m.entry.n }
{
    m.n
}

pub fn tet_count<'a>(m: View<'a>) -> usize
    ensures { result ≡ m.entry.t }
{
    m.t
}

pub fn vertex_point<'a>(m: View<'a>, v: Vertex) -> Option<Point>
    ensures { result ≡ place_in m.entry.file.now m.entry.n m.entry.t v }
{
    point_of(m.file, m.n, m.t, v)
}

pub fn tet_vertices<'a>(m: View<'a>, e: Tet) -> Option<[Vertex; 4]>
    ensures { result ≡ tetra_in m.entry.file.now m.entry.n m.entry.t e }
{
    tet_of(m.file, m.n, m.t, e)
}

pub fn tet_part<'a>(m: View<'a>, e: Tet) -> Option<u16>
    ensures { result ≡ part_in m.entry.file.now m.entry.n m.entry.t e }
{
    part_of(m.file, m.n, m.t, e)
}
