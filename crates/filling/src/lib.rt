// Which tetrahedra a cell has, found around its corners.
#![tactic(auto)]

ghost use Rattle.std.specs.Prelude.{◌≡◌, ◌/◌, ◌≤◌, ◌<◌, length, get_or, set, replicate};
ghost use Rattle.base.specs.Lists.{is_in};
ghost use Rattle.space.specs.between.Working.{around};
ghost use Rattle.tets_around.specs.between.Build.{Within};
ghost use Rattle.cells.specs.between.Rows.{fours, owns, owns_by, own_numbers_by};
ghost use Rattle.filling.specs.between.Numbered.{Numbered, pushed};
ghost use Rattle.own.specs.between.Stamps.{Stamped};
ghost use Rattle.filling.specs.between.Next.{NeverFalls, ReadUpTo, Saw, left_out, Aside, NextOfAll, AllReadUpTo};

use cells::corners_at;
use own::{is_hit, stamp};
use record::{TET_PLACES, UNUSED};
use space::{Tet, Vertex};
use tets_around::Index;

// How many tetrahedra a cell has, and the numbers of the first, as many as a record has places for, rising. There is no
// heap: so the list is an array of the most, and the count stands beside it.
#[derive(Clone, Copy)]
pub struct Tets {
    pub count: usize,
    pub list: [u16; TET_PLACES],
}

// ---- a cell's tetrahedra

// One number more.
fn push(f: Tets, e: Tet) -> Tets
    requires { f.count < 2048 }
    ensures { result ≡ pushed f e.0 }
{
    let i = e.0;
    let k = f.count;
    let mut list = f.list;
    if k < TET_PLACES {
        list[k] = i;
    }
    Tets { count: k + 1, list }
}

// What was seen in a row: the least, and the place that the row is read up to.
// No tetrahedron before that place is asked for again.
#[derive(Clone, Copy)]
struct RowRead {
    least: usize,
    at: usize,
}

// What is asked of a row: from which place on, and between which two numbers.
#[derive(Clone, Copy)]
struct Span {
    from: usize,
    lo: usize,
    hi: usize,
}

// The least of a row's tetrahedra that is one of the cell's and not below lo; hi where none below hi is. The row rises,
// so the first is it.
fn least_in(labels: &[u16], row: &[u16], s: Span, m: &[u8; 512], c: &[u16], quads: &[u8]) -> RowRead
    requires within { Within (length labels.now / 4) row.now × NeverFalls row.now }
    requires stamped { Stamped c.now (length c.now) m.now × ReadUpTo (owns_by labels.now quads.now c.now) s.lo row.now s.from }
    ensures { Saw (owns_by labels.now quads.now c.now) s row.now result }
{
    for at in s.from..row.len() {
        let i = row[at];
        let j = i as usize;
        if s.hi <= j {
            return RowRead { least: s.hi, at };
        }
        if is_hit(labels, Tet(i), s.lo, m, c, quads) {
            return RowRead { least: j, at };
        }
    }
    RowRead {
        least: s.hi,
        at: row.len(),
    }
}

// The corners of one quadrilateral of a cell, and how many tetrahedra they have.
#[derive(Clone, Copy)]
struct Crowd {
    corners: [u16; 4],
    size: usize,
}

// The corners of quadrilateral i. A tetrahedron on these alone is not one of the cell's.
fn crowd_at(ix: &Index<'_>, c: &[u16], quads: &[u8], i: usize) -> Crowd
    requires { i < length quads.now / 4 }
    ensures { Aside (owns ix.now.labels.now (fours quads.now) c.now) ix.now.labels.now (left_out result) }
{
    let q = corners_at::<4>(c, quads, i);
    let x = ix.row(Vertex(q[0])).size;
    let y = ix.row(Vertex(q[1])).size;
    let z = ix.row(Vertex(q[2])).size;
    let w = ix.row(Vertex(q[3])).size;
    Crowd {
        corners: q,
        size: x + y + z + w,
    }
}

// The corners to leave out: of the quadrilaterals, one whose corners have the most. The choice is a matter of speed
// alone.
fn crowd_of(ix: &Index<'_>, c: &[u16], quads: &[u8]) -> Crowd
    ensures { Aside (owns ix.now.labels.now (fours quads.now) c.now) ix.now.labels.now (left_out result) }
{
    let mut w = Crowd {
        corners: [65535; 4],
        size: 0,
    };
    for i in 0..quads.len() / 4 {
        let y = crowd_at(ix, c, quads, i);
        if w.size < y.size {
            w = y;
        }
    }
    w
}

// The vertex is one of the four.
fn is_left_out(w: Crowd, v: Vertex) -> bool
    ensures { result ≡ is_in v.0 (left_out w) }
{
    w.corners.contains(&v.0)
}

// For each of the first 8 corners, the place that its row is read up to: at first none.
fn no_places() -> [usize; 8]
    ensures { result ≡ replicate 8 0 }
{
    [0; 8]
}

fn place_of(places: &[usize], k: usize) -> usize
    ensures { result ≡ get_or places.now k 0 }
{
    if k < places.len() {
        return places[k];
    }
    0
}

fn put_place(places: &mut [usize], k: usize, at: usize)
    ensures { places.new ≡ set places.old k at }
{
    if k < places.len() {
        places[k] = at;
    }
}

// The next of the cell's tetrahedra, from lo on; the number of all where there is none. Each has a corner of the cell
// that is not left out, so it is looked for around these, in each row from its place on.
fn next_own(
    ix: &Index<'_>,
    lo: usize,
    w: Crowd,
    m: &[u8; 512],
    places: &mut [usize],
    c: &[u16],
    quads: &[u8],
) -> usize
    requires stamped { Stamped c.now (length c.now) m.now }
    requires aside { Aside (owns_by ix.now.labels.now quads.now c.now) ix.now.labels.now (left_out w)
        × AllReadUpTo (owns_by ix.now.labels.now quads.now c.now) ix.now.labels.now c.now lo places.old }
    ensures { NextOfAll (owns_by ix.now.labels.now quads.now c.now) lo (length ix.now.labels.now / 4) result
        × AllReadUpTo (owns_by ix.now.labels.now quads.now c.now) ix.now.labels.now c.now lo places.new }
{
    let mut hi = ix.labels.len() / 4;
    for (k, v) in c.iter().enumerate() {
        let v = Vertex(*v);
        if is_left_out(w, v) {
            continue;
        }
        let row = ix.around(v);
        let from = place_of(places, k);
        let seen = least_in(ix.labels, row, Span { from, lo, hi }, m, c, quads);
        hi = seen.least;
        put_place(places, k, seen.at);
    }
    hi
}

// The tetrahedra of the cell on these corners, one after the other.
pub fn find(ix: &Index<'_>, c: &[u16], quads: &[u8]) -> Tets
    ensures { Numbered (own_numbers_by ix.now.labels.now quads.now c.now) result }
{
    let t = ix.labels.len() / 4;
    let w = crowd_of(ix, c, quads);
    let m = stamp(c);
    let mut places = no_places();
    let mut found = Tets {
        count: 0,
        list: [UNUSED; TET_PLACES],
    };
    let mut i = next_own(ix, 0, w, &m, &mut places, c, quads);
    // Each number is looked for from the one before it, so this is no range.
    while i < t {
        found = push(found, Tet(i as u16));
        i = next_own(ix, i + 1, w, &m, &mut places, c, quads);
    }
    found
}
