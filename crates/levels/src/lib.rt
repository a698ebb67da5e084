// The levels of the search: at each place of each kind, what a tuple must pass there for a cell to go on,
// as rows of constant tables.
// A tuple is kept in search order; x is the row of a place, and the tables are one static.
#![tactic(auto)]

mod rows;

ghost use Rattle.std.specs.Prelude.{◌≡◌, ◌+◌, ◌<◌, ◌≤◌, ltb, length, get_or};
ghost use Rattle.base.specs.Lists.{all, up_to};
ghost use Rattle.space.specs.between.Working.{Close};
ghost use Rattle.cells.specs.between.Rows.{threes, fours, sound_by};
ghost use Rattle.facet_hints.specs.between.Hints.{faces_hinted};
ghost use Rattle.levels.specs.between.Levels.{lesser, joined, also, third, look, part, level_triangles, level_quads, level_triples, levels, Cut};
ghost use Rattle.levels.specs.between.Passing.{is_new_above, passes_level, Placed, passes_with};

use cells::is_sound;
use facet_hints::{Hints, faces_hinted};
use rows::LEVELS;
use space::Vertex;
use templates::is_in;

// A place of a tuple: the tuple, in search order, the row of the tables of the levels, and which place it is.
#[derive(Clone, Copy)]
pub struct Place {
    pub tuple: [u16; 8],
    pub row: usize,
    pub at: usize,
}

// Where the tables begin: of the rows of faces and corner triples they name the entries, which stand first.
const TRIANGLES_AT: usize = 130;

const QUADS_AT: usize = 150;

const TRIPLES_AT: usize = 170;

const LESSER: usize = 190;

const JOINED: usize = 209;

const ALSO: usize = 228;

const THIRD: usize = 247;

const AHEAD: usize = 266;

// The tables as one array, for whoever would look them up by places of its own.
pub fn tables() -> [u8; 380]
    ensures { result ≡ levels }
{
    LEVELS
}

pub fn wide(x: u16) -> usize
    ensures { (result ≡ x) × (result < 65536) }
{
    usize::from(x)
}

fn entry_of(table: &[u8], i: usize) -> usize
    requires { i < length table.now }
    ensures { result ≡ get_or table.now i 0 }
{
    usize::from(table[i])
}

// The four stay apart, one line each: each names a table of its own and how small its entries are (edit `joined`).
pub fn lesser_of(x: usize) -> usize
    requires { x < 19 }
    ensures { (result ≡ get_or lesser x 0) × (result ≤ 2) }
{
    usize::from(LEVELS[LESSER + x])
}

pub fn joined_of(x: usize) -> usize
    requires { x < 19 }
    ensures { (result ≡ get_or joined x 0) × (result < 8) }
{
    usize::from(LEVELS[JOINED + x])
}

pub fn also_of(x: usize) -> usize
    requires { x < 19 }
    ensures { (result ≡ get_or also x 0) × (result < 8) }
{
    usize::from(LEVELS[ALSO + x])
}

pub fn third_of(x: usize) -> usize
    requires { x < 19 }
    ensures { (result ≡ get_or third x 0) × (result < 8) }
{
    usize::from(LEVELS[THIRD + x])
}

// Entry i of the look-ahead's row x.
pub fn look_of(x: usize, i: usize) -> usize
    requires { (x < 19) × (i < 6) }
    ensures { (result ≡ look x i) × (result < 8) }
{
    usize::from(LEVELS[AHEAD + (6 * x + i)])
}

// ---- the test of a level

// The first entries, as many as asked, are below v.
pub fn is_above(s: &[u16], count: usize, v: Vertex) -> bool
    requires { count ≤ length s.now }
    ensures { result ≡ all (λ k. ltb (get_or s.now k 0) v.0) (up_to count) }
{
    s[..count].iter().all(|w| *w < v.0)
}

// The vertex at place d is new, and above those that it must be above.
fn is_new_above(s: &[u16], x: usize, d: usize) -> bool
    requires x_bound { (x < 19) × ((d < length s.now) × (2 ≤ length s.now)) }
    ensures { result ≡ is_new_above x d s.now }
{
    let v = s[d];
    !is_in(v, &s[..d]) && is_above(s, lesser_of(x), Vertex(v))
}

// The boxes of a part of the corner triples are above 0.
fn sound_part(coords: &[i64], s: &[u16], rows: &[u8], starts: &[u8], x: usize) -> bool
    requires { Close coords.now × Cut rows.now starts.now x }
    ensures { result ≡ sound_by coords.now s.now (fours (part rows.now starts.now x)) }
{
    let from = entry_of(starts, x);
    let end = entry_of(starts, x + 1);
    is_sound(coords, s, &rows[from..end])
}

// The faces of a part of the tables may be faces of the mesh.
fn faces_part(
    hints: &Hints,
    s: &[u16],
    rows: &[u8],
    triangles: &[u8],
    quads: &[u8],
    x: usize,
) -> bool
    requires cut { Cut rows.now triangles.now x × Cut rows.now quads.now x }
    ensures { result ≡ faces_hinted hints.now s.now
        (threes (part rows.now triangles.now x)) (fours (part rows.now quads.now x)) }
{
    let from = entry_of(triangles, x);
    let end = entry_of(triangles, x + 1);
    let low = entry_of(quads, x);
    let high = entry_of(quads, x + 1);
    faces_hinted(hints, s, &rows[from..end], &rows[low..high])
}

fn boxes_at(coords: &[i64], s: &[u16], x: usize) -> bool
    requires { Close coords.now × (x < 19) }
    ensures { result ≡ sound_by coords.now s.now (level_triples x) }
{
    sound_part(coords, s, &LEVELS, &LEVELS[TRIPLES_AT..LESSER], x)
}

fn faces_at(hints: &Hints, s: &[u16], x: usize) -> bool
    requires { x < 19 }
    ensures { result ≡ faces_hinted hints.now s.now (level_triangles x) (level_quads x) }
{
    faces_part(
        hints,
        s,
        &LEVELS,
        &LEVELS[TRIANGLES_AT..QUADS_AT],
        &LEVELS[QUADS_AT..TRIPLES_AT],
        x,
    )
}

// The tuple passes the test of the level of place d: the cheap parts first.
#[tactic(auto, unfolding(crate::specs::between::Passing::passes_level))]
fn passes(coords: &[i64], hints: &Hints, s: &[u16], x: usize, d: usize) -> bool
    requires close { Close coords.now }
    requires x_bound { (x < 19) × ((d < length s.now) × (2 ≤ length s.now)) }
    ensures { result ≡ passes_level coords.now hints.now x d s.now }
{
    is_new_above(s, x, d) && faces_at(hints, s, x) && boxes_at(coords, s, x)
}

// The tuple passes with v at the place.
pub fn passes_with(coords: &[i64], hints: &Hints, p: Place, v: Vertex) -> bool
    requires close { Close coords.now }
    requires placed { Placed p }
    ensures { result ≡ passes_with coords.now hints.now p v.0 }
{
    let mut s = p.tuple;
    let d = p.at;
    s[d] = v.0;
    passes(coords, hints, &s, p.row, d)
}
