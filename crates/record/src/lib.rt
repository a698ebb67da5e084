// The record of a cell and the mark that a listing stands at: how many entries there are, and where each stands.
#![tactic(auto)]

ghost use Rattle.std.specs.Prelude.{◌≡◌, ◌+◌, ◌*◌, ◌≤◌, length, take};
ghost use Rattle.base.specs.Lists.{pad};
ghost use Rattle.base.specs.Laid.{Laid};
ghost use Rattle.record.specs.Entries.{tet_places, unused, tets_at, record_size, entries};
ghost use Rattle.record.specs.Marks.{end_mark, mark_of, nine};
ghost use Rattle.record.specs.between.Heads.{cell_from, head_of};

use rooms::put;
use templates::Kind;

// How many tetrahedra a record has places for.
pub const TET_PLACES: usize = 25;

// Where their count and their numbers stand, behind the kind and eight corners.
pub const COUNT_AT: usize = 9;

pub const TETS_AT: usize = COUNT_AT + 1;

// How many entries a record has.
pub const SIZE: usize = TETS_AT + TET_PLACES;

// What stands in a place that is not used.
pub const UNUSED: u16 = 65535;

// Where a listing stands: behind the cell of this kind with these corners, 0 where the kind has none.
#[derive(Clone, Copy, PartialEq, Eq, Debug, Default)]
pub struct Mark {
    pub kind: u16,
    pub a: u16,
    pub b: u16,
    pub c: u16,
    pub d: u16,
    pub e: u16,
    pub f: u16,
    pub g: u16,
    pub h: u16,
}

// ---- marks

// The mark of nine numbers.
pub fn mark_of(n: [u16; 9]) -> Mark
    ensures { mark_of result ≡ nine n }
{
    Mark {
        kind: n[0],
        a: n[1],
        b: n[2],
        c: n[3],
        d: n[4],
        e: n[5],
        f: n[6],
        g: n[7],
        h: n[8],
    }
}

// The nine numbers of a mark.
pub fn numbers_of(m: Mark) -> [u16; 9]
    ensures { result ≡ mark_of m }
{
    [m.kind, m.a, m.b, m.c, m.d, m.e, m.f, m.g, m.h]
}

// The mark after all cells.
pub fn end_mark() -> Mark
    ensures { mark_of result ≡ end_mark }
{
    Mark::default()
}

// ---- records

// A record's kind, corners and count.
#[tactic(auto, unfolding(crate::specs::between::Heads::head_of))]
fn head_of(mark: Mark, count: usize) -> [u16; TETS_AT]
    requires { count ≤ tet_places }
    ensures { (result ≡ head_of (mark_of mark) count) × (length result ≡ tets_at) }
{
    let m = mark;
    let x = count as u16;
    match Kind::from(m.kind) {
        Kind::Hexahedron => [m.kind, m.a, m.b, m.c, m.d, m.e, m.f, m.g, m.h, x],
        Kind::Prism => [m.kind, m.a, m.b, m.c, m.d, m.e, m.f, UNUSED, UNUSED, x],
        Kind::Pyramid => [m.kind, m.a, m.b, m.c, m.d, m.e, UNUSED, UNUSED, UNUSED, x],
    }
}

// Puts record i of a room: that of the cell which the mark is of,
// with the first `count` numbers of the list as its tetrahedra.
pub fn put_record(room: &mut [u16], i: usize, mark: Mark, count: usize, list: [u16; TET_PLACES])
    requires count_le_tet_places { (count ≤ tet_places) × (list ≡ pad tet_places unused (take count list)) }
    requires record_size_in_bounds { i * record_size + record_size ≤ length room.old }
    ensures { Laid (i * record_size) (entries (cell_from (mark_of mark) (take count list))) room.old room.new }
{
    let from = i * SIZE;
    let head = head_of(mark, count);
    put(room, from, &head);
    put(room, from + TETS_AT, &list);
}
