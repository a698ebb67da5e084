// Conditions 5 and 6 of a tuple whose tetrahedra were found: the first that fails.
#![tactic(auto)]

ghost use Rattle.std.specs.Prelude.{◌≡◌, ◌*◌, ◌/◌, ◌≤◌, length};
ghost use Rattle.tets_around.specs.between.Build.{Within};
ghost use Rattle.cells.specs.between.Rows.{own_numbers_by};
ghost use Rattle.record.specs.Entries.{tet_places};
ghost use Rattle.filling.specs.between.Numbered.{Numbered};
ghost use Rattle.counting.specs.between.Bits.{Lettered};
ghost use Rattle.judging.specs.between.Last.{last_with, last_failing, condition_no};

use counting::{is_filled, is_one_part};
use filling::Tets;
use own::belongs_to;
use record::TET_PLACES;
use space::Tet;

// The conditions of a cell, in the order in which they are asked.
#[derive(Clone, Copy, PartialEq, Eq, Debug)]
pub enum Condition {
    Corners,
    Edges,
    Faces,
    Boxes,
    Filled,
    OnePart,
}

// How many tetrahedra a file has at most, and the room for 8 entries a tetrahedron: of a record's, and of a file's.
const MOST: usize = 2048;

const FEW_ENTRIES: usize = 8 * TET_PLACES;

const MOST_ENTRIES: usize = 8 * MOST;

// By the tetrahedra listed, with room for N entries, 8 a tetrahedron.
fn judge_list<const N: usize>(
    labels: &[u16],
    parts: &[u16],
    list: &[u16],
    c: &[u16],
    triangles: &[u8],
    quads: &[u8],
    within: &[u8],
) -> Result<(), Condition>
    requires within { Within (length labels.now / 4) list.now × Within (length parts.now) list.now }
    requires room { ((8 * length list.now ≤ N) × (N ≤ 16384)) × Lettered triangles.now quads.now within.now }
    ensures { condition_no result ≡ last_with labels.now parts.now list.now c.now
        triangles.now quads.now within.now }
{
    let mut has = [0u8; N];
    if !is_filled(
        labels,
        list,
        c,
        triangles,
        quads,
        within,
        &mut has[..8 * list.len()],
    ) {
        return Err(Condition::Filled);
    }
    if !is_one_part(parts, list) {
        return Err(Condition::OnePart);
    }
    Ok(())
}

// Of a cell with more tetrahedra than a record has places: they are all gathered first.
// It is a function of its own for the stack: few cells need its room.
fn judge_many(
    labels: &[u16],
    parts: &[u16],
    c: &[u16],
    triangles: &[u8],
    quads: &[u8],
    within: &[u8],
) -> Result<(), Condition>
    requires labels_len_bound { (length labels.now / 4 ≤ 2048) × (length parts.now ≡ length labels.now / 4) }
    requires lettered { Lettered triangles.now quads.now within.now }
    ensures { condition_no result ≡ last_failing labels.now parts.now c.now
        triangles.now quads.now within.now }
{
    let t = labels.len() / 4;
    let mut list = [65535u16; MOST];
    let mut k: usize = 0;
    for i in 0..t {
        if belongs_to(labels, Tet(i as u16), c, quads) {
            list[k] = i as u16;
            k += 1;
        }
    }
    judge_list::<MOST_ENTRIES>(labels, parts, &list[..k], c, triangles, quads, within)
}

// Of a cell whose tetrahedra were found: a record has places for all of them, or they are gathered.
pub fn judge_found(
    labels: &[u16],
    parts: &[u16],
    found: Tets,
    c: &[u16],
    triangles: &[u8],
    quads: &[u8],
    within: &[u8],
) -> Result<(), Condition>
    requires numbered { Numbered (own_numbers_by labels.now quads.now c.now) found }
    requires labels_len_bound { (length labels.now / 4 ≤ 2048) × (length parts.now ≡ length labels.now / 4) }
    requires lettered { Lettered triangles.now quads.now within.now }
    ensures { condition_no result ≡ last_failing labels.now parts.now c.now
        triangles.now quads.now within.now }
{
    if TET_PLACES < found.count {
        return judge_many(labels, parts, c, triangles, quads, within);
    }
    let list = found.list;
    judge_list::<FEW_ENTRIES>(
        labels,
        parts,
        &list[..found.count],
        c,
        triangles,
        quads,
        within,
    )
}
