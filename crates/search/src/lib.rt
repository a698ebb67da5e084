// The search for the next cell of a kind: the least tuple after a tuple that is a cell in least form,
// by an odometer over one tuple with a level.
// x is the row of a place in the tables of the levels.
#![tactic(auto)]

ghost use Rattle.std.specs.Prelude.{◌≡◌, true, false, List, [], ℕ, ◌<◌, ◌≤◌, MatchOption, IfSome};
ghost use Rattle.templates.specs.Tables.{template_of};
ghost use Rattle.filling.specs.between.Numbered.{Numbered};
ghost use Rattle.portions.specs.between.Tuples.{Skips, LeastAfter};
ghost use Rattle.rule.specs.between.Leaf.{leaf_in, leaf_tets};
ghost use Rattle.levels.specs.between.Levels.{base};
ghost use Rattle.levels.specs.between.Passing.{Placed};
ghost use Rattle.search.specs.between.Ready.{Sought, Drawn, OfKind, Last, Begins};

use candidates::{Spot, TwoRows, meet_rows, nearer, partner, rise};
use filling::Tets;
use hunting::{hunt, looks_ahead};
use levels::{Place, also_of, joined_of, third_of, wide};
use neighbours::neighbour_row;
use order::corners_of;
use reaching::{Near, fewer};
use space::Vertex;
use templates::Kind;
use verdict::is_leaf;

mod ground;

pub use ground::Ground;

// The tuple that was found, in search order, and the tetrahedra of its cell.
#[derive(Clone, Copy)]
pub struct FoundTuple {
    pub tuple: [u16; 8],
    pub tets: Tets,
}

// Where the rows of a kind begin in the tables of the levels.
fn base_of(kind: u16) -> usize
    ensures { (result ≡ base kind) × (result ≤ 14) }
{
    match Kind::from(kind) {
        Kind::Hexahedron => 0,
        Kind::Prism => 8,
        Kind::Pyramid => 14,
    }
}

// Where to go on at a place from lo: a vertex with which the tuple passes, or none of the n vertices.
// No cell is left out before it.
fn seek(spot: &Spot, near: &Near, lo: usize) -> usize
    requires sought { Sought spot.now.coords.now near.now.n near.now.hints.now near.now.table.now }
    ensures { (k : ℕ) (ls ps : List ℕ) → OfKind k spot.now.place → Drawn ls near.now.n near.now.hints.now near.now.table.now
        → Skips (leaf_in spot.now.coords.now ls ps k) spot.now.place.tuple spot.now.place.at near.now.n lo result }
{
    let place = spot.place;
    let d = place.at;
    if d == 0 {
        return lo;
    }
    let x = place.row;
    let n = near.n;
    let table = near.table;
    let from = rise(place, lo);
    let r = neighbour_row(n, table, Vertex(place.tuple[joined_of(x)]));
    let q = neighbour_row(n, table, Vertex(place.tuple[also_of(x)]));
    let s = neighbour_row(n, table, Vertex(place.tuple[third_of(x)]));
    let f = nearer(x, r, q);
    let one = fewer(f, s);
    if looks_ahead(n, table, place, one.size) {
        return hunt(spot, near, from);
    }
    let two = partner(f, s);
    meet_rows(spot, near.hints, table, TwoRows { one, two }, from)
}

// ---- the search

// The first place at which no cell goes on with the mark's entry, or the last, which is lent with the mark.
// Where the mark is a cell that was told already, it is the last: then it need not be looked for.
// That is a matter of speed alone.
fn start(coords: &[i64], near: &Near, last: Place, told: bool) -> usize
    requires sought { Sought coords.now near.now.n near.now.hints.now near.now.table.now }
    requires placed { Placed last × (last.at ≤ last.row) }
    ensures { (k : ℕ) → Last k last → Begins coords.now near.now.n near.now.hints.now near.now.table.now k last.tuple result }
{
    let end = last.at;
    if told {
        return end;
    }
    let mark = last.tuple;
    let base = last.row - end;
    for d in 0..end {
        let v = wide(mark[d]);
        let place = Place {
            tuple: mark,
            row: base + d,
            at: d,
        };
        let spot = Spot { coords, place };
        if seek(&spot, near, v) != v {
            return d;
        }
    }
    end
}

// The least tuple of a kind after the mark that is a cell in least form.
// Entries past the kind's corners keep what the mark has there.
pub fn next_tuple(
    ground: &Ground<'_, '_>,
    kind: u16,
    mark: [u16; 8],
    told: bool,
) -> Option<FoundTuple>
    ensures least_after { MatchOption result
        (LeastAfter (template_of kind).corners (leaf_in ground.now.mesh.coords.now ground.now.mesh.index.labels.now ground.now.mesh.parts.now kind) mark false [])
        (λ f. LeastAfter (template_of kind).corners (leaf_in ground.now.mesh.coords.now ground.now.mesh.index.labels.now ground.now.mesh.parts.now kind) mark true f.tuple) }
    ensures numbered { IfSome result (λ f. Numbered (leaf_tets ground.now.mesh.coords.now ground.now.mesh.index.labels.now ground.now.mesh.parts.now kind f.tuple) f.tets) }
{
    let coords = ground.mesh.coords;
    let k = corners_of(kind);
    let base = base_of(kind);
    let last = Place {
        tuple: mark,
        row: base + (k - 1),
        at: k - 1,
    };
    let mut t = mark;
    let mut d = start(coords, &ground.near, last, told);
    let mut lo = wide(t[d]) + 1;
    // The place goes on and back by turns, so no range counts it.
    loop {
        let place = Place {
            tuple: t,
            row: base + d,
            at: d,
        };
        let spot = Spot { coords, place };
        let c = seek(&spot, &ground.near, lo);
        if c < ground.near.n {
            t[d] = c as u16;
            if d + 1 < k {
                d += 1;
                lo = 0;
            } else {
                if let Some(tets) = is_leaf(&ground.mesh, kind, t) {
                    return Some(FoundTuple { tuple: t, tets });
                }
                lo = c + 1;
            }
        } else if d == 0 {
            return None;
        } else {
            d -= 1;
            lo = wide(t[d]) + 1;
        }
    }
}
