// Hunting for the next vertex by the look-ahead's aim: at a place whose joined corners have many neighbours, which
// vertices can follow there is told by the faces to come. x is the row of a place in the tables of the levels.
#![tactic(auto)]

ghost use Rattle.std.specs.Prelude.{◌≡◌, true, false, ◌<◌, ◌≤◌, eqb};
ghost use Rattle.neighbours.specs.between.Reading.{Rowed};
ghost use Rattle.reaching.specs.between.Reaching.{LeastAsked};
ghost use Rattle.levels.specs.between.Levels.{look};
ghost use Rattle.levels.specs.between.Passing.{Placed};
ghost use Rattle.hunting.specs.between.Goes.{floor_of, face_edge_at, Follows, Passes, Goes, Stops};

use aims::{Aim, HUB, aim_at};
use candidates::Spot;
use levels::{Place, look_of, passes_with, wide};
use reaching::{FaceEdge, Near, lower, shorter};
use space::Vertex;

// The corners of the kinds 8 and 6 are all above the first one.
fn floor_of(place: Place) -> usize
    ensures { result ≡ floor_of place.tuple place.row }
{
    let t = place.tuple;
    if place.row < 14 { wide(t[0]) + 1 } else { 0 }
}

// The edge at the entries i and i + 1 of the place's row. What may not link it and the next corner is o, p and the
// place at entry i + 2.
fn edge_at(spot: &Spot, i: usize, o: Vertex, p: Vertex) -> FaceEdge
    requires { i < 4 }
    ensures { result ≡ face_edge_at spot.now.place.tuple spot.now.place.row i o.0 p.0 }
{
    let place = spot.place;
    let t = place.tuple;
    let x = place.row;
    let u = t[look_of(x, i)];
    let w = t[look_of(x, i + 1)];
    let q = t[look_of(x, i + 2)];
    FaceEdge {
        u: Vertex(u),
        w: Vertex(w),
        floor: floor_of(place),
        o,
        p,
        q: Vertex(q),
    }
}

// Whether the second pair of row x is the first again.
fn is_twice(x: usize) -> bool
    requires { x < 19 }
{
    look_of(x, 0) == look_of(x, 3) && look_of(x, 1) == look_of(x, 4)
}

// The least vertex from lo on that can follow by the aim, or n; where both pairs are asked for, one that follows the
// second alone may come before it.
fn next_following(spot: &Spot, near: &Near, aim: Aim, lo: usize) -> usize
    requires { lo ≤ near.now.n }
    ensures { LeastAsked (Follows near.now.n near.now.table.now near.now.hints.now spot.now.place.tuple spot.now.place.row aim.o.0 aim.p.0 aim.both) lo near.now.n result }
{
    let o = aim.o;
    let p = aim.p;
    let one = edge_at(spot, 0, o, p);
    let v = near.beyond(one, lo);
    if aim.both && is_twice(spot.place.row) {
        return v;
    }
    let two = edge_at(spot, 3, o, p);
    if aim.both {
        return near.beyond(two, v);
    }
    let r = near.beyond(two, lo);
    lower(o, lo, lower(p, lo, v.min(r)))
}

// The tuple goes on with v at the place: where this is false, no cell does.
fn goes_on(spot: &Spot, near: &Near, v: usize) -> bool
    ensures { Stops (Passes spot.now.coords.now near.now.hints.now spot.now.place) near.now.n v result }
{
    v < near.n && passes_with(spot.coords, near.hints, spot.place, Vertex(v as u16))
}

// A vertex from lo on with which the tuple goes on at the place, or n. No cell is left out before it.
pub fn hunt(spot: &Spot, near: &Near, lo: usize) -> usize
    ensures { LeastAsked (Goes spot.now.coords.now near.now.n near.now.table.now near.now.hints.now spot.now.place) lo near.now.n result }
{
    let Some(aim) = aim_at(near, spot.place) else {
        return near.n;
    };
    let mut v = lo;
    // A while: each round goes on after where the aim leads.
    while v < near.n {
        let r = next_following(spot, near, aim, v);
        if goes_on(spot, near, r) {
            return r;
        }
        v = r + 1;
    }
    near.n
}

// ---- where to look ahead

// Row x has a pair of places, and the joined corners have many neighbours: the shorter row of theirs has this size.
fn is_hub(x: usize, size: usize) -> bool
    requires { x < 19 }
    ensures { result ≡ true → eqb (look x 0) (look x 1) ≡ false }
{
    look_of(x, 0) != look_of(x, 1) && HUB < size
}

// How many neighbours the one with fewer has of the pair at the entries i and i + 1 of the place's row.
fn pair_size(n: usize, table: &[u16], place: Place, i: usize) -> usize
    requires { Rowed n table.now × (Placed place × (i < 5)) }
{
    let t = place.tuple;
    let x = place.row;
    let u = t[look_of(x, i)];
    let w = t[look_of(x, i + 1)];
    shorter(n, table, Vertex(u), Vertex(w)).size
}

// Whether looking ahead pays where a row of this size would be gone through: a pair of its row has few neighbours
// beside it.
fn is_far(n: usize, table: &[u16], place: Place, size: usize) -> bool
    requires { Rowed n table.now × Placed place }
{
    let most = size / 4;
    pair_size(n, table, place, 0) <= most || pair_size(n, table, place, 3) <= most
}

// Whether to look ahead at the place, where a row of this size would be gone through.
pub fn looks_ahead(n: usize, table: &[u16], place: Place, size: usize) -> bool
    requires { Rowed n table.now × Placed place }
    ensures { result ≡ true → eqb (look place.row 0) (look place.row 1) ≡ false }
{
    is_hub(place.row, size) && is_far(n, table, place, size)
}
