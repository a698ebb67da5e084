// The look-ahead's aim at a place: which vertices cannot link the faces to come, by what links the first three corners
// of the tuple. x is the row of a place in the tables of the levels.
#![tactic(auto)]

ghost use Rattle.std.specs.Prelude.{◌≡◌, ◌⊎◌, true};
ghost use Rattle.linking.specs.between.Met.{IsMet};
ghost use Rattle.aims.specs.between.Aims.{LinksFirst, Aims, AimsOf};

use levels::{Place, wide};
use linking::{Linking, fuller, fullest, sole};
use neighbours::neighbour_row;
use reaching::{FaceEdge, Near};
use space::Vertex;

// A vertex with more neighbours than this is barred, and a place looks ahead where its rows are longer. That is a
// matter of speed alone.
pub const HUB: usize = 24;

// What the look-ahead at a place goes by where any cell goes on: whether both pairs of the row are asked for, and two
// vertices that may not link them, which may be one.
#[derive(Clone, Copy)]
pub struct Aim {
    pub both: bool,
    pub o: Vertex,
    pub p: Vertex,
}

// By the vertices q that link the first three corners. One with many neighbours is barred: it may link both side faces
// only if it is place 3 itself. Where at row 3 a pair links them, both are barred: one of them is a corner of that
// face.
fn aim_among(near: &Near, x: usize, q: Linking) -> Aim
    requires { (x ≡ 3) ⊎ (x ≡ 11) }
    ensures { Aims (IsMet q) x true result.both result.o.0 result.p.0 }
{
    let (o, p) = match q {
        Linking::None => (Vertex(65535), Vertex(65535)),
        Linking::One(p) => (p, p),
        Linking::Pair(p, o) | Linking::More(p, o) => (o, p),
    };
    let v = fuller(near.n, near.table, o, p);
    let row = neighbour_row(near.n, near.table, v);
    if row.size <= HUB {
        return Aim {
            both: true,
            o: Vertex(65535),
            p: Vertex(65535),
        };
    }
    match q {
        Linking::Pair(p, o) if x == 3 => Aim { both: false, o, p },
        _ => Aim {
            both: false,
            o: v,
            p: v,
        },
    }
}

// At row 3 the face of the first three corners needs a vertex that links them: without one no cell goes on, and a sole
// one is a corner of that face and links no other face of the place.
fn aim_from_links(near: &Near, x: usize, q: Linking) -> Option<Aim>
    requires { (x ≡ 3) ⊎ (x ≡ 11) }
    ensures { AimsOf (IsMet q) x result }
{
    match q {
        Linking::None if x == 3 => None,
        Linking::One(p) if x == 3 => Some(Aim {
            both: true,
            o: p,
            p,
        }),
        _ => Some(aim_among(near, x, q)),
    }
}

// The aim at the place, or none where no cell goes on.
// At row 16 any vertex may be barred: the apex links the first three corners, and so does another corner.
pub fn aim_at(near: &Near, place: Place) -> Option<Aim>
    ensures { AimsOf (LinksFirst near.now.n near.now.table.now near.now.hints.now place.tuple) place.row result }
{
    let t = place.tuple;
    let x = place.row;
    let a = Vertex(t[0]);
    let b = Vertex(t[1]);
    if x != 3 && x != 11 {
        let p = if x == 16 {
            fullest(near, a, b)
        } else {
            Vertex(65535)
        };
        return Some(Aim {
            both: true,
            o: p,
            p,
        });
    }
    let e = FaceEdge {
        u: a,
        w: b,
        floor: wide(t[0]) + 1,
        o: b,
        p: b,
        q: b,
    };
    let q = sole(near, e, Vertex(t[2]));
    aim_from_links(near, x, q)
}
