// The tetrahedra at a facet, at most two of them in a sound mesh: a table in which three vertices have one place.
#![tactic(auto)]

ghost use Rattle.std.specs.Prelude.{◌≡◌, true, [], ◌∷◌, ◌≤◌, ◌<◌, length};
ghost use Rattle.base.specs.Lists.{distinct};
ghost use Rattle.facet_pairs.specs.between.Pairs.{pair_place, PairsOf, Names, Puts, OfFacet, AtFacets};

use space::{Tet, Vertex, hash3};

// How many places the table has.
pub const PAIR_PLACES: usize = 32768;

// Two entries for each place.
pub type Pairs = [u16; 2 * PAIR_PLACES];

// What stands second at a place of more than two.
const MANY: u16 = 65535;

// The place of three vertices.
fn pair_place(u: Vertex, v: Vertex, w: Vertex) -> usize
    ensures { (result ≡ pair_place u.0 v.0 w.0) × (result < 32768) }
{
    hash3(u, v, w) % PAIR_PLACES
}

// ---- making the table

// Tells tetrahedron e at the place of three vertices.
fn put_at_facet(pairs: &mut Pairs, e: Tet, u: Vertex, v: Vertex, w: Vertex)
    requires { e.0 < 65535 }
    ensures { Puts pairs.old pairs.new (OfFacet e.0 u.0 v.0 w.0) }
{
    let at = 2 * pair_place(u, v, w);
    if pairs[at] == 0 {
        pairs[at] = e.0 + 1;
    } else if pairs[at + 1] == 0 {
        pairs[at + 1] = e.0 + 1;
    } else {
        pairs[at + 1] = MANY;
    }
}

// Tells tetrahedron e at its four facets.
fn put_tet(pairs: &mut Pairs, e: Tet, a: Vertex, b: Vertex, c: Vertex, d: Vertex)
    requires { e.0 < 65535 }
    ensures { Puts pairs.old pairs.new (AtFacets e.0 a.0 b.0 c.0 d.0) }
{
    put_at_facet(pairs, e, b, c, d);
    put_at_facet(pairs, e, a, c, d);
    put_at_facet(pairs, e, a, b, d);
    put_at_facet(pairs, e, a, b, c);
}

// Tells every tetrahedron at its facets. What the table told before stays told, so one that is all 0 tells the least.
pub fn put_all(labels: &[u16], pairs: &mut Pairs)
    requires { length labels.now ≤ 8192 }
    ensures { PairsOf labels.now pairs.new }
{
    let t = labels.len() / 4;
    for i in 0..t {
        let at = 4 * i;
        let p = labels[at];
        let q = labels[at + 1];
        let r = labels[at + 2];
        let s = labels[at + 3];
        put_tet(
            pairs,
            Tet(i as u16),
            Vertex(p),
            Vertex(q),
            Vertex(r),
            Vertex(s),
        );
    }
}

// ---- reading it

// The tetrahedra that may have the three vertices, each by its number plus one, or 0, as they stand in the table:
// no others have them. None where there are many.
pub fn pair_of(labels: &[u16], pairs: &Pairs, a: Vertex, b: Vertex, c: Vertex) -> Option<(u16, u16)>
    requires pairs_of { PairsOf labels.now pairs.now }
    requires c_value { distinct (a.0 ∷ b.0 ∷ c.0 ∷ []) ≡ true }
    ensures { Names labels.now a.0 b.0 c.0 result }
{
    let at = 2 * pair_place(a, b, c);
    let two = pairs[at + 1];
    if two == MANY {
        None
    } else {
        Some((pairs[at], two))
    }
}
