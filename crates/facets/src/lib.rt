// What is asked of the tetrahedra that share a facet: refusals 8 and 9, over the working arrays with their index.
#![tactic(auto)]

ghost use Rattle.std.specs.Prelude.{◌≡◌, [], ◌∷◌, true, ◌/◌, ◌<◌, length};
ghost use Rattle.base.specs.Lists.{any, distinct};
ghost use Rattle.space.specs.Arrays.{row4};
ghost use Rattle.space.specs.between.Working.{Close};
ghost use Rattle.tets_around.specs.between.Build.{Within};
ghost use Rattle.facet_pairs.specs.between.Pairs.{PairsOf};
ghost use Rattle.facets.specs.Facets.{opposite, full, crowded, astray, clashes, clashing, folded, any_crowded, any_folded};
ghost use Rattle.facets.specs.between.Tries.{facets_of, at_facet, Tries};

use facet_pairs::{Pairs, pair_of};
use space::{Tet, Vertex, tet_has3};
use tets::{box_in, corners};
use tets_around::Index;

// A facet a, b, c of the tetrahedron e, and its fourth vertex u.
#[derive(Clone, Copy)]
struct Facet {
    e: Tet,
    u: Vertex,
    a: Vertex,
    b: Vertex,
    c: Vertex,
}

// The four facets of a tetrahedron.
fn facets_of(labels: &[u16], e: Tet) -> [Facet; 4]
    requires { e.0 < length labels.now / 4 }
    ensures { result ≡ facets_of labels.now e }
{
    let v = corners(labels, e);
    let (a, b, c, d) = (Vertex(v[0]), Vertex(v[1]), Vertex(v[2]), Vertex(v[3]));
    [
        Facet {
            e,
            u: a,
            a: b,
            b: c,
            c: d,
        },
        Facet {
            e,
            u: b,
            a,
            b: c,
            c: d,
        },
        Facet {
            e,
            u: c,
            a,
            b,
            c: d,
        },
        Facet { e, u: d, a, b, c },
    ]
}

// ---- 8

// Three or more tetrahedra have the facet: where two at most stand at its place, there are no more.
fn is_full(ix: &Index<'_>, pairs: &Pairs, f: Facet) -> bool
    requires pairs_of { PairsOf ix.now.labels.now pairs.now }
    requires c_value { distinct (f.a.0 ∷ f.b.0 ∷ f.c.0 ∷ []) ≡ true }
    ensures { result ≡ at_facet (full ix.now.labels.now) f }
{
    match pair_of(ix.labels, pairs, f.a, f.b, f.c) {
        Some(_) => false,
        None => 3 <= ix.sharing(f.a, f.b, f.c),
    }
}

fn is_crowded(ix: &Index<'_>, pairs: &Pairs, e: Tet) -> bool
    requires pairs_of { PairsOf ix.now.labels.now pairs.now }
    requires e_in_bounds { e.0 < length ix.now.labels.now / 4 }
    ensures { result ≡ crowded ix.now.labels.now e.0 }
{
    let facets = facets_of(ix.labels, e);
    for f in &facets {
        if is_full(ix, pairs, *f) {
            return true;
        }
    }
    false
}

// ---- 9

// Three cases, as the definition has them; the edit strict turns the first.
fn is_opposite(x: i64, y: i64) -> bool
    ensures { result ≡ opposite x y }
{
    if 0 < x {
        return y < 0;
    }
    if x < 0 {
        return 0 < y;
    }
    false
}

// The vertex w is off the facet and not strictly beyond it, seen from the fourth vertex.
#[tactic(auto, unfolding(crate::specs::Facets::astray))]
fn is_astray(coords: &[i64], f: Facet, w: Vertex) -> bool
    requires { Close coords.now }
    ensures { result ≡ at_facet (astray coords.now) f w.0 }
{
    // A facet's own vertices need no box.
    ![f.a.0, f.b.0, f.c.0].contains(&w.0)
        && !is_opposite(
            box_in(coords, f.a, f.b, f.c, f.u),
            box_in(coords, f.a, f.b, f.c, w),
        )
}

fn has_astray(coords: &[i64], labels: &[u16], f: Facet, m: Tet) -> bool
    requires close { Close coords.now }
    requires m_in_bounds { m.0 < length labels.now / 4 }
    ensures { result ≡ any (at_facet (astray coords.now) f) (row4 labels.now m.0) }
{
    let v = corners(labels, m);
    v.iter().any(|w| is_astray(coords, f, Vertex(*w)))
}

#[tactic(auto, unfolding(crate::specs::Facets::clashes))]
fn does_clash(coords: &[i64], labels: &[u16], f: Facet, m: Tet) -> bool
    requires close { Close coords.now }
    requires m_in_bounds { m.0 < length labels.now / 4 }
    ensures { result ≡ at_facet (clashes coords.now labels.now f.e.0) f m.0 }
{
    m.0 != f.e.0 && tet_has3(labels, m, f.a, f.b, f.c) && has_astray(coords, labels, f, m)
}

// Some tetrahedron of the row clashes with e at the facet.
fn any_clash(coords: &[i64], labels: &[u16], row: &[u16], f: Facet) -> bool
    requires close { Close coords.now }
    requires within { Within (length labels.now / 4) row.now }
    ensures { result ≡ any (at_facet (clashes coords.now labels.now f.e.0) f) row.now }
{
    for m in row {
        if does_clash(coords, labels, f, Tet(*m)) {
            return true;
        }
    }
    false
}

// Some tetrahedron clashes with e at the facet; it is looked for around the rarest of the three.
fn clashes_around(coords: &[i64], ix: &Index<'_>, f: Facet) -> bool
    requires close { Close coords.now }
    ensures { result ≡ at_facet (clashing coords.now ix.now.labels.now f.e.0) f }
{
    let x = ix.rarest(f.a, f.b, f.c);
    any_clash(coords, ix.labels, ix.around(x), f)
}

// The tetrahedron whose number plus one is x clashes with e. There may be none.
fn clashes_named(coords: &[i64], labels: &[u16], f: Facet, x: u16) -> bool
    requires { Close coords.now }
    ensures { Tries coords.now labels.now f x result }
{
    // Tried as one expression; then the bounds of x - 1 are lost to the proof.
    let t = labels.len() / 4;
    if x == 0 {
        return false;
    }
    let m = x - 1;
    if t <= m as usize {
        return false;
    }
    does_clash(coords, labels, f, Tet(m))
}

// Some tetrahedron clashes with e at the facet: where two at most stand at its place, only those are tried.
fn is_clashing(coords: &[i64], ix: &Index<'_>, pairs: &Pairs, f: Facet) -> bool
    requires close { Close coords.now }
    requires pairs_of { PairsOf ix.now.labels.now pairs.now }
    requires c_value { distinct (f.a.0 ∷ f.b.0 ∷ f.c.0 ∷ []) ≡ true }
    ensures { result ≡ at_facet (clashing coords.now ix.now.labels.now f.e.0) f }
{
    match pair_of(ix.labels, pairs, f.a, f.b, f.c) {
        None => clashes_around(coords, ix, f),
        Some((one, two)) => {
            clashes_named(coords, ix.labels, f, one) || clashes_named(coords, ix.labels, f, two)
        }
    }
}

fn is_folded(coords: &[i64], ix: &Index<'_>, pairs: &Pairs, e: Tet) -> bool
    requires close { Close coords.now }
    requires pairs_of { PairsOf ix.now.labels.now pairs.now }
    requires e_in_bounds { e.0 < length ix.now.labels.now / 4 }
    ensures { result ≡ folded coords.now ix.now.labels.now e.0 }
{
    let facets = facets_of(ix.labels, e);
    for f in &facets {
        if is_clashing(coords, ix, pairs, *f) {
            return true;
        }
    }
    false
}

// ---- over all tetrahedra

// Refusal 8: three or more tetrahedra share some facet.
pub fn any_crowded(ix: &Index<'_>, pairs: &Pairs) -> bool
    requires pairs_of { PairsOf ix.now.labels.now pairs.now }
    ensures { result ≡ any_crowded ix.now.labels.now }
{
    for j in 0..ix.labels.len() / 4 {
        if is_crowded(ix, pairs, Tet(j as u16)) {
            return true;
        }
    }
    false
}

// Refusal 9: two tetrahedra on one side of a facet that they share.
pub fn any_folded(coords: &[i64], ix: &Index<'_>, pairs: &Pairs) -> bool
    requires close { Close coords.now }
    requires pairs_of { PairsOf ix.now.labels.now pairs.now }
    ensures { result ≡ any_folded coords.now ix.now.labels.now }
{
    for j in 0..ix.labels.len() / 4 {
        if is_folded(coords, ix, pairs, Tet(j as u16)) {
            return true;
        }
    }
    false
}
