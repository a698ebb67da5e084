// Whether a tetrahedron is one of a cell's, and a table of stamps by which most that are not are told soonest.
#![tactic(auto)]

ghost use Rattle.std.specs.Prelude.{◌≡◌, ◌/◌, ◌<◌, length};
ghost use Rattle.base.specs.Lists.{all, any, is_in};
ghost use Rattle.space.specs.Arrays.{row4};
ghost use Rattle.templates.specs.Tables.{at};
ghost use Rattle.cells.specs.between.Rows.{fours, owns_by};
ghost use Rattle.own.specs.between.Stamps.{Hit, has_stamp, Stamped};

use cells::corners_at;
use space::{Tet, Vertex};
use templates::is_in;

// ---- the test itself

// Each vertex of the tetrahedron stands in the list.
fn all_in(labels: &[u16], e: Tet, xs: &[u16]) -> bool
    requires { e.0 < length labels.now / 4 }
    ensures { result ≡ all (λ v. is_in v xs.now) (row4 labels.now e.0) }
{
    let at = 4 * usize::from(e.0);
    labels[at..at + 4].iter().all(|v| is_in(*v, xs))
}

// The tetrahedron is quadrilateral j.
fn on_quad(labels: &[u16], e: Tet, c: &[u16], rows: &[u8], j: usize) -> bool
    requires { (e.0 < length labels.now / 4) × (j < length rows.now / 4) }
    ensures { result ≡ all (λ v. is_in v (at c.now (row4 rows.now j))) (row4 labels.now e.0) }
{
    let q = corners_at::<4>(c, rows, j);
    all_in(labels, e, &q)
}

// The tetrahedron is some quadrilateral.
fn on_some_quad(labels: &[u16], e: Tet, c: &[u16], rows: &[u8]) -> bool
    requires { e.0 < length labels.now / 4 }
    ensures { result ≡ any (λ q. all (λ v. is_in v (at c.now q)) (row4 labels.now e.0)) (fours rows.now) }
{
    (0..rows.len() / 4).any(|j| on_quad(labels, e, c, rows, j))
}

// The tetrahedron is one of the cell's.
pub fn belongs_to(labels: &[u16], e: Tet, c: &[u16], quads: &[u8]) -> bool
    requires { e.0 < length labels.now / 4 }
    ensures { result ≡ owns_by labels.now quads.now c.now e.0 }
{
    all_in(labels, e, c) && !on_some_quad(labels, e, c, quads)
}

// ---- stamps

// 512 places for stamps; that they are 512 is all that is told.
fn no_stamps() -> [u8; 512]
    ensures { 512 ≡ length result }
{
    [0; 512]
}

// A stamp for each corner, at the remainder of its number by 512.
pub fn stamp(c: &[u16]) -> [u8; 512]
    ensures { Stamped c.now (length c.now) result }
{
    let mut m = no_stamps();
    for v in c {
        m[usize::from(*v) % 512] = 1;
    }
    m
}

// The vertex may be a corner: there is a stamp for it.
fn has_stamp(m: &[u8; 512], v: Vertex) -> bool
    ensures { result ≡ has_stamp m.now v.0 }
{
    m[usize::from(v.0) % 512] != 0
}

// Each vertex of the tetrahedron may be a corner.
fn may_be_in(labels: &[u16], e: Tet, m: &[u8; 512]) -> bool
    requires { e.0 < length labels.now / 4 }
    ensures { result ≡ all (has_stamp m.now) (row4 labels.now e.0) }
{
    let at = 4 * usize::from(e.0);
    labels[at..at + 4].iter().all(|v| has_stamp(m, Vertex(*v)))
}

// The tetrahedron is one of the cell's and not below lo. Most have a vertex without a stamp, which is seen soonest.
pub fn is_hit(labels: &[u16], e: Tet, lo: usize, m: &[u8; 512], c: &[u16], quads: &[u8]) -> bool
    requires { (e.0 < length labels.now / 4) × Stamped c.now (length c.now) m.now }
    ensures { Hit (owns_by labels.now quads.now c.now e.0) lo e.0 result }
{
    usize::from(e.0) >= lo && may_be_in(labels, e, m) && belongs_to(labels, e, c, quads)
}
