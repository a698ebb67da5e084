// The tables of the three kinds of cell, and readers of a tuple.
#![tactic(auto)]

ghost use Rattle.std.specs.Prelude.{◌≡◌, get_or};
ghost use Rattle.base.specs.Lists.{is_in, distinct};
ghost use Rattle.templates.specs.Tables.{at};
ghost use Rattle.templates.specs.between.Eight.{eight};

mod kind;
mod tables;

pub use kind::Kind;
use std::array;
pub use tables::ROWS;

// ---- a tuple: the vertices of its corners, in letter order

// The vertex at a corner; 0 past the end.
pub fn corner(c: &[u16], k: u8) -> u16
    ensures { result ≡ get_or c.now k 0 }
{
    c.get(usize::from(k)).copied().unwrap_or(0)
}

pub fn is_in(v: u16, xs: &[u16]) -> bool
    ensures { result ≡ is_in v xs.now }
{
    xs.contains(&v)
}

// No vertex stands twice.
pub fn all_distinct(c: &[u16]) -> bool
    ensures { result ≡ distinct c.now }
{
    for (i, v) in c.iter().enumerate() {
        if is_in(*v, &c[i + 1..]) {
            return false;
        }
    }
    true
}

// The vertex that a row of corners brings to place j; 0 past the row's end.
fn turned_at(c: &[u16], row: &[u8], j: usize) -> u16
    ensures { result ≡ get_or (at c.now row.now) j 0 }
{
    row.get(j).map_or(0, |k| corner(c, *k))
}

// The tuple turned by a row of corners.
pub fn turned(c: &[u16], row: &[u8]) -> [u16; 8]
    ensures { result ≡ eight (at c.now row.now) }
{
    array::from_fn(|j| turned_at(c, row, j))
}
