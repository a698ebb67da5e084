// Conditions 5 and 6 over a list of tetrahedra: whether they fill a cell, and whether they are of one part.
#![tactic(auto)]

ghost use Rattle.std.specs.Prelude.{◌≡◌, true, [], ◌∷◌, ◌*◌, ◌/◌, ◌<◌, eqb, length, get_or};
ghost use Rattle.base.specs.Lists.{all};
ghost use Rattle.space.specs.Arrays.{row4};
ghost use Rattle.tets_around.specs.between.Build.{Within};
ghost use Rattle.cells.specs.Cells.{none_or_two, once, paired, covers, all_agree};
ghost use Rattle.cells.specs.between.Diagonal.{is_diagonal};
ghost use Rattle.cells.specs.between.Rows.{row3, threes, fours, fills_by, fills_with};
ghost use Rattle.counting.specs.between.Bits.{bit_of, BitsOf, Bits, low, Lettered, sides_by};

use space::Tet;
use templates::corner;

// ---- condition 5

// Whether a tetrahedron has corner j of the cell, as 1 or 0; without a branch, which would cost more.
fn bit(labels: &[u16], e: Tet, c: &[u16], j: u8) -> u8
    requires { e.0 < length labels.now / 4 }
    ensures { result ≡ bit_of labels.now c.now e.0 j }
{
    let v = corner(c, j);
    let at = 4 * (e.0 as usize);
    let w = v == labels[at];
    let x = v == labels[at + 1];
    let y = v == labels[at + 2];
    let z = v == labels[at + 3];
    (w | (x | (y | z))) as u8
}

// Writes which corners of the cell each of the tetrahedra listed has, 8 entries to each:
// they are compared once, and then counted by these.
fn put_bits(labels: &[u16], list: &[u16], c: &[u16], has: &mut [u8])
    requires { Within (length labels.now / 4) list.now × (length has.old ≡ 8 * length list.now) }
    ensures { BitsOf labels.now list.now c.now has.new }
{
    for (x, h) in has.iter_mut().enumerate() {
        *h = bit(labels, Tet(list[x / 8]), c, (x % 8) as u8);
    }
}

// Of how many of the tetrahedra three corners are a facet.
// The product is 1 where all three are set; a branch would cost more.
fn sides_of(has: &[u8], x: u8, y: u8, z: u8) -> usize
    requires { Bits has.now × ((x < 8) × ((y < 8) × (z < 8))) }
    ensures { result ≡ sides_by has.now (x ∷ y ∷ z ∷ []) }
{
    let a = x as usize;
    let b = y as usize;
    let d = z as usize;
    let mut found: usize = 0;
    for k in 0..has.len() / 8 {
        let at = 8 * k;
        found += (has[at + a] * has[at + b] * has[at + d]) as usize;
    }
    found
}

// The same of row i of a table of triples.
fn sides_row(has: &[u8], rows: &[u8], i: usize) -> usize
    requires { (i < length rows.now / 3) × (Bits has.now × (low rows.now ≡ true)) }
    ensures { result ≡ sides_by has.now (row3 rows.now i) }
{
    let at = 3 * i;
    sides_of(has, rows[at], rows[at + 1], rows[at + 2])
}

// The triples of the table are on the boundary: each is a facet of one.
fn all_once(has: &[u8], rows: &[u8]) -> bool
    requires { Bits has.now × (low rows.now ≡ true) }
    ensures { result ≡ all (once (sides_by has.now)) (threes rows.now) }
{
    (0..rows.len() / 3).all(|i| sides_row(has, rows, i) == 1)
}

#[tactic(auto, unfolding(cells::specs::Cells::none_or_two))]
fn is_pair(k: usize) -> bool
    ensures { result ≡ none_or_two k }
{
    k == 0 || k == 2
}

// The triples of the table are inside: each is a facet of none or of two.
fn all_paired(has: &[u8], rows: &[u8]) -> bool
    requires { Bits has.now × (low rows.now ≡ true) }
    ensures { result ≡ all (paired (sides_by has.now)) (threes rows.now) }
{
    (0..rows.len() / 3).all(|i| is_pair(sides_row(has, rows, i)))
}

// One diagonal's triangles count a and b, the other's d and e: the first is on the boundary, the second is not.
#[tactic(auto, unfolding(cells::specs::between::Diagonal::is_diagonal, cells::specs::Cells::one))]
fn is_diagonal(a: usize, b: usize, d: usize, e: usize) -> bool
    ensures { result ≡ is_diagonal a b d e }
{
    a == 1 && b == 1 && is_pair(d) && is_pair(e)
}

// Quadrilateral i is covered by the triangles of exactly one of its diagonals.
fn covered(has: &[u8], quads: &[u8], i: usize) -> bool
    requires { (i < length quads.now / 4) × (Bits has.now × (low quads.now ≡ true)) }
    ensures { result ≡ covers (sides_by has.now) (row4 quads.now i) }
{
    let at = 4 * i;
    let a = quads[at];
    let b = quads[at + 1];
    let d = quads[at + 2];
    let e = quads[at + 3];
    let abd = sides_of(has, a, b, d);
    let ade = sides_of(has, a, d, e);
    let abe = sides_of(has, a, b, e);
    let bde = sides_of(has, b, d, e);
    is_diagonal(abd, ade, abe, bde) || is_diagonal(abe, bde, abd, ade)
}

fn all_covered(has: &[u8], quads: &[u8]) -> bool
    requires { Bits has.now × (low quads.now ≡ true) }
    ensures { result ≡ all (covers (sides_by has.now)) (fours quads.now) }
{
    (0..quads.len() / 4).all(|i| covered(has, quads, i))
}

// 5, where the corners that the tetrahedra have are known.
fn is_filled_by(has: &[u8], triangles: &[u8], quads: &[u8], within: &[u8]) -> bool
    requires { Bits has.now × Lettered triangles.now quads.now within.now }
    ensures { result ≡ fills_by (sides_by has.now) triangles.now quads.now within.now }
{
    all_once(has, triangles) && all_covered(has, quads) && all_paired(has, within)
}

// 5: the tetrahedra listed fill the cell; `within` are the triples on no face,
// and `has` is room for 8 entries a tetrahedron.
pub fn is_filled(
    labels: &[u16],
    list: &[u16],
    c: &[u16],
    triangles: &[u8],
    quads: &[u8],
    within: &[u8],
    has: &mut [u8],
) -> bool
    requires { Within (length labels.now / 4) list.now
        × ((length has.old ≡ 8 * length list.now) × Lettered triangles.now quads.now within.now) }
    ensures { result ≡ fills_with labels.now list.now c.now
        triangles.now quads.now within.now }
{
    put_bits(labels, list, c, has);
    is_filled_by(has, triangles, quads, within)
}

// ---- condition 6

// The tetrahedra listed are all of this part.
fn all_of_part(parts: &[u16], list: &[u16], part: u16) -> bool
    requires { Within (length parts.now) list.now }
    ensures { result ≡ all (λ i. eqb part (get_or parts.now i 0)) list.now }
{
    for i in list {
        if part != parts[*i as usize] {
            return false;
        }
    }
    true
}

// 6: the tetrahedra listed have one part number.
pub fn is_one_part(parts: &[u16], list: &[u16]) -> bool
    requires { Within (length parts.now) list.now }
    ensures { result ≡ all_agree (λ i. get_or parts.now i 0) list.now }
{
    list.is_empty() || all_of_part(parts, list, parts[list[0] as usize])
}
