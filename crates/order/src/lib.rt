// Letter order and search order: a cell's corners are told in the one, and a search goes by the other.
#![tactic(auto)]

ghost use Rattle.std.specs.Prelude.{◌≡◌, ◌≤◌};
ghost use Rattle.base.specs.Lists.{pad};
ghost use Rattle.templates.specs.Kinds.{template};
ghost use Rattle.templates.specs.Tables.{template_of, at};

use templates::{Kind, turned};

// Of a hexahedron the place of each corner in search order, and the corner at each place.
// Of the other kinds the two orders are one.
const HEX_PLACES: [u8; 8] = [0, 1, 4, 2, 3, 5, 7, 6];

const HEX_ORDER: [u8; 8] = [0, 1, 3, 4, 2, 5, 7, 6];

const PRISM_PLACES: [u8; 6] = [0, 1, 2, 3, 4, 5];

const PYRAMID_PLACES: [u8; 5] = [0, 1, 2, 3, 4];

// How many corners a kind has.
pub fn corners_of(kind: u16) -> usize
    ensures { (result ≡ (template_of kind).corners) × ((5 ≤ result) × (result ≤ 8)) }
{
    Kind::from(kind).corners()
}

fn places_of(kind: Kind) -> &'static [u8]
    ensures { result.now ≡ (template kind).places }
{
    match kind {
        Kind::Hexahedron => &HEX_PLACES,
        Kind::Prism => &PRISM_PLACES,
        Kind::Pyramid => &PYRAMID_PLACES,
    }
}

// Two tables of each kind, a match for each; so have `least` and `turning` theirs.
fn order_of(kind: Kind) -> &'static [u8]
    ensures { result.now ≡ (template kind).order }
{
    match kind {
        Kind::Hexahedron => &HEX_ORDER,
        Kind::Prism => &PRISM_PLACES,
        Kind::Pyramid => &PYRAMID_PLACES,
    }
}

// A tuple in search order as letters, 0 where the kind has no corner.
pub fn letters(kind: u16, s: [u16; 8]) -> [u16; 8]
    ensures { result ≡ pad 8 0 (at s (template_of kind).places) }
{
    turned(&s, places_of(Kind::from(kind)))
}

// Letters as a tuple in search order, 0 where the kind has no corner.
pub fn ordered(kind: u16, c: [u16; 8]) -> [u16; 8]
    ensures { result ≡ pad 8 0 (at c (template_of kind).order) }
{
    turned(&c, order_of(Kind::from(kind)))
}
