// Least form: the one of a tuple's turns that is listed.
#![tactic(auto)]

mod tables;

ghost use Rattle.std.specs.Prelude.{◌≡◌, ◌/◌, ◌≤◌, ◌<◌, length};
ghost use Rattle.templates.specs.Kinds.{template};
ghost use Rattle.templates.specs.Tables.{template_of, tuple_of, at};
ghost use Rattle.templates.specs.between.Flat.{pair_at, pairs};
ghost use Rattle.least.specs.Least.{first_is_less, rises_at, is_least};

use tables::{HEX_LESS, PRISM_LESS, PYRAMID_LESS};
use templates::{Kind, corner};

// Pair i of the table is a lesser vertex and a greater.
fn rises_at(c: &[u16], less: &[u8], i: usize) -> bool
    requires { i < length less.now / 2 }
    ensures { result ≡ first_is_less (at c.now (pair_at less.now i)) }
{
    let at = 2 * i;
    corner(c, less[at]) < corner(c, less[at + 1])
}

// Of each pair of the table the first corner has the lesser vertex.
pub fn all_rise(c: &[u16], less: &[u8]) -> bool
    ensures { result ≡ rises_at (pairs less.now) c.now }
{
    (0..less.len() / 2).all(|i| rises_at(c, less, i))
}

// The pairs of a kind.
pub fn less_of(kind: Kind) -> &'static [u8]
    ensures { pairs result.now ≡ (template kind).less }
{
    match kind {
        Kind::Hexahedron => &HEX_LESS,
        Kind::Prism => &PRISM_LESS,
        Kind::Pyramid => &PYRAMID_LESS,
    }
}

// The first of eight numbers, as many as the kind has corners, are a tuple in least form.
pub fn is_least(kind: u16, corners: &[u16]) -> bool
    requires { 8 ≤ length corners.now }
    ensures { result ≡ is_least (template_of kind) (tuple_of kind corners.now) }
{
    let kind = Kind::from(kind);
    all_rise(&corners[..kind.corners()], less_of(kind))
}
