// The kinds of cell.
#![tactic(auto)]

ghost use Rattle.std.specs.Prelude.{◌≡◌, ◌≤◌};
ghost use Rattle.templates.specs.Kinds.{template, kind_of, kind_named};

// Each by its number. Where a promise speaks of a kind, it takes the number (docs/PROMISES.md): any is answered, and other
// ones than 8 and 6 count as 5 or are refused. Behind the promise the number is read as a kind.
#[derive(Clone, Copy, PartialEq, Eq, PartialOrd, Ord, Debug)]
pub enum Kind {
    Pyramid = 5,
    Prism = 6,
    Hexahedron = 8,
}

// A number other than 8 and 6 counts as 5.
impl From<u16> for Kind {
    ghost from_gives = { λ n k. k ≡ kind_of n };

    fn from(number: u16) -> Kind {
        match number {
            8 => Kind::Hexahedron,
            6 => Kind::Prism,
            _ => Kind::Pyramid,
        }
    }
}

impl From<Kind> for u16 {
    ghost from_gives = { λ k n. n ≡ (template k).kind };

    fn from(kind: Kind) -> u16 {
        kind as u16
    }
}

impl Kind {
    // The kind of this number, if it is one's.
    pub fn named(number: u16) -> Option<Kind>
        ensures { result ≡ kind_named number }
    {
        match number {
            8 => Some(Kind::Hexahedron),
            6 => Some(Kind::Prism),
            5 => Some(Kind::Pyramid),
            _ => None,
        }
    }

    // How many corners it has.
    pub fn corners(self) -> usize
        ensures { (result ≡ (template self).corners) × ((5 ≤ result) × (result ≤ 8)) }
    {
        match self {
            Kind::Hexahedron => 8,
            Kind::Prism => 6,
            Kind::Pyramid => 5,
        }
    }
}
