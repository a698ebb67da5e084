// The tables of the three kinds, in one, where those of a kind stand, and these.
ghost use Rattle.std.specs.Prelude.{◌≡◌, ◌≤◌, length};
ghost use Rattle.templates.specs.Tables.{template_of};
ghost use Rattle.templates.specs.between.Flat.{pairs};
ghost use Rattle.counting.specs.between.Bits.{Lettered};
ghost use Rattle.verdict.specs.between.Judged.{TablesOf};
ghost use Rattle.verdict.specs.between.FlatTables.{all_rows, bounds_of, BoundsRise};

use templates::{Kind, ROWS};

// How many corners a kind has, and where each of its tables begins in the rows of all; the last ends at `end`.
#[derive(Clone, Copy)]
pub struct Bounds {
    pub corners: usize,
    pub edges: usize,
    pub triangles: usize,
    pub quads: usize,
    pub triples: usize,
    pub within: usize,
    pub end: usize,
}

// The rows of all; a name for them keeps them out of what is to be proved of their users.
pub fn all_rows() -> &'static [u8; 308]
    ensures { result.now ≡ all_rows }
{
    &ROWS
}

// A kind other than 8 and 6 counts as 5.
pub fn bounds_of(kind: u16) -> Bounds
    ensures value { result ≡ bounds_of kind }
    ensures bounds_rise { BoundsRise result }
{
    match Kind::from(kind) {
        Kind::Hexahedron => Bounds {
            corners: 8,
            edges: 0,
            triangles: 24,
            quads: 24,
            triples: 48,
            within: 80,
            end: 176,
        },
        Kind::Prism => Bounds {
            corners: 6,
            edges: 176,
            triangles: 194,
            quads: 200,
            triples: 212,
            within: 236,
            end: 254,
        },
        Kind::Pyramid => Bounds {
            corners: 5,
            edges: 254,
            triangles: 270,
            quads: 282,
            triples: 286,
            within: 302,
            end: 308,
        },
    }
}

// The tables of a kind: how many corners it has, and the rows of each; `within` are the triples on no face.
#[derive(Clone, Copy)]
pub struct KindTables {
    pub corners: usize,
    pub edges: &'static [u8],
    pub triangles: &'static [u8],
    pub quads: &'static [u8],
    pub triples: &'static [u8],
    pub within: &'static [u8],
    pub ghost few: { corners ≤ 8 },
    pub ghost short_triangles: { length triangles.now ≤ 308 },
    pub ghost short_quads: { length quads.now ≤ 308 },
    pub ghost lettered: { Lettered triangles.now quads.now within.now },
}

// A kind other than 8 and 6 counts as 5.
pub fn tables_of(kind: u16) -> KindTables
    ensures tables { TablesOf (template_of kind) result.corners result.triangles.now result.quads.now result.triples.now result.within.now }
    ensures edges { pairs result.edges.now ≡ (template_of kind).edges }
{
    let all = all_rows();
    let Bounds {
        corners,
        edges,
        triangles,
        quads,
        triples,
        within,
        end,
    } = bounds_of(kind);
    KindTables {
        corners,
        edges: &all[edges..triangles],
        triangles: &all[triangles..quads],
        quads: &all[quads..triples],
        triples: &all[triples..within],
        within: &all[within..end],
    }
}
