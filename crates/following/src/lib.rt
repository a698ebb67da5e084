// The first cell after a mark, over the three kinds, and whether any is left.
#![tactic(auto)]

ghost use Rattle.std.specs.Prelude.{◌≡◌, ◌∷◌, ◌+◌};
ghost use Rattle.base.specs.Lists.{pad};
ghost use Rattle.space.specs.Arrays.{mesh_of};
ghost use Rattle.templates.specs.Tables.{at};
ghost use Rattle.templates.specs.Kinds.{template};
ghost use Rattle.cells.specs.Full.{full_list};
ghost use Rattle.record.specs.Marks.{mark_corners, mark_of};
ghost use Rattle.portions.specs.Portions.{remains};
ghost use Rattle.rule.specs.Rule.{tet_rule};
ghost use Rattle.following.specs.between.Following.{Begun, Steps, Comes};

use filling::Tets;
use order::{letters, ordered};
use pyramid_left::sees;
use record::Mark;
use search::{FoundTuple, Ground, next_tuple};
use templates::Kind;

// The mark of the cell that was found, and its tetrahedra.
#[derive(Clone, Copy)]
pub struct NextCell {
    pub mark: Mark,
    pub tets: Tets,
}

// ---- one kind

// The mark of the cell that a tuple in search order makes.
fn mark_at(kind: Kind, t: [u16; 8]) -> Mark
    ensures { mark_of result ≡ (template kind).kind ∷ pad 8 0 (at t (template kind).places) }
{
    let kind = u16::from(kind);
    let c = letters(kind, t);
    Mark {
        kind,
        a: c[0],
        b: c[1],
        c: c[2],
        d: c[3],
        e: c[4],
        f: c[5],
        g: c[6],
        h: c[7],
    }
}

// The tuple that the search of a kind begins behind: the mark's own, or in a kind below one before all.
fn begin(kind: Kind, mark: Mark) -> [u16; 8]
    ensures { Begun (template kind) mark.kind (mark_corners mark) result }
{
    let kind = u16::from(kind);
    if mark.kind == kind {
        let m = mark;
        return ordered(kind, [m.a, m.b, m.c, m.d, m.e, m.f, m.g, m.h]);
    }
    [0; 8]
}

// The search begins behind a cell that was just told: only in that cell's kind.
fn is_behind(kind: Kind, mark: Mark, told: bool) -> bool {
    told && mark.kind == u16::from(kind)
}

// The first cell of a kind that comes after the mark: none of a kind above the mark's.
fn next_of(ground: &Ground<'_, '_>, kind: Kind, mark: Mark, told: bool) -> Option<NextCell>
    ensures { Steps (mesh_of ground.now.mesh.coords.now ground.now.mesh.index.labels.now ground.now.mesh.parts.now) (template kind) (mark_of mark) result }
{
    let number = u16::from(kind);
    if mark.kind < number {
        return None;
    }
    let from = begin(kind, mark);
    let behind = is_behind(kind, mark, told);
    let FoundTuple { tuple, tets } = next_tuple(ground, number, from, behind)?;
    Some(NextCell {
        mark: mark_at(kind, tuple),
        tets,
    })
}

// ---- the three kinds

// The first cell after the mark, of any kind.
pub fn next_cell(ground: &Ground<'_, '_>, mark: Mark, told: bool) -> Option<NextCell>
    ensures { Comes (mesh_of ground.now.mesh.coords.now ground.now.mesh.index.labels.now ground.now.mesh.parts.now) (mark_of mark) result }
{
    for kind in [Kind::Hexahedron, Kind::Prism, Kind::Pyramid] {
        let x = next_of(ground, kind, mark, told);
        if x.is_some() {
            return x;
        }
    }
    None
}

// ---- whether any cell is left

// The least first corner of a pyramid that comes after the mark for certain.
fn first_after(mark: Mark) -> usize
    ensures { mark.kind ≡ 5 → result ≡ mark.a + 1 }
{
    if mark.kind == 5 {
        return mark.a as usize + 1;
    }
    0
}

// A pyramid that is seen at once tells that one is; else the next cell is looked for.
pub fn is_any_left(ground: &Ground<'_, '_>, mark: Mark) -> bool
    ensures { result ≡ remains tet_rule (full_list (mesh_of ground.now.mesh.coords.now ground.now.mesh.index.labels.now ground.now.mesh.parts.now)) (mark_of mark) }
{
    let lo = first_after(mark);
    (5 <= mark.kind && sees(&ground.mesh, lo)) || next_cell(ground, mark, true).is_some()
}
