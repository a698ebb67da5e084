// The cell test, for a kind and its eight numbers: the first of conditions 1 to 6 that a tuple fails;
// whether it is a cell, with its tetrahedra.
#![tactic(auto)]

ghost use Rattle.std.specs.Prelude.{◌≡◌, ◌≤◌, length};
ghost use Rattle.space.specs.Arrays.{mesh_of};
ghost use Rattle.templates.specs.Tables.{Template, template_of, tuple_of};
ghost use Rattle.templates.specs.between.Flat.{pairs};
ghost use Rattle.cells.specs.Cells.{is_cell, first_failing};
ghost use Rattle.judging.specs.between.Last.{condition_no};
ghost use Rattle.verdict.specs.between.Judged.{TablesOf, is_solid, Tells};

mod leaf;
mod rows;

use cells::{has_edges, has_faces, is_sound, is_tuple};
use filling::{Tets, find};
pub use judging::Condition;
use judging::judge_found;
pub use leaf::is_leaf;
pub use rows::{Bounds, KindTables, all_rows, bounds_of, tables_of};
use tets_around::Mesh;

// ---- the first condition that fails

// For whatever template these tables are of.
fn judge_by(mesh: &Mesh<'_>, tables: &KindTables, c: &[u16]) -> Result<(), Condition>
    ensures { (t : Template)
        → TablesOf t tables.now.corners tables.now.triangles.now tables.now.quads.now tables.now.triples.now tables.now.within.now
        → pairs tables.now.edges.now ≡ t.edges
        → condition_no result ≡ first_failing (mesh_of mesh.now.coords.now mesh.now.index.labels.now mesh.now.parts.now) t c.now }
{
    if !is_tuple(mesh.coords, c, tables.corners) {
        return Err(Condition::Corners);
    }
    if !has_edges(&mesh.index, c, tables.edges) {
        return Err(Condition::Edges);
    }
    if !has_faces(&mesh.index, c, tables.triangles, tables.quads) {
        return Err(Condition::Faces);
    }
    if !is_sound(mesh.coords, c, tables.triples) {
        return Err(Condition::Boxes);
    }
    let found = find(&mesh.index, c, tables.quads);
    judge_found(
        mesh.index.labels,
        mesh.parts,
        found,
        c,
        tables.triangles,
        tables.quads,
        tables.within,
    )
}

// The first condition that a tuple fails, none of a cell. A kind other than 8 and 6 counts as 5.
pub fn judge(mesh: &Mesh<'_>, kind: u16, tuple: &[u16; 8]) -> Result<(), Condition>
    ensures { condition_no result ≡ first_failing (mesh_of mesh.now.coords.now mesh.now.index.labels.now mesh.now.parts.now)
        (template_of kind) (tuple_of kind tuple.now) }
{
    let tables = tables_of(kind);
    judge_by(mesh, &tables, &tuple[..tables.corners])
}

// ---- whether a tuple is a cell

// Conditions 1, 4, 5 and 6 for whatever template these tables are of, the cheap ones first.
fn is_solid(mesh: &Mesh<'_>, tables: &KindTables, c: &[u16]) -> Option<Tets>
    ensures { (t : Template)
        → TablesOf t tables.now.corners tables.now.triangles.now tables.now.quads.now tables.now.triples.now tables.now.within.now
        → Tells is_solid (mesh_of mesh.now.coords.now mesh.now.index.labels.now mesh.now.parts.now) t c.now result }
{
    if !is_tuple(mesh.coords, c, tables.corners) {
        return None;
    }
    if !is_sound(mesh.coords, c, tables.triples) {
        return None;
    }
    let found = find(&mesh.index, c, tables.quads);
    match judge_found(
        mesh.index.labels,
        mesh.parts,
        found,
        c,
        tables.triangles,
        tables.quads,
        tables.within,
    ) {
        Ok(()) => Some(found),
        Err(_) => None,
    }
}

// The tetrahedra of the tuple, where it is a cell: as `judge` would say, but conditions 2 and 3 are not looked at,
// since 5 implies them.
pub fn is_cell(mesh: &Mesh<'_>, kind: u16, tuple: &[u16; 8]) -> Option<Tets>
    ensures { Tells is_cell (mesh_of mesh.now.coords.now mesh.now.index.labels.now mesh.now.parts.now)
        (template_of kind) (tuple_of kind tuple.now) result }
{
    let tables = tables_of(kind);
    is_solid(mesh, &tables, &tuple[..tables.corners])
}
