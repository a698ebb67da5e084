// The portion of a mesh in arrays: refusals 10 and 11, the neighbour table, the hints of the facets,
// and the records of the cells after a mark.
#![tactic(auto)]

ghost use Rattle.std.specs.Prelude.{◌≡◌, [], leb, length};
ghost use Rattle.space.specs.Arrays.{mesh_of};
ghost use Rattle.neighbours.specs.between.Reading.{Tabled};
ghost use Rattle.record.specs.Entries.{record_size};
ghost use Rattle.record.specs.Marks.{mark_of};
ghost use Rattle.records.specs.between.Written.{Written};
ghost use Rattle.portioning.specs.Portion.{Promised};

use facet_hints::{HINT_PLACES, Hints};
use reaching::Near;
use record::{Mark, SIZE};
use records::{Given, Refused};
use refusals::Refusal;
use search::Ground;
use tets_around::Mesh;

// The room holds a record at least.
fn is_roomy(records: &[u16]) -> bool
    ensures { result ≡ leb record_size (length records.now) }
{
    SIZE <= records.len()
}

// Marks the facets of a mesh whose table is filled, and writes the records of its cells.
fn write_listed(
    mesh: &Mesh<'_>,
    table: &[u16],
    mark: Mark,
    records: &mut [u16],
) -> Result<Given, Refused>
    requires { Tabled mesh.now.index.labels.now mesh.now.index.n table.now }
    ensures { Written (mesh_of mesh.now.coords.now mesh.now.index.labels.now mesh.now.parts.now)
        (mark_of mark) records.old result records.new }
{
    let mut hints: Hints = [0; HINT_PLACES];
    facet_hints::hint_facets(mesh.index.labels, &mut hints);
    let near = Near {
        n: mesh.index.n,
        table,
        hints: &hints,
    };
    let ground = Ground { mesh: *mesh, near };
    records::write_cells(&ground, mark, records)
}

// The portion of a mesh in arrays. The room is looked at before the table is filled,
// and told of after the table's size.
pub fn portion_of(
    mesh: &Mesh<'_>,
    mark: Mark,
    table: &mut [u16],
    records: &mut [u16],
) -> Result<Given, Refused>
    ensures { Promised [] (mesh_of mesh.now.coords.now mesh.now.index.labels.now mesh.now.parts.now) mesh.now.index.n
        (mark_of mark) table.old records.old result table.new records.new }
{
    let roomy = is_roomy(records);
    let filled = neighbours::fill_if(mesh.index.labels, mesh.index.n, roomy, table);
    match filled {
        None => Err(Refused::from(Refusal::TableShort)),
        Some(_) => {
            if roomy {
                write_listed(mesh, table, mark, records)
            } else {
                Err(Refused::from(Refusal::NoRoom))
            }
        }
    }
}
