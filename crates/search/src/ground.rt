// What a search for cells goes over.
#![tactic(auto)]

ghost use Rattle.search.specs.between.Ready.{Ready};
ghost use Rattle.search.specs.between.One.{ready_one};

use reaching::Near;
use tets_around::Mesh;

// A mesh, its neighbour table and the hints of its facets.
#[derive(Clone, Copy)]
pub struct Ground<'a, 'b> {
    pub mesh: Mesh<'a>,
    pub near: Near<'b>,
    pub ghost ready: { Ready mesh.coords.now mesh.index.labels.now mesh.parts.now near.n mesh.index.offsets.now mesh.index.entries.now near.hints.now near.table.now } by { ready_one _ _ _ _ _ _ _ _ },
}
