// The test of a whole tuple of the search: a cell in least form.
ghost use Rattle.std.specs.Prelude.{◌≡◌, is_some, IfSome};
ghost use Rattle.filling.specs.between.Numbered.{Numbered};
ghost use Rattle.rule.specs.between.Leaf.{leaf_in, leaf_tets};

use crate::is_cell;
use filling::Tets;
use least::is_least;
use order::letters;
use tets_around::Mesh;

// The tetrahedra of the cell that the tuple, in search order, is in least form, where it is one.
pub fn is_leaf(mesh: &Mesh<'_>, kind: u16, s: [u16; 8]) -> Option<Tets>
    ensures yes_value { is_some result ≡ leaf_in mesh.now.coords.now mesh.now.index.labels.now mesh.now.parts.now kind s }
    ensures numbered { IfSome result (λ f. Numbered (leaf_tets mesh.now.coords.now mesh.now.index.labels.now mesh.now.parts.now kind s) f) }
{
    let c = letters(kind, s);
    if !is_least(kind, &c) {
        return None;
    }
    is_cell(mesh, kind, &c)
}
