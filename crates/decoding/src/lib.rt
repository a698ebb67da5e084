// The two parts of a mesh file read into arrays that the caller lends, and the bounds on coordinates (refusal 4).
#![tactic(auto)]

ghost use Rattle.std.specs.Prelude.{◌≡◌, ◌+◌, ◌*◌, ◌≤◌, ◌<◌, length};
ghost use Rattle.base.specs.Lists.{all};
ghost use Rattle.space.specs.Box.{near};
ghost use Rattle.layout.specs.Layout.{coords_in, labels_in, parts_in, coords_of, labels_of, parts_of};
ghost use Rattle.layout.specs.between.Framed.{Framed};

use layout::{i32_at, u16_at};

// ---- the parts, each begun at its offset: `&file[24..]` and `&file[24 + 12 * n..]`

// Fills `coords` with the first coordinates of a vertex part.
fn read_coordinates(part: &[u8], coords: &mut [i64])
    requires { 4 * length coords.old ≤ length part.now }
    ensures { coords.new ≡ coords_in part.now (length coords.old) }
{
    for (k, z) in coords.iter_mut().enumerate() {
        *z = i32_at(part, 4 * k);
    }
}

// Fills `labels`, four to each, and `parts` from the first tetrahedra of a tetrahedron part.
fn read_tets(part: &[u8], labels: &mut [u16], parts: &mut [u16])
    requires labels_len { length labels.old ≡ 4 * length parts.old }
    requires parts_in_bounds { 10 * length parts.old ≤ length part.now }
    ensures numbers { labels.new ≡ labels_in part.now (length labels.old) }
    ensures partition { parts.new ≡ parts_in part.now (length parts.old) }
{
    for j in 0..parts.len() {
        let from = 10 * j;
        let at = 4 * j;
        labels[at] = u16_at(part, from);
        labels[at + 1] = u16_at(part, from + 2);
        labels[at + 2] = u16_at(part, from + 4);
        labels[at + 3] = u16_at(part, from + 6);
        parts[j] = u16_at(part, from + 8);
    }
}

// Reads a file with n vertices and t tetrahedra into the lent arrays.
pub fn decode(
    file: &[u8],
    n: usize,
    t: usize,
    coords: &mut [i64],
    labels: &mut [u16],
    parts: &mut [u16],
)
    requires framed { Framed file.now n t }
    requires coords_len { (length coords.old ≡ 3 * n) × ((length labels.old ≡ 4 * t) × (length parts.old ≡ t)) }
    ensures coordinates { coords.new ≡ coords_of file.now }
    ensures numbers { labels.new ≡ labels_of file.now }
    ensures partition { parts.new ≡ parts_of file.now }
{
    read_coordinates(&file[24..], coords);
    let at = 24 + 12 * n;
    read_tets(&file[at..], labels, parts);
}

// Not refusal 4: every coordinate is in bounds.
pub fn all_near(coords: &[i64]) -> bool
    ensures { result ≡ all near coords.now }
{
    coords.iter().all(|z| space::is_near(*z))
}
