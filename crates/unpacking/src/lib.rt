// The lists of a mesh file as plain text, in a room that the caller lends: what packing undoes. The text is that of
// `writing_lists`, a line for the counts, one for each vertex and one for each tetrahedron.
#![tactic(auto)]

ghost use Rattle.std.specs.Prelude.{◌≡◌, ◌+◌, ◌*◌, ◌≤◌, ◌<◌, pos, length};
ghost use Rattle.base.specs.Laid.{Laid};
ghost use Rattle.space.specs.between.Working.{Close};
ghost use Rattle.layout.specs.between.Framed.{Framed};
ghost use Rattle.arrays.specs.Refusals.{checked, accepted};
ghost use Rattle.packing.specs.Packed.{room_after};
ghost use Rattle.writing_lists.specs.Printed.{line_of, vertex_row, tet_row, vertex_lines, tet_lines, text_of};
ghost use Rattle.unpacking.specs.Unpacked.{file_text, unpacked};
ghost use Rattle.unpacking.specs.between.Sizes.{vertex_most, tet_most, vertex_place, tet_place, text_room, ThreeDigits, TextFits};

use arrays::{Counts, Lists, Room};
use refusals::Refusal;
use writing_lists::put_line;

// ---- a line

fn put_vertex(out: &mut [u8], at: usize, coordinates: &[i64], v: usize) -> usize
    requires { (at + vertex_place ≤ length out.old) × (3 * v + 3 ≤ length coordinates.now) }
    ensures next { result ≡ at + length (line_of (vertex_row coordinates.now v)) }
    ensures text { Laid at (line_of (vertex_row coordinates.now v)) out.old out.new }
{
    let from = 3 * v;
    put_line(out, at, &coordinates[from..from + 3])
}

fn put_tet(out: &mut [u8], at: usize, labels: &[u16], parts: &[u16], j: usize) -> usize
    requires { (at + tet_place ≤ length out.old) × ((4 * j + 4 ≤ length labels.now) × (j < length parts.now)) }
    ensures next { result ≡ at + length (line_of (tet_row labels.now parts.now j)) }
    ensures text { Laid at (line_of (tet_row labels.now parts.now j)) out.old out.new }
{
    let a = i64::from(labels[4 * j]);
    let b = i64::from(labels[4 * j + 1]);
    let c = i64::from(labels[4 * j + 2]);
    let d = i64::from(labels[4 * j + 3]);
    let part = i64::from(parts[j]);
    let numbers = [a, b, c, d, part];
    put_line(out, at, &numbers)
}

// ---- the lines

fn put_vertices(out: &mut [u8], from: usize, coordinates: &[i64], n: usize) -> usize
    requires vertex_place_in_bounds { (from + vertex_most * n + vertex_place ≤ length out.old) × (3 * n ≤ length coordinates.now) }
    requires close { Close coordinates.now }
    ensures next { result ≡ from + length (vertex_lines coordinates.now n) }
    ensures text { Laid from (vertex_lines coordinates.now n) out.old out.new }
{
    let mut at = from;
    for v in 0..n {
        at = put_vertex(out, at, coordinates, v);
    }
    at
}

fn put_tets(out: &mut [u8], from: usize, labels: &[u16], parts: &[u16]) -> usize
    requires tet_place_in_bounds { (from + tet_most * length parts.now + tet_place ≤ length out.old) × (length labels.now ≡ 4 * length parts.now) }
    requires three_digits { ThreeDigits labels.now }
    ensures next { result ≡ from + length (tet_lines labels.now parts.now (length parts.now)) }
    ensures text { Laid from (tet_lines labels.now parts.now (length parts.now))
        out.old out.new }
{
    let mut at = from;
    for j in 0..parts.len() {
        at = put_tet(out, at, labels, parts, j);
    }
    at
}

// ---- the text

// Puts the text of lists to the front, and answers where it ends.
fn put_lists(out: &mut [u8], coordinates: &[i64], labels: &[u16], parts: &[u16]) -> usize
    requires { TextFits coordinates.now labels.now parts.now (length out.old) }
    ensures next { result ≡ length (text_of coordinates.now labels.now parts.now) }
    ensures text { Laid 0 (text_of coordinates.now labels.now parts.now) out.old out.new }
{
    let n = coordinates.len() / 3;
    let counts = [n as i64, parts.len() as i64];
    let first = put_line(out, 0, &counts);
    let second = put_vertices(out, first, coordinates, n);
    put_tets(out, second, labels, parts)
}

// Puts the text of an accepted file.
fn put_file(out: &mut [u8], file: &[u8], counts: Counts) -> usize
    requires framed { Framed file.now counts.vertices counts.tets × (checked file.now ≡ accepted counts.vertices counts.tets) }
    requires text_room_in_bounds { text_room ≤ length out.old }
    ensures next { result ≡ length (file_text file.now) }
    ensures text { Laid 0 (file_text file.now) out.old out.new }
{
    let mut room = Room::new();
    let Lists {
        coords,
        labels,
        parts,
    } = room.decode(file, counts);
    put_lists(out, coords, labels, parts)
}

// Writes the text of the file to the front of the room: its refusal, or else how long the text is.
pub fn unpack(file: &[u8], room: &mut [u8]) -> Result<usize, Refusal>
    requires { text_room ≤ length room.old }
    ensures answer { result ≡ unpacked file.now }
    ensures room { room.new ≡ room_after (file_text file.now) result room.old }
{
    let counts = mesh::check(file)?;
    Ok(put_file(room, file, counts))
}
