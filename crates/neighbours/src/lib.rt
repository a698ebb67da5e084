// The neighbour table of a mesh, from the vertex numbers of its tetrahedra, written into a lent slice.
#![tactic(auto)]

ghost use Rattle.std.specs.Prelude.{◌≡◌, cond, ◌+◌, ◌<◌, ◌≤◌, length};
ghost use Rattle.tets_around.specs.between.Index.{Labelled};
ghost use Rattle.rooms.specs.between.Rooms.{filled_by, laid_by};
ghost use Rattle.neighbours.specs.Table.{neighbour_row, first_rows, offsets};
ghost use Rattle.neighbours.specs.between.InLabels.{table_in};
ghost use Rattle.neighbours.specs.between.Grown.{Grown, part_of, Few};
ghost use Rattle.neighbours.specs.between.Reading.{row_in, Rowed};
ghost use Rattle.matrix.specs.between.Matrix.{is_joined, Empty};

use matrix::{Matrix, is_blank, is_next, join_all};
use rooms::put_if;
use space::Vertex;
use tets_around::Row;

// ---- rows

// Writes from `from` on those of the k vertices from v on that are next to u; the answer is where the next entry goes.
// Every vertex is written, and counted where it is next to u: a branch would be slower.
// What stands behind the answer is not told.
fn put_part(m: &Matrix, u: Vertex, v: usize, k: usize, rows: &mut [u16], from: usize) -> usize
    requires { ((u.0 < 512) × (v + k ≤ 512)) × (from + length (part_of (is_joined m.now) u.0 v k) < length rows.old) }
    ensures { Grown from result (part_of (is_joined m.now) u.0 v k) rows.old rows.new }
{
    let mut at = from;
    for w in v..v + k {
        rows[at] = w as u16;
        if is_next(m, u, w) {
            at += 1;
        }
    }
    at
}

// The same for 16 vertices at once: most blocks of a row have none.
fn put_block(m: &Matrix, u: Vertex, v: usize, rows: &mut [u16], from: usize) -> usize
    requires { ((u.0 < 512) × (v + 16 ≤ 512)) × (from + length (part_of (is_joined m.now) u.0 v 16) < length rows.old) }
    ensures { Grown from result (part_of (is_joined m.now) u.0 v 16) rows.old rows.new }
{
    if is_blank(m, u, v) {
        from
    } else {
        put_part(m, u, v, 16, rows, from)
    }
}

// Writes one row from `from` on: whole blocks, then the vertices that are left.
fn put_row(m: &Matrix, n: usize, u: Vertex, rows: &mut [u16], from: usize) -> usize
    requires { ((u.0 < 512) × (n ≤ 512)) × (from + length (neighbour_row (is_joined m.now) n u.0) < length rows.old) }
    ensures { Grown from result (neighbour_row (is_joined m.now) n u.0) rows.old rows.new }
{
    let mut at = from;
    for i in 0..n / 16 {
        at = put_block(m, u, 16 * i, rows, at);
    }
    put_part(m, u, n - n % 16, n % 16, rows, at)
}

// Writes all rows, and where each starts; the answer is how many entries they have.
fn put_rows(m: &Matrix, n: usize, starts: &mut [u16], rows: &mut [u16]) -> usize
    requires { ((n ≤ 512) × (n < length starts.old)) × ((24576 < length rows.old) × Few (neighbour_row (is_joined m.now) n)) }
    ensures offsets { Grown 0 (n + 1) (offsets (neighbour_row (is_joined m.now) n) n) starts.old starts.new }
    ensures entries { Grown 0 result (first_rows (neighbour_row (is_joined m.now) n) n) rows.old rows.new }
{
    let mut at = 0;
    for u in 0..n {
        starts[u] = at as u16;
        at = put_row(m, n, Vertex(u as u16), rows, at);
    }
    starts[n] = at as u16;
    at
}

// ---- the table

// How many entries the neighbour table of n vertices has, where the slice has room for it;
// the table is written where it has, if it is wanted.
// It is made in an empty matrix and in rooms for the offsets and the rows.
fn fill_by(
    m: &mut Matrix,
    starts: &mut [u16],
    rows: &mut [u16],
    labels: &[u16],
    n: usize,
    wanted: bool,
    table: &mut [u16],
) -> Option<usize>
    requires n_bound { (n ≤ 512) × (Labelled labels.now n × Empty m.old) }
    requires n_in_bounds { (n < length starts.old) × (24576 < length rows.old) }
    ensures answer { result ≡ filled_by (table_in labels.now n) (length table.old) }
    ensures content { table.new ≡ cond wanted (laid_by (table_in labels.now n) table.old) table.old }
{
    join_all(m, labels);
    let e = put_rows(m, n, starts, rows);
    put_if(&starts[..n + 1], &rows[..e], wanted, table)
}

// How many entries the neighbour table of n vertices has, where the slice has room for it;
// the table is written where it has, if it is wanted.
// It is made in local room, since the slice must stay as it is where it is too short.
// A row's writing needs one entry more than it fills.
pub fn fill_if(labels: &[u16], n: usize, wanted: bool, table: &mut [u16]) -> Option<usize>
    requires { (n ≤ 512) × Labelled labels.now n }
    ensures answer { result ≡ filled_by (table_in labels.now n) (length table.old) }
    ensures content { table.new ≡ cond wanted (laid_by (table_in labels.now n) table.old) table.old }
{
    let mut m = [0u8; 262144];
    let mut starts = [0u16; 513];
    let mut rows = [0u16; 24577];
    fill_by(&mut m, &mut starts, &mut rows, labels, n, wanted, table)
}

// ---- reading a table

// The row of a vertex: its neighbours, rising. It is empty where there is no such vertex.
pub fn neighbour_row(n: usize, table: &[u16], v: Vertex) -> Row
    requires { Rowed n table.now }
    ensures { result ≡ row_in n table.now v.0 }
{
    let u = usize::from(v.0);
    if u < n {
        let start = usize::from(table[u]);
        let end = usize::from(table[u + 1]);
        Row {
            from: n + 1 + start,
            size: end - start,
        }
    } else {
        Row { from: 0, size: 0 }
    }
}
