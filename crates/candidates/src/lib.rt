// The next candidate at a place: the first vertex that stands in the rows of two corners joined to it and with which
// the tuple passes there.
// x is the row of a place in the tables of the levels.
#![tactic(auto)]

ghost use Rattle.std.specs.Prelude.{◌≡◌, ◌⊎◌, ◌&&◌, ◌<◌, eqb, length};
ghost use Rattle.space.specs.between.Working.{Close};
ghost use Rattle.levels.specs.between.Passing.{Placed, passes_with};
ghost use Rattle.candidates.specs.between.Met.{Rises, Entered, Raised, Served, Met, MetIn};

use facet_hints::Hints;
use levels::{Place, also_of, lesser_of, passes_with, third_of, wide};
use reaching::fewer;
use space::Vertex;
use tets_around::Row;

// A row longer than this is not gone through beside another. That is a matter of speed alone.
const LONG: usize = 96;

// No vertex: a number above all of them, as the search asks no more than whether it is below the count.
const NONE: usize = 65536;

// A place of a tuple, with the coordinates that its test reads.
#[derive(Clone, Copy)]
pub struct Spot<'a> {
    pub coords: &'a [i64],
    pub place: Place,
    pub ghost close: { Close coords.now },
    pub ghost placed: { Placed place },
    pub ghost within: { place.at < length place.tuple },
}

// Two rows that have every vertex which can come at a place.
#[derive(Clone, Copy)]
pub struct TwoRows {
    pub one: Row,
    pub two: Row,
}

// ---- what stands in two rows

// The two are one vertex with which the tuple passes.
fn agree(spot: &Spot, hints: &Hints, v: Vertex, w: Vertex) -> bool
    ensures { result ≡ (eqb v.0 w.0 && passes_with spot.now.coords.now hints.now spot.now.place v.0) }
{
    v.0 == w.0 && passes_with(spot.coords, hints, spot.place, v)
}

// Where the entries from lo on begin in a row, by halving.
fn enter(row: &[u16], lo: usize) -> usize
    requires { Rises row.now }
    ensures { Entered row.now lo result }
{
    let mut low = 0;
    let mut high = row.len();
    while low < high {
        let mid = low + (high - low) / 2;
        if wide(row[mid]) < lo {
            low = mid + 1;
        } else {
            high = mid;
        }
    }
    low
}

// The first vertex from lo on that stands in both rows and with which the tuple passes, or none. Of two places i and j
// each round moves one, so they are counted by hand.
fn meet(spot: &Spot, hints: &Hints, one: &[u16], two: &[u16], lo: usize) -> usize
    requires { Rises one.now × Rises two.now }
    ensures { Met (passes_with spot.now.coords.now hints.now spot.now.place) one.now two.now lo result }
{
    let mut i = enter(one, lo);
    let mut j = enter(two, lo);
    while i < one.len() {
        if two.len() <= j {
            return NONE;
        }
        let v = one[i];
        let w = two[j];
        if w < v {
            j += 1;
        } else if agree(spot, hints, Vertex(v), Vertex(w)) {
            return wide(v);
        } else {
            i += 1;
        }
    }
    NONE
}

// The same for two rows of the table.
pub fn meet_rows(spot: &Spot, hints: &Hints, table: &[u16], rows: TwoRows, lo: usize) -> usize
    requires { Served table.now rows.one × Served table.now rows.two }
    ensures { MetIn (passes_with spot.now.coords.now hints.now spot.now.place) table.now rows lo result }
{
    let one = rows.one;
    let two = rows.two;
    let from = one.from;
    let end = from + one.size;
    let low = two.from;
    let high = low + two.size;
    meet(spot, hints, &table[from..end], &table[low..high], lo)
}

// ---- which rows, and from where on

// The row of the first joined corner, or, where three corners are joined to the place,
// the one of the first two with fewer neighbours.
pub fn nearer(x: usize, r: Row, q: Row) -> Row
    requires { x < 19 }
    ensures { (result ≡ r) ⊎ (result ≡ q) }
{
    if also_of(x) == third_of(x) {
        r
    } else {
        fewer(r, q)
    }
}

// The other one of two rows, unless it is so long that going through it costs more than it tells.
pub fn partner(r: Row, q: Row) -> Row
    ensures { (result ≡ r) ⊎ (result ≡ q) }
{
    if LONG < r.size {
        return q;
    }
    if LONG < q.size {
        return r;
    }
    if q.size < r.size { r } else { q }
}

// lo, or the first vertex above those that the place must be above.
pub fn rise(place: Place, lo: usize) -> usize
    requires { Placed place }
    ensures { Raised place.tuple place.row lo result }
{
    let k = lesser_of(place.row);
    if k == 0 {
        return lo;
    }
    lo.max(wide(place.tuple[k - 1]) + 1)
}
