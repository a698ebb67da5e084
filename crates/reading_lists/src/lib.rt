// Lists of a mesh read from plain text, byte by byte: a text of any length takes no room of its own. What is read goes
// into lists that the caller lends; what has no place there is left out.
#![tactic(auto)]

ghost use Rattle.std.specs.Prelude.{◌≡◌, ◌≤◌, set, None};
ghost use Rattle.reading_words.specs.declared.Spot.TheVariants.{Coordinate};
ghost use Rattle.reading_words.specs.Steps.{spot_of, most, word_fault, begun};
ghost use Rattle.reading_lists.specs.Reading.{number_of, coords_with, labels_with, parts_with, reading, read1, read_all, said_by};

use reading_words::{Fault, Form, Reader, Spot, ends_number, next, spot_of, wanted};

// A text says lists of n vertices and t tetrahedra.
#[derive(Clone, Copy, PartialEq, Eq, Debug)]
pub struct Sizes {
    pub n: u32,
    pub t: u32,
}

// Or it is wrong: its fault, the line, how many numbers stand before it, and how many are wanted.
#[derive(Clone, Copy, PartialEq, Eq, Debug)]
pub struct Wrong {
    pub fault: Fault,
    pub line: u64,
    pub before: u64,
    pub wanted: u64,
}

// ---- the lists

// By an index, and not by `get_mut`, of which no contract says what the list is behind it.
fn put_at<T: Copy>(list: &mut [T], k: u64, x: T)
    ensures { list.new ≡ set list.old k x }
{
    let at = k as usize;
    if at < list.len() {
        list[at] = x;
    }
}

// The number of a word that fits a coordinate.
fn number_of(r: Reader) -> i32
    requires { r.size ≤ most (Coordinate 0) r.minus }
    ensures { result ≡ number_of r }
{
    let size = r.size as i64;
    if r.minus { -size as i32 } else { size as i32 }
}

// Puts the word's number into its list.
#[tactic(auto, using(crate::proofs::Bounds::coordinate_size, crate::proofs::Bounds::label_size, crate::proofs::Bounds::part_size))]
fn keep(r: Reader, coordinates: &mut [i32], labels: &mut [u16], parts: &mut [u16])
    requires { word_fault r ≡ None }
    ensures coordinates_after { coordinates.new ≡ coords_with (spot_of r) (number_of r) coordinates.old }
    ensures labels_after { labels.new ≡ labels_with (spot_of r) r.size labels.old }
    ensures parts_after { parts.new ≡ parts_with (spot_of r) r.size parts.old }
{
    match spot_of(r) {
        Spot::Coordinate(k) => put_at(coordinates, k, number_of(r)),
        Spot::Label(k) => put_at(labels, k, r.size as u16),
        Spot::Part(k) => put_at(parts, k, r.size as u16),
        Spot::Count | Spot::Beyond => {}
    }
}

// Reads a byte.
#[tactic(auto, using(reading_words::proofs::Faults::ends_right), unfolding(crate::specs::Reading::read1))]
fn read1(r: Reader, b: u8, coordinates: &mut [i32], labels: &mut [u16], parts: &mut [u16]) -> Reader
    ensures { reading result coordinates.new labels.new parts.new
        ≡ read1 b (reading r coordinates.old labels.old parts.old) }
{
    let s = next(r, b);
    if ends_number(r, b) {
        keep(r, coordinates, labels, parts);
    }
    s
}

// ---- a text, in pieces

// At the beginning of a text.
pub fn begin() -> Reader
    ensures { result ≡ begun }
{
    Reader {
        line: 1,
        comment: false,
        form: Form::Empty,
        minus: false,
        size: 0,
        count: 0,
        n: 0,
        t: 0,
        fault: None,
    }
}

// Reads a piece of a text behind what was read, and puts its numbers into the lists.
// The lists stand beside each other: lent in a struct, no clause says of a caller's lists what they end as.
pub fn feed(
    r: Reader,
    chunk: &[u8],
    coordinates: &mut [i32],
    labels: &mut [u16],
    parts: &mut [u16],
) -> Reader
    ensures { reading result coordinates.new labels.new parts.new
        ≡ read_all chunk.now (reading r coordinates.old labels.old parts.old) }
{
    let mut s = r;
    for b in chunk {
        s = read1(s, *b, coordinates, labels, parts);
    }
    s
}

// What the text says, behind its last line end.
#[tactic(auto, unfolding(crate::specs::Reading::said_by))]
pub fn finish(r: Reader) -> Result<Sizes, Wrong>
    ensures { result ≡ said_by r }
{
    let all = wanted(r);
    let missing = if r.count < all {
        Some(Fault::TooFew)
    } else {
        None
    };
    match r.fault.or(missing) {
        None => Ok(Sizes { n: r.n, t: r.t }),
        Some(fault) => Err(Wrong {
            fault,
            line: r.line,
            before: r.count,
            wanted: all,
        }),
    }
}
