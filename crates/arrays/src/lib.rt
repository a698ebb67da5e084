// A mesh file read into the arrays of a room, with its index, and refusals 1 to 9 on the way: for everyone who
// asks about a file's tetrahedra or cells. The tests stand in the order of the list `refusals`.
#![tactic(auto)]

ghost use Rattle.std.specs.Prelude.{◌≡◌, ◌+◌, ◌*◌, ◌≤◌, ◌<◌, length, take, OnOk, ⊤};
ghost use mathlib.Core.Option.{none};
ghost use Rattle.std.specs.Borrow.{follows_so, sem};
ghost use Rattle.base.specs.Refusals.{first_of};
ghost use Rattle.space.specs.between.Working.{Close};
ghost use Rattle.layout.specs.Layout.{coords_of, labels_of, parts_of};
ghost use Rattle.layout.specs.between.Framed.{Framed};
ghost use Rattle.refusals.specs.Named.{number_in};
ghost use Rattle.arrays.specs.contracts.Room.{the_row};
ghost use Rattle.arrays.specs.Refusals.{of_numbers, of_tets, refusal, accepted};
ghost use Rattle.arrays.specs.between.Headed.{headed};
ghost use Rattle.arrays.specs.between.Loaded.{Empty, Holds, Ready, Loaded};

use decoding::{all_near, decode};
use facet_pairs::{PAIR_PLACES, Pairs, put_all};
use facets::{any_crowded, any_folded};
use layout::{counts_right, layout_right, length_right, u32_at};
use refusals::Refusal;
use tets::{any_flat, any_outside, any_twice};
use tets_around::{Index, Mesh, index};

// The counts of a file that is not refused.
#[derive(Clone, Copy, PartialEq, Eq, Debug)]
pub struct Counts {
    pub vertices: usize,
    pub tets: usize,
}

// The header's answer: refusals 1 to 3, else the counts.
pub fn header(file: &[u8]) -> Result<Counts, Refusal>
    ensures { result ≡ headed file.now }
{
    if !length_right(file) {
        return Err(Refusal::Length);
    }
    if !counts_right(file) {
        return Err(Refusal::Counts);
    }
    if !layout_right(file) {
        return Err(Refusal::Layout);
    }
    Ok(Counts {
        vertices: u32_at(file, 0) as usize,
        tets: u32_at(file, 8) as usize,
    })
}

// Refusals 4 to 6.
pub fn misread(coords: &[i64], labels: &[u16]) -> Result<(), Refusal>
    requires { length labels.now ≤ 8192 }
    ensures { number_in result ≡ first_of (of_numbers coords.now labels.now) }
{
    if !all_near(coords) {
        return Err(Refusal::OutOfBounds);
    }
    if any_outside(coords.len() / 3, labels) {
        return Err(Refusal::NoVertex);
    }
    if any_twice(labels) {
        return Err(Refusal::VertexTwice);
    }
    Ok(())
}

// Refusals 7 to 9, of a mesh that is indexed.
fn misplaced(coords: &[i64], ix: &Index<'_>) -> Result<(), Refusal>
    requires { Close coords.now }
    ensures { number_in result ≡ first_of (of_tets coords.now ix.now.labels.now) }
{
    if any_flat(coords, ix.labels) {
        return Err(Refusal::Flat);
    }
    let mut pairs: Pairs = [0; 2 * PAIR_PLACES];
    put_all(ix.labels, &mut pairs);
    if any_crowded(ix, &pairs) {
        return Err(Refusal::Crowded);
    }
    if any_folded(coords, ix, &pairs) {
        return Err(Refusal::Folded);
    }
    Ok(())
}

// ---- a file's mesh in arrays

// Reads a file with a sound header into the lent arrays and indexes it: the file's refusal, if one applies.
fn read(
    file: &[u8],
    counts: Counts,
    coords: &mut [i64],
    labels: &mut [u16],
    parts: &mut [u16],
    offsets: &mut [u16],
    entries: &mut [u16],
) -> Result<(), Refusal>
    requires headed { headed file.now ≡ accepted counts.vertices counts.tets }
    requires coords_len { (3 * counts.vertices ≤ length coords.old) × ((4 * counts.tets ≤ length labels.old) × (counts.tets ≤ length parts.old)) }
    requires n_in_bounds { (counts.vertices < length offsets.old) × (4 * counts.tets ≤ length entries.old) }
    ensures told { number_in result ≡ refusal file.now }
    ensures held { Holds file.now counts coords.new labels.new parts.new }
    ensures arrays { OnOk result (Ready counts coords.new labels.new parts.new offsets.new entries.new) }
{
    let Counts { vertices, tets } = counts;
    let coords = &mut coords[..3 * vertices];
    let labels = &mut labels[..4 * tets];
    let parts = &mut parts[..tets];
    let offsets = &mut offsets[..vertices + 1];
    let entries = &mut entries[..4 * tets];
    decode(file, vertices, tets, coords, labels, parts);
    misread(coords, labels)?;
    index(labels, vertices, offsets, entries);
    let index = Index {
        labels,
        n: vertices,
        offsets,
        entries,
    };
    misplaced(coords, &index)
}

// Room for the arrays of any mesh file: its coordinates, labels and parts, and where the rows of the index start, and
// the rows.
#[derive(Drop)]
pub struct Room {
    coords: [i64; 1536],
    labels: [u16; 8192],
    parts: [u16; 2048],
    offsets: [u16; 513],
    entries: [u16; 8192],
}

// The lists of a file.
#[derive(Clone, Copy)]
pub struct Lists<'a> {
    pub coords: &'a [i64],
    pub labels: &'a [u16],
    pub parts: &'a [u16],
}

impl Room {
    #[inline(always)]
    pub fn new() -> Room
        ensures { Empty result.coords result.labels result.parts result.offsets result.entries }
    {
        Room {
            coords: [0; 1536],
            labels: [0; 8192],
            parts: [0; 2048],
            offsets: [0; 513],
            entries: [0; 8192],
        }
    }

    // The lists of a file with a sound header.
    pub fn decode(&mut self, file: &[u8], counts: Counts) -> Lists<'_>
        requires { Framed file.now counts.vertices counts.tets }
        ensures coordinates { result.coords.now ≡ coords_of file.now }
        ensures numbers { result.labels.now ≡ labels_of file.now }
        ensures partition { result.parts.now ≡ parts_of file.now }
        ensures long { (length result.coords.now ≡ 3 * counts.vertices) × ((length result.labels.now ≡ 4 * counts.tets) × (length result.parts.now ≡ counts.tets)) }
    {
        let Counts { vertices, tets } = counts;
        let Room {
            coords,
            labels,
            parts,
            offsets: _,
            entries: _,
        } = self;
        let coords = &mut coords[..3 * vertices];
        let labels = &mut labels[..4 * tets];
        let parts = &mut parts[..tets];
        decode(file, vertices, tets, coords, labels, parts);
        Lists {
            coords,
            labels,
            parts,
        }
    }

    // `read` into the arrays of the room.
    fn fill(&mut self, file: &[u8], counts: Counts) -> Result<(), Refusal>
        requires { headed file.now ≡ accepted counts.vertices counts.tets }
        ensures told { number_in result ≡ refusal file.now }
        ensures held { Holds file.now counts self.new.coords self.new.labels self.new.parts }
        ensures arrays { OnOk result (Ready counts self.new.coords self.new.labels self.new.parts self.new.offsets self.new.entries) }
    {
        let Room {
            coords,
            labels,
            parts,
            offsets,
            entries,
        } = self;
        read(file, counts, coords, labels, parts, offsets, entries)
    }

    // The mesh that was read.
    fn mesh(&self, counts: Counts) -> Mesh<'_>
        requires within { (counts.vertices ≤ 512) × (counts.tets ≤ 2048) }
        requires arrays { Ready counts self.now.coords self.now.labels self.now.parts self.now.offsets self.now.entries }
        ensures coordinates { result.coords.now ≡ take (3 * counts.vertices) self.now.coords }
        ensures numbers { result.index.labels.now ≡ take (4 * counts.tets) self.now.labels }
        ensures partition { result.parts.now ≡ take counts.tets self.now.parts }
        ensures count { result.index.n ≡ counts.vertices }
        ensures starts { result.index.offsets.now ≡ take (counts.vertices + 1) self.now.offsets }
        ensures rows { result.index.entries.now ≡ take (4 * counts.tets) self.now.entries }
        ensures long { (length result.index.offsets.now ≡ counts.vertices + 1) × (length result.index.entries.now ≡ length result.index.labels.now) }
    {
        let index = Index {
            labels: &self.labels[..4 * counts.tets],
            n: counts.vertices,
            offsets: &self.offsets[..counts.vertices + 1],
            entries: &self.entries[..4 * counts.tets],
        };
        Mesh {
            coords: &self.coords[..3 * counts.vertices],
            parts: &self.parts[..counts.tets],
            index,
        }
    }

    // Reads a file with a sound header and indexes it: the file's refusal, or its mesh. Beside a refusal the room holds
    // the file's lists.
    pub fn load(&mut self, file: &[u8], counts: Counts) -> Result<Mesh<'_>, Refusal>
        requires { headed file.now ≡ accepted counts.vertices counts.tets }
        ensures* kept { sem 𝓛 (follows_so the_row the_row self.entry.ghost_name none (λ _ _. ⊤) (λ n. Holds file.now counts n.coords n.labels n.parts)) }
        ensures loaded { Loaded file.now counts.vertices result }
    {
        self.fill(file, counts)?;
        Ok(self.mesh(counts))
    }
}
