// The job `pack`: lists as plain text on standard input to a mesh file on standard output. What a text says is the
// promise of `reading_lists`, and which file lists make that of `packing_front::write_front`; here stand only the
// reading and the writing, for any reader and any two writers.
//
// Where there is no file, nothing is written there, and a line on standard error says why: `refused` with its number,
// or `wrong` with a text's fault, its line, how many numbers stand before it and how many are wanted; or `lost`, where
// the file could not be written.
#![tactic(auto)]

ghost use Rattle.packing_front.specs.between.Roomy.{Roomy};

use output::{TEXT, show_front, tell_refused, tell_wrong};
use packing_front::{COORDINATES, NUMBERS, TETS};
use reading_lists::Sizes;
use std::io::{Read, Write};

// ---- the lists, and their file

// What was read of the lists: of each its front.
#[derive(Clone, Copy)]
struct Fronts<'a> {
    coordinates: &'a [i32],
    numbers: &'a [u16],
    parts: &'a [u16],
    ghost roomy: { Roomy coordinates.now numbers.now parts.now },
}

// Packs lists of these sizes into the room and writes the file.
fn show_packed(
    to: &mut impl Write,
    err: &mut impl Write,
    out: &mut [u8; TEXT],
    lists: Fronts,
    sizes: Sizes,
    room: &mut [u8],
) {
    let answer = packing_front::write_front(
        lists.coordinates,
        lists.numbers,
        lists.parts,
        sizes.n,
        sizes.t,
        room,
    );
    match answer {
        Ok(size) => {
            show_front(to, err, room, size);
        }
        Err(refusal) => tell_refused(err, out, u8::from(refusal)),
    }
}

// The job, with a text to read pieces of the input to and room for the file. Its rooms stand on the stack for it alone.
#[inline(never)]
pub fn pack(
    from: &mut impl Read,
    to: &mut impl Write,
    err: &mut impl Write,
    out: &mut [u8; TEXT],
    room: &mut [u8],
) {
    let mut coordinates = [0; COORDINATES];
    let mut numbers = [0; NUMBERS];
    let mut parts = [0; TETS];
    match input::read_text(from, out, &mut coordinates, &mut numbers, &mut parts) {
        Ok(sizes) => {
            let lists = Fronts {
                coordinates: &coordinates,
                numbers: &numbers,
                parts: &parts,
            };
            show_packed(to, err, out, lists, sizes, room)
        }
        Err(w) => tell_wrong(err, out, w.fault.into(), w.line, w.before, w.wanted),
    }
}
