// The job `why`: what is found of a tuple in a mesh file, printed on standard output as lines of numbers, which
// ./combine turns into words:
//   why ..       the ten entries of the answer, the promise of `why::explain`
//   seen ..      ten numbers: how many vertices the mesh has; how many corners the edge, the face or the corner triple
//                has that is told, and their places, four; then four: of how many tetrahedra its triangles are facets,
//                of the mesh's (condition 3) or of the cell's (5), those of its one diagonal and then of its other; of
//                another triple that is told (5) the same, in the first; for 6 two tetrahedra, each with its part
//   box K        the box at the corner that is told is -K (4)
//
// Where the file or the kind is refused, nothing is written there, and `refused` with the number on standard error says
// so; `lost`, where a line could not be written.
#![tactic(auto)]

use arrays::Counts;
use looking::{Asked, Seen, look};
use output::{Lost, TEXT, show_number, show_numbers, tell_lost, tell_refused};
use std::io::Write;

fn show_seen(to: &mut impl Write, out: &mut [u8; TEXT], s: Seen) -> Result<(), Lost> {
    let Seen { line, box_size } = s;
    show_numbers(to, out, b"seen", &line)?;
    show_number(to, out, b"box", box_size)
}

fn show_found(
    to: &mut impl Write,
    out: &mut [u8; TEXT],
    file: &[u8],
    asked: Asked,
) -> Result<(), Lost> {
    match arrays::header(file) {
        Ok(Counts { vertices, tets }) => show_seen(to, out, look(file, vertices, tets, asked)),
        Err(_) => Err(Lost),
    }
}

fn show_answer(
    to: &mut impl Write,
    out: &mut [u8; TEXT],
    file: &[u8],
    asked: Asked,
) -> Result<(), Lost> {
    let mut answer = [0; 10];
    findings::hand_out(asked.found, &mut answer);
    show_numbers(to, out, b"why", &answer)?;
    show_found(to, out, file, asked)
}

// The job, of the file that was read, for a kind and eight numbers. What it takes stands on the stack for it alone.
#[inline(never)]
pub fn tell(
    to: &mut impl Write,
    err: &mut impl Write,
    out: &mut [u8; TEXT],
    file: &[u8],
    kind: u16,
    tuple: [u16; 8],
) {
    match why::explain(file, kind, &tuple) {
        Err(refusal) => tell_refused(err, out, u8::from(refusal)),
        Ok(found) => {
            let asked = Asked {
                kind,
                tuple,
                found: Ok(found),
            };
            if show_answer(to, out, file, asked).is_err() {
                tell_lost(err);
            }
        }
    }
}
