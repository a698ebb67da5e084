// The job `unpack`: the lists of a mesh file, printed on standard output as the text that `pack` takes. Which text a
// file has is the promise of `unpacking::unpack`; here stands only the writing.
//
// Where the file is refused, nothing is written there, and `refused` with the number on standard error says so; `lost`,
// where the text could not be written.
#![tactic(auto)]

ghost use Rattle.std.specs.Prelude.{IsTrue};
ghost use Rattle.std.specs.Io.KnownBytes.{Appends};
ghost use Rattle.unpacking.specs.Unpacked.{file_text};

use output::{TEXT, show_front, tell_refused};
use std::io::Write;

// The job, of the file that was read, with a text in which that of every file has place. Answers whether the file's text
// was written. What it takes stands on the stack for it alone.
#[inline(never)]
pub fn unpack<W: Write, E: Write>(
    to: &mut W,
    err: &mut E,
    out: &mut [u8; TEXT],
    file: &[u8],
) -> bool
    ensures { IsTrue result → Appends (W.contents to.old) (W.contents to.new) (file_text file.now) }
{
    let answer = unpacking::unpack(file, out);
    match answer {
        Ok(size) => show_front(to, err, out, size),
        Err(refusal) => {
            tell_refused(err, out, u8::from(refusal));
            false
        }
    }
}
