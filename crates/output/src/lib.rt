// Lines written to a writer, as standard output and standard error are. A line is put into a lent text first.
#![tactic(auto)]

ghost use Rattle.std.specs.Prelude.{◌+◌, ◌≤◌, ◌≡◌, IsTrue, OnOk, IfOk, List, ℕ, [], ◌∷◌, ◌++◌, length, take};
ghost use Rattle.std.specs.Io.KnownBytes.{Appends};
ghost use Rattle.lines.specs.Text.{spaced, numbers};

use lines::{put_number, put_numbers, put_text};
use std::io::{self, Write};

// How long a text is.
pub const TEXT: usize = 65536;

// Where a text has no room for a line more.
const FULL: usize = 64000;

// What was to be written is lost.
#[derive(Clone, Copy, Debug, PartialEq, Eq)]
pub struct Lost;

impl From<io::Error> for Lost {
    fn from(_e: io::Error) -> Lost {
        Lost
    }
}

// Writes the first `at` bytes of a text.
pub fn show<W: Write>(to: &mut W, out: &[u8], at: usize) -> Result<(), Lost>
    requires { at ≤ length out.now }
    ensures { OnOk result (Appends (W.contents to.old) (W.contents to.new) (take at out.now)) }
{
    to.write_all(&out[..at])?;
    Ok(())
}

// Writes a line of a word and a number.
pub fn show_number<W: Write>(
    to: &mut W,
    out: &mut [u8; TEXT],
    word: &[u8],
    x: u64,
) -> Result<(), Lost>
    requires { length word.now ≤ 10 }
    ensures { OnOk result (Appends (W.contents to.old) (W.contents to.new) (word.now ++ spaced x ++ 10 ∷ [])) }
{
    let a = put_text(out, 0, word);
    let b = put_number(out, a, x);
    let c = put_text(out, b, b"\n");
    show(to, out, c)
}

// Writes a line of a word and some numbers.
pub fn show_numbers<W: Write>(
    to: &mut W,
    out: &mut [u8; TEXT],
    word: &[u8],
    list: &[u16],
) -> Result<(), Lost>
    requires { (length word.now ≤ 10) × (length list.now ≤ 10) }
    ensures { OnOk result (Appends (W.contents to.old) (W.contents to.new) (word.now ++ numbers list.now ++ 10 ∷ [])) }
{
    let a = put_text(out, 0, word);
    let b = put_numbers(out, a, list);
    let c = put_text(out, b, b"\n");
    show(to, out, c)
}

// Writes the text where it has no room for a line more, and answers where the next goes.
pub fn flushed<W: Write>(to: &mut W, out: &[u8; TEXT], at: usize) -> Result<usize, Lost>
    requires { at ≤ 65536 }
    ensures { IfOk result (λ next. (next ≤ 64000) × (w : List ℕ)
        × Appends (W.contents to.old) (W.contents to.new) w
        × (w ++ take next out.now ≡ take at out.now)) }
{
    if at <= FULL {
        return Ok(at);
    }
    show(to, out, at)?;
    Ok(0)
}

// ---- a job's answer; on standard error, why there is none

// That it was refused, with this number. Where that is lost too, nothing is left to tell.
pub fn tell_refused<W: Write>(err: &mut W, out: &mut [u8; TEXT], number: u8) {
    let _ = show_number(err, out, b"refused", u64::from(number));
}

// That it could not be written.
pub fn tell_lost<W: Write>(err: &mut W) {
    let _ = err.write_all(b"lost\n");
}

// Writes the first bytes of a room, or tells that they are lost; answers whether they were written.
pub fn show_front<W: Write, E: Write>(to: &mut W, err: &mut E, room: &[u8], size: usize) -> bool
    ensures { IsTrue result → Appends (W.contents to.old) (W.contents to.new) (take size room.now) }
{
    if size <= room.len() && show(to, room, size).is_ok() {
        return true;
    }
    tell_lost(err);
    false
}

// Puts two numbers, each with a space before it.
fn put_two(out: &mut [u8; TEXT], at: usize, x: u64, y: u64) -> usize
    requires { at ≤ 60000 }
    ensures { result ≤ at + 42 }
{
    let a = put_number(out, at, x);
    put_number(out, a, y)
}

// That a text is no lists: its fault, the line, how many numbers stand before it and how many are wanted.
pub fn tell_wrong<W: Write>(
    err: &mut W,
    out: &mut [u8; TEXT],
    fault: u8,
    line: u64,
    before: u64,
    wanted: u64,
) {
    let a = put_text(out, 0, b"wrong");
    let b = put_two(out, a, u64::from(fault), line);
    let c = put_two(out, b, before, wanted);
    let d = put_text(out, c, b"\n");
    let _ = show(err, out, d);
}
