// What stands on standard input, or what another reader gives: all of it into a lent room, and lists from its text, piece
// by piece. What a text says is the promise of `reading_lists`.
#![tactic(auto)]

ghost use Rattle.std.specs.Prelude.{◌≡◌, ◌≤◌, List, ℕ, length, take};
ghost use Rattle.std.specs.Io.KnownBytes.{Consumes};
ghost use Rattle.reading_words.specs.declared.Reader.{Reader};
ghost use Rattle.reading_words.specs.Steps.{begun};
ghost use Rattle.reading_lists.specs.Reading.{reading, read_text, said_by};

use reading_lists::{Sizes, Wrong, begin, feed, finish};
use std::io::Read;

// Reads to the start of a room, and answers how many bytes; none where the input has ended or the read fails.
fn read_some<R: Read>(from: &mut R, room: &mut [u8]) -> usize
    ensures size { result ≤ length room.new }
    ensures bytes { Consumes (R.remaining from.old) (R.remaining from.new) (take result room.new) }
{
    from.read(room).unwrap_or(0)
}

// Reads until a room is full, the input ends or a read fails, and answers how many bytes stand at its start.
// A read gives as many bytes as it likes, so the loop goes on from where the last one ended.
pub fn read_full<R: Read>(from: &mut R, room: &mut [u8]) -> usize
    ensures size { (result ≤ length room.new) × (result ≡ length (take result room.new)) }
    ensures bytes { Consumes (R.remaining from.old) (R.remaining from.new) (take result room.new) }
{
    let mut done = 0;
    while done < room.len() {
        let n = read_some(from, &mut room[done..]);
        if n == 0 {
            return done;
        }
        done += n;
    }
    done
}

// Reads all of the text, to the input's end or a read that fails, and answers what it says. A loop has to end, so its
// turns are a number that no run uses up.
pub fn read_text<R: Read>(
    from: &mut R,
    text: &mut [u8],
    coordinates: &mut [i32],
    numbers: &mut [u16],
    parts: &mut [u16],
) -> Result<Sizes, Wrong>
    ensures { (x : List ℕ) × (r : Reader)
        × Consumes (R.remaining from.old) (R.remaining from.new) x
        × (reading r coordinates.new numbers.new parts.new
        ≡ read_text x (reading begun coordinates.old numbers.old parts.old))
        × (result ≡ said_by r) }
{
    let mut r = begin();
    for _ in 0..u64::MAX {
        let k = read_full(from, text);
        r = feed(r, &text[..k], coordinates, numbers, parts);
        if k < text.len() {
            break;
        }
    }
    // A last word may stand without a line end.
    r = feed(r, b"\n", coordinates, numbers, parts);
    finish(r)
}
