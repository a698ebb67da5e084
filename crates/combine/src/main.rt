// The program: does what its words ask for with what stands on standard input.
//
// With no word: the cells of a mesh. A line `mesh` with the counts, a line for each cell, and `end` with their number.
// With ten, which are a mark (a kind and eight numbers) and how many cells there is room for: the cells after the mark,
// at most that many, and then `end` with how many those were, where none remain, or `mark` with the mark to go on from.
// A refusal is `refused` with its number.
// With `pack` or `unpack`: lists to a mesh file, or back (`pack_job`, `unpack_job`).
// With `why`, a kind and eight numbers: why that tuple is not a cell (`why_job`).
//
// What is listed is the promise of `listing::portion`, and what a line says that of `lines`; here stand only the calls
// and the writing, for any reader, writers and arguments. A write that fails ends a listing at once, so that no last
// line follows a cell that was lost.
#![tactic(auto)]

ghost use Rattle.std.specs.Prelude.{◌/◌, ◌≤◌, OnOk, length};
ghost use Rattle.record.specs.Entries.{record_size};
ghost use Rattle.std.specs.Io.KnownBytes.{Appends};
ghost use Rattle.combine.specs.Listed.{cell_lines};

use arrays::Counts;
use input::read_full;
use output::{Lost, TEXT, flushed, show, show_number, show_numbers};
use record::{Mark, SIZE, mark_of, numbers_of};
use records::{Given, Refused};
use refusals::Refusal;
use std::env::{Env, FillError};
use std::io::{Read, Write};
use std::str;

// How many cells go into one call at most, and the entries of their records.
const BATCH: usize = 4096;

const ROOM: usize = BATCH * SIZE;

// Room for the longest file and one byte more.
const FILE: usize = 26649;

// ---- what is asked for

// A job, with what its words say: a tuple for `why`; a mark, and how many cells there is room for.
#[derive(Clone, Copy, Debug, PartialEq, Eq)]
enum Job {
    Pack,
    Unpack,
    Why([u16; 9]),
    List(Listing),
}

// Where a listing stands: the mark to go on from, how many cells are done, and for how many there is room.
#[derive(Clone, Copy, Debug, PartialEq, Eq)]
struct Listing {
    mark: Mark,
    done: u64,
    room: u64,
}

// ---- writing

// Writes the first line: how many vertices and tetrahedra.
fn show_mesh(to: &mut impl Write, out: &mut [u8; TEXT], file: &[u8]) -> Result<(), Lost> {
    match arrays::header(file) {
        Ok(Counts { vertices, tets }) => {
            let counts = [(vertices % 65536) as u16, (tets % 65536) as u16];
            show_numbers(to, out, b"mesh", &counts)
        }
        Err(_) => Err(Lost),
    }
}

fn show_mark(to: &mut impl Write, out: &mut [u8; TEXT], m: Mark) -> Result<(), Lost> {
    let numbers = numbers_of(m);
    show_numbers(to, out, b"mark", &numbers)
}

// Writes the lines of the first `count` records. By their places: the edit `cells_twice` turns one.
fn show_cells<W: Write>(
    to: &mut W,
    out: &mut [u8; TEXT],
    records: &[u16],
    count: usize,
) -> Result<(), Lost>
    requires { count ≤ length records.now / record_size }
    ensures { OnOk result (Appends (W.contents to.old) (W.contents to.new) (cell_lines records.now count)) }
{
    let mut at = 0;
    for i in 0..count {
        let next = flushed(to, out, at)?;
        let from = SIZE * i;
        let end = from + SIZE;
        at = lines::put_cell(out, next, &records[from..end]);
    }
    show(to, out, at)
}

// ---- the listing

// Writes what a call gave: the first line before the first cell, the cells, and at the end the last line. Where the
// listing stands then, if another call is left to do. A last line that is lost ends the listing as one that is not.
fn show_answer(
    to: &mut impl Write,
    out: &mut [u8; TEXT],
    file: &[u8],
    records: &[u16],
    at: Listing,
    answer: Result<Given, Refused>,
) -> Option<Listing> {
    match answer {
        Err(Refused { refusal, written }) => {
            if refusal == Refusal::CellTooLong {
                given(to, out, file, records, at.done, written).ok()?;
            }
            let _ = show_number(to, out, b"refused", u64::from(u8::from(refusal)));
            None
        }
        Ok(
            Given {
                count,
                none_remain,
                mark,
            },
        ) => {
            given(to, out, file, records, at.done, count).ok()?;
            let next = Listing {
                mark,
                done: after(at.done, count),
                room: at.room,
            };
            closed(to, out, next, none_remain)
        }
    }
}

// The first line, where this is the first call, and the cells.
fn given(
    to: &mut impl Write,
    out: &mut [u8; TEXT],
    file: &[u8],
    records: &[u16],
    before: u64,
    count: usize,
) -> Result<(), Lost> {
    if before == 0 {
        show_mesh(to, out, file)?;
    }
    show_given(to, out, records, count)
}

// The cells, where the room holds as many as the call says.
fn show_given<W: Write>(
    to: &mut W,
    out: &mut [u8; TEXT],
    records: &[u16],
    count: usize,
) -> Result<(), Lost>
    ensures { OnOk result (Appends (W.contents to.old) (W.contents to.new) (cell_lines records.now count)) }
{
    if count <= records.len() / SIZE {
        return show_cells(to, out, records, count);
    }
    Err(Lost)
}

// How many cells there are with `count` more; it stays where a number has no more room.
fn after(before: u64, count: usize) -> u64 {
    before.checked_add(count as u64).unwrap_or(before)
}

fn closed(
    to: &mut impl Write,
    out: &mut [u8; TEXT],
    at: Listing,
    none_remain: bool,
) -> Option<Listing> {
    if none_remain {
        let _ = show_number(to, out, b"end", at.done);
        return None;
    }
    if at.room <= at.done {
        let _ = show_mark(to, out, at.mark);
        return None;
    }
    Some(at)
}

// How many of the cells that are left go into one call.
fn batch(at: Listing) -> usize
    ensures { result ≤ 4096 }
{
    at.room.saturating_sub(at.done).min(4096) as usize
}

// One call of the library, and what it gave written.
fn call(
    to: &mut impl Write,
    out: &mut [u8; TEXT],
    file: &[u8],
    table: &mut [u16],
    records: &mut [u16; ROOM],
    at: Listing,
) -> Option<Listing> {
    let end = SIZE * batch(at);
    let part = &mut records[..end];
    let answer = listing::portion(file, at.mark, table, part);
    show_answer(to, out, file, part, at, answer)
}

// Calls until the end or the room is reached. A loop has to end, so its turns are a number that no run uses up.
fn list(
    to: &mut impl Write,
    out: &mut [u8; TEXT],
    file: &[u8],
    table: &mut [u16],
    records: &mut [u16; ROOM],
    from: Listing,
) {
    let mut at = from;
    for _ in 0..u64::MAX {
        let Some(next) = call(to, out, file, table, records, at) else {
            return;
        };
        at = next;
    }
}

// Lists the cells after a mark, at most so many. The rooms of each job stand on the stack for that job alone.
#[inline(never)]
fn list_from(to: &mut impl Write, text: &mut [u8; TEXT], file: &[u8], from: Listing) {
    let mut table = [0; 25089];
    let mut records = [0; ROOM];
    list(to, text, file, &mut table, &mut records, from);
}

// ---- arguments

// The number that a text of digits says. A text with a sign says none here.
fn number_in(text: &[u8]) -> Option<u64> {
    if !text.iter().all(|b| b.is_ascii_digit()) {
        return None;
    }
    str::from_utf8(text).ok()?.parse().ok()
}

// The number that argument `i` says.
fn number_at(env: &impl Env, i: usize) -> Option<u64> {
    let mut buf = [0; 4096];
    let n = env.arg(i, &mut buf).ok()?;
    number_in(&buf[..n])
}

// How many arguments there are, the program's name among them; 12 stands for any more.
fn count_words(env: &impl Env) -> usize {
    for i in 0..12 {
        if let Err(FillError::NotPresent) = env.arg(i, &mut []) {
            return i;
        }
    }
    12
}

fn complain(err: &mut impl Write) {
    let _ = err.write_all(
        b"combine: no words, pack, unpack, ten words (a kind, eight numbers and a room), or why, a kind and eight numbers\n",
    );
}

// A kind and eight numbers, from argument `first` on, where each is one of 16 bits.
fn numbers_at(env: &impl Env, first: usize) -> Option<[u16; 9]>
    requires { first ≤ 2 }
{
    let mut numbers = [0; 9];
    for (i, x) in numbers.iter_mut().enumerate() {
        *x = u16::try_from(number_at(env, first + i)?).ok()?;
    }
    Some(numbers)
}

// Whether the first argument is this word.
fn is_word(env: &impl Env, word: &[u8]) -> bool {
    let mut buf = [0; 4096];
    match env.arg(1, &mut buf) {
        Ok(n) => &buf[..n] == word,
        Err(_) => false,
    }
}

// The listing from a mark on, of ten words.
fn listing_asked(env: &impl Env) -> Option<Job> {
    let room = u32::try_from(number_at(env, 10)?).ok()?;
    let numbers = numbers_at(env, 1)?;
    Some(Job::List(Listing {
        mark: mark_of(numbers),
        done: 0,
        room: u64::from(room),
    }))
}

// The job that the arguments ask for, if they do. The words are read on the stack before the job begins, and not beside it.
#[inline(never)]
fn asked(env: &impl Env) -> Option<Job> {
    match count_words(env) {
        1 => Some(Job::List(Listing {
            mark: mark_of([65535, 0, 0, 0, 0, 0, 0, 0, 0]),
            done: 0,
            room: u64::MAX,
        })),
        2 if is_word(env, b"pack") => Some(Job::Pack),
        2 if is_word(env, b"unpack") => Some(Job::Unpack),
        11 if is_word(env, b"why") => Some(Job::Why(numbers_at(env, 2)?)),
        11 => listing_asked(env),
        _ => None,
    }
}

// Does what the arguments ask for, with a text to write lines to and room for a file. What is packed is read in pieces;
// for all else the file is read first, for a complaint too.
fn work(
    env: &impl Env,
    from: &mut impl Read,
    to: &mut impl Write,
    err: &mut impl Write,
    text: &mut [u8; TEXT],
    bytes: &mut [u8; FILE],
) {
    let job = asked(env);
    if job == Some(Job::Pack) {
        pack_job::pack(from, to, err, text, bytes);
        return;
    }
    let n = read_full(from, bytes);
    let file = &bytes[..n];
    match job {
        Some(Job::Unpack) => {
            unpack_job::unpack(to, err, text, file);
        }
        Some(Job::Why(n)) => {
            let tuple = [n[1], n[2], n[3], n[4], n[5], n[6], n[7], n[8]];
            why_job::tell(to, err, text, file, n[0], tuple);
        }
        Some(Job::List(from)) => list_from(to, text, file, from),
        _ => complain(err),
    }
}

fn main(rt: HostRuntime) {
    let mut text = [0; TEXT];
    let mut bytes = [0; FILE];
    let mut from = rt.stdin();
    let mut to = rt.stdout();
    let mut err = rt.stderr();
    work(&rt, &mut from, &mut to, &mut err, &mut text, &mut bytes);
}
