// What programs in C call, as a library: each function under its plain name, over numbers, slices and small arrays.
// The crate opalcrumb_c exports them. Every function answers 0, or the number of a refusal; what a refusal leaves
// unchanged is said at each.
#![tactic(auto)]

ghost use Rattle.std.specs.Prelude.{◌≡◌, length};
ghost use Rattle.space.specs.Box.{box_number};
ghost use Rattle.arrays.specs.Refusals.{refusal};
ghost use Rattle.encoding.specs.File.{file_of};
ghost use Rattle.packing.specs.Packed.{packed, written_number, room_after};
ghost use Rattle.turning.specs.Form.{least_form, least_number};
ghost use Rattle.reasons.specs.Numbers.{finding_number, entries_left};
ghost use Rattle.why.specs.Why.{explained};
ghost use Rattle.records.specs.Marks.{answer_number};
ghost use Rattle.opalcrumb.specs.Boundary.{length_left, point_of, boxed_by, box_left, least_left, mark_left, count_left, end_left, Passed};

use record::{mark_of, numbers_of};
use records::{Given, Refused};
use space::Point;

// 0 for a sound mesh, else refusal 1 to 9.
pub fn opalcrumb_check(file: &[u8]) -> u32
    ensures { result ≡ refusal file.now }
{
    mesh::refusal_of(file) as u32
}

// 0 and the file that the lists make, at the front of the room, with its length; or 14, 1 to 9 or 15, with the room and
// `written` as they were.
pub fn opalcrumb_write(
    coordinates: &[i32],
    numbers: &[u16],
    parts: &[u16],
    room: &mut [u8],
    written: &mut usize,
) -> u32
    ensures answer { result
        ≡ written_number (packed coordinates.now numbers.now parts.now (length room.old)) }
    ensures room { room.new
        ≡ room_after (file_of coordinates.now numbers.now parts.now)
        (packed coordinates.now numbers.now parts.now (length room.old)) room.old }
    ensures written { written.new
        ≡ length_left (packed coordinates.now numbers.now parts.now (length room.old)) written.old }
{
    match packing::write(coordinates, numbers, parts, room) {
        Ok(size) => {
            *written = size;
            0
        }
        Err(refusal) => u8::from(refusal) as u32,
    }
}

fn point_of(p: &[i32; 3]) -> Point
    ensures { result ≡ point_of p.now }
{
    let [x, y, z] = p.map(i64::from);
    Point { x, y, z }
}

// 0 and the box product of four points, or 4 where a coordinate is out of bounds, and `value` as it was.
pub fn opalcrumb_box(p: &[i32; 3], q: &[i32; 3], r: &[i32; 3], s: &[i32; 3], value: &mut i64) -> u32
    ensures answer { result ≡ box_number (boxed_by p.now q.now r.now s.now) }
    ensures value { value.new
        ≡ box_left (boxed_by p.now q.now r.now s.now) value.old }
{
    let answer = space::box_product(point_of(p), point_of(q), point_of(r), point_of(s));
    match answer {
        Some(b) => {
            *value = b;
            0
        }
        None => 4,
    }
}

// 0 and the least form of a tuple, with 0 in unused places, or 13, and `least` as it was.
pub fn opalcrumb_least_form(kind: u16, corners: &[u16; 8], least: &mut [u16; 8]) -> u32
    ensures answer { result ≡ least_number (least_form kind corners.now) }
    ensures least { least.new ≡ least_left (least_form kind corners.now) least.old }
{
    match turning::least_form(kind, *corners) {
        Some(form) => {
            *least = form;
            0
        }
        None => 13,
    }
}

// 0 and what is found of a tuple in ten entries, or 1 to 9 or 16, and `answer` as it was. Entry 0 is 0 for a cell in
// least form and 7 for a cell turned, both with their least form in entries 1 to 8; else the first condition that
// fails, followed by where it fails.
pub fn opalcrumb_why(file: &[u8], kind: u16, corners: &[u16; 8], answer: &mut [u16; 10]) -> u32
    ensures number { result ≡ finding_number (explained file.now kind corners.now) }
    ensures answer { answer.new ≡ entries_left (explained file.now kind corners.now) answer.old }
{
    match why::explain(file, kind, corners) {
        Ok(found) => findings::hand_out(Ok(found), answer) as u32,
        Err(refusal) => findings::hand_out(Err(u8::from(refusal)), answer) as u32,
    }
}

// ---- a portion

// An answer handed out: its number, and in the lent places what it tells.
fn hand_out(
    answer: Result<Given, Refused>,
    mark: &mut [u16; 9],
    count: &mut u32,
    end: &mut u32,
) -> u32
    ensures number { result ≡ answer_number answer }
    ensures mark { mark.new ≡ mark_left answer mark.old }
    ensures count { count.new ≡ count_left answer count.old }
    ensures end { end.new ≡ end_left answer end.old }
{
    match answer {
        Err(Refused { refusal, written }) => {
            let number = u8::from(refusal);
            if number == 12 {
                *count = (written % 4294967296) as u32;
                return 12;
            }
            number as u32
        }
        Ok(
            Given {
                count: written,
                none_remain,
                mark: next,
            },
        ) => {
            *mark = numbers_of(next);
            *count = (written % 4294967296) as u32;
            *end = none_remain as u32;
            0
        }
    }
}

// 0 and the cells after the mark, or refusal 1 to 12. On 0 the mark is the one to go on from, `count` how many records
// were written and `end` 1 where none remain. On 12 `count` is what was written before it; else nothing is written.
pub fn opalcrumb_portion(
    file: &[u8],
    mark: &mut [u16; 9],
    table: &mut [u16],
    records: &mut [u16],
    count: &mut u32,
    end: &mut u32,
) -> u32
    ensures { Passed
        file.now mark.old table.old records.old count.old end.old
        result mark.new table.new records.new count.new end.new }
{
    let answer = listing::portion(file, mark_of(*mark), table, records);
    hand_out(answer, mark, count, end)
}
