// The static library for programs in C and Rust: the functions of the crate opalcrumb, each exported under its own name
// with its own contract. A slice is a pointer and then a length.
#![tactic(auto)]

ghost use Rattle.std.specs.Prelude.{◌≡◌, length};
ghost use Rattle.space.specs.Box.{box_number};
ghost use Rattle.arrays.specs.Refusals.{refusal};
ghost use Rattle.encoding.specs.File.{file_of};
ghost use Rattle.packing.specs.Packed.{packed, written_number, room_after};
ghost use Rattle.turning.specs.Form.{least_form, least_number};
ghost use Rattle.reasons.specs.Numbers.{finding_number, entries_left};
ghost use Rattle.why.specs.Why.{explained};
ghost use Rattle.opalcrumb.specs.Boundary.{length_left, boxed_by, box_left, least_left, Passed};

// 0 for a sound mesh, else refusal 1 to 9.
#[unsafe(no_mangle)]
pub extern "C" fn opalcrumb_check(file: &[u8]) -> u32
    ensures { result ≡ refusal file.now }
{
    opalcrumb::opalcrumb_check(file)
}

// 0 and the file that the lists make, at the front of the room, with its length; or 14, 1 to 9 or 15, with the room and
// `written` as they were.
#[unsafe(no_mangle)]
pub extern "C" fn opalcrumb_write(
    coordinates: &[i32],
    numbers: &[u16],
    parts: &[u16],
    room: &mut [u8],
    written: &mut usize,
) -> u32
    ensures answer { result
        ≡ written_number (packed coordinates.now numbers.now parts.now (length room.old)) }
    ensures room { room.new
        ≡ room_after (file_of coordinates.now numbers.now parts.now)
        (packed coordinates.now numbers.now parts.now (length room.old)) room.old }
    ensures written { written.new
        ≡ length_left (packed coordinates.now numbers.now parts.now (length room.old)) written.old }
{
    opalcrumb::opalcrumb_write(coordinates, numbers, parts, room, written)
}

// 0 and the box product of four points, or 4 where a coordinate is out of bounds, and `value` as it was.
#[unsafe(no_mangle)]
pub extern "C" fn opalcrumb_box(
    p: &[i32; 3],
    q: &[i32; 3],
    r: &[i32; 3],
    s: &[i32; 3],
    value: &mut i64,
) -> u32
    ensures answer { result ≡ box_number (boxed_by p.now q.now r.now s.now) }
    ensures value { value.new
        ≡ box_left (boxed_by p.now q.now r.now s.now) value.old }
{
    opalcrumb::opalcrumb_box(p, q, r, s, value)
}

// 0 and the least form of a tuple, with 0 in unused places, or 13, and `least` as it was.
#[unsafe(no_mangle)]
pub extern "C" fn opalcrumb_least_form(kind: u16, corners: &[u16; 8], least: &mut [u16; 8]) -> u32
    ensures answer { result ≡ least_number (least_form kind corners.now) }
    ensures least { least.new ≡ least_left (least_form kind corners.now) least.old }
{
    opalcrumb::opalcrumb_least_form(kind, corners, least)
}

// 0 and what is found of a tuple in ten entries, or 1 to 9 or 16, and `answer` as it was. The crate opalcrumb says what
// the entries are.
#[unsafe(no_mangle)]
pub extern "C" fn opalcrumb_why(
    file: &[u8],
    kind: u16,
    corners: &[u16; 8],
    answer: &mut [u16; 10],
) -> u32
    ensures number { result ≡ finding_number (explained file.now kind corners.now) }
    ensures answer { answer.new ≡ entries_left (explained file.now kind corners.now) answer.old }
{
    opalcrumb::opalcrumb_why(file, kind, corners, answer)
}

// 0 and the cells after the mark, or refusal 1 to 12. On 0 the mark is the one to go on from, `count` how many records
// were written and `end` 1 where none remain. On 12 `count` is what was written before it; else nothing is written.
#[unsafe(no_mangle)]
pub extern "C" fn opalcrumb_portion(
    file: &[u8],
    mark: &mut [u16; 9],
    table: &mut [u16],
    records: &mut [u16],
    count: &mut u32,
    end: &mut u32,
) -> u32
    ensures { Passed
        file.now mark.old table.old records.old count.old end.old
        result mark.new table.new records.new count.new end.new }
{
    opalcrumb::opalcrumb_portion(file, mark, table, records, count, end)
}
