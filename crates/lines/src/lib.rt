// The lines of a listing as text, put into a lent slice.
#![tactic(auto)]

ghost use Rattle.std.specs.Prelude.{◌≡◌, ◌+◌, ◌*◌, ◌≤◌, length, take};
ghost use Rattle.base.specs.Laid.{Laid};
ghost use Rattle.record.specs.Entries.{record_size};
ghost use Rattle.lines.specs.Text.{IsDigitCount, last_digits, decimal, spaced, numbers, corners_text, tets_text, cell_line, corners_most, tets_most, line_most};

use record::{COUNT_AT, TET_PLACES, TETS_AT};

// Puts a text from `from` on, and answers where the next goes.
pub fn put_text(out: &mut [u8], from: usize, text: &[u8]) -> usize
    requires { from + length text.now ≤ length out.old }
    ensures next { result ≡ from + length text.now }
    ensures text { Laid from text.now out.old out.new }
{
    let end = from + text.len();
    out[from..end].copy_from_slice(text);
    end
}

// How many decimal digits a number has.
fn digit_count(x: u64) -> usize
    ensures { IsDigitCount x result }
{
    match x.checked_ilog10() {
        Some(k) => k as usize + 1,
        None => 1,
    }
}

// Puts the last k digits of a number at the start of a room.
fn put_digits(out: &mut [u8], k: usize, x: u64)
    requires { k ≤ length out.old }
    ensures { take k out.new ≡ last_digits k x }
{
    let mut rest = x;
    for i in (0..k).rev() {
        out[i] = b'0' + (rest % 10) as u8;
        rest /= 10;
    }
}

// Puts the digits of a number; there is room for any.
pub fn put_decimal(out: &mut [u8], from: usize, x: u64) -> usize
    requires { from + 20 ≤ length out.old }
    ensures next { result ≡ from + length (decimal x) }
    ensures text { Laid from (decimal x) out.old out.new }
{
    let mut digits = [0u8; 20];
    let k = digit_count(x);
    put_digits(&mut digits, k, x);
    put_text(out, from, &digits[..k])
}

// Puts each number of a list with a space before it.
pub fn put_numbers(out: &mut [u8], from: usize, list: &[u16]) -> usize
    requires { from + 21 * length list.now ≤ length out.old }
    ensures next { result ≡ from + length (numbers list.now) }
    ensures text { Laid from (numbers list.now) out.old out.new }
{
    let mut at = from;
    for x in list {
        at = put_number(out, at, u64::from(*x));
    }
    at
}

// Puts a space and a number.
pub fn put_number(out: &mut [u8], from: usize, x: u64) -> usize
    requires { from + 21 ≤ length out.old }
    ensures next { result ≡ from + length (spaced x) }
    ensures text { Laid from (spaced x) out.old out.new }
{
    let at = put_text(out, from, b" ");
    put_decimal(out, at, x)
}

// Puts a record's kind and corners.
fn put_corners(out: &mut [u8], from: usize, cell: &[u16]) -> usize
    requires { (from + corners_most ≤ length out.old) × (length cell.now ≡ record_size) }
    ensures next { result ≡ from + length (corners_text cell.now) }
    ensures text { Laid from (corners_text cell.now) out.old out.new }
{
    let kind = cell[0];
    let end = 1 + usize::from(kind).min(8);
    let at = put_decimal(out, from, u64::from(kind));
    put_numbers(out, at, &cell[1..end])
}

// Puts a record's tetrahedra, after a space and a colon.
fn put_tets(out: &mut [u8], from: usize, cell: &[u16]) -> usize
    requires { (from + tets_most ≤ length out.old) × (length cell.now ≡ record_size) }
    ensures next { result ≡ from + length (tets_text cell.now) }
    ensures text { Laid from (tets_text cell.now) out.old out.new }
{
    let end = TETS_AT + usize::from(cell[COUNT_AT]).min(TET_PLACES);
    let at = put_text(out, from, b" :");
    put_numbers(out, at, &cell[TETS_AT..end])
}

// Puts the line of a record, its line end with it.
pub fn put_cell(out: &mut [u8], from: usize, cell: &[u16]) -> usize
    requires { (from + line_most ≤ length out.old) × (length cell.now ≡ record_size) }
    ensures next { result ≡ from + length (cell_line cell.now) }
    ensures text { Laid from (cell_line cell.now) out.old out.new }
{
    let a = put_corners(out, from, cell);
    let b = put_tets(out, a, cell);
    put_text(out, b, b"\n")
}
