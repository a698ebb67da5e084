// Lists of a mesh printed as plain text, a line at a time, into a lent slice.
#![tactic(auto)]

ghost use Rattle.std.specs.Prelude.{◌≡◌, ◌+◌, ◌*◌, ◌≤◌, nat_abs, length};
ghost use Rattle.base.specs.Laid.{Laid};
ghost use Rattle.base.specs.Lists.{spread};
ghost use Rattle.writing_lists.specs.Printed.{signed_text, apart, line_of};

use lines::{put_decimal, put_text};

// How far a number is from 0.
pub fn size_of(z: i64) -> u64
    ensures { result ≡ nat_abs z }
{
    z.unsigned_abs()
}

// Puts a number, with its sign below 0.
fn put_signed(out: &mut [u8], from: usize, z: i64) -> usize
    requires { from + 21 ≤ length out.old }
    ensures next { result ≡ from + length (signed_text z) }
    ensures text { Laid from (signed_text z) out.old out.new }
{
    let size = size_of(z);
    if z < 0 {
        let at = put_text(out, from, b"-");
        return put_decimal(out, at, size);
    }
    put_decimal(out, from, size)
}

// Puts a space and a number.
fn put_next(out: &mut [u8], from: usize, z: i64) -> usize
    requires { from + 22 ≤ length out.old }
    ensures next { result ≡ from + length (apart z) }
    ensures text { Laid from (apart z) out.old out.new }
{
    let at = put_text(out, from, b" ");
    put_signed(out, at, z)
}

// Puts each number with a space before it.
fn put_apart(out: &mut [u8], from: usize, numbers: &[i64]) -> usize
    requires { from + 22 * length numbers.now ≤ length out.old }
    ensures next { result ≡ from + length (spread apart numbers.now) }
    ensures text { Laid from (spread apart numbers.now) out.old out.new }
{
    let mut at = from;
    for z in numbers {
        at = put_next(out, at, *z);
    }
    at
}

// Puts a line of numbers from `from` on, and answers where the next goes; there is room for any numbers.
pub fn put_line(out: &mut [u8], from: usize, numbers: &[i64]) -> usize
    requires { from + 22 * length numbers.now + 1 ≤ length out.old }
    ensures next { result ≡ from + length (line_of numbers.now) }
    ensures text { Laid from (line_of numbers.now) out.old out.new }
{
    if numbers.len() == 0 {
        return put_text(out, from, b"\n");
    }
    let first = put_signed(out, from, numbers[0]);
    let end = put_apart(out, first, &numbers[1..]);
    put_text(out, end, b"\n")
}
