// Packs lists of coordinates, vertex numbers and parts into a mesh file, in a room that the caller lends. The file is
// made in an array of the greatest length and checked there; the room is touched only where the file is right and fits.
#![tactic(auto)]

ghost use Rattle.std.specs.Prelude.{◌≡◌, ◌+◌, ◌*◌, length, ltb};
ghost use Rattle.encoding.specs.File.{file_of};
ghost use Rattle.encoding.specs.between.Measured.{Measured};
ghost use Rattle.packing.specs.Packed.{lengths_fit, packed, room_after};
ghost use Rattle.packing.specs.between.Stored.{stored_in};

use refusals::Refusal;

// ---- the lengths

// Not 14. In three steps: of `c % 3 == 0 && l % 4 == 0 && p == l / 4` the check does not find what each side equals.
fn lengths_fit(c: usize, l: usize, p: usize) -> bool
    ensures { result ≡ lengths_fit c l p }
{
    if c % 3 != 0 {
        return false;
    }
    if l % 4 != 0 {
        return false;
    }
    p == l / 4
}

// The file of so many coordinates and parts would be longer than any that is accepted. Each count is tested by itself
// first, so that no sum can wrap.
fn is_long(c: usize, p: usize) -> bool
    ensures { result ≡ ltb 26648 (24 + 4 * c + 10 * p) }
{
    26648 < c || 26648 < p || 26648 < 24 + 4 * c + 10 * p
}

// ---- the file into the room

// Checks the file, and copies it to the front of the room where it is right and fits.
fn store(file: &[u8], room: &mut [u8]) -> Result<usize, Refusal>
    ensures answer { result ≡ stored_in file.now (length room.old) }
    ensures room { room.new ≡ room_after file.now result room.old }
{
    mesh::check(file)?;
    if room.len() < file.len() {
        return Err(Refusal::RoomShort);
    }
    room[..file.len()].copy_from_slice(file);
    Ok(file.len())
}

// Makes the file in the lent slice, and stores it.
fn write_by(
    file: &mut [u8],
    coordinates: &[i32],
    numbers: &[u16],
    parts: &[u16],
    room: &mut [u8],
) -> Result<usize, Refusal>
    requires { Measured coordinates.now numbers.now parts.now (length file.old) }
    ensures answer { result ≡ stored_in (file_of coordinates.now numbers.now parts.now) (length room.old) }
    ensures room { room.new
        ≡ room_after (file_of coordinates.now numbers.now parts.now) result room.old }
{
    encoding::put_file(file, coordinates, numbers, parts);
    store(file, room)
}

// ---- all of it

// Room for the longest file that is accepted; its length alone is told.
fn file_room() -> [u8; 26648]
    ensures { 26648 ≡ length result }
{
    [0; 26648]
}

// Writes the file that the lists make into the room: refusal 14, those of the file, 15, or else its length.
pub fn write(
    coordinates: &[i32],
    numbers: &[u16],
    parts: &[u16],
    room: &mut [u8],
) -> Result<usize, Refusal>
    ensures answer { result ≡ packed coordinates.now numbers.now parts.now (length room.old) }
    ensures room { room.new
        ≡ room_after (file_of coordinates.now numbers.now parts.now) result room.old }
{
    let c = coordinates.len();
    let p = parts.len();
    if !lengths_fit(c, numbers.len(), p) {
        return Err(Refusal::ListsUnfit);
    }
    if is_long(c, p) {
        return Err(Refusal::Length);
    }
    let mut file = file_room();
    let size = 24 + 4 * c + 10 * p;
    write_by(&mut file[..size], coordinates, numbers, parts, room)
}
