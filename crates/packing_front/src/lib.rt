// Packs lists of which the caller may hold only the front. Lists that do not fit the caller's arrays make a file that
// is too long, and are refused for their length alone, whatever they say: so the answer is that of the whole lists.
#![tactic(auto)]

ghost use Rattle.std.specs.Prelude.{◌≡◌, List, ℕ, ℤ, length};
ghost use Rattle.encoding.specs.File.{file_of};
ghost use Rattle.packing.specs.Packed.{packed, room_after};
ghost use Rattle.packing_front.specs.Front.{Fronts};
ghost use Rattle.packing_front.specs.between.Roomy.{Roomy};

use refusals::Refusal;

// More than the lists of any file that is accepted.
pub const COORDINATES: usize = 3 * 2219;

pub const TETS: usize = 2663;

pub const NUMBERS: usize = 4 * TETS;

// Packs the lists of n vertices and t tetrahedra of which the lent lists hold the front: all of them, or more than any
// file that is accepted has. They are cut by these numbers and not by the lent lengths, so that what is left of lists
// that are too long has whole vertices and tetrahedra: it is refused for its length, as they are.
pub fn write_front(
    coordinates: &[i32],
    numbers: &[u16],
    parts: &[u16],
    n: u32,
    t: u32,
    room: &mut [u8],
) -> Result<usize, Refusal>
    requires { Roomy coordinates.now numbers.now parts.now }
    ensures { (cs : List ℤ) (ls ps : List ℕ)
        → Fronts n t coordinates.now numbers.now parts.now cs ls ps
        → (result ≡ packed cs ls ps (length room.old))
        × (room.new ≡ room_after (file_of cs ls ps) result room.old) }
{
    let c = (3 * n as usize).min(COORDINATES);
    let l = (4 * t as usize).min(NUMBERS);
    let p = (t as usize).min(TETS);
    packing::write(&coordinates[..c], &numbers[..l], &parts[..p], room)
}
