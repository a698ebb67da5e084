// Lists written into a lent room, and what is answered where the room is too short.
#![tactic(auto)]

ghost use Rattle.std.specs.Prelude.{◌≡◌, ◌++◌, cond, ◌+◌, ◌≤◌, length};
ghost use Rattle.base.specs.Laid.{Laid};
ghost use Rattle.rooms.specs.between.Rooms.{filled_by, laid_by};

// Writes a list from a place on.
pub fn put(room: &mut [u16], from: usize, list: &[u16])
    requires { from + length list.now ≤ length room.old }
    ensures { Laid from list.now room.old room.new }
{
    room[from..from + list.len()].copy_from_slice(list);
}

// How many entries two lists have, one behind the other, where the room is enough for them;
// they are written where it is, if they are wanted (the flag is of the promise: refusal 10 is told though 11 follows).
pub fn put_if(first: &[u16], second: &[u16], wanted: bool, room: &mut [u16]) -> Option<usize>
    ensures answer { result ≡ filled_by (first.now ++ second.now) (length room.old) }
    ensures content { room.new
        ≡ cond wanted (laid_by (first.now ++ second.now) room.old) room.old }
{
    let size = first.len() + second.len();
    if room.len() < size {
        return None;
    }
    if wanted {
        put(room, 0, first);
        put(room, first.len(), second);
    }
    Some(size)
}
