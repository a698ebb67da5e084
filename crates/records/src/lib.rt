// The loop that writes the records of the cells after a mark into a lent room.
#![tactic(auto)]

ghost use Rattle.std.specs.Prelude.{◌≡◌, ◌/◌, ◌≤◌, length, Ok};
ghost use Rattle.space.specs.Arrays.{mesh_of};
ghost use Rattle.record.specs.Entries.{record_size};
ghost use Rattle.record.specs.Marks.{mark_of};
ghost use Rattle.records.specs.between.Written.{Written, AnswersFull, StopsAt};

use following::{is_any_left, next_cell};
use record::{Mark, SIZE, TET_PLACES, end_mark, put_record};
use refusals::Refusal;
use search::Ground;

// What a call gave: so many records, whether no cell remains, and the mark to go on from.
#[derive(Clone, Copy)]
pub struct Given {
    pub count: usize,
    pub none_remain: bool,
    pub mark: Mark,
}

// A refusal, with how many records were written before it:
// only 12, where the next cell has more tetrahedra than a record can hold, comes after any.
#[derive(Clone, Copy)]
pub struct Refused {
    pub refusal: Refusal,
    pub written: usize,
}

impl From<Refusal> for Refused {
    ghost from_gives = { λ r x. (x.refusal ≡ r) × (x.written ≡ 0) };

    fn from(refusal: Refusal) -> Refused {
        Refused {
            refusal,
            written: 0,
        }
    }
}

// How far the records came, and how many there are: the room is full, no cell is left,
// or the next one is too long for a record.
#[derive(Clone, Copy)]
pub enum Stopped {
    Full { count: usize, mark: Mark },
    Ended { count: usize },
    Long { count: usize },
}

// Writes the records of the cells after the mark, as many as the room holds.
fn write_up(ground: &Ground<'_, '_>, mark: Mark, records: &mut [u16]) -> Stopped
    requires { record_size ≤ length records.old }
    ensures { StopsAt (mesh_of ground.now.mesh.coords.now ground.now.mesh.index.labels.now ground.now.mesh.parts.now)
        (mark_of mark) records.old result records.new }
{
    let most = records.len() / SIZE;
    let mut k = mark;
    for i in 0..most {
        let Some(s) = next_cell(ground, k, 0 < i) else {
            return Stopped::Ended { count: i };
        };
        let c = s.mark;
        let tets = s.tets;
        if TET_PLACES < tets.count {
            return Stopped::Long { count: i };
        }
        let list = tets.list;
        put_record(records, i, c, tets.count, list);
        k = c;
    }
    Stopped::Full {
        count: most,
        mark: k,
    }
}

// The answer for a room that was filled up to a mark: the end where no cell is left behind it.
fn answer_full(count: usize, left: bool, mark: Mark) -> Given
    ensures { AnswersFull count left mark (Ok result) }
{
    if left {
        Given {
            count,
            none_remain: false,
            mark,
        }
    } else {
        Given {
            count,
            none_remain: true,
            mark: end_mark(),
        }
    }
}

// Writes the records of the cells after the mark, as many as the room holds.
// Where the room is full it is asked whether any cell is left: so the end is told with the last cell.
pub fn write_cells(
    ground: &Ground<'_, '_>,
    mark: Mark,
    records: &mut [u16],
) -> Result<Given, Refused>
    ensures { Written (mesh_of ground.now.mesh.coords.now ground.now.mesh.index.labels.now ground.now.mesh.parts.now)
        (mark_of mark) records.old result records.new }
{
    if records.len() < SIZE {
        return Err(Refused::from(Refusal::NoRoom));
    }
    match write_up(ground, mark, records) {
        Stopped::Full { count, mark } => {
            let left = is_any_left(ground, mark);
            Ok(answer_full(count, left, mark))
        }
        Stopped::Ended { count } => Ok(answer_full(count, false, mark)),
        Stopped::Long { count } => Err(Refused {
            refusal: Refusal::CellTooLong,
            written: count,
        }),
    }
}
