// The listing of a mesh file's cells: one portion at a time, from any mark on.
#![tactic(auto)]

ghost use Rattle.record.specs.Marks.{mark_of};
ghost use Rattle.portioning.specs.Portion.{Portioned};

use arrays::Room;
use portioning::portion_of;
use record::Mark;
use records::{Given, Refused};

// The cells after a mark, as many as the room has whole records for. Refusals 1 to 9 of the file come first, then 10
// where the table is too short, 11 where the room holds no record,
// 12 where a cell has more tetrahedra than a record can hold.
pub fn portion(
    file: &[u8],
    mark: Mark,
    table: &mut [u16],
    records: &mut [u16],
) -> Result<Given, Refused>
    ensures { Portioned file.now (mark_of mark) table.old records.old result
        table.new records.new }
{
    let counts = arrays::header(file)?;
    let mut room = Room::new();
    let mesh = room.load(file, counts)?;
    portion_of(&mesh, mark, table, records)
}
