// Why a file, lists, a tuple or a room is refused: one name for each number of a refusal, for everyone who answers with
// one. Which number applies to what stands where it is tested.
#![tactic(auto)]

ghost use Rattle.std.specs.Prelude.{◌≡◌};
ghost use Rattle.refusals.specs.Named.{number_of};

#[derive(Clone, Copy, PartialEq, Eq, Debug)]
pub enum Refusal {
    // Of a mesh file: of its header,
    Length = 1,
    Counts = 2,
    Layout = 3,
    // of its numbers: a coordinate out of bounds, a vertex that is not there, one named twice,
    OutOfBounds = 4,
    NoVertex = 5,
    VertexTwice = 6,
    // and of its tetrahedra: a box not above 0, three at a facet, two on one side of a facet.
    Flat = 7,
    Crowded = 8,
    Folded = 9,
    // Of a portion: the table is too short, the room holds no record, a cell has more tetrahedra than a record holds.
    TableShort = 10,
    NoRoom = 11,
    CellTooLong = 12,
    // Of a tuple: it has no least form.
    NoLeastForm = 13,
    // Of lists that are packed: they do not fit one another, the room is too short for the file.
    ListsUnfit = 14,
    RoomShort = 15,
    // Of a question about a tuple: no such kind.
    NoKind = 16,
}

impl From<Refusal> for u8 {
    ghost from_gives = { λ r k. k ≡ number_of r };

    fn from(r: Refusal) -> u8 {
        r as u8
    }
}
