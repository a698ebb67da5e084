// Why a tuple of a file's mesh is not a cell, or that it is one.
#![tactic(auto)]

ghost use Rattle.std.specs.Prelude.{◌≡◌};
ghost use Rattle.templates.specs.Tables.{is_kind};
ghost use Rattle.why.specs.Why.{explained};

use arrays::Room;
use findings::finding;
use reasons::Finding;
use refusals::Refusal;
use templates::Kind;

// ---- of a file

fn is_kind(kind: u16) -> bool
    ensures { result ≡ is_kind kind }
{
    Kind::named(kind).is_some()
}

// What is found of a tuple of a kind in a file's mesh. Refusals 1 to 9 of the file come first, then 16 for another
// kind.
pub fn explain(file: &[u8], kind: u16, tuple: &[u16; 8]) -> Result<Finding, Refusal>
    ensures { result ≡ explained file.now kind tuple.now }
{
    let counts = arrays::header(file)?;
    let known = is_kind(kind);
    let mut room = Room::new();
    let mesh = room.load(file, counts)?;
    if !known {
        return Err(Refusal::NoKind);
    }
    Ok(finding(&mesh, kind, tuple))
}
