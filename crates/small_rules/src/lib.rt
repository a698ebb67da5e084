// A trial of the promise of a portion on the smallest rule:
// the cells are the numbers below n that leave 1 over 3, a mark is a number, and a record is the number and a 7.
// The loop is the one that any listing has: ask for the next cell first, then whether the room is full.
#![tactic(auto)]

ghost use Rattle.std.specs.Prelude.{true, false, [], ◌∷◌, ◌+◌, ◌≤◌, length, MatchOption};
ghost use Rattle.base.specs.Laid.{Laid};
ghost use Rattle.portions.specs.Run.{Outcome};
ghost use Rattle.portions.specs.between.Steps.{Next};
ghost use Rattle.small_rules.specs.between.Trial.{trial_rule, trials, reply_says};

#[derive(Clone, Copy)]
pub struct Records {
    pub count: usize,
    pub none_remain: bool,
    pub mark: u16,
}

// A refusal tells its reason and nothing else: there is no count or mark to make up.
#[derive(Clone, Copy, PartialEq, Eq, Debug)]
pub enum Refusal {
    NoRoom,
    TooLong,
}

// The first cell after the mark.
fn next(n: u16, mark: u16) -> Option<u16>
    ensures { MatchOption result (Next trial_rule (trials n) (mark ∷ []) false 0)
        (Next trial_rule (trials n) (mark ∷ []) true) }
{
    if mark >= n {
        return None;
    }
    for c in mark + 1..n {
        if c % 3 == 1 {
            return Some(c);
        }
    }
    None
}

// Writes the record of a cell.
fn put(room: &mut [u16], at: usize, cell: u16)
    requires { at + 2 ≤ length room.old }
    ensures { Laid at (cell ∷ 7 ∷ []) room.old room.new }
{
    room[at] = cell;
    room[at + 1] = 7;
}

// A portion of the cells after the mark.
pub fn portion(n: u16, mark: u16, room: &mut [u16]) -> Result<Records, Refusal>
    ensures { Outcome trial_rule (trials n) (mark ∷ []) room.old (reply_says result) room.new }
{
    if room.len() < 2 {
        return Err(Refusal::NoRoom);
    }
    let most = room.len() / 2;
    let mut i: usize = 0;
    let mut k = mark;
    // The mark goes on by what is found, and the end is told before the room is full: no range counts that.
    loop {
        let Some(c) = next(n, k) else {
            return Ok(Records {
                count: i,
                none_remain: true,
                mark: 65535,
            });
        };
        if i == most {
            return Ok(Records {
                count: i,
                none_remain: false,
                mark: k,
            });
        }
        if c == 40 {
            return Err(Refusal::TooLong);
        }
        put(room, i * 2, c);
        i += 1;
        k = c;
    }
}
