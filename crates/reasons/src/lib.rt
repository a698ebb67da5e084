// Why a tuple is not a cell. What is answered, and in specs and proofs what that tells; the crates above find it.
#![tactic(auto)]

ghost use Rattle.std.specs.Prelude.{◌≡◌, ℕ, Bool, ◌<◌};
ghost use Rattle.base.specs.Lists.{up_to};
ghost use Rattle.reasons.specs.First.{first_fail};

// What is found of a tuple: that it is a cell; or the first condition that fails, and where.
#[derive(Clone, Copy)]
pub enum Finding {
    // a cell, with its least form: that it is in, or that it was turned from
    Cell(u16, u16, u16, u16, u16, u16, u16, u16),
    Turned(u16, u16, u16, u16, u16, u16, u16, u16),
    // 1: the place of a corner
    BadCorner(u16),
    // 2, 3, 4: the row of an edge, of a face, of a corner triple
    NoEdge(u16),
    NoFace(u16),
    BadBox(u16),
    // 5: the row of a face, or the vertices of another triple, rising
    OpenFace(u16),
    OpenTriple(u16, u16, u16),
    // 6
    TwoParts,
}

// The first of k rows that fails a test, counted from 0; k where all pass.
pub fn first_fail<F: Fn(usize) -> bool>(k: usize, test: F) -> usize
    requires { (i : ℕ) → i < k → F.pre test i }
    ensures { (p : ℕ → Bool) → ((i : ℕ) (b : Bool) → i < k → F.post test i b → b ≡ p i)
        → result ≡ first_fail p (up_to k) }
{
    for i in 0..k {
        if !test(i) {
            return i;
        }
    }
    k
}
