// The words of a text of lists, read byte by byte: whether each is a number in its place.
#![tactic(auto)]

ghost use Rattle.std.specs.Prelude.{◌≡◌, cond, ◌||◌, eqb, None};
ghost use Rattle.reading_words.specs.Words.{is_blank, ends_word, is_digit, formed, sized};
ghost use Rattle.reading_words.specs.Steps.{told, wanted, tet_spot, spot_of, most, range_fault, word_fault, grown, counted, closed};
ghost use Rattle.reading_words.specs.Steps.{line_behind, comment_behind, passed, next, ends_number};

// What the word is that has begun: nothing yet, a minus sign alone, a number, or no number. A reader is a value of plain
// fields that any caller may make, so its form may be any number: one without a name here is taken as no number.
#[derive(Clone, Copy, PartialEq, Eq, Debug)]
pub enum Form {
    Empty,
    Minus,
    Number,
    Other,
    Unnamed(u8),
}

// What is wrong with a text: too few numbers, too many, or a word that is no number; or a number out of range as a count,
// as a coordinate, or as a vertex number or a part. A reader that a caller made may have any number for its fault: one
// without a name here ends the text as these do.
#[derive(Clone, Copy, PartialEq, Eq, Debug)]
pub enum Fault {
    TooFew,
    TooMany,
    NoNumber,
    CountRange,
    CoordinateRange,
    EntryRange,
    Unnamed(u8),
}

// The number by which a person is told of a fault; one without a name is told as it is.
impl From<Fault> for u8 {
    ghost from_gives = { λ f n. n ≡ told f };

    fn from(fault: Fault) -> u8 {
        match fault {
            Fault::TooFew => 1,
            Fault::TooMany => 2,
            Fault::NoNumber => 3,
            Fault::CountRange => 4,
            Fault::CoordinateRange => 5,
            Fault::EntryRange => 6,
            Fault::Unnamed(number) => number,
        }
    }
}

// How far a text is read: the line; whether it stands in a comment; of the word that has begun its form, its sign and
// what its digits say; how many numbers came before it, the first two of them, and the fault that was met, if any.
#[derive(Clone, Copy)]
pub struct Reader {
    pub line: u64,
    pub comment: bool,
    pub form: Form,
    pub minus: bool,
    pub size: u64,
    pub count: u64,
    pub n: u32,
    pub t: u32,
    pub fault: Option<Fault>,
}

// Where a number belongs: it is a count, or an entry of one of the lists, or none is wanted any more.
#[derive(Clone, Copy)]
pub enum Spot {
    Count,
    Coordinate(u64),
    Label(u64),
    Part(u64),
    Beyond,
}

// ---- a byte

#[tactic(auto, unfolding(crate::specs::Words::is_digit))]
fn is_digit(b: u8) -> bool
    ensures { result ≡ is_digit b }
{
    b.is_ascii_digit()
}

#[tactic(auto, unfolding(crate::specs::Words::is_blank))]
fn is_blank(b: u8) -> bool
    ensures { result ≡ is_blank b }
{
    b == b' ' || (b'\t'..=b'\r').contains(&b)
}

#[tactic(auto, unfolding(crate::specs::Words::ends_word))]
fn ends_word(b: u8) -> bool
    ensures { result ≡ ends_word b }
{
    is_blank(b) || b == b'#'
}

// ---- a word with a byte more

#[tactic(auto, unfolding(crate::specs::Words::formed))]
fn form_with(form: Form, b: u8) -> Form
    ensures { result ≡ formed form b }
{
    match form {
        Form::Other | Form::Unnamed(_) => Form::Other,
        _ if is_digit(b) => Form::Number,
        Form::Empty if b == b'-' => Form::Minus,
        _ => Form::Other,
    }
}

#[tactic(auto, unfolding(crate::specs::Words::sized, crate::specs::Words::is_digit))]
fn size_with(size: u64, b: u8) -> u64
    ensures { result ≡ sized size b }
{
    if is_digit(b) {
        if 429496729 < size {
            return 4294967296;
        }
        return 10 * size + u64::from(b - b'0');
    }
    size
}

fn minus_with(minus: bool, b: u8) -> bool
    ensures { result ≡ (minus || eqb b 45) }
{
    minus || b == b'-'
}

#[tactic(auto, unfolding(crate::specs::Steps::grown))]
fn grown(r: Reader, b: u8) -> Reader
    ensures { result ≡ grown r b }
{
    Reader {
        form: form_with(r.form, b),
        minus: minus_with(r.minus, b),
        size: size_with(r.size, b),
        ..r
    }
}

// ---- the places of the numbers

// It fits, since n and t have 32 bits.
pub fn wanted(r: Reader) -> u64
    ensures { result ≡ wanted r }
{
    2 + 3 * u64::from(r.n) + 5 * u64::from(r.t)
}

fn tet_spot(k: u64) -> Spot
    ensures { result ≡ tet_spot k }
{
    let j = k / 5;
    match k % 5 {
        4 => Spot::Part(j),
        i => Spot::Label(4 * j + i),
    }
}

#[tactic(auto, unfolding(crate::specs::Steps::spot_of))]
pub fn spot_of(r: Reader) -> Spot
    ensures { result ≡ spot_of r }
{
    let count = r.count;
    if count < 2 {
        return Spot::Count;
    }
    let end = 2 + 3 * u64::from(r.n);
    if count < end {
        return Spot::Coordinate(count - 2);
    }
    if count < wanted(r) {
        return tet_spot(count - end);
    }
    Spot::Beyond
}

// ---- a word's fault

fn most(s: Spot, minus: bool) -> u64
    ensures { result ≡ most s minus }
{
    match s {
        Spot::Count => if minus { 0 } else { 4294967295 },
        Spot::Coordinate(_) => if minus { 2147483648 } else { 2147483647 },
        Spot::Label(_) | Spot::Part(_) => if minus { 0 } else { 65535 },
        Spot::Beyond => 0,
    }
}

fn range_fault(s: Spot) -> Fault
    ensures { result ≡ range_fault s }
{
    match s {
        Spot::Count => Fault::CountRange,
        Spot::Coordinate(_) => Fault::CoordinateRange,
        Spot::Label(_) | Spot::Part(_) => Fault::EntryRange,
        Spot::Beyond => Fault::TooMany,
    }
}

#[tactic(auto, unfolding(crate::specs::Steps::word_fault))]
fn word_fault(r: Reader) -> Option<Fault>
    ensures { result ≡ word_fault r }
{
    if wanted(r) <= r.count {
        return Some(Fault::TooMany);
    }
    if r.form != Form::Number {
        return Some(Fault::NoNumber);
    }
    let s = spot_of(r);
    if r.size <= most(s, r.minus) {
        return None;
    }
    Some(range_fault(s))
}

// ---- behind a word, and behind a byte

// A count with the word, if the word is the number k. A number in its place fits.
#[tactic(auto, using(crate::proofs::Faults::right_size))]
fn count_with(r: Reader, k: u64, old: u32) -> u32
    requires { word_fault r ≡ None }
    ensures { result ≡ cond (eqb r.count k) r.size old }
{
    if r.count == k { r.size as u32 } else { old }
}

#[tactic(auto, using(crate::proofs::Faults::right_small), unfolding(crate::specs::Steps::counted))]
fn counted(r: Reader) -> Reader
    requires { word_fault r ≡ None }
    ensures { result ≡ counted r }
{
    Reader {
        form: Form::Empty,
        minus: false,
        size: 0,
        count: r.count + 1,
        n: count_with(r, 0, r.n),
        t: count_with(r, 1, r.t),
        ..r
    }
}

#[tactic(auto, unfolding(crate::specs::Steps::closed, crate::specs::Steps::faulty))]
fn closed(r: Reader) -> Reader
    ensures { result ≡ closed r }
{
    if r.form == Form::Empty {
        return r;
    }
    match word_fault(r) {
        None => counted(r),
        fault => Reader { fault, ..r },
    }
}

#[tactic(auto, unfolding(crate::specs::Steps::line_behind))]
fn line_behind(line: u64, b: u8) -> u64
    ensures { result ≡ line_behind line b }
{
    if b == b'\n' {
        line.saturating_add(1)
    } else {
        line
    }
}

#[tactic(auto, unfolding(crate::specs::Steps::comment_behind))]
fn comment_behind(comment: bool, b: u8) -> bool
    ensures { result ≡ comment_behind comment b }
{
    b != b'\n' && (comment || b == b'#')
}

#[tactic(auto, unfolding(crate::specs::Steps::passed))]
fn passed(r: Reader, b: u8) -> Reader
    ensures { result ≡ passed r b }
{
    Reader {
        line: line_behind(r.line, b),
        comment: comment_behind(r.comment, b),
        ..r
    }
}

#[tactic(auto, unfolding(crate::specs::Steps::next))]
pub fn next(r: Reader, b: u8) -> Reader
    ensures { result ≡ next r b }
{
    if r.fault.is_some() {
        return r;
    }
    if r.comment {
        return if b == b'\n' { passed(r, b) } else { r };
    }
    if !ends_word(b) {
        return grown(r, b);
    }
    let s = closed(r);
    if s.fault.is_none() { passed(s, b) } else { s }
}

#[tactic(auto, unfolding(crate::specs::Steps::ends_number))]
pub fn ends_number(r: Reader, b: u8) -> bool
    ensures { result ≡ ends_number r b }
{
    r.fault.is_none()
        && !r.comment
        && ends_word(b)
        && r.form != Form::Empty
        && word_fault(r).is_none()
}
