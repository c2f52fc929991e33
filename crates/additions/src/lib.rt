// Additions of editions of the prefix from a file (document 02, T-12): one a line, in the form of an A4 line. The
// file's octets come in pieces of any size; each character goes behind those of its line, and a whole line is given
// to `engine::add`. The first that is refused stops. Reading the file is the caller's.
#![tactic(auto)]

ghost use Rattle.std.specs.Prelude.{◌+◌, ◌≤◌, ◌≡◌, length};
ghost use Rattle.sessions.specs.Session.{state_after};
ghost use Rattle.engine.specs.Tries.{tried_of};
ghost use Rattle.additions.specs.Additions.{is_addition as is_addition_of, add_octets, add_line, line_most};
ghost use Rattle.additions.specs.Pieces.{begun, course_after, stepped, fed};

use index::Whole;
use refusals::Refusal;

// How the giving of additions stands: the characters held of the line that has no LF yet, the lines accepted, and the
// refusal that stopped it, if one did.
#[derive(Clone, Copy)]
pub struct Course {
    pub held: usize,
    pub lines: u64,
    pub stop: Result<(), Refusal>,
}

// An A4 line's octets: its name, the starting number (4), the prefix length, the prefix.
const NAME: u8 = 0xA4;

const NUMBER_AT: usize = 1;

const LENGTH_AT: usize = NUMBER_AT + 4;

const PREFIX_AT: usize = LENGTH_AT + 1;

// The octets that a line of that form has at most, by its length octet, and its characters with the LF.
const MOST: usize = PREFIX_AT + 255;

pub const LINE: usize = 2 * MOST + 1;

// The room for a line: one character more, so that a longer one stays too long.
pub const ROOM: usize = LINE + 1;

// Whether octets have the form of an A4 line.
fn is_addition(row: &[u8]) -> bool
    ensures { result ≡ is_addition_of row.now }
{
    let n = row.len();
    if n < PREFIX_AT {
        return false;
    }
    if row[0] != NAME {
        return false;
    }
    n == PREFIX_AT + octets::wide(row[LENGTH_AT])
}

// The addition of a line's octets.
fn give_octets(s: &mut [u8; Whole::SIZE], row: &[u8]) -> Result<(), Refusal>
    ensures { (result ≡ tried_of (add_octets s.old row.now))
        × (s.new ≡ state_after s.old (add_octets s.old row.now)) }
{
    if !is_addition(row) {
        return Err(Refusal::NotLine);
    }
    let number = octets::get32(row, NUMBER_AT);
    engine::add(s, number, &row[PREFIX_AT..])
}

// The addition of one line: refusal 4 where it is not in the form of an A4 line, then those of adding, 7, 15, 14, 13;
// they leave the block as it came.
pub fn give(s: &mut [u8; Whole::SIZE], line: &[u8]) -> Result<(), Refusal>
    ensures { (result ≡ tried_of (add_line s.old line.now))
        × (s.new ≡ state_after s.old (add_line s.old line.now)) }
{
    let mut row = [0u8; MOST];
    let n = reader::take_text(line, &mut row)?;
    give_octets(s, &row[..n])
}

// Nothing is read yet.
pub fn begin() -> Course
    ensures { result ≡ begun }
{
    Course {
        held: 0,
        lines: 0,
        stop: Ok(()),
    }
}

// How it stands after a line, by what that answered.
fn after(lines: u64, r: Result<(), Refusal>) -> Course
    ensures { result ≡ course_after lines r }
{
    match r {
        Ok(()) => Course {
            held: 0,
            lines: lines.saturating_add(1),
            stop: r,
        },
        Err(_) => Course {
            held: 0,
            lines,
            stop: r,
        },
    }
}

// One character more: an LF ends its line, which is given; any other is held.
fn step(s: &mut [u8; Whole::SIZE], line: &mut [u8], course: Course, c: u8) -> Course
    requires { length line.old ≡ line_most + 1 }
    ensures { record { state = s.new; line = line.new; course = result }
        ≡ stepped (record { state = s.old; line = line.old; course = course }) c }
{
    if course.stop.is_err() {
        return course;
    }
    let held = course.held.min(LINE);
    line[held] = c;
    let end = held + 1;
    if c == lines::LF {
        return after(course.lines, give(s, &line[..end]));
    }
    Course {
        held: end.min(LINE),
        ..course
    }
}

// So many characters more of the file: the lines that end among them are given, in order, until one is refused.
pub fn feed(s: &mut [u8; Whole::SIZE], line: &mut [u8; ROOM], course: Course, text: &[u8]) -> Course
    ensures { record { state = s.new; line = line.new; course = result }
        ≡ fed (record { state = s.old; line = line.old; course = course }) text.now }
{
    let mut now = course;
    for &c in text {
        now = step(s, line, now, c);
    }
    now
}
