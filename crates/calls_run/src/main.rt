// Runs scripts through every call (document 01, Refusal numbers, Sessions and failover, Both sides of each edge).
// Standard input is a list of calls. A call is a tag (1 octet), two numbers and the length of its octets (2 each, low
// octet first), then its octets. The first number is a start's opcode, else how many octets are lent as output; the
// second is the size of the pieces that a replay's text is shown in. Tag 0 ends a script: its image is saved, and a
// line is written with a digest of all that was seen of its calls, how many they are, and how many octets they wrote.
// The independent implementation makes the scripts and the lines (reference/README.md, Stored scripts).
#![tactic(auto)]

mod journal;
mod make;
mod seen;
mod step;

use index::Whole;
use seen::Tally;
use step::Step;

// Octets of an image at most, and of the longest output that is lent.
const IMAGE: usize = Whole::IMAGE;

const ROOM: usize = Whole::IMAGE + 30;

// The octets before those that a call gives.
const HEAD: usize = 7;

// What a call's head says: the call, the two numbers, the length of the octets.
#[derive(Clone, Copy)]
struct Head {
    step: Step,
    first: u16,
    second: u16,
    size: u16,
}

// A call that is lent this output; none where a call's octets are not of its form.
fn lending(
    block: &mut [u8; Whole::SIZE],
    head: Head,
    octets: &[u8],
    out: &mut [u8],
    t: Tally,
) -> Option<Tally> {
    let piece = usize::from(head.second);
    match head.step {
        Step::Octets => Some(make::submit(block, octets, out, t)),
        Step::Line => Some(make::submit_line(block, octets, out, t)),
        Step::Save => Some(make::save(block, out, t)),
        Step::WriteLine => Some(make::write_line(octets, out, t)),
        Step::FailOver => Some(make::fail_over(block, out, t)),
        Step::Replay => Some(journal::replay(block, octets, piece, out, t)),
        Step::ReplayTo => journal::replay_to(block, octets, piece, out, t),
        _ => None,
    }
}

// The call of a head and its octets; the head's first number is how much of an output is lent, where a call is lent one.
fn call(
    block: &mut [u8; Whole::SIZE],
    head: Head,
    octets: &[u8],
    out: &mut [u8],
    t: Tally,
) -> Option<Tally> {
    match head.step {
        Step::Start => Some(make::start(block, head.first, octets, t)),
        Step::Restore => Some(make::restore(block, octets, t)),
        Step::Adopt => Some(make::adopt(block, octets, t)),
        Step::Ask => make::ask(block, octets, t),
        Step::Add => make::add(block, octets, t),
        _ => {
            let lent = out.get_mut(..usize::from(head.first))?;
            lending(block, head, octets, lent, t)
        }
    }
}

// The end of a script: its image is saved and its line written, and the next begins with the blank state.
fn finish(block: &mut [u8; Whole::SIZE], out: &mut [u8; ROOM], t: Tally) -> Tally {
    let t = make::save(block, &mut out[..IMAGE], t);
    vectors::show_digest(t.digest, t.calls, t.count);
    let state = Whole::blank();
    let blank = state.block;
    *block = blank;
    seen::begin()
}

// What the octets of a head say; none where its tag is no call's.
fn read_head(head: &[u8; HEAD]) -> Option<Head> {
    let [tag, a, b, c, d, e, f] = *head;
    Some(Head {
        step: Step::try_from(tag).ok()?,
        first: u16::from_le_bytes([a, b]),
        second: u16::from_le_bytes([c, d]),
        size: u16::from_le_bytes([e, f]),
    })
}

// Reads and makes one call, where there is one.
fn next(
    block: &mut [u8; Whole::SIZE],
    text: &mut [u8],
    out: &mut [u8; ROOM],
    t: Tally,
) -> Option<Tally> {
    let mut octets = [0u8; HEAD];
    vectors::fill(&mut octets)?;
    let head = read_head(&octets)?;
    if let Step::End = head.step {
        return Some(finish(block, out, t));
    }
    let given = vectors::fill_part(text, usize::from(head.size))?;
    call(block, head, given, out, t)
}

// Begins with the blank state, lends the buffers, and makes calls until the input ends. A proved loop has to end: it
// counts its turns, up to a number that no run uses up.
fn main() {
    let state = Whole::blank();
    let mut block = state.block;
    let mut text = io::large_buffer();
    let mut out = [0u8; ROOM];
    let mut t = seen::begin();
    for _ in 0..u64::MAX {
        match next(&mut block, &mut text, &mut out, t) {
            Some(after) => t = after,
            None => return,
        }
    }
}
