// Runs sessions through load, replay and save (document 01, A session in full, Both sides of each edge). Standard input
// is a list of sessions: the lengths of an image's text and of a journal's text, six decimal digits each, a blank
// between and LF behind, then the two texts. For each session one line is written: 10 where the image is refused, else
// a digest of all answers' octets and then of the saved image's text, how many octets these are, and the number of the
// refusal that stopped the replay (0: none). sessions.py makes the sessions and the lines, over the independent
// implementation.
#![tactic(auto)]

ghost use Rattle.std.specs.Prelude.{◌<◌};

use index::Whole;
use refusals::Refusal;

// One more octet than the longest image has.
const IMAGE_ROOM: usize = Whole::IMAGE + 1;

// The output of one call of replay: two of the longest answers fit, so that a long session needs several calls.
const ANSWER_ROOM: usize = 6000;

// More calls than any journal here needs, and more sessions than are read.
const TURNS: u64 = 100000;

// This number is in no answer: it says that a call gave more than it was lent.
const BROKEN: u8 = 99;

// What was written so far, where the journal goes on, and how the last call of replay ended.
#[derive(Clone, Copy)]
struct Tally {
    digest: u64,
    count: u64,
    at: usize,
    stop: Result<(), Refusal>,
}

// One call of replay over what is left of the journal; none where it gave more than it was lent.
fn turn(block: &mut [u8; Whole::SIZE], text: &[u8], out: &mut [u8], t: Tally) -> Option<Tally> {
    let rest = text.get(t.at..)?;
    let ran = engine::replay(block, rest, out);
    let written = out.get(..ran.wrote)?;
    let taken = rest.get(..ran.taken)?;
    Some(Tally {
        digest: vectors::digest(t.digest, written),
        count: vectors::add(t.count, written.len() as u64),
        at: t.at + taken.len(),
        stop: ran.stop,
    })
}

// Calls of replay until one comes to the end or is refused: an output that is too short is emptied.
fn replay_turns(block: &mut [u8; Whole::SIZE], text: &[u8], out: &mut [u8]) -> Option<Tally> {
    let mut t = Tally {
        digest: 0,
        count: 0,
        at: 0,
        stop: Ok(()),
    };
    for _ in 0..TURNS {
        t = turn(block, text, out, t)?;
        if !matches!(t.stop, Err(Refusal::Short)) {
            return Some(t);
        }
    }
    Some(t)
}

// The line of a session: what was written, then the saved image's text.
fn show(digest: u64, count: u64, number: u8, image: &[u8]) {
    vectors::show_digest(
        vectors::digest(digest, image),
        vectors::add(count, image.len() as u64),
        u64::from(number),
    );
}

// The same, after a replay.
fn show_tally(t: Option<Tally>, image: &[u8]) {
    match t {
        Some(t) => show(t.digest, t.count, vectors::number_of(t.stop), image),
        None => show(0, 0, BROKEN, image),
    }
}

// Saves the image, and writes the session's line.
fn finish(block: &[u8; Whole::SIZE], t: Option<Tally>) {
    let mut text = [0u8; IMAGE_ROOM];
    match engine::save(block, &mut text) {
        Ok(n) => {
            if let Some(image) = text.get(..n) {
                show_tally(t, image);
            }
        }
        Err(x) => vectors::show_digest(0, 0, u64::from(u8::from(x))),
    }
}

fn follow(state: Whole, journal: &[u8]) {
    let mut block = state.block;
    let mut out = [0u8; ANSWER_ROOM];
    let t = replay_turns(&mut block, journal, &mut out);
    finish(&block, t);
}

fn session(image: &[u8], journal: &[u8]) {
    let restored = engine::load(image);
    match restored.answer {
        Ok(()) => follow(restored.state, journal),
        Err(x) => vectors::show_number(x),
    }
}

// The number that six decimal digits spell.
fn number(s: &[u8]) -> usize
    ensures { result < 1000000 }
{
    let mut n = 0;
    for c in s {
        n = (n % 100000) * 10 + usize::from(c.saturating_sub(b'0') % 10);
    }
    n
}

// Reads and runs one session, where there is one.
fn next(image: &mut [u8], journal: &mut [u8]) -> Option<()> {
    let mut head = [0u8; 14];
    vectors::fill(&mut head)?;
    let a = number(&head[..6]);
    let b = number(&head[7..13]);
    let image = vectors::fill_part(image, a)?;
    let journal = vectors::fill_part(journal, b)?;
    session(image, journal);
    Some(())
}

fn main() {
    let mut image = [0u8; IMAGE_ROOM];
    let mut journal = io::large_buffer();
    for _ in 0..TURNS {
        if next(&mut image, &mut journal).is_none() {
            return;
        }
    }
}
