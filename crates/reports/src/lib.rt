// What the program of a standby decides beside replay: what its options ask, what an image's file holds, and what it
// says on standard error (man/standby.1). Octets in, octets out: reading and writing files is the program's.
#![tactic(auto)]

ghost use Rattle.std.specs.Prelude.{◌≡◌, ◌≤◌};
ghost use Rattle.reports.specs.Choices.{Loads};
ghost use Rattle.reports.specs.Options.{plain_asked, option_of, first_name, fits_of, adds_of, is_dash as is_dash_of, names_of, three_of, is_dashed};
ghost use Rattle.texts.specs.Text.{told};
ghost use Rattle.reports.specs.Texts.{stop_of, addition_by, rest_of, refused_of, summary_of, warning_of, progress_of};

use engine::Restored;
use index::Whole;
use refusals::Refusal;
use takeover::{Flow, Next};
use texts::Text;

mod messages;
mod options;

// One octet more than the longest image has: a file that fills it is no image.
pub const IMAGE_ROOM: usize = Whole::IMAGE + 1;

// What the options ask: answers above a number, where one is given, with their numbers or without, with words on how
// far it is; and whether that number is one.
#[derive(Clone, Copy)]
pub struct Asked {
    pub after: u32,
    pub given: bool,
    pub numbered: bool,
    pub progress: bool,
    pub good: bool,
}

// Lines between two words on how far it is.
const EVERY: u64 = 1048576;

// What is said of a takeover that was stopped, behind the journal's name: the line's number and why, and of a gap the
// frame's number that was due and the one that came. Nothing where it was not stopped. The refused line stands at the
// start of the text held.
pub fn stop(flow: Flow, position: u32, text: &[u8]) -> Text
    ensures { told result ≡ stop_of flow position text.now }
{
    let next = flow.next;
    match next {
        Next::Read => Text::blank(),
        Next::Again => Text::blank(),
        Next::Ended => Text::blank(),
        Next::Stopped(x) => messages::stopped(
            flow.lines,
            u8::from(x),
            position,
            messages::found_in(text),
        ),
    }
}

// What is said of additions of which one was refused, behind their file's name: the line's number and why. Nothing
// where none was.
pub fn addition(lines: u64, halt: Result<(), Refusal>) -> Text
    ensures { told result ≡ addition_by halt lines }
{
    match halt {
        Ok(()) => Text::blank(),
        Err(x) => messages::stopped(lines, u8::from(x), 0, 0),
    }
}

// What is said, behind its name, of a file of additions that ends with so many octets without LF.
pub fn rest(held: usize) -> Text
    ensures { told result ≡ rest_of held }
{
    if held == 0 {
        return Text::blank();
    }
    Text::blank().with(b": a last piece without LF not read\n")
}

// What is said of a refused image, behind its name.
pub fn refused(x: Refusal) -> Text
    ensures { told result ≡ refused_of x }
{
    let t = messages::refused(Text::blank(), u8::from(x));
    t.with(b"\n")
}

// What was read and done, on a line.
pub fn summary(flow: Flow, position: u32) -> Text
    ensures { told result ≡ summary_of flow position }
{
    let next = flow.next;
    let counts = messages::counted(flow.lines, flow.executed, position);
    let piece = messages::pieced(counts, next, flow.held);
    piece.with(b"\n")
}

// A warning on a line, where lines were read to the journal's end and none was executed; else nothing.
pub fn warning(flow: Flow) -> Text
    ensures { told result ≡ warning_of flow }
{
    if messages::warns(flow) {
        return Text::blank().with(
            b"standby: warning: lines were read and none was executed: is this the journal that belongs to the image?\n",
        );
    }
    Text::blank()
}

// How far a long journal is read, on a line, where one more of so many lines is passed; else nothing.
pub fn progress(before: u64, after: u64) -> Text
    ensures { told result ≡ progress_of before after }
{
    if before / EVERY < after / EVERY {
        let t = Text::blank().said(b"standby: ", after);
        return t.with(b" lines read so far\n");
    }
    Text::blank()
}

// No option.
pub fn plain() -> Asked
    ensures { result ≡ plain_asked }
{
    Asked {
        after: 0,
        given: false,
        numbered: false,
        progress: false,
        good: true,
    }
}

// What is asked with a further word, where it is an option, and the word behind it, where that is its number.
pub fn option(asked: Asked, word: &[u8], number: &[u8]) -> Asked
    ensures { result ≡ option_of asked word.now number.now }
{
    options::taken(asked, word, number)
}

// The place of the first file name, by the options before it.
pub fn first_name(asked: Asked) -> usize
    ensures { (result ≡ first_name asked) × (result ≤ 5) }
{
    options::first_name(asked)
}

// Whether so many words are good options and two file names, or three.
pub fn fits(asked: Asked, words: usize) -> bool
    ensures { result ≡ fits_of asked words }
{
    let first = options::first_name(asked);
    if asked.good {
        if words < first + 2 {
            return false;
        }
        return words <= first + 3;
    }
    false
}

// Whether a third file name is among so many words: that of the additions.
pub fn adds(asked: Asked, words: usize) -> bool
    ensures { result ≡ adds_of asked words }
{
    words == options::first_name(asked) + 3
}

// Whether a word stands for standard input.
pub fn is_dash(word: &[u8]) -> bool
    ensures { result ≡ is_dash_of word.now }
{
    options::is_dash(word)
}

// Whether a word begins as an option of any program does: with a dash, and more behind it.
pub fn is_dashed(word: &[u8]) -> bool
    ensures { result ≡ is_dashed word.now }
{
    if word.len() < 2 {
        return false;
    }
    octets::get8(word, 0) == b'-'
}

// Whether two words may be the names of an image and a journal.
pub fn are_names(image: &[u8], journal: &[u8]) -> bool
    ensures { result ≡ names_of image.now journal.now }
{
    if options::both_dashes(image, journal) {
        return false;
    }
    !options::is_option(image)
}

// Whether a third word may be the name of the additions' file beside them.
pub fn are_three(image: &[u8], journal: &[u8], additions: &[u8]) -> bool
    ensures { result ≡ three_of image.now journal.now additions.now }
{
    if options::both_dashes(image, additions) {
        return false;
    }
    if options::both_dashes(journal, additions) {
        return false;
    }
    are_names(image, journal)
}

// The state of an image's file, of which so many octets were read: all that it has, or as many as the room takes.
pub fn load(text: [u8; IMAGE_ROOM], count: usize) -> Restored
    ensures { Loads text count result }
{
    let read = text;
    if count < IMAGE_ROOM {
        return engine::load(&read[..count]);
    }
    engine::load(&read)
}
