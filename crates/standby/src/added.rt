// The additions of a file: reads, `additions::feed`, and how they ended.
use crate::files;
use crate::following::Ending;
use additions::Course;
use index::Whole;
use outside::Source;
use refusals::Refusal;
use takeover::{Flow, Next};

// Reads until the file ends or an addition is refused; none where a read failed. Nothing says that an input ends, so
// the reads are counted, up to a number that no run uses up.
fn give_from(
    rt: &HostRuntime,
    block: &mut [u8; Whole::SIZE],
    source: &Source,
    name: &[u8],
) -> Option<Course> {
    let mut line = [0u8; additions::ROOM];
    let mut text = io::buffer();
    let mut course = additions::begin();
    for _ in 0..u64::MAX {
        let n = files::read_some(rt, source, name, &mut text, 0)?;
        course = additions::feed(block, &mut line, course, &text[..n]);
        if n == 0 || course.stop.is_err() {
            return Some(course);
        }
    }
    Some(course)
}

// Gives the additions of a name to a block; none where its file cannot be read, and why is on standard error.
pub(super) fn give_all(
    rt: &HostRuntime,
    block: &mut [u8; Whole::SIZE],
    name: &[u8],
) -> Option<Course> {
    let source = files::open(rt, name)?;
    give_from(rt, block, &source, name)
}

// The end by a refused addition: no line of the journal was read.
pub(super) fn ending(lines: u64, x: Refusal) -> Ending {
    Ending {
        flow: Flow {
            next: Next::Stopped(x),
            held: 0,
            shown: 0,
            lines: 0,
            executed: 0,
        },
        stop: reports::addition(lines, Err(x)),
    }
}
