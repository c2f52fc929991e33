// The program `visits [--csv|--json|--svg] [--from TIME] IMAGE JOURNAL`: restores the image, replays the journal and
// writes the service record, a row for each visit of a device (man/visits.1). What a visit is, is the crate visit's,
// and its row the crate stays'; here are files and words of the command.
#![tactic(auto)]

mod axis;
mod drawing;
mod effects;
mod journal;
mod legend;
mod picture;
mod rows;

use index::Whole;
use outside::{STDERR, Source};
use rows::{Form, Output};
use shell::Status;
use stays::Style;

// What good options ask: words on how far it is, how the record is written, the time of day at the first tick; the
// place of the first name.
#[derive(Clone, Copy)]
struct Asked {
    progress: bool,
    output: Output,
    clock: Option<u32>,
    at: usize,
}

// The last place at which an option is looked for.
const MOST: usize = 8;

fn usage() {
    io::write_all(
        STDERR,
        b"usage: visits [--csv|--json|--svg] [--from TIME] IMAGE JOURNAL\n",
    );
    shell::tell(Status::Usage);
}

// The clock in a word of the command.
fn clock_at(rt: &HostRuntime, at: usize) -> Option<u32> {
    let mut word = io::buffer();
    let n = outside::word(rt, at, &mut word);
    stays::clock_of(&word[..n])
}

// The clock's option, where it stands at a place.
fn clocked(rt: &HostRuntime, progress: bool, output: Output, at: usize) -> Option<Asked> {
    if !shell::is(rt, at, b"--from") {
        return Some(Asked {
            progress,
            output,
            clock: None,
            at,
        });
    }
    if at > MOST {
        return None;
    }
    let clock = clock_at(rt, at + 1)?;
    Some(Asked {
        progress,
        output,
        clock: Some(clock),
        at: at + 2,
    })
}

// How the record is written, and the options behind.
fn styled(rt: &HostRuntime, progress: bool, at: usize) -> Option<Asked> {
    if at > MOST {
        return None;
    }
    if shell::is(rt, at, b"--csv") {
        return clocked(rt, progress, Output::Rows(Style::Csv), at + 1);
    }
    if shell::is(rt, at, b"--json") {
        return clocked(rt, progress, Output::Rows(Style::Json), at + 1);
    }
    if shell::is(rt, at, b"--svg") {
        return clocked(rt, progress, Output::Picture, at + 1);
    }
    clocked(rt, progress, Output::Rows(Style::Table), at)
}

// The options before the names.
fn options(rt: &HostRuntime) -> Option<Asked> {
    if shell::is(rt, 1, b"--progress") {
        return styled(rt, true, 2);
    }
    styled(rt, false, 1)
}

// An open journal on a restored image.
fn follow_file(rt: &HostRuntime, state: Whole, source: &Source, name: &[u8], a: Asked) {
    let mut block = state.block;
    let form = Form {
        rt: *rt,
        output: a.output,
        clock: a.clock,
    };
    journal::follow_all(form, &mut block, source, name, a.progress);
}

// The journal of a name on a restored image.
fn follow(rt: &HostRuntime, image: &[u8], name: &[u8], a: Asked) {
    if let Some(state) = shell::restore(rt, image) {
        if let Some(source) = shell::open(rt, name) {
            follow_file(rt, state, &source, name, a);
        }
    }
}

fn main(rt: HostRuntime) {
    let Some(a) = options(&rt) else {
        usage();
        return;
    };
    let names = shell::last_two(&rt, a.at);
    if !names.good {
        usage();
        return;
    }
    let image = names.image;
    let n = names.n;
    let journal = names.journal;
    let k = names.k;
    follow(&rt, &image[..n], &journal[..k], a);
}
