// The program `snoop [--from SECONDS] IMAGE JOURNAL`: restores the image, replays the journal and writes a btsnoop
// file of the commands and of the answers' events and reports on standard output, with time from ticks (man/snoop.1).
// What is written is the crate captures'; here are files and words of the command.
#![tactic(auto)]

mod journal;

use index::Whole;
use outside::{STDERR, Source};
use shell::Status;

// What the options ask: words on how far it is, the first tick's time; the place of the first name.
#[derive(Clone, Copy)]
struct Asked {
    progress: bool,
    from: u32,
    at: usize,
}

// The first tick's time where none is given: the beginning of 2000, in seconds since 1970. btmon reads no time before
// it.
const BEGIN_2000: u32 = 946684800;

// The last place at which an option is looked for.
const MOST: usize = 8;

fn usage() {
    io::write_all(
        STDERR,
        b"usage: snoop [--from SECONDS] IMAGE JOURNAL > FILE\n",
    );
    shell::tell(Status::Usage);
}

// The number in a word of the command.
fn number_at(rt: &HostRuntime, at: usize) -> Option<u32> {
    let mut word = io::buffer();
    let n = outside::word(rt, at, &mut word);
    decimals::read(&word[..n])
}

// The first tick's time in the word behind an option.
fn with_from(rt: &HostRuntime, progress: bool, at: usize) -> Option<Asked> {
    if at > MOST {
        return None;
    }
    let from = number_at(rt, at + 1)?;
    Some(Asked {
        progress,
        from,
        at: at + 2,
    })
}

// The options from a place on.
fn options_at(rt: &HostRuntime, progress: bool, at: usize) -> Option<Asked> {
    if shell::is(rt, at, b"--from") {
        return with_from(rt, progress, at);
    }
    Some(Asked {
        progress,
        from: BEGIN_2000,
        at,
    })
}

// The options before the names: none where they are no good ones.
fn options(rt: &HostRuntime) -> Option<Asked> {
    if shell::is(rt, 1, b"--progress") {
        return options_at(rt, true, 2);
    }
    options_at(rt, false, 1)
}

// An open journal on a restored image.
fn follow_file(rt: &HostRuntime, state: Whole, source: &Source, name: &[u8], a: Asked) {
    let head = captures::file_head();
    if !outside::put(rt, &head) {
        shell::tell(Status::Failed);
        return;
    }
    let mut block = state.block;
    journal::write_all(rt, &mut block, source, name, a.from, a.progress);
}

// The journal of a name on a restored image.
fn follow(rt: &HostRuntime, image: &[u8], name: &[u8], a: Asked) {
    if let Some(state) = shell::restore(rt, image) {
        if let Some(source) = shell::open(rt, name) {
            follow_file(rt, state, &source, name, a);
        }
    }
}

// The names behind good options.
fn write_out(rt: &HostRuntime, a: Asked) {
    let names = shell::last_two(rt, a.at);
    if !names.good {
        usage();
        return;
    }
    let image = names.image;
    let n = names.n;
    let journal = names.journal;
    let k = names.k;
    follow(rt, &image[..n], &journal[..k], a);
}

fn main(rt: HostRuntime) {
    match options(&rt) {
        Some(a) => write_out(&rt, a),
        None => usage(),
    }
}
