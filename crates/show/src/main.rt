// The program `show FILE..`: the lines of journals, images and answers in words, a line each, on standard output
// (man/show.1). The words are the crate shown's; here are files and words of the command.
#![tactic(auto)]

mod files;

use outside::STDERR;
use shell::Status;

// The files at most, and options before them.
const MOST: usize = 65536;

fn usage() {
    io::write_all(STDERR, b"usage: show FILE..\n");
    shell::tell(Status::Usage);
}

// Whether a word of the command begins as an option does; a dash alone is standard input.
fn some_option(rt: &HostRuntime, from: usize, count: usize) -> bool {
    if MOST < count {
        return true;
    }
    for i in from..count {
        if shell::is_option(rt, i) {
            return true;
        }
    }
    false
}

// The place of the first name.
fn first(rt: &HostRuntime) -> usize {
    if shell::is(rt, 1, b"--progress") {
        return 2;
    }
    1
}

fn main(rt: HostRuntime) {
    let from = first(&rt);
    let count = outside::word_count(&rt);
    if count <= from {
        usage();
        return;
    }
    if some_option(&rt, from, count) {
        usage();
        return;
    }
    files::show_all(&rt, from, count, from == 2);
}
