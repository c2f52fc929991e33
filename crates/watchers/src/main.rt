// The program of the service desk: `watchers IMAGE ADDRESS [TYPE]` restores the image and says how many monitors
// watch the device and the lowest handle, or that there is none (document 02, T-02). The address is as people write
// it, the type `public`, which is taken where none is given, or `random`. A refused image gives the refusal's number.
// What is asked and said is the crate desk's; here are files and arguments.
#![tactic(auto)]

use index::{Watchers, Whole};
use outside::{STDERR, STDOUT};
use refusals::Refusal;
use shell::Status;

fn usage() {
    io::write_all(STDERR, b"usage: watchers IMAGE ADDRESS [public|random]\n");
    shell::tell(Status::Usage);
}

// A refused image: the refusal's number, and the message behind the file's name.
fn refuse(image: &[u8], x: Refusal) {
    let n = u8::from(x);
    io::print_decimal(STDOUT, n as u64);
    io::write_all(STDOUT, b"\n");
    io::write_all(STDERR, image);
    shell::put(STDERR, reports::refused(x));
    shell::tell(Status::Refused);
}

// The exit status of an answer.
fn status_of(w: Option<Watchers>) -> Status {
    match w {
        Some(_) => Status::Through,
        None => Status::Nobody,
    }
}

// Asks the restored state.
fn answer(rt: &HostRuntime, state: Whole, kind: u8, address: [u8; 6]) {
    let block = state.block;
    let w = index::ask(&block, kind, &address);
    if !shell::show(rt, desk::sentence(w)) {
        shell::tell(Status::Failed);
        return;
    }
    shell::tell(status_of(w));
}

// The image that was read, restored and asked.
fn ask(
    rt: &HostRuntime,
    image: &[u8],
    text: [u8; reports::IMAGE_ROOM],
    n: usize,
    kind: u8,
    address: [u8; 6],
) {
    let restored = reports::load(text, n);
    let answered = restored.answer;
    let state = restored.state;
    match answered {
        Ok(()) => answer(rt, state, kind, address),
        Err(x) => refuse(image, x),
    }
}

// The image of a name, `-` for standard input.
fn open(rt: &HostRuntime, image: &[u8], kind: u8, address: [u8; 6]) {
    let mut text = [0u8; reports::IMAGE_ROOM];
    if let Some(n) = shell::read(rt, image, &mut text) {
        ask(rt, image, text, n, kind, address);
    }
}

// The image, the address and the type's number.
fn with_all(rt: &HostRuntime, image: &[u8], word: &[u8], kind: Option<u8>) {
    let Some(octets) = desk::address_of(word) else {
        usage();
        return;
    };
    match kind {
        Some(kind) => open(rt, image, kind, octets),
        None => usage(),
    }
}

// The address read.
fn with_image(rt: &HostRuntime, image: &[u8], kind: Option<u8>) {
    let mut word = io::buffer();
    let k = outside::word(rt, 2, &mut word);
    with_all(rt, image, &word[..k], kind);
}

// The image and the address read.
fn with_type(rt: &HostRuntime, kind: Option<u8>) {
    let mut image = io::buffer();
    match outside::word_of(rt, 1, &mut image, b"the image's name") {
        Some(n) => with_image(rt, &image[..n], kind),
        None => shell::tell(Status::Failed),
    }
}

// The type read.
fn named(rt: &HostRuntime) {
    let mut word = io::buffer();
    let n = outside::word(rt, 3, &mut word);
    with_type(rt, desk::type_of(&word[..n]));
}

fn main(rt: HostRuntime) {
    let words = outside::word_count(&rt);
    if words == 3 {
        with_type(&rt, Some(0));
        return;
    }
    if words == 4 {
        named(&rt);
        return;
    }
    usage();
}
