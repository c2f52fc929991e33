// Standard error.
use outside::STDERR;
use texts::Text;

pub(super) fn say(text: &[u8]) {
    io::write_all(STDERR, text);
}

// Says a text.
pub(super) fn say_text(text: Text) {
    say(text.as_slice());
}

// Says a text behind a file's name, where there is one.
pub(super) fn say_of(name: &[u8], text: Text) {
    if text.count == 0 {
        return;
    }
    say(name);
    say_text(text);
}

pub(super) fn usage() {
    say(
        b"usage: standby [--after N] [--numbered] [--progress] IMAGE JOURNAL [ADDITIONS] (one of them may be -)\n",
    );
}
