// Files and standard output.
ghost use Rattle.std.specs.Prelude.{◌+◌, ◌≤◌, length, IfSome};

use outside::Source;

// Writes to standard output, or says on standard error why it cannot.
pub(super) fn put(rt: &HostRuntime, text: &[u8]) -> bool {
    outside::put(rt, text)
}

// Writes the first n octets of a text.
pub(super) fn put_first(rt: &HostRuntime, text: &[u8], n: usize) -> bool {
    match text.get(..n) {
        Some(part) => put(rt, part),
        None => false,
    }
}

// One read behind the octets that are held: how many octets, none where it failed, and why is on standard error.
pub(super) fn read_some(
    rt: &HostRuntime,
    source: &Source,
    name: &[u8],
    text: &mut [u8],
    held: usize,
) -> Option<usize>
    requires { held ≤ length text.old }
    ensures { IfSome result (λ n. held + n ≤ length text.old) }
{
    match outside::read(rt, source, &mut text[held..]) {
        Ok(n) => Some(n),
        Err(e) => {
            outside::fail(rt, name, e);
            None
        }
    }
}

// Reads until the input ends or the text is full.
// Kept: a fixed buffer with a length beside, since a program's memory is constant.
pub(super) fn read_all(
    rt: &HostRuntime,
    source: &Source,
    name: &[u8],
    text: &mut [u8],
) -> Option<usize>
    ensures { IfSome result (λ n. n ≤ length text.old) }
{
    let mut held = 0;
    while held < text.len() {
        let n = read_some(rt, source, name, text, held)?;
        if n == 0 {
            return Some(held);
        }
        held += n;
    }
    Some(held)
}

// Opens a file for reading only, standard input for `-`; none where it cannot, and the reason is on standard error.
pub(super) fn open(rt: &HostRuntime, name: &[u8]) -> Option<Source> {
    if reports::is_dash(name) {
        return Some(outside::standard_input());
    }
    outside::open(rt, name)
}
