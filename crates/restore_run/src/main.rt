// Runs texts through restore and save of whole blocks (document 01, The image; refusal 10; document 02, T-12).
// Standard input holds texts, each with a letter before it and '=' behind it. For each a line is written: 0 where it
// is refused, else a digest of the restored block and of the text that save writes of it. S adds three digests, of
// the answers to every text that is one character of it off, one octet's digits off, and cut at every length; L, for
// the largest image, changes two characters at each place and cuts it. The texts and the answers are made by
// vectors.rs over the independent implementation.
#![tactic(auto)]

ghost use Rattle.std.specs.Prelude.{◌+◌, ◌≤◌, ◌<◌, length};

use index::Whole;

// Kept: not the digest of the crate vectors, since the stored answers are made with this prime.
const PRIME: u64 = 1000003;

fn mix(d: u64, x: u64) -> u64
    ensures { result < 1000003 }
{
    ((d % PRIME) * 31 + x % PRIME + 1) % PRIME
}

fn digest(s: &[u8]) -> u64
    ensures { result < 1000003 }
{
    let mut d = 0;
    for x in s {
        d = mix(d, u64::from(*x));
    }
    d
}

// The digest of what save writes of a block.
fn again(s: &[u8]) -> u64
    ensures { result < 1000003 }
{
    let mut out = [0u8; Whole::IMAGE];
    let n = snapshots::save_image(s, &mut out);
    match out.get(..n) {
        Some(text) => digest(text),
        None => 0,
    }
}

// 0 where a text is refused, else a digest of the block and of its text.
fn answer(text: &[u8]) -> u64 {
    let mut s = [165u8; Whole::SIZE];
    if snapshots::read_image(text, &mut s) {
        return 1 + mix(digest(&s), again(&s));
    }
    0
}

fn digit(d: u8) -> u8 {
    if d < 10 {
        return 48 + d % 16;
    }
    55 + d % 16
}

// The answers to a text with every character at a place.
fn characters_at(text: &mut [u8], p: usize, d: u64) -> u64
    requires { p < length text.old }
{
    let old = text[p];
    let mut e = d;
    for v in 0..=u8::MAX {
        text[p] = v;
        e = mix(e, answer(text));
    }
    text[p] = old;
    e
}

// The answers to a text with the digits of every octet at a place.
fn octets_at(text: &mut [u8], p: usize, d: u64) -> u64
    requires { p + 1 < length text.old }
{
    let high = text[p];
    let low = text[p + 1];
    let mut e = d;
    for v in 0..=u8::MAX {
        text[p] = digit(v / 16);
        text[p + 1] = digit(v % 16);
        e = mix(e, answer(text));
    }
    text[p] = high;
    text[p + 1] = low;
    e
}

// The answers to a text with another digit, and with an LF, at a place.
fn two_at(text: &mut [u8], p: usize, d: u64) -> u64
    requires { p < length text.old }
{
    let old = text[p];
    text[p] = 48 + (old % 8 + 7) % 8;
    let e = mix(d, answer(text));
    text[p] = 10;
    let f = mix(e, answer(text));
    text[p] = old;
    f
}

fn characters(text: &mut [u8]) -> u64 {
    let mut d = 0;
    for p in 0..text.len() {
        d = characters_at(text, p, d);
    }
    d
}

fn octets(text: &mut [u8]) -> u64 {
    let mut d = 0;
    for p in 1..text.len() {
        d = octets_at(text, p - 1, d);
    }
    d
}

fn two(text: &mut [u8]) -> u64 {
    let mut d = 0;
    for p in 0..text.len() {
        d = two_at(text, p, d);
    }
    d
}

fn cuts(text: &[u8]) -> u64 {
    let mut d = 0;
    for n in 0..text.len() {
        d = mix(d, answer(&text[..n]));
    }
    d
}

fn show(n: u64) {
    io::print_decimal(1, n);
    io::write_all(1, b"\n");
}

fn run_small(text: &mut [u8]) {
    show(characters(text));
    show(octets(text));
    show(cuts(text));
}

fn run_large(text: &mut [u8]) {
    show(two(text));
    show(cuts(text));
}

fn run_text(mode: u8, text: &mut [u8]) {
    show(answer(text));
    match mode {
        b'S' => run_small(text),
        b'L' => run_large(text),
        _ => {}
    }
}

// Runs a text with its letter before it and '=' behind it, where it has them.
fn run(piece: &mut [u8]) {
    if let Some((mode, rest)) = piece.split_first_mut() {
        if let Some((end, text)) = rest.split_last_mut() {
            if *end == b'=' {
                run_text(*mode, text);
            }
        }
    }
}

fn main() {
    let mut buffer = io::large_buffer();
    let n = io::read_full(0, &mut buffer);
    for piece in buffer[..n].split_inclusive_mut(|c| *c == b'=') {
        run(piece);
    }
}
