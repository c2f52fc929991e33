// What the program of the service desk is asked and says: a device's address as people write it, its type, and which
// monitors watch it, in words (document 02, T-02).
#![tactic(auto)]

ghost use Rattle.std.specs.Prelude.{◌+◌, ◌≤◌, ◌≡◌, ◌++◌, ◌∷◌, [], take};
ghost use Rattle.texts.specs.Text.{room, told};
ghost use Rattle.desk.specs.Written.{digit_of, is_pair, is_colon, octet_at, is_address, address_of, type_of};
ghost use Rattle.desk.specs.Says.{word_of, by_text, sentence_of};

use index::Watchers;
use texts::Text;

// Characters of an address: six pairs of digits, five colons.
const LONG: usize = 17;

// Above every hexadecimal digit.
const NONE: u8 = 16;

// The number of a hexadecimal digit in either case; of any other character 16.
fn digit(c: u8) -> u8
    ensures { (result ≡ digit_of c) × (result ≤ 16) }
{
    if c < b'0' {
        return NONE;
    }
    if c <= b'9' {
        return c - b'0';
    }
    if c < b'A' {
        return NONE;
    }
    if c <= b'F' {
        return c - b'A' + 10;
    }
    if c < b'a' {
        return NONE;
    }
    if c <= b'f' {
        return c - b'a' + 10;
    }
    NONE
}

// Whether two digits stand at an index.
fn is_pair(text: &[u8], at: usize) -> bool
    requires { at ≤ 15 }
    ensures { result ≡ is_pair text.now at }
{
    let high = digit(octets::get8(text, at));
    let low = digit(octets::get8(text, at + 1));
    (high < NONE) & (low < NONE)
}

// Whether a colon stands at an index.
fn is_colon(text: &[u8], at: usize) -> bool
    ensures { result ≡ is_colon text.now at }
{
    octets::get8(text, at) == b':'
}

// The octet of the two digits at an index.
fn octet_at(text: &[u8], at: usize) -> u8
    requires { at ≤ 15 }
    ensures { result ≡ octet_at text.now at }
{
    let high = digit(octets::get8(text, at)) as u16;
    let low = digit(octets::get8(text, at + 1)) as u16;
    ((16 * high + low) % 256) as u8
}

// Whether a text is an address: six pairs of digits with colons between them.
fn is_address(text: &[u8]) -> bool
    ensures { result ≡ is_address text.now }
{
    let first = is_pair(text, 0) & is_colon(text, 2) & is_pair(text, 3) & is_colon(text, 5);
    let middle = is_pair(text, 6) & is_colon(text, 8) & is_pair(text, 9) & is_colon(text, 11);
    let last = is_pair(text, 12) & is_colon(text, 14) & is_pair(text, 15);
    (text.len() == LONG) & first & middle & last
}

// The address that a text is, as people write it, the most significant octet first: its octets, the least significant
// first. None of a text that is no address.
pub fn address_of(text: &[u8]) -> Option<[u8; 6]>
    ensures { result ≡ address_of text.now }
{
    if !is_address(text) {
        return None;
    }
    let a = octet_at(text, 15);
    let b = octet_at(text, 12);
    let c = octet_at(text, 9);
    let d = octet_at(text, 6);
    let e = octet_at(text, 3);
    let f = octet_at(text, 0);
    Some([a, b, c, d, e, f])
}

// The address type of a word: 0 public, 1 random, none for any other word.
pub fn type_of(word: &[u8]) -> Option<u8>
    ensures { result ≡ type_of word.now }
{
    if parts::same(word, b"public") {
        return Some(0);
    }
    if parts::same(word, b"random") {
        return Some(1);
    }
    None
}

// So many monitors, behind a text.
fn counted(t: Text, n: u32) -> Text
    ensures { told result ≡ take room (told t ++ word_of n) }
{
    if n == 1 {
        return t.with(b" monitor");
    }
    t.with(b" monitors")
}

// So many monitors, and the lowest of their handles, on a line.
fn by(n: u32, h: u32) -> Text
    ensures { told result ≡ take room (by_text n h) }
{
    let t = Text::blank().said(b"watched by ", n as u64);
    let u = counted(t, n);
    u.said(b", lowest handle ", h as u64).with(b"\n")
}

// Which monitors watch a device, in words on a line.
pub fn sentence(w: Option<Watchers>) -> Text
    ensures { told result ≡ take room (sentence_of w) }
{
    match w {
        Some(x) => by(x.count, x.lowest),
        None => Text::blank().with(b"watched by no monitor\n"),
    }
}
