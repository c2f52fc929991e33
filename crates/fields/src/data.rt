// Advertisement data in words: AD structures by the names of their types.
ghost use Rattle.std.specs.Prelude.{◌+◌, ◌-◌, ◌≤◌, ◌<◌, ◌≡◌, length, drop};
ghost use Rattle.words.specs.Says.{Says};
ghost use Rattle.fields.specs.Data.{size_of, is_whole, is_plain, character_text, characters_text, quoted_text, uuid_size, uuid_in, uuids_text, plain_text, headed_text, company_text, special_text, value_text, structure_text, structures_text};

use crate::terms;
use words::ROOM;

// AD types whose values are not written as octets alone.
const SHORTENED_NAME: u8 = 0x08;

const COMPLETE_NAME: u8 = 0x09;

const TX_POWER: u8 = 0x0A;

const SERVICE_DATA_16: u8 = 0x16;

const SERVICE_DATA_32: u8 = 0x20;

const SERVICE_DATA_128: u8 = 0x21;

const MANUFACTURER: u8 = 0xFF;

// Octets of a company's number.
const COMPANY: usize = 2;

// The first and the last printable character, and two that are not written as they are.
const BLANK: u8 = 32;

const TILDE: u8 = 126;

const QUOTE: u8 = 34;

const BACKSLASH: u8 = 92;

// How many octets the piece has that begins at an index: its length octet and as many octets as that says, where it
// says at least one; else all that are left.
pub(super) fn size(s: &[u8], at: usize) -> usize
    requires { at < length s.now }
    ensures { (result ≡ size_of (drop at s.now)) × (0 < result) × (at + result ≤ length s.now) }
{
    let left = s.len() - at;
    let k = octets::wide(s[at]);
    if k == 0 {
        return left;
    }
    if left <= k {
        return left;
    }
    1 + k
}

// Whether a piece is as long as its length octet says, that being at least so many.
pub(super) fn is_whole(piece: &[u8], least: usize) -> bool
    ensures { result ≡ is_whole piece.now least }
{
    let k = octets::wide(octets::get8(piece, 0));
    if k < least {
        return false;
    }
    piece.len() == 1 + k
}

// Whether a character is written as it is.
fn is_plain(c: u8) -> bool
    ensures { result ≡ is_plain c }
{
    if (c < BLANK) | (TILDE < c) {
        return false;
    }
    (c != QUOTE) & (c != BACKSLASH)
}

// A character of a name: where it is not printable, a backslash and its number.
fn character(out: &mut [u8; ROOM], at: usize, c: u8) -> usize
    ensures { Says out.old at (character_text c) out.new result }
{
    let one = [c];
    if is_plain(c) {
        return words::put(out, at, &one);
    }
    words::number(out, at, b"\\x", &one)
}

// The characters of a name.
fn characters(out: &mut [u8; ROOM], at: usize, s: &[u8]) -> usize
    ensures { Says out.old at (characters_text s.now) out.new result }
{
    let mut end = at;
    for c in s {
        end = character(out, end, *c);
    }
    end
}

// A name in quotes.
fn quoted(out: &mut [u8; ROOM], at: usize, s: &[u8]) -> usize
    ensures { Says out.old at (quoted_text s.now) out.new result }
{
    let a = words::put(out, at, b" \"");
    let b = characters(out, a, s);
    words::put(out, b, b"\"")
}

// How long the UUIDs of a list are, or the one before service data: 0 where an AD type has none.
fn uuid_size(kind: u8) -> usize
    ensures { result ≡ uuid_size kind }
{
    if (kind == 0x02) | (kind == 0x03) | (kind == 0x14) | (kind == 0x16) {
        return 2;
    }
    if (kind == 0x04) | (kind == 0x05) | (kind == 0x1F) | (kind == 0x20) {
        return 4;
    }
    if (kind == 0x06) | (kind == 0x07) | (kind == 0x15) | (kind == 0x21) {
        return 16;
    }
    0
}

// A UUID behind a blank.
fn next_uuid(out: &mut [u8; ROOM], at: usize, s: &[u8]) -> usize
    ensures { Says out.old at (uuid_in s.now) out.new result }
{
    words::uuid(out, at, b" ", s)
}

// UUIDs of k octets each.
fn uuids(out: &mut [u8; ROOM], at: usize, s: &[u8], k: usize) -> usize
    requires { 0 < k }
    ensures { Says out.old at (uuids_text k s.now) out.new result }
{
    let n = s.len();
    let mut end = at;
    let mut i = 0;
    while i < n {
        let e = i + k.min(n - i);
        end = next_uuid(out, end, &s[i..e]);
        i = e;
    }
    end
}

// Octets behind a blank, where there are any.
pub(super) fn plain(out: &mut [u8; ROOM], at: usize, s: &[u8]) -> usize
    ensures { Says out.old at (plain_text s.now) out.new result }
{
    if s.len() == 0 {
        return at;
    }
    words::hex(out, at, b" ", s)
}

// A UUID of k octets, and the octets behind it.
fn headed(out: &mut [u8; ROOM], at: usize, s: &[u8], k: usize) -> usize
    ensures { Says out.old at (headed_text k s.now) out.new result }
{
    if s.len() < k {
        return plain(out, at, s);
    }
    let a = words::uuid(out, at, b" ", words::part(s, 0, k));
    plain(out, a, words::behind(s, k))
}

// The number of a company, and the octets behind it.
fn company(out: &mut [u8; ROOM], at: usize, s: &[u8]) -> usize
    ensures { Says out.old at (company_text s.now) out.new result }
{
    if s.len() < COMPANY {
        return plain(out, at, s);
    }
    let a = words::number(out, at, b" 0x", words::part(s, 0, COMPANY));
    plain(out, a, words::behind(s, COMPANY))
}

// The value of a structure of a type that has a form of its own.
fn special(out: &mut [u8; ROOM], at: usize, kind: u8, s: &[u8]) -> usize
    ensures { Says out.old at (special_text kind s.now) out.new result }
{
    let k = uuid_size(kind);
    if kind == MANUFACTURER {
        return company(out, at, s);
    }
    if (kind == SERVICE_DATA_16) | (kind == SERVICE_DATA_32) | (kind == SERVICE_DATA_128) {
        return headed(out, at, s, k);
    }
    if k == 0 {
        return plain(out, at, s);
    }
    uuids(out, at, s, k)
}

// The value of a structure.
fn value(out: &mut [u8; ROOM], at: usize, kind: u8, s: &[u8]) -> usize
    ensures { Says out.old at (value_text kind s.now) out.new result }
{
    if (kind == SHORTENED_NAME) | (kind == COMPLETE_NAME) {
        return quoted(out, at, s);
    }
    if (kind == TX_POWER) & (s.len() == 1) {
        return words::level(out, at, b" ", s, 0);
    }
    special(out, at, kind, s)
}

// A structure, or octets that are none.
fn structure(out: &mut [u8; ROOM], at: usize, piece: &[u8]) -> usize
    ensures { Says out.old at (structure_text piece.now) out.new result }
{
    let kind = octets::get8(piece, 1);
    if is_whole(piece, 1) {
        let a = words::put(out, at, b", ");
        let b = terms::ad(out, a, kind);
        return value(out, b, kind, words::behind(piece, 2));
    }
    words::hex(out, at, b", no structure ", piece)
}

// The structures of advertisement data.
pub fn structures(out: &mut [u8; ROOM], at: usize, s: &[u8]) -> usize
    ensures { Says out.old at (structures_text s.now) out.new result }
{
    let n = s.len();
    let mut end = at;
    let mut i = 0;
    // Kept: a walk, for a structure says itself how long it is.
    while i < n {
        let e = i + size(s, i);
        end = structure(out, end, &s[i..e]);
        i = e;
    }
    end
}
