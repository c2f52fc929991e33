// Words put into an output, each behind what it has, as far as there is room; the answer is the end then. The pieces
// of a line in words: numbers, levels, addresses, UUIDs, names of numbers.
#![tactic(auto)]

ghost use Rattle.std.specs.Prelude.{◌+◌, ◌-◌, ◌≤◌, ◌<◌, min, ◌≡◌, ◌++◌, length, drop};
ghost use Rattle.decimals.specs.Decimals.{decimal};
ghost use Rattle.lines.specs.Hex.{hex_of};
ghost use Rattle.octets.specs.Numbers.{number_at};
ghost use Rattle.texts.specs.Text.{told};
ghost use Rattle.texts.specs.Words.{pair_of};
ghost use Rattle.words.specs.Says.{Says};
ghost use Rattle.words.specs.Pieces.{part_of, number_text, dbm, sum_text, device_of, device_text, groups_text, uuid_number, name_or};
ghost use Rattle.words.specs.Uuids.{uuid_text};

use texts::Text;

mod tables;
mod uuids;

// More characters than any line in words has.
pub const ROOM: usize = 8192;

// The number that begins the negative ones of 8 octets.
const NEGATIVE: u64 = 9223372036854775808;

// Words, as far as there is room.
pub fn put(out: &mut [u8; ROOM], at: usize, words: &[u8]) -> usize
    ensures { Says out.old at words.now out.new result }
{
    let n = words.len().min(ROOM.saturating_sub(at));
    parts::copy(out, at, &words[..n]);
    at + n
}

// So many octets of a slice from an index on: none where they do not lie within it.
pub fn part(s: &[u8], from: usize, n: usize) -> &[u8]
    ensures { result.now ≡ part_of s.now from n }
{
    let len = s.len();
    if len < from {
        return &s[..0];
    }
    if len - from < n {
        return &s[..0];
    }
    &s[from..from + n]
}

// All octets of a slice from an index on.
pub fn behind(s: &[u8], from: usize) -> &[u8]
    ensures { result.now ≡ drop from s.now }
{
    let len = s.len();
    if len < from {
        return &s[..0];
    }
    &s[from..]
}

// A text.
fn text(out: &mut [u8; ROOM], at: usize, t: Text) -> usize
    ensures { Says out.old at (told t) out.new result }
{
    put(out, at, t.as_slice())
}

// Words and a number behind them.
pub fn said(out: &mut [u8; ROOM], at: usize, words: &[u8], n: u64) -> usize
    ensures { Says out.old at (words.now ++ decimal n) out.new result }
{
    let a = put(out, at, words);
    text(out, a, Text::blank().said(b"", n))
}

// Words and the number of an octet.
pub fn octet(out: &mut [u8; ROOM], at: usize, words: &[u8], s: &[u8], i: usize) -> usize
    ensures { Says out.old at (words.now ++ decimal (number_at 1 s.now i))
        out.new result }
{
    said(out, at, words, octets::get8(s, i) as u64)
}

// Words and the number of 4 octets.
pub fn long(out: &mut [u8; ROOM], at: usize, words: &[u8], s: &[u8], i: usize) -> usize
    ensures { Says out.old at (words.now ++ decimal (number_at 4 s.now i))
        out.new result }
{
    said(out, at, words, octets::get32(s, i) as u64)
}

// An octet as two hexadecimal digits.
fn pair(out: &mut [u8; ROOM], at: usize, x: u8) -> usize
    ensures { Says out.old at (pair_of x) out.new result }
{
    text(out, at, Text::blank().pair(x))
}

// Words and octets in hexadecimal, in their order.
pub fn hex(out: &mut [u8; ROOM], at: usize, words: &[u8], s: &[u8]) -> usize
    ensures { Says out.old at (words.now ++ hex_of s.now) out.new result }
{
    let mut end = put(out, at, words);
    for x in s {
        end = pair(out, end, *x);
    }
    end
}

// Words and a number in hexadecimal whose least significant octet comes first, the most significant first.
pub fn number(out: &mut [u8; ROOM], at: usize, words: &[u8], s: &[u8]) -> usize
    ensures { Says out.old at (words.now ++ number_text s.now) out.new
        result }
{
    let mut end = put(out, at, words);
    for i in (0..s.len()).rev() {
        end = pair(out, end, s[i]);
    }
    end
}

// Words and a level in dBm, two's complement, at an index.
pub fn level(out: &mut [u8; ROOM], at: usize, words: &[u8], s: &[u8], i: usize) -> usize
    ensures { Says out.old at (words.now ++ dbm (number_at 1 s.now i))
        out.new result }
{
    let a = put(out, at, words);
    let x = state::level_of(octets::get8(s, i));
    let b = text(out, a, Text::blank().level(x));
    put(out, b, b" dBm")
}

// Words and a sum of levels, 8 octets, two's complement.
pub fn sum(out: &mut [u8; ROOM], at: usize, words: &[u8], v: u64) -> usize
    ensures { Says out.old at (words.now ++ sum_text v) out.new result }
{
    let a = put(out, at, words);
    if v < NEGATIVE {
        return said(out, a, b"", v);
    }
    said(out, a, b"-", u64::MAX - v + 1)
}

// The device at the start of octets: address type, then 256 times the address.
pub fn device_of(s: &[u8]) -> u64
    ensures { result ≡ device_of s.now }
{
    let low = octets::get32(s, 0) as u64;
    let middle = octets::get16(s, 4) as u64;
    let high = octets::get8(s, 6) as u64;
    low + 4294967296 * middle + 281474976710656 * high
}

// Words, an address type and an address.
pub fn device(out: &mut [u8; ROOM], at: usize, words: &[u8], d: u64) -> usize
    ensures { Says out.old at (words.now ++ device_text d) out.new result }
{
    let a = put(out, at, words);
    let b = text(out, a, Text::blank().kind(d));
    let c = put(out, b, b" ");
    text(out, c, Text::blank().address(d))
}

// A UUID of 16 octets in five groups.
fn groups(out: &mut [u8; ROOM], at: usize, s: &[u8]) -> usize
    ensures { Says out.old at (groups_text s.now) out.new result }
{
    let a = number(out, at, b"", part(s, 12, 4));
    let b = number(out, a, b"-", part(s, 10, 2));
    let c = number(out, b, b"-", part(s, 8, 2));
    let d = number(out, c, b"-", part(s, 6, 2));
    number(out, d, b"-", part(s, 0, 6))
}

// Words and the number of a UUID: 2 or 4 octets as a number, 16 in five groups, any other length as octets.
fn uuid_number(out: &mut [u8; ROOM], at: usize, words: &[u8], s: &[u8]) -> usize
    ensures { Says out.old at (words.now ++ uuid_number s.now) out.new
        result }
{
    let n = s.len();
    let a = put(out, at, words);
    if n == 16 {
        return groups(out, a, s);
    }
    if (n == 2) | (n == 4) {
        return number(out, a, b"0x", s);
    }
    hex(out, a, b"", s)
}

// Words and a UUID: its number, and its name where it has one.
pub fn uuid(out: &mut [u8; ROOM], at: usize, words: &[u8], s: &[u8]) -> usize
    ensures { Says out.old at (words.now ++ uuid_text s.now) out.new result }
{
    let a = uuid_number(out, at, words, s);
    uuids::name(out, a, s)
}

// A number by its name in a table, or other words and the number in hexadecimal.
pub fn name(out: &mut [u8; ROOM], at: usize, table: &[u8], words: &[u8], x: u8) -> usize
    ensures { Says out.old at (name_or table.now words.now x) out.new
        result }
{
    let known = names::find(table, x);
    if known.len() == 0 {
        let a = put(out, at, words);
        return pair(out, a, x);
    }
    put(out, at, known)
}
